//! Whether modules that stay notice that others are replaced.
#![tactic(auto, using(crate::proofs::ChangeLemmas::any_found, crate::proofs::ChangeLemmas::any_next, crate::proofs::ChangeLemmas::any_none))]

ghost use Rattle.std.specs.Prelude.{◌≡◌, map, IfOk};
ghost use Rattle.std.specs.List.{list_any};
ghost use Rattle.strategy_check.specs.inside.Changing as changing;
ghost use Rattle.strategy_check.specs.inside.Changing.{defines_key, mentions_key, mentions_constructor, is_again, is_clash, is_missed, is_missed_constructor, number_in, numbers_in};

use crate::key::DefinitionKey;
use crate::named::NamedModule;
use crate::table::Table;
use std::alloc::Global;
use strategy_syntax::{Constructor, Placed};
use term_core::NoMemory;

/// Whether the new modules define what a module defines that isn't among the old ones.
pub fn defines_again(before: &Table, old: &[NamedModule], new: &[NamedModule]) -> bool
    ensures { result ≡ changing.defines_again before.now old.now new.now }
{
    for named in new {
        if any_again(before, old, named.defines().definitions.as_slice()) {
            return true;
        }
    }
    false
}

fn any_again(before: &Table, old: &[NamedModule], keys: &[DefinitionKey]) -> bool
    ensures { result ≡ list_any (is_again before.now old.now) keys.now }
{
    for key in keys {
        if before.definitions.contains(key) && !is_defined_by(old, key) {
            return true;
        }
    }
    false
}

fn is_defined_by(modules: &[NamedModule], key: &DefinitionKey) -> bool
    ensures { result ≡ list_any (defines_key key.now) modules.now }
{
    for named in modules {
        if named.defines().definitions.contains(key) {
            return true;
        }
    }
    false
}

/// Whether a definition without term parameters has the name of a constructor of the new modules.
pub fn has_clash(after: &Table, new: &[NamedModule]) -> Result<bool, NoMemory>
    ensures { IfOk result (λ found. found ≡ changing.has_clash after.now new.now) }
{
    for named in new {
        if any_clash(after, named.module().constructors())? {
            return Ok(true);
        }
    }
    Ok(false)
}

fn any_clash(after: &Table, constructors: &[Placed<Constructor>]) -> Result<bool, NoMemory>
    ensures { IfOk result (λ found. found ≡ list_any (is_clash after.now) constructors.now) }
{
    for constructor in constructors {
        let declared = constructor.item();
        if after
            .definition(declared.name(), declared.arity(), 0)?
            .is_some()
        {
            return Ok(true);
        }
    }
    Ok(false)
}

/// Whether the modules `kept` mention a definition of the modules `of` that isn't in the table.
pub fn misses_definition(table: &Table, kept: &[NamedModule], of: &[NamedModule]) -> bool
    ensures { result ≡ changing.misses_definition table.now kept.now of.now }
{
    for named in of {
        if any_missed(table, kept, named.defines().definitions.as_slice()) {
            return true;
        }
    }
    false
}

fn any_missed(table: &Table, kept: &[NamedModule], keys: &[DefinitionKey]) -> bool
    ensures { result ≡ list_any (is_missed table.now kept.now) keys.now }
{
    for key in keys {
        if !table.definitions.contains(key) && is_mentioned(kept, key) {
            return true;
        }
    }
    false
}

fn is_mentioned(modules: &[NamedModule], key: &DefinitionKey) -> bool
    ensures { result ≡ list_any (mentions_key key.now) modules.now }
{
    for named in modules {
        if named.mentions().definitions.contains(key) {
            return true;
        }
    }
    false
}

/// Whether the modules `kept` mention a constructor of the modules `of` that isn't in the table.
pub fn misses_constructor(table: &Table, kept: &[NamedModule], of: &[NamedModule]) -> bool
    ensures { result ≡ changing.misses_constructor table.now kept.now of.now }
{
    for named in of {
        if any_constructor_missed(table, kept, named.defines().constructors.as_slice()) {
            return true;
        }
    }
    false
}

fn any_constructor_missed(table: &Table, kept: &[NamedModule], constructors: &[Constructor]) -> bool
    ensures { result ≡ list_any (is_missed_constructor table.now kept.now) constructors.now }
{
    for constructor in constructors {
        if !table.constructors.contains(constructor)
            && is_constructor_mentioned(kept, constructor)
        {
            return true;
        }
    }
    false
}

fn is_constructor_mentioned(modules: &[NamedModule], constructor: &Constructor) -> bool
    ensures { result ≡ list_any (mentions_constructor constructor.now) modules.now }
{
    for named in modules {
        if named.mentions().constructors.contains(constructor) {
            return true;
        }
    }
    false
}

/// For each definition of the table `before`, its number in the table `after`, or 0 if it has none
/// there.
pub fn new_numbers(alloc: Global, before: &Table, after: &Table) -> Result<Vec<usize>, NoMemory>
    ensures { IfOk result (λ numbers. numbers.items ≡ numbers_in before.now after.now) }
{
    numbers_of(alloc, before.definitions.as_slice(), after)
}

fn numbers_of(alloc: Global, keys: &[DefinitionKey], after: &Table) -> Result<Vec<usize>, NoMemory>
    ensures { IfOk result (λ numbers. numbers.items ≡ map (number_in after.now) keys.now) }
{
    let mut numbers = Vec::with_capacity(alloc, keys.len())?;
    for key in keys {
        numbers.push(number_of(key, after))?;
    }
    Ok(numbers)
}

fn number_of(key: &DefinitionKey, after: &Table) -> usize
    ensures { result ≡ number_in after.now key.now }
{
    after.definitions.get_index_of(key).unwrap_or(0)
}
