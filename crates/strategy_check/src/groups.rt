//! The bodies of definitions, joined.
#![tactic(auto, using(crate::proofs::ListLemmas::binder_rules))]

ghost use Rattle.std.specs.Prelude.{◌≡◌, ◌+◌, ◌∷◌, ◌++◌, [], length, map, replicate, IfOk, OnOk};
ghost use Rattle.strategy_check.specs.Tables.{definitions_of};
ghost use Rattle.strategy_check.specs.Resolving.{resolved_strategy};
ghost use Rattle.strategy_check.specs.Programs.{free_of, scope_of, variable_count, term_count, resolved_bodies, joined, joined_definition, groups};
ghost use Rattle.strategy_check.specs.inside.Grouping.{with_definition, with_definitions};

use crate::bodies::resolve_strategy;
use crate::named::NamedModule;
use crate::scope::Scope;
use crate::table::Table;
use prim_core::{Meaning, Primitives};
use std::alloc::Global;
use std::marker::Model;
use strategy_names::{Binders, free_variables};
use strategy_syntax::{Definition, Resolved, ResolvedForm, ResolvedStrategy};
use term_core::NoMemory;

/// Definitions with one key, in the order of the texts.
#[derive(Drop)]
pub struct DefinitionGroup<'a> {
    definitions: Vec<&'a Definition>,
    // The number of their text. Contracts don't see it.
    text: u32,
}

impl<'a> Model for DefinitionGroup<'a> {
    ghost use Rattle.std.specs.Prelude.{List, map};
    ghost use Rattle.std.specs.Coded.{coded_list};
    ghost use Rattle.strategy_syntax.specs.Modules.{Definition};
    ghost use Rattle.strategy_syntax.specs.inside.ModuleCodes.{definition_code};

    ghost Value = { List Definition };

    ghost coded = { coded_list definition_code };

    ghost view = { λ g. map (λ d. d.now) g.definitions.items };
}

impl<'a> DefinitionGroup<'a> {
    fn new(alloc: Global) -> DefinitionGroup<'a>
        ensures { result ≡ [] }
    {
        DefinitionGroup {
            definitions: Vec::new(alloc),
            text: 0,
        }
    }

    // Adds a definition of the text of this number. Modules without a fault don't share a key.
    fn push(&mut self, definition: &'a Definition, text: u32) -> Result<(), NoMemory>
        ensures { OnOk result (self.new ≡ self.old ++ definition.now ∷ []) }
    {
        self.text = text;
        self.definitions.push(definition)?;
        Ok(())
    }
}

/// The definitions with each key, in the order of the texts.
pub fn group_definitions<'a>(
    alloc: Global,
    table: &Table,
    modules: &'a [NamedModule],
) -> Result<Vec<DefinitionGroup<'a>>, NoMemory>
    ensures { IfOk result (λ found. found.items ≡ groups table.now (definitions_of modules.now)) }
{
    let mut groups = empty_groups(alloc, table.definitions.len())?;
    for named in modules {
        add_to_groups(
            table,
            &mut groups,
            named.module().definitions(),
            named.text(),
        )?;
    }
    Ok(groups)
}

fn empty_groups<'a>(alloc: Global, count: usize) -> Result<Vec<DefinitionGroup<'a>>, NoMemory>
    ensures { IfOk result (λ made. made.items ≡ replicate count []) }
{
    let mut groups = Vec::with_capacity(alloc, count)?;
    for _ in 0..count {
        groups.push(DefinitionGroup::new(alloc))?;
    }
    Ok(groups)
}

fn add_to_groups<'a>(
    table: &Table,
    groups: &mut Vec<DefinitionGroup<'a>>,
    definitions: &'a [Definition],
    text: u32,
) -> Result<(), NoMemory>
    ensures { OnOk result (groups.new.items
        ≡ with_definitions table.now groups.old.items definitions.now) }
{
    for definition in definitions {
        add_to_group(table, groups, definition, text)?;
    }
    Ok(())
}

fn add_to_group<'a>(
    table: &Table,
    groups: &mut Vec<DefinitionGroup<'a>>,
    definition: &'a Definition,
    text: u32,
) -> Result<(), NoMemory>
    ensures { OnOk result (groups.new.items
        ≡ with_definition table.now groups.old.items definition.now) }
{
    let strategies = definition.strategy_parameters().len();
    let terms = definition.term_parameters().len();
    let Some(number) = table.definition(definition.name(), strategies, terms)? else {
        return Ok(());
    };
    match groups.get_mut(number) {
        Some(group) => group.push(definition, text),
        None => Ok(()),
    }
}

/// Each group as one definition.
pub fn join_groups<M: Meaning>(
    alloc: Global,
    table: &Table,
    primitives: &Primitives<M>,
    groups: &[DefinitionGroup<'_>],
) -> Result<Vec<Resolved>, NoMemory>
    ensures { IfOk result (λ bodies. bodies.items
        ≡ map (joined_definition table.now primitives.now) groups.now) }
{
    let mut bodies = Vec::with_capacity(alloc, groups.len())?;
    for group in groups {
        bodies.push(join_group(alloc, table, primitives, group)?)?;
    }
    Ok(bodies)
}

fn join_group<M: Meaning>(
    alloc: Global,
    table: &Table,
    primitives: &Primitives<M>,
    group: &DefinitionGroup<'_>,
) -> Result<Resolved, NoMemory>
    ensures { IfOk result (λ resolved. resolved
        ≡ joined_definition table.now primitives.now group.now) }
{
    let terms = count_terms(group);
    let variables = count_variables(alloc, group)?;
    let count = terms.checked_add(variables).ok_or(NoMemory)?;
    let bodies = resolve_bodies(alloc, table, primitives, terms, count, group)?;
    let strategy = join(alloc, bodies)?;
    Ok(Resolved {
        variables,
        strategy,
    })
}

// The number of terms that the definitions take.
fn count_terms(group: &DefinitionGroup<'_>) -> usize
    ensures { result ≡ term_count group.now }
{
    match group.definitions.first() {
        Some(definition) => definition.term_parameters().len(),
        None => 0,
    }
}

// The number of free variables of the bodies.
fn count_variables(alloc: Global, group: &DefinitionGroup<'_>) -> Result<usize, NoMemory>
    ensures { IfOk result (λ count. count ≡ variable_count group.now) }
{
    let mut count: usize = 0;
    for definition in &group.definitions {
        let free = count_free(alloc, definition)?;
        count = count.checked_add(free).ok_or(NoMemory)?;
    }
    Ok(count)
}

fn count_free(alloc: Global, definition: &Definition) -> Result<usize, NoMemory>
    ensures { IfOk result (λ count. count ≡ length (free_of definition.now)) }
{
    let free = free_variables(alloc, definition.term_parameters(), 0, definition.body())?;
    Ok(free.len())
}

// Resolves each body. Its free variables are numbered after those of the earlier bodies, from
// `first` on, and the variables inside from `count` on.
fn resolve_bodies<M: Meaning>(
    alloc: Global,
    table: &Table,
    primitives: &Primitives<M>,
    first: usize,
    count: usize,
    group: &DefinitionGroup<'_>,
) -> Result<Vec<ResolvedStrategy>, NoMemory>
    ensures { IfOk result (λ bodies. bodies.items
        ≡ resolved_bodies table.now primitives.now first count group.now) }
{
    let mut bodies = Vec::with_capacity(alloc, group.definitions.len())?;
    let mut next = first;
    for definition in &group.definitions {
        let (body, free) = resolve_body(
            alloc, table, primitives, next, count, definition, group.text,
        )?;
        bodies.push(body)?;
        next = next.checked_add(free).ok_or(NoMemory)?;
    }
    Ok(bodies)
}

// Resolves one body, and returns the number of its free variables.
fn resolve_body<M: Meaning>(
    alloc: Global,
    table: &Table,
    primitives: &Primitives<M>,
    first: usize,
    count: usize,
    definition: &Definition,
    text: u32,
) -> Result<(ResolvedStrategy, usize), NoMemory>
    ensures { IfOk result (λ made. made ≡ (
      resolved_strategy table.now primitives.now
          (scope_of first count definition.now) definition.now.body,
      length (free_of definition.now),
    )) }
{
    let (scope, free) = scope_of(alloc, first, count, definition)?;
    let mut scope = scope.in_text(text);
    let body = resolve_strategy(alloc, table, primitives, &mut scope, definition.body())?;
    Ok((body, free))
}

// The scope of a body, and the number of its free variables.
fn scope_of(
    alloc: Global,
    first: usize,
    count: usize,
    definition: &Definition,
) -> Result<(Scope, usize), NoMemory>
    ensures { IfOk result (λ made. made
        ≡ (scope_of first count definition.now, length (free_of definition.now))) }
{
    let parameters = definition.term_parameters();
    let mut variables = free_variables(alloc, parameters, first, definition.body())?;
    let free = variables.len();
    variables.open_all(parameters, 0)?;
    let mut names = Binders::new(alloc);
    names.open_all(definition.strategy_parameters(), 0)?;
    Ok((Scope::new(variables, count, names), free))
}

// The bodies as one strategy, which tries them in this order.
fn join(alloc: Global, bodies: Vec<ResolvedStrategy>) -> Result<ResolvedStrategy, NoMemory>
    ensures { IfOk result (λ strategy. strategy ≡ joined bodies.items) }
{
    let mut bodies = bodies;
    let Some(mut whole) = bodies.pop() else {
        return Ok(ResolvedStrategy::new(ResolvedForm::Fail));
    };
    while let Some(body) = bodies.pop() {
        let id = ResolvedStrategy::new(ResolvedForm::Id);
        let parts = Box::new(alloc, (body, id, whole))?;
        whole = ResolvedStrategy::new(ResolvedForm::Guard(parts)).indexed(alloc)?;
    }
    Ok(whole)
}
