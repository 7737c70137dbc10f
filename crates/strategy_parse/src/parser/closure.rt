//! The variables of a closure.
#![tactic(auto, using(crate::proofs::VariableLemmas::variable_rules))]

ghost use Rattle.std.specs.Prelude.{◌≡◌, ◌++◌, [], IfOk};
ghost use Rattle.strategy_syntax.specs.Variables.{variables, variables_of_all};
ghost use Rattle.strategy_syntax.specs.Lists.{first_ones};
ghost use Rattle.strategy_syntax.specs.Syntax.{patterns_of};
ghost use Rattle.term_core.specs.Tree.{same_name};

use crate::parser::lists::ItemList;
use crate::parser::names::first_ones;
use std::alloc::Global;
use strategy_syntax::{Pattern, PatternForm};
use term_core::{Name, NoMemory};

/// The variables of a pattern, each once, in the order of their first occurrence.
pub fn scope_of(alloc: Global, left: &Pattern) -> Result<ItemList<Name>, NoMemory>
    ensures { IfOk result (λ names. names ≡ first_ones same_name [] (variables left.now)) }
{
    let names = add_variables(left, ItemList::new(alloc))?;
    let kept = first_ones(alloc, names.as_slice(), &[])?;
    Ok(kept)
}

// The names followed by the variables of the pattern.
#[cycle(variables)]
fn add_variables(pattern: &Pattern, names: ItemList<Name>) -> Result<ItemList<Name>, NoMemory>
    ensures { IfOk result (λ more. more ≡ names ++ variables pattern.now) }
{
    match pattern.form() {
        PatternForm::Wildcard => Ok(names),
        PatternForm::Integer(_) => Ok(names),
        PatternForm::Variable(name) => names.with(name.try_clone()?),
        PatternForm::At(name, inner) => {
            let names = names.with(name.try_clone()?)?;
            add_variables(inner, names)
        }
        PatternForm::Compound(_, patterns) => add_all(patterns, names),
        PatternForm::WithTail(patterns, tail) => {
            let names = add_all(patterns, names)?;
            add_variables(tail, names)
        }
        PatternForm::Annotated(base, annotations) => {
            let names = add_variables(base, names)?;
            add_all(annotations, names)
        }
    }
}

#[cycle(variables)]
fn add_all(patterns: &[Pattern], names: ItemList<Name>) -> Result<ItemList<Name>, NoMemory>
    ensures { IfOk result (λ more. more ≡ names ++ variables_of_all (patterns_of patterns.now)) }
{
    let mut more = names;
    for pattern in patterns {
        more = add_variables(pattern, more)?;
    }
    Ok(more)
}
