//! The free variables of a strategy.
#![tactic(auto, using(crate::proofs::FreeLemmas::free_rules))]

ghost use Rattle.std.specs.Prelude.{◌≡◌, ◌++◌, [], IfOk, OnOk};
ghost use Rattle.strategy_syntax.specs.Lists.{first_ones};
ghost use Rattle.strategy_syntax.specs.Syntax.{patterns_of, strategies_of};
ghost use Rattle.strategy_names.specs.Binders.{bound_from};
ghost use Rattle.strategy_names.specs.Free.{free, free_variables};
ghost use Rattle.strategy_syntax.specs.Variables.{variables};
ghost use Rattle.strategy_names.specs.inside.Met.{met, met_in_pattern, met_in_patterns, met_in_strategy, met_in_strategies};
ghost use Rattle.term_core.specs.Tree.{same_name};

use crate::binders::Binders;
use std::alloc::Global;
use strategy_syntax::{Pattern, PatternForm, Strategy, StrategyForm};
use term_core::{Name, NoMemory};

/// The free variables of a strategy, each once, in the order of their first occurrence, without the
/// parameters. They are numbered from `first` on.
pub fn free_variables(
    alloc: Global,
    parameters: &[Name],
    first: usize,
    strategy: &Strategy,
) -> Result<Binders, NoMemory>
    ensures { IfOk result (λ found. found
        ≡ bound_from first (free_variables parameters.now strategy.now) []) }
{
    let mut hidden = binders_of(alloc, parameters)?;
    let mut found = Binders::new(alloc);
    meet_in_strategy(&mut hidden, &mut found, first, strategy)?;
    Ok(found)
}

/// The names of the free variables of a strategy, each once, in the order of their first
/// occurrence, without the parameters.
pub fn free_names(
    alloc: Global,
    parameters: &[Name],
    strategy: &Strategy,
) -> Result<Vec<Name>, NoMemory>
    ensures { IfOk result (λ names. names.items ≡ free_variables parameters.now strategy.now) }
{
    let found = free_variables(alloc, parameters, 0, strategy)?;
    let names = found.names()?;
    Ok(names)
}

/// The names of the variables of a rule, each once, without the parameters: first those of its left
/// side, then those of its right side, then those that are free in its condition.
pub fn rule_names(
    alloc: Global,
    parameters: &[Name],
    left: &Pattern,
    right: &Pattern,
    condition: &Strategy,
) -> Result<Vec<Name>, NoMemory>
    ensures { IfOk result (λ names. names.items ≡ first_ones same_name parameters.now
        (variables left.now ++ (variables right.now ++ free condition.now))) }
{
    let mut hidden = binders_of(alloc, parameters)?;
    let mut found = Binders::new(alloc);
    meet_in_pattern(&hidden, &mut found, 0, left)?;
    meet_in_pattern(&hidden, &mut found, 0, right)?;
    meet_in_strategy(&mut hidden, &mut found, 0, condition)?;
    let names = found.names()?;
    Ok(names)
}

fn binders_of(alloc: Global, parameters: &[Name]) -> Result<Binders, NoMemory>
    ensures { IfOk result (λ hidden. hidden ≡ bound_from 0 parameters.now []) }
{
    let mut hidden = Binders::new(alloc);
    hidden.open_all(parameters, 0)?;
    Ok(hidden)
}

// Adds the variables that are free in a strategy and not hidden to those found.
#[cycle(strategy)]
fn meet_in_strategy(
    hidden: &mut Binders,
    found: &mut Binders,
    first: usize,
    strategy: &Strategy,
) -> Result<(), NoMemory>
    ensures found { OnOk result (found.new
        ≡ met_in_strategy hidden.old first found.old strategy.now) }
    ensures hidden { OnOk result (hidden.new ≡ hidden.old) }
{
    match strategy.form() {
        StrategyForm::Id | StrategyForm::Fail => Ok(()),
        StrategyForm::Match(pattern) | StrategyForm::Build(pattern) => {
            meet_in_pattern(hidden, found, first, pattern)
        }
        StrategyForm::Seq(parts) => {
            meet_in_strategy(hidden, found, first, &parts.0)?;
            meet_in_strategy(hidden, found, first, &parts.1)
        }
        StrategyForm::Guard(parts) => {
            meet_in_strategy(hidden, found, first, &parts.0)?;
            meet_in_strategy(hidden, found, first, &parts.1)?;
            meet_in_strategy(hidden, found, first, &parts.2)
        }
        StrategyForm::Scope(variables, part) => {
            hidden.open_all(variables, 0)?;
            meet_in_strategy(hidden, found, first, part)?;
            hidden.close_all(variables.len())
        }
        StrategyForm::Use(_, parts, terms) => {
            meet_in_strategies(hidden, found, first, parts)?;
            meet_in_patterns(hidden, found, first, terms)
        }
        StrategyForm::Congruence(_, parts) => meet_in_strategies(hidden, found, first, parts),
        StrategyForm::TailCongruence(parts, tail) => {
            meet_in_strategies(hidden, found, first, parts)?;
            meet_in_strategy(hidden, found, first, tail)
        }
        StrategyForm::Test(part)
        | StrategyForm::All(part)
        | StrategyForm::One(part)
        | StrategyForm::Some(part)
        | StrategyForm::Child(_, part)
        | StrategyForm::Rec(_, part) => meet_in_strategy(hidden, found, first, part),
        StrategyForm::Prim(_, terms) => meet_in_patterns(hidden, found, first, terms),
    }
}

#[cycle(strategy)]
fn meet_in_strategies(
    hidden: &mut Binders,
    found: &mut Binders,
    first: usize,
    strategies: &[Strategy],
) -> Result<(), NoMemory>
    ensures found { OnOk result (found.new
        ≡ met_in_strategies hidden.old first found.old (strategies_of strategies.now)) }
    ensures hidden { OnOk result (hidden.new ≡ hidden.old) }
{
    for strategy in strategies {
        meet_in_strategy(hidden, found, first, strategy)?;
    }
    Ok(())
}

#[cycle(pattern)]
fn meet_in_pattern(
    hidden: &Binders,
    found: &mut Binders,
    first: usize,
    pattern: &Pattern,
) -> Result<(), NoMemory>
    ensures { OnOk result (found.new ≡ met_in_pattern hidden.now first found.old pattern.now) }
{
    match pattern.form() {
        PatternForm::Wildcard | PatternForm::Integer(_) => Ok(()),
        PatternForm::Variable(name) => meet(hidden, found, first, name),
        PatternForm::At(name, inner) => {
            meet(hidden, found, first, name)?;
            meet_in_pattern(hidden, found, first, inner)
        }
        PatternForm::Compound(_, patterns) => meet_in_patterns(hidden, found, first, patterns),
        PatternForm::WithTail(patterns, tail) => {
            meet_in_patterns(hidden, found, first, patterns)?;
            meet_in_pattern(hidden, found, first, tail)
        }
        PatternForm::Annotated(base, annotations) => {
            meet_in_pattern(hidden, found, first, base)?;
            meet_in_patterns(hidden, found, first, annotations)
        }
    }
}

#[cycle(pattern)]
fn meet_in_patterns(
    hidden: &Binders,
    found: &mut Binders,
    first: usize,
    patterns: &[Pattern],
) -> Result<(), NoMemory>
    ensures { OnOk result (found.new
        ≡ met_in_patterns hidden.now first found.old (patterns_of patterns.now)) }
{
    for pattern in patterns {
        meet_in_pattern(hidden, found, first, pattern)?;
    }
    Ok(())
}

// Adds this name to those found, unless it is hidden or was found before.
fn meet(hidden: &Binders, found: &mut Binders, first: usize, name: &Name) -> Result<(), NoMemory>
    ensures { OnOk result (found.new ≡ met hidden.now first found.old name.now) }
{
    if hidden.number(name).is_some() || found.number(name).is_some() {
        return Ok(());
    }
    let number = first.checked_add(found.len()).ok_or(NoMemory)?;
    found.open(name, number)
}
