//! The faults in a strategy.
#![tactic(auto, using(crate::proofs::FaultLemmas::added))]

ghost use Rattle.std.specs.Prelude.{◌≡◌, [], not, take, IfErr, IfOk, OnOk};
ghost use Rattle.strategy_syntax.specs.Syntax.{strategies_of};
ghost use Rattle.strategy_check.specs.Faults.{IsTold, fault_if, first, is_primitive, name_faults, strategy_faults, faults_of_strategies};
ghost use Rattle.strategy_check.specs.inside.FaultLists.{with_faults};

use crate::binders::Binding;
use crate::headers::check_names;
use crate::list::FaultList;
use crate::patterns::{PatternUse, check_pattern, check_patterns};
use crate::table::Table;
use crate::{CheckFault, FaultKind};
use prim_core::{Meaning, Primitives};
use std::alloc::Global;
use strategy_names::Binders;
use strategy_syntax::{Place, Strategy, StrategyForm};
use term_core::{Name, NoMemory};

/// Adds the faults of a strategy, with these strategy names in scope.
#[cycle(strategy)]
pub fn check_strategy<M: Meaning>(
    alloc: Global,
    table: &Table,
    primitives: &Primitives<M>,
    names: &mut Binders,
    strategy: &Strategy,
    faults: &mut FaultList,
) -> Result<(), NoMemory>
    ensures faults { OnOk result (faults.new ≡ with_faults faults.old
        (strategy_faults table.now primitives.now names.old strategy.now)) }
    ensures names { OnOk result (names.new ≡ names.old) }
{
    match strategy.form() {
        StrategyForm::Id | StrategyForm::Fail => Ok(()),
        StrategyForm::Match(pattern) => {
            check_pattern(alloc, table, PatternUse::Match, pattern, faults)
        }
        StrategyForm::Build(pattern) => {
            check_pattern(alloc, table, PatternUse::Build, pattern, faults)
        }
        StrategyForm::Seq(parts) => {
            check_strategy(alloc, table, primitives, names, &parts.0, faults)?;
            check_strategy(alloc, table, primitives, names, &parts.1, faults)
        }
        StrategyForm::Guard(parts) => {
            check_strategy(alloc, table, primitives, names, &parts.0, faults)?;
            check_strategy(alloc, table, primitives, names, &parts.1, faults)?;
            check_strategy(alloc, table, primitives, names, &parts.2, faults)
        }
        StrategyForm::Scope(variables, part) => {
            check_names(alloc, variables, &Binding::Scope(strategy), faults)?;
            check_strategy(alloc, table, primitives, names, part, faults)
        }
        StrategyForm::Use(name, parts, terms) => {
            let place = strategy.place();
            check_name(table, names, name, parts.len(), terms.len(), place, faults)?;
            check_strategies(alloc, table, primitives, names, parts, faults)?;
            check_patterns(alloc, table, PatternUse::Build, terms, faults)
        }
        StrategyForm::Congruence(_, parts) => {
            check_strategies(alloc, table, primitives, names, parts, faults)
        }
        StrategyForm::TailCongruence(parts, tail) => {
            check_strategies(alloc, table, primitives, names, parts, faults)?;
            check_strategy(alloc, table, primitives, names, tail, faults)
        }
        StrategyForm::Test(part)
        | StrategyForm::All(part)
        | StrategyForm::One(part)
        | StrategyForm::Some(part)
        | StrategyForm::Child(_, part) => check_strategy(
            alloc, table, primitives, names, part, faults,
        ),
        StrategyForm::Rec(name, part) => {
            names.open(name, names.len())?;
            check_strategy(alloc, table, primitives, names, part, faults)?;
            names.close()?;
            Ok(())
        }
        StrategyForm::Prim(name, terms) => {
            check_primitive(primitives, name, terms.len(), strategy.place(), faults)?;
            check_patterns(alloc, table, PatternUse::Build, terms, faults)
        }
    }
}

/// Adds the faults of strategies, from left to right.
#[cycle(strategy)]
fn check_strategies<M: Meaning>(
    alloc: Global,
    table: &Table,
    primitives: &Primitives<M>,
    names: &mut Binders,
    strategies: &[Strategy],
    faults: &mut FaultList,
) -> Result<(), NoMemory>
    ensures faults { OnOk result (faults.new ≡ with_faults faults.old
        (faults_of_strategies table.now primitives.now names.old (strategies_of strategies.now))) }
    ensures names { OnOk result (names.new ≡ names.old) }
{
    for strategy in strategies {
        check_strategy(alloc, table, primitives, names, strategy, faults)?;
    }
    Ok(())
}

// Adds the fault of a name with these numbers of strategies and terms: a strategy name in scope
// takes none, and any other name is a definition or, without terms, a constructor.
fn check_name(
    table: &Table,
    names: &Binders,
    name: &Name,
    strategies: usize,
    terms: usize,
    place: Place,
    faults: &mut FaultList,
) -> Result<(), NoMemory>
    ensures { OnOk result (faults.new ≡ with_faults faults.old
        (name_faults table.now names.now name.now strategies terms)) }
{
    if names.number(name).is_some() {
        if strategies > 0 || terms > 0 {
            return faults.add(FaultKind::Parameter, name, strategies, terms, place);
        }
        return Ok(());
    }
    if table.definition(name, strategies, terms)?.is_some() {
        return Ok(());
    }
    if terms == 0 && table.declares(name, strategies)? {
        return Ok(());
    }
    faults.add(FaultKind::Unknown, name, strategies, terms, place)
}

fn check_primitive<M: Meaning>(
    primitives: &Primitives<M>,
    name: &Name,
    terms: usize,
    place: Place,
    faults: &mut FaultList,
) -> Result<(), NoMemory>
    ensures { OnOk result (faults.new ≡ with_faults faults.old
        (fault_if (not (is_primitive primitives.now name.now terms)) FaultKind.Primitive name.now terms 0)) }
{
    match primitives.find(name.bytes(), terms) {
        Some(_) => Ok(()),
        None => faults.add(FaultKind::Primitive, name, terms, 0, place),
    }
}

/// The first faults of a strategy with no strategy names in scope, `most` at most.
pub fn find_in_strategy<M: Meaning>(
    alloc: Global,
    table: &Table,
    primitives: &Primitives<M>,
    strategy: &Strategy,
    most: usize,
) -> Result<FaultList, NoMemory>
    ensures { IfOk result (λ found. found.items
        ≡ take most (strategy_faults table.now primitives.now [] strategy.now)) }
{
    let mut names = Binders::new(alloc);
    let mut faults = FaultList::new(alloc, most);
    check_strategy(alloc, table, primitives, &mut names, strategy, &mut faults)?;
    Ok(faults)
}

/// The first fault of a strategy as a refusal, if it has one.
pub fn refuse_strategy<M: Meaning>(
    alloc: Global,
    table: &Table,
    primitives: &Primitives<M>,
    strategy: &Strategy,
) -> Result<(), CheckFault>
    ensures none { OnOk result (strategy_faults table.now primitives.now [] strategy.now ≡ []) }
    ensures first { IfErr result (λ told. IsTold told
        (first (strategy_faults table.now primitives.now [] strategy.now))) }
{
    let faults = find_in_strategy(alloc, table, primitives, strategy, 1)?;
    faults.into_first()
}
