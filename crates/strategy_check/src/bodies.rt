//! Resolving strategies: numbers for names.
//!
//! What was resolved is passed to `drop` if a later part can't be: a drop at the end of a scope is
//! proved anew on each way out.
#![tactic(auto, using(crate::proofs::BodyLemmas::body_rules))]

ghost use Rattle.std.specs.Prelude.{◌≡◌, IfOk, OnOk, length, Some};
ghost use Rattle.strategy_syntax.specs.Syntax as syntax;
ghost use Rattle.strategy_syntax.specs.Syntax.{strategies_of, seq, guard, rec};
ghost use Rattle.strategy_syntax.specs.Resolved.{resolveds_of, resolved_patterns_of};
ghost use Rattle.strategy_syntax.specs.ResolvedView.{resolved_of};
ghost use Rattle.strategy_names.specs.Binders.{binder_number};
ghost use Rattle.strategy_check.specs.Tables.{definition_number};
ghost use Rattle.strategy_check.specs.Resolving.{resolved_strategy, resolved_strategies, name_or_other, definition_or_constructor};

use crate::resolved_patterns::{resolve_pattern, resolve_patterns};
use crate::scope::Scope;
use crate::table::Table;
use prim_core::{Meaning, Primitives};
use std::alloc::Global;
use strategy_syntax::{
    Head, ResolvedForm, ResolvedPattern, ResolvedStrategy, Strategy, StrategyForm,
};
use term_core::{Name, NoMemory};

/// Resolves the strategy, whose names have no faults. Each part keeps its place.
#[cycle(strategy)]
pub fn resolve_strategy<M: Meaning>(
    alloc: Global,
    table: &Table,
    primitives: &Primitives<M>,
    scope: &mut Scope,
    strategy: &Strategy,
) -> Result<ResolvedStrategy, NoMemory>
    ensures resolved { IfOk result (λ resolved. resolved
        ≡ resolved_strategy table.now primitives.now scope.old strategy.now) }
    ensures scope { OnOk result (scope.new ≡ scope.old) }
{
    let form = resolve_form(alloc, table, primitives, scope, strategy)?;
    let resolved = ResolvedStrategy::new(form).at(scope.text(), strategy.place());
    resolved.indexed(alloc)
}

// Each level of a strategy takes a frame of the machine's stack here. It stays small because the
// forms with parts are functions of their own.
#[cycle(strategy)]
fn resolve_form<M: Meaning>(
    alloc: Global,
    table: &Table,
    primitives: &Primitives<M>,
    scope: &mut Scope,
    strategy: &Strategy,
) -> Result<ResolvedForm, NoMemory>
    ensures resolved { IfOk result (λ form. resolved_of form
        ≡ resolved_strategy table.now primitives.now scope.old strategy.now) }
    ensures scope { OnOk result (scope.new ≡ scope.old) }
{
    match strategy.form() {
        StrategyForm::Id => Ok(ResolvedForm::Id),
        StrategyForm::Fail => Ok(ResolvedForm::Fail),
        StrategyForm::Match(pattern) => {
            Ok(ResolvedForm::Match(resolve_pattern(alloc, scope, pattern)?))
        }
        StrategyForm::Build(pattern) => {
            Ok(ResolvedForm::Build(resolve_pattern(alloc, scope, pattern)?))
        }
        StrategyForm::Seq(parts) => {
            resolve_seq(alloc, table, primitives, scope, &parts.0, &parts.1)
        }
        StrategyForm::Guard(parts) => {
            resolve_guard(
                alloc, table, primitives, scope, &parts.0, &parts.1, &parts.2,
            )
        }
        StrategyForm::Test(part) => {
            Ok(ResolvedForm::Test(resolve_part(alloc, table, primitives, scope, part)?))
        }
        StrategyForm::Scope(names, part) => {
            resolve_in_scope(alloc, table, primitives, scope, names, part)
        }
        StrategyForm::Use(name, parts, terms) => {
            let parts = resolve_strategies(alloc, table, primitives, scope, parts)?;
            let terms = resolve_patterns(alloc, scope, terms)?;
            resolve_use(table, scope, name, parts, terms)
        }
        StrategyForm::Congruence(head, parts) => {
            let parts = resolve_strategies(alloc, table, primitives, scope, parts)?;
            Ok(ResolvedForm::Congruence(head.try_clone()?, parts))
        }
        StrategyForm::TailCongruence(parts, tail) => {
            let parts = resolve_strategies(alloc, table, primitives, scope, parts)?;
            let tail = resolve_part(alloc, table, primitives, scope, tail)?;
            Ok(ResolvedForm::TailCongruence(parts, tail))
        }
        StrategyForm::All(part) => {
            Ok(ResolvedForm::All(resolve_part(alloc, table, primitives, scope, part)?))
        }
        StrategyForm::One(part) => {
            Ok(ResolvedForm::One(resolve_part(alloc, table, primitives, scope, part)?))
        }
        StrategyForm::Some(part) => {
            Ok(ResolvedForm::Some(resolve_part(alloc, table, primitives, scope, part)?))
        }
        StrategyForm::Child(number, part) => {
            Ok(ResolvedForm::Child(
                *number,
                resolve_part(alloc, table, primitives, scope, part)?,
            ))
        }
        StrategyForm::Rec(name, part) => {
            resolve_rec(alloc, table, primitives, scope, name, part)
        }
        StrategyForm::Prim(name, terms) => {
            let number = primitives.find(name.bytes(), terms.len()).unwrap_or(0);
            Ok(ResolvedForm::Prim(number, resolve_patterns(alloc, scope, terms)?))
        }
    }
}

#[cycle(strategy)]
#[inline(never)]
fn resolve_seq<M: Meaning>(
    alloc: Global,
    table: &Table,
    primitives: &Primitives<M>,
    scope: &mut Scope,
    first: &Strategy,
    second: &Strategy,
) -> Result<ResolvedForm, NoMemory>
    ensures resolved { IfOk result (λ form. resolved_of form
        ≡ resolved_strategy table.now primitives.now scope.old (seq first.now second.now)) }
    ensures scope { OnOk result (scope.new ≡ scope.old) }
{
    let first = resolve_strategy(alloc, table, primitives, scope, first)?;
    match resolve_strategy(alloc, table, primitives, scope, second) {
        Ok(second) => Ok(ResolvedForm::Seq(Box::new(alloc, (first, second))?)),
        Err(error) => {
            drop(first);
            Err(error)
        }
    }
}

#[cycle(strategy)]
#[inline(never)]
fn resolve_guard<M: Meaning>(
    alloc: Global,
    table: &Table,
    primitives: &Primitives<M>,
    scope: &mut Scope,
    test: &Strategy,
    then: &Strategy,
    other: &Strategy,
) -> Result<ResolvedForm, NoMemory>
    ensures resolved { IfOk result (λ form. resolved_of form
        ≡ resolved_strategy table.now primitives.now scope.old
        (guard test.now then.now other.now)) }
    ensures scope { OnOk result (scope.new ≡ scope.old) }
{
    let test = resolve_strategy(alloc, table, primitives, scope, test)?;
    let then = match resolve_strategy(alloc, table, primitives, scope, then) {
        Ok(then) => then,
        Err(error) => {
            drop(test);
            return Err(error);
        }
    };
    match resolve_strategy(alloc, table, primitives, scope, other) {
        Ok(other) => Ok(ResolvedForm::Guard(Box::new(alloc, (test, then, other))?)),
        Err(error) => {
            drop(then);
            drop(test);
            Err(error)
        }
    }
}

#[cycle(strategy)]
#[inline(never)]
fn resolve_in_scope<M: Meaning>(
    alloc: Global,
    table: &Table,
    primitives: &Primitives<M>,
    scope: &mut Scope,
    names: &[Name],
    part: &Strategy,
) -> Result<ResolvedForm, NoMemory>
    ensures resolved { IfOk result (λ form. resolved_of form
        ≡ resolved_strategy table.now primitives.now scope.old (syntax.scope names.now part.now)) }
    ensures scope { OnOk result (scope.new ≡ scope.old) }
{
    scope.open_variables(names)?;
    let part = resolve_part(alloc, table, primitives, scope, part)?;
    scope.close_variables(names.len())?;
    Ok(ResolvedForm::Scope(names.len(), part))
}

#[cycle(strategy)]
#[inline(never)]
fn resolve_rec<M: Meaning>(
    alloc: Global,
    table: &Table,
    primitives: &Primitives<M>,
    scope: &mut Scope,
    name: &Name,
    part: &Strategy,
) -> Result<ResolvedForm, NoMemory>
    ensures resolved { IfOk result (λ form. resolved_of form
        ≡ resolved_strategy table.now primitives.now scope.old (rec name.now part.now)) }
    ensures scope { OnOk result (scope.new ≡ scope.old) }
{
    scope.open_name(name)?;
    let part = resolve_part(alloc, table, primitives, scope, part)?;
    scope.close_name()?;
    Ok(ResolvedForm::Rec(part))
}

// Resolves a part of a strategy, in a box of its own.
#[cycle(strategy)]
#[inline(never)]
fn resolve_part<M: Meaning>(
    alloc: Global,
    table: &Table,
    primitives: &Primitives<M>,
    scope: &mut Scope,
    strategy: &Strategy,
) -> Result<Box<ResolvedStrategy>, NoMemory>
    ensures resolved { IfOk result (λ resolved. resolved.value
        ≡ resolved_strategy table.now primitives.now scope.old strategy.now) }
    ensures scope { OnOk result (scope.new ≡ scope.old) }
{
    let resolved = resolve_strategy(alloc, table, primitives, scope, strategy)?;
    Ok(Box::new(alloc, resolved)?)
}

#[cycle(strategy)]
fn resolve_strategies<M: Meaning>(
    alloc: Global,
    table: &Table,
    primitives: &Primitives<M>,
    scope: &mut Scope,
    strategies: &[Strategy],
) -> Result<Vec<ResolvedStrategy>, NoMemory>
    ensures resolved { IfOk result (λ resolved. resolveds_of resolved.items
        ≡ resolved_strategies table.now primitives.now scope.old (strategies_of strategies.now)) }
    ensures scope { OnOk result (scope.new ≡ scope.old) }
{
    let mut resolved = Vec::with_capacity(alloc, strategies.len())?;
    for strategy in strategies {
        resolved.push(resolve_strategy(alloc, table, primitives, scope, strategy)?)?;
    }
    Ok(resolved)
}

// A name with resolved strategies and terms: a strategy name in scope, else a definition, else a
// constructor.
fn resolve_use(
    table: &Table,
    scope: &Scope,
    name: &Name,
    parts: Vec<ResolvedStrategy>,
    terms: Vec<ResolvedPattern>,
) -> Result<ResolvedForm, NoMemory>
    ensures { IfOk result (λ form. resolved_of form
        ≡ name_or_other (binder_number name.now scope.now.names)
        (definition_or_constructor name.now
        (definition_number table.now name.now (length parts.items) (length terms.items))
        (resolveds_of parts.items) (resolved_patterns_of terms.items))) }
{
    if let Some(number) = scope.strategy(name) {
        return Ok(ResolvedForm::Param(number));
    }
    match table.definition(name, parts.len(), terms.len())? {
        Some(number) => Ok(ResolvedForm::Call(number, parts, terms)),
        None => Ok(ResolvedForm::Congruence(Head::Application(name.try_clone()?), parts)),
    }
}
