//! Matching, building, sequences, choices and tests.

ghost use Rattle.std.specs.Prelude.{◌≡◌, ◌<◌, ◌≤◌, length, cond, false, Some, None, IfOk, OnOk};
ghost use Rattle.strategy_meaning.specs.Matching.{match_pattern};
ghost use Rattle.term_changes.specs.Standing.{standing_tree};
ghost use Rattle.term_match.specs.Marks.{mark_of, Before, Stays};
ghost use Rattle.term_core.specs.declared.TheConstants.{MAX_ROOM};
ghost use Rattle.strategy_syntax.specs.Resolved.{matches, builds, param, seq, guard, test, all};
ghost use Rattle.strategy_meaning.specs.Laws.{in_room};
ghost use Rattle.strategy_meaning.specs.Meaning.{World};
ghost use Rattle.strategy_machine.specs.Table.{scopes as scopes_of};
ghost use Rattle.strategy_machine.specs.Turns.{world_of};
ghost use Rattle.strategy_machine.specs.inside.Missing.{Shows};
ghost use Rattle.strategy_machine.specs.inside.Taking.{Takes, TakeFalls, Replaced};

use crate::alternatives::{after_first, after_rules};
use crate::children::go_in;
use crate::choices::{rewrite_or, rule_of, rule_or};
use crate::frames::{Turned, drop_value, put};
use crate::heads::{MOST, RootMatch, glance, left_by_failure};
use crate::machine::{Host, InTable, Machine};
use crate::stack::{Slot, Start};
use prim_core::Meaning;
use std::alloc::Global;
use strategy_syntax::{ResolvedForm as Form, ResolvedPattern, ResolvedStrategy};
use term_core::NoMemory;
use term_match::{Built, Cells, VariableCells};
use term_values::{Part, Value};

/// A match of a pattern.
pub(crate) fn take_match<'t>(
    alloc: Global,
    m: &mut Machine<'t>,
    pattern: &'t ResolvedPattern,
    scope: usize,
) -> Result<Turned, NoMemory>
    ensures ok { (W : World) → IfOk result (λ next. Takes W m.old (matches pattern.entry.now) scope m.old.part m.new next) }
    ensures less { IfOk result (λ next. TakeFalls m.old m.new next) }
{
    let variables = InTable {
        scopes: &m.scopes,
        scope,
    };
    let shown = glance(pattern, &m.part);
    let matched = matches_shown(alloc, &mut m.cells, &variables, pattern, &m.part, shown);
    if matched? {
        Ok(m.gives())
    } else {
        Ok(m.fails())
    }
}

/// Whether the pattern matches the part, as `Cells::matches` of its value, given what the root
/// shows of it.
#[inline(always)]
pub(crate) fn matches_shown<'t, P: VariableCells>(
    alloc: Global,
    cells: &mut Cells<'t>,
    variables: &P,
    pattern: &ResolvedPattern,
    part: &Part<'t>,
    shown: RootMatch,
) -> Result<bool, NoMemory>
    requires { Shows shown pattern.now (standing_tree part.now) }
    ensures ok { IfOk result (λ yes. match_pattern pattern.now (standing_tree part.now) (P.cells variables.now) cells.old.bindings
        ≡ cond yes (Some cells.new.bindings) None) }
    ensures no { IfOk result (λ yes. yes ≡ false → cells.new ≡ cells.old) }
    ensures later { Before (mark_of cells.old) (mark_of cells.new) }
    ensures stays { Stays (mark_of cells.old) cells.old cells.new }
{
    match shown {
        RootMatch::Misses => Ok(false),
        RootMatch::Matches => Ok(true),
        RootMatch::Open => cells.matches_below(alloc, variables, pattern, part),
    }
}

/// A build of a pattern.
#[inline(always)]
pub(crate) fn take_build<'t>(
    alloc: Global,
    room: u32,
    m: &mut Machine<'t>,
    pattern: &'t ResolvedPattern,
    scope: usize,
) -> Result<Turned, NoMemory>
    requires { room ≤ MAX_ROOM }
    ensures ok { (W : World) → IfOk result (λ next. Takes (in_room room W) m.old (builds pattern.entry.now) scope m.old.part m.new next) }
    ensures less { IfOk result (λ next. TakeFalls m.old m.new next) }
{
    let variables = InTable {
        scopes: &m.scopes,
        scope,
    };
    match m.cells.build(alloc, &variables, pattern, m.level, room)? {
        Built::Nothing => Ok(m.fails()),
        Built::Big => Ok(Turned::Big),
        Built::Value(value) => {
            replace(alloc, m, value)?;
            Ok(m.gives())
        }
    }
}

/// Replaces the focus by a value, which is an edit.
#[inline(always)]
pub(crate) fn replace<'t>(
    alloc: Global,
    m: &mut Machine<'t>,
    value: Value<'t>,
) -> Result<(), NoMemory>
    ensures { OnOk result (Replaced m.old value.entry m.new m.new.part) }
{
    match m.trail.push(alloc, &m.frames, &value) {
        Ok(()) => {
            put(&mut m.part, Part::new(value));
            Ok(())
        }
        Err(error) => {
            drop_value(value);
            Err(error)
        }
    }
}

/// A sequence. If its first strategy is a match, a name of `id`, or `all` at a node without
/// children, that is done at once.
#[inline(always)]
pub(crate) fn take_seq<'t>(
    alloc: Global,
    m: &mut Machine<'t>,
    first: &'t ResolvedStrategy,
    second: &'t ResolvedStrategy,
    scope: usize,
) -> Result<Turned, NoMemory>
    ensures ok { (W : World) → IfOk result (λ next. Takes W m.old (seq first.entry.now second.entry.now) scope m.old.part m.new next) }
    ensures less { IfOk result (λ next. TakeFalls m.old m.new next) }
{
    match first.form() {
        Form::Match(pattern) => match_first(alloc, m, pattern, second, scope),
        Form::Param(name) => named_first(m, *name, second, scope),
        Form::All(inner) => all_first(alloc, m, inner, second, scope),
        _ => {
            m.frames.wait(Slot::Then {
                strategy: second,
                scope,
            })?;
            Ok(m.begins(first, scope))
        }
    }
}

// A name, which costs a step of its own, followed by a strategy. If it stands for `id`, that is
// done at once.
#[inline(always)]
fn named_first<'t>(
    m: &mut Machine<'t>,
    name: usize,
    second: &'t ResolvedStrategy,
    scope: usize,
) -> Result<Turned, NoMemory>
    ensures ok { (W : World) → IfOk result (λ next. Takes W m.old (seq (param name) second.entry.now) scope m.old.part m.new next) }
    ensures less { IfOk result (λ next. TakeFalls m.old m.new next) }
{
    if m.steps == 0 {
        return Ok(Turned::Spent);
    }
    m.steps -= 1;
    let Some(known) = m.scopes.named(scope, name) else {
        return Ok(m.fails());
    };
    if let Form::Id = known.strategy.form() {
        if m.steps == 0 {
            return Ok(Turned::Spent);
        }
        m.steps -= 1;
        return Ok(m.begins(second, scope));
    }
    m.frames.wait(Slot::Then {
        strategy: second,
        scope,
    })?;
    Ok(m.begins(known.strategy, known.written_in))
}

// A strategy on each child, which costs a step of its own, followed by a strategy.
#[inline(always)]
fn all_first<'t>(
    alloc: Global,
    m: &mut Machine<'t>,
    inner: &'t ResolvedStrategy,
    second: &'t ResolvedStrategy,
    scope: usize,
) -> Result<Turned, NoMemory>
    ensures ok { (W : World) → IfOk result (λ next. Takes W m.old (seq (all inner.entry.now) second.entry.now) scope m.old.part m.new next) }
    ensures less { IfOk result (λ next. TakeFalls m.old m.new next) }
{
    if m.steps == 0 {
        return Ok(Turned::Spent);
    }
    m.steps -= 1;
    if m.part.child_count() != 0 {
        m.frames.wait(Slot::Then {
            strategy: second,
            scope,
        })?;
        return go_in(alloc, m, inner, scope);
    }
    Ok(m.begins(second, scope))
}

// A match, which costs a step of its own, followed by a strategy.
#[inline(never)]
fn match_first<'t>(
    alloc: Global,
    m: &mut Machine<'t>,
    pattern: &'t ResolvedPattern,
    second: &'t ResolvedStrategy,
    scope: usize,
) -> Result<Turned, NoMemory>
    ensures ok { (W : World) → IfOk result (λ next. Takes W m.old (seq (matches pattern.entry.now) second.entry.now) scope m.old.part m.new next) }
    ensures less { IfOk result (λ next. TakeFalls m.old m.new next) }
{
    if m.steps == 0 {
        return Ok(Turned::Spent);
    }
    m.steps -= 1;
    let variables = InTable {
        scopes: &m.scopes,
        scope,
    };
    let shown = glance(pattern, &m.part);
    let matched = matches_shown(alloc, &mut m.cells, &variables, pattern, &m.part, shown);
    if matched? {
        Ok(m.begins(second, scope))
    } else {
        Ok(m.fails())
    }
}

/// A guarded choice. Alternatives that it knows not to match are passed over at once.
#[inline(always)]
pub(crate) fn take_choice<'t, M: Meaning>(
    alloc: Global,
    host: &Host<'t, M>,
    m: &mut Machine<'t>,
    whole: &'t ResolvedStrategy,
    first: &'t ResolvedStrategy,
    second: &'t ResolvedStrategy,
    other: &'t ResolvedStrategy,
    scope: usize,
) -> Result<Turned, NoMemory>
    requires there { scope < length (scopes_of m.old.scopes) }
    requires room { host.now.room ≤ MAX_ROOM }
    requires whole { whole.now ≡ guard first.now second.now other.now }
    ensures ok { IfOk result (λ next. Takes (world_of M.meaning host.now.definitions.now host.now.primitives.now host.now.room)
        m.old (guard first.entry.now second.entry.now other.entry.now) scope m.old.part m.new next) }
    ensures less { IfOk result (λ next. TakeFalls m.old m.new next) }
{
    if whole.is_indexed() {
        if let Some(rest) = after_first(whole, &m.part, m.steps) {
            m.steps = rest.1;
            return Ok(m.goes_on(rest.0, scope));
        }
    }
    take_guard(alloc, host, m, first, second, other, scope)
}

/// A guarded choice. If its first branch is a match and a build, or a rule, that is done at once,
/// with no frame. If the root symbol rules out another first branch, its steps are charged and the
/// machine goes straight to the other; if that is a choice among rules, to the first that may
/// match.
#[inline(always)]
pub(crate) fn take_guard<'t, M: Meaning>(
    alloc: Global,
    host: &Host<'t, M>,
    m: &mut Machine<'t>,
    first: &'t ResolvedStrategy,
    second: &'t ResolvedStrategy,
    other: &'t ResolvedStrategy,
    scope: usize,
) -> Result<Turned, NoMemory>
    requires there { scope < length (scopes_of m.old.scopes) }
    requires room { host.now.room ≤ MAX_ROOM }
    ensures ok { IfOk result (λ next. Takes (world_of M.meaning host.now.definitions.now host.now.primitives.now host.now.room)
        m.old (guard first.entry.now second.entry.now other.entry.now) scope m.old.part m.new next) }
    ensures less { IfOk result (λ next. TakeFalls m.old m.new next) }
{
    if let Form::Seq(parts) = first.form() {
        if let Form::Match(left) = parts.0.form() {
            if let Form::Build(right) = parts.1.form() {
                return rewrite_or(alloc, host.room, m, left, right, second, other, scope);
            }
        }
    }
    if let Some(rule) = rule_of(host.definitions, first, scope) {
        return rule_or(alloc, host.room, m, rule, second, other, scope);
    }
    let ahead = left_by_failure(
        host.definitions,
        &m.scopes,
        first,
        Some(scope),
        &m.part,
        m.steps,
        MOST,
    );
    if let Some(left) = ahead {
        let passed = after_rules(other, &m.part, left);
        m.steps = passed.1;
        return Ok(m.goes_on(passed.0, scope));
    }
    let start = m.part.try_clone()?;
    let mark = m.cells.mark();
    let edits = m.trail.count;
    let slot = Slot::Choose {
        then: second,
        otherwise: other,
        scope,
        mark,
    };
    m.frames
        .wait_with_start(slot, Start { part: start, edits })?;
    Ok(m.begins(first, scope))
}

/// A strategy whose result is dropped.
pub(crate) fn take_test<'t>(
    m: &mut Machine<'t>,
    inner: &'t ResolvedStrategy,
    scope: usize,
) -> Result<Turned, NoMemory>
    ensures ok { (W : World) → IfOk result (λ next. Takes W m.old (test inner.entry.now) scope m.old.part m.new next) }
    ensures less { IfOk result (λ next. TakeFalls m.old m.new next) }
{
    let start = m.part.try_clone()?;
    let edits = m.trail.count;
    let start = Start { part: start, edits };
    m.frames.wait_with_start(Slot::Restore, start)?;
    Ok(m.begins(inner, scope))
}
