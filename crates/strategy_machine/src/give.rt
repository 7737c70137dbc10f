//! Giving successes to frames.

ghost use Rattle.std.specs.Prelude.{◌≡◌, ◌==◌, cond, slice_set, IfOk, OnOk, IsFalse};
ghost use Rattle.strategy_meaning.specs.Answer.{Answer};
ghost use Rattle.strategy_meaning.specs.Meaning.{World};
ghost use Rattle.term_changes.specs.Standing.{Standing, standing_children, CanHold};
ghost use Rattle.strategy_machine.specs.Hands.{Done};
ghost use Rattle.strategy_machine.specs.inside.Slots.{EndsWith};
ghost use Rattle.std.specs.Bool.{OnTrue};
ghost use Rattle.strategy_machine.specs.inside.Walks.{StepsOn, EndsUnchanged};
ghost use Rattle.strategy_machine.specs.Turns.{Turn, Falls, Holds};
ghost use Rattle.strategy_machine.specs.inside.Turning.{ComesUp, Rises};

use crate::children::{child_now, go_on, go_over, next_act, settle};
use crate::frames::{Acts, Turned, Walk, drop_parts, put, put_parts};
use crate::lists::{give_after, give_head, give_rest, give_tail};
use crate::machine::Machine;
use crate::stack::{Slot, Start};
use std::alloc::Global;
use std::mem;
use strategy_syntax::ResolvedStrategy;
use term_core::NoMemory;
use term_match::Mark;
use term_values::Part;

/// Gives a success to the innermost frame.
pub(crate) fn give_done<'t>(alloc: Global, m: &mut Machine<'t>) -> Result<Turned, NoMemory>
    requires { (W : World) × (sub : Standing) × (whole : Answer) × Holds W sub whole m.old (Done m.old.part) }
    ensures ok { (W : World) → IfOk result (λ next. Turn W m.old (Done m.old.part) m.new next) }
    ensures less { IfOk result (λ next. Falls m.old (Done m.old.part) m.new next) }
{
    if let Some((strategy, scope)) = m.frames.walk_on(&mut m.part, &mut m.spares, m.trail.count)? {
        return Ok(m.begins(strategy, scope));
    }
    give_last(alloc, m)
}

// Gives the success to the innermost frame, which then ends.
#[inline(always)]
fn give_last<'t>(alloc: Global, m: &mut Machine<'t>) -> Result<Turned, NoMemory>
    requires { (W : World) × (sub : Standing) × (whole : Answer) × Holds W sub whole m.old (Done m.old.part) }
    ensures ok { (W : World) → IfOk result (λ next. Turn W m.old (Done m.old.part) m.new next) }
    ensures less { IfOk result (λ next. Falls m.old (Done m.old.part) m.new next) }
{
    match m.frames.last() {
        None => Ok(Turned::Done),
        Some(slot) => give(alloc, m, slot),
    }
}

#[inline(always)]
pub(crate) fn to_next<'t>(
    walk: &mut Walk<'t>,
    part: &mut Part<'t>,
    spares: &mut Vec<Vec<Part<'t>>>,
    edits: usize,
) -> Result<bool, NoMemory>
    ensures { IfOk result (λ yes. cond yes (StepsOn walk.old part.old edits walk.new part.new)
        ((walk.new ≡ walk.old) × (part.new ≡ part.old))) }
{
    let Some(index) = walk.index.checked_add(1) else {
        return Err(NoMemory);
    };
    let count = walk.node.child_count();
    if index >= count {
        return Ok(false);
    }
    let Some(child) = child_now(&walk.node, &walk.parts, index)? else {
        return Ok(false);
    };
    let done = mem::replace(part, child);
    settle(
        &mut walk.parts,
        spares,
        &walk.node,
        walk.index,
        count,
        done,
        edits != walk.edits,
    )?;
    walk.index = index;
    walk.edits = edits;
    Ok(true)
}

// By the kind of the innermost frame.
#[inline(always)]
fn give<'t>(alloc: Global, m: &mut Machine<'t>, slot: Slot<'t>) -> Result<Turned, NoMemory>
    requires run { (W : World) × (sub : Standing) × (whole : Answer) × Holds W sub whole m.old (Done m.old.part) }
    requires last { EndsWith slot m.old.frames }
    ensures ok { (W : World) → IfOk result (λ next. Turn W m.old (Done m.old.part) m.new next) }
    ensures less { IfOk result (λ next. Falls m.old (Done m.old.part) m.new next) }
{
    match slot {
        Slot::Then { strategy, scope } => {
            m.frames.pop();
            Ok(m.begins(strategy, scope))
        }
        Slot::Choose { then, scope, .. } => {
            m.frames.drop_start();
            Ok(m.goes_on(then, scope))
        }
        Slot::Restore => give_test(m),
        Slot::Each { acts, scope } => give_each(alloc, m, acts, scope),
        Slot::Leftmost {
            strategy,
            scope,
            mark,
        } => give_leftmost(alloc, m, strategy, scope, mark),
        Slot::Those {
            strategy,
            scope,
            mark,
            any,
        } => give_those(alloc, m, strategy, scope, mark, any),
        Slot::Tail { tail, scope, count } => give_tail(alloc, m, tail, scope, count),
        Slot::Rest { count, edits } => give_rest(alloc, m, count, edits),
        Slot::Head { tail, scope } => give_head(alloc, m, tail, scope),
        Slot::After { edits } => give_after(alloc, m, edits),
        Slot::Leave { scopes } => {
            m.frames.pop();
            m.scopes.cut(scopes);
            Ok(m.gives())
        }
        Slot::Cut { cells, scopes } => {
            m.frames.pop();
            m.cells.close_to(cells);
            m.scopes.cut(scopes);
            Ok(m.gives())
        }
    }
}

// Goes back to the focus that a test kept.
#[inline(always)]
fn give_test<'t>(m: &mut Machine<'t>) -> Result<Turned, NoMemory>
    requires { EndsWith Slot.Restore m.old.frames }
    ensures ok { (W : World) → IfOk result (λ next. Turn W m.old (Done m.old.part) m.new next) }
    ensures less { IfOk result (λ next. Falls m.old (Done m.old.part) m.new next) }
{
    let Start { part, edits } = m.frames.pop_start();
    m.trail.cut(edits);
    put(&mut m.part, part);
    Ok(m.gives())
}

// Moves up from the finished child: its parent becomes the focus.
#[inline(always)]
fn come_up<'t>(m: &mut Machine<'t>, walk: Walk<'t>) -> Result<(), NoMemory>
    ensures { OnOk result (ComesUp m.old walk.entry m.old.part m.new (m.new.part, m.new.parts)) }
{
    let Walk {
        node,
        parts,
        index,
        level,
        edits,
    } = walk;
    m.level = level;
    let changed = m.trail.count != edits;
    if !changed {
        put_parts(&mut m.parts, parts);
        put(&mut m.part, node);
        return Ok(());
    }
    let child = mem::replace(&mut m.part, node);
    m.parts = parts;
    let count = m.part.child_count();
    settle(
        &mut m.parts,
        &mut m.spares,
        &m.part,
        index,
        count,
        child,
        changed,
    )?;
    Ok(())
}

// Continues with the next child. After the last one a node in which nothing changed is the focus
// at once.
fn give_each<'t>(
    alloc: Global,
    m: &mut Machine<'t>,
    acts: Acts<'t>,
    scope: usize,
) -> Result<Turned, NoMemory>
    requires run { (W : World) × (sub : Standing) × (whole : Answer) × Holds W sub whole m.old (Done m.old.part) }
    requires last { EndsWith (Slot.Each acts scope) m.old.frames }
    ensures ok { (W : World) → IfOk result (λ next. Turn W m.old (Done m.old.part) m.new next) }
    ensures less { IfOk result (λ next. Falls m.old (Done m.old.part) m.new next) }
{
    let walk = m.frames.pop_walk();
    let Some(next) = walk.index.checked_add(1) else {
        return Err(NoMemory);
    };
    if ends_unchanged(&walk, m.trail.count, acts, next) {
        let Walk {
            node,
            parts,
            level,
            ..
        } = walk;
        drop_parts(parts);
        m.level = level;
        put(&mut m.part, node);
        return Ok(m.gives());
    }
    come_up(m, walk)?;
    go_on(alloc, m, acts, scope, next)
}

// Whether nothing has changed below the node of a walk, and there is no strategy for a child from
// this one on.
#[inline(always)]
fn ends_unchanged(walk: &Walk<'_>, edits: usize, acts: Acts<'_>, next: usize) -> bool
    ensures { OnTrue result (EndsUnchanged walk.now edits acts.entry next) }
{
    if walk.edits != edits {
        return false;
    }
    if !walk.parts.is_empty() {
        return false;
    }
    let left = walk.node.child_count().saturating_sub(next);
    match next_act(acts, left) {
        None => true,
        Some(_) => false,
    }
}

// The strategy succeeded on a child, the leftmost such one.
fn give_leftmost<'t>(
    alloc: Global,
    m: &mut Machine<'t>,
    strategy: &'t ResolvedStrategy,
    scope: usize,
    mark: Mark,
) -> Result<Turned, NoMemory>
    requires run { (W : World) × (sub : Standing) × (whole : Answer) × Holds W sub whole m.old (Done m.old.part) }
    requires last { EndsWith (Slot.Leftmost strategy scope mark) m.old.frames }
    ensures ok { (W : World) → IfOk result (λ next. Turn W m.old (Done m.old.part) m.new next) }
    ensures less { IfOk result (λ next. Falls m.old (Done m.old.part) m.new next) }
{
    let walk = m.frames.pop_walk();
    rise(alloc, m, walk)?;
    Ok(m.gives())
}

// Moves up from the finished child of a walk that holds no parts: the node with that child becomes
// the focus.
#[inline(always)]
fn rise<'t>(alloc: Global, m: &mut Machine<'t>, walk: Walk<'t>) -> Result<(), NoMemory>
    requires { IsFalse (m.old.trail.count == walk.edits) → CanHold walk.node (slice_set (standing_children walk.node) walk.index m.old.part) }
    ensures { OnOk result (Rises m.old walk.entry m.old.part m.new) }
{
    let Walk {
        node,
        parts,
        index,
        level,
        edits,
    } = walk;
    drop_parts(parts);
    m.level = level;
    if m.trail.count == edits {
        put(&mut m.part, node);
        return Ok(());
    }
    let child = mem::replace(&mut m.part, node);
    let whole = m.part.with_part(alloc, index, child)?;
    put(&mut m.part, whole);
    Ok(())
}

// Continues with the next child after a success.
fn give_those<'t>(
    alloc: Global,
    m: &mut Machine<'t>,
    strategy: &'t ResolvedStrategy,
    scope: usize,
    mark: Mark,
    any: bool,
) -> Result<Turned, NoMemory>
    requires run { (W : World) × (sub : Standing) × (whole : Answer) × Holds W sub whole m.old (Done m.old.part) }
    requires last { EndsWith (Slot.Those strategy scope mark any) m.old.frames }
    ensures ok { (W : World) → IfOk result (λ next. Turn W m.old (Done m.old.part) m.new next) }
    ensures less { IfOk result (λ next. Falls m.old (Done m.old.part) m.new next) }
{
    let walk = m.frames.pop_walk();
    let Some(next) = walk.index.checked_add(1) else {
        return Err(NoMemory);
    };
    come_up(m, walk)?;
    go_over(alloc, m, strategy, scope, next, true)
}
