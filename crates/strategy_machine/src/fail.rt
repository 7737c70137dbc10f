//! Giving failures to frames.

ghost use Rattle.std.specs.Prelude.{◌≡◌, ℕ, IfOk};
ghost use Rattle.std.specs.Borrow.{Bor};
ghost use Rattle.strategy_syntax.specs.Resolved.{ResolvedStrategy as Resolving};
ghost use Rattle.strategy_machine.specs.declared.frames.Acts.{Acts};
ghost use Rattle.strategy_meaning.specs.Answer.{Answer};
ghost use Rattle.strategy_meaning.specs.Meaning.{World};
ghost use Rattle.term_changes.specs.Standing.{Standing};
ghost use Rattle.strategy_machine.specs.Hands.{Failed};
ghost use Rattle.strategy_machine.specs.Turns.{Turn, Falls, Holds};
ghost use Rattle.strategy_machine.specs.inside.Slots.{EndsWith};
ghost use Rattle.strategy_machine.specs.inside.Walks.{StepsOver};

use crate::children::{child_now, go_over};
use crate::frames::{Turned, Walk, drop_changed, drop_part, drop_parts, drop_walk, put, put_parts};
use crate::machine::Machine;
use crate::stack::{First, Front, Slot, Start};
use std::alloc::Global;
use strategy_syntax::ResolvedStrategy;
use term_core::NoMemory;
use term_match::Mark;
use term_values::Part;

/// Gives a failure to the innermost frame.
#[inline(never)]
pub(crate) fn give_failed<'t>(alloc: Global, m: &mut Machine<'t>) -> Result<Turned, NoMemory>
    requires { (W : World) × (sub : Standing) × (whole : Answer) × Holds W sub whole m.old Failed }
    ensures ok { (W : World) → IfOk result (λ next. Turn W m.old Failed m.new next) }
    ensures less { IfOk result (λ next. Falls m.old Failed m.new next) }
{
    match m.frames.last() {
        None => Ok(Turned::Failed),
        Some(slot) => fail(alloc, m, slot),
    }
}

// By the kind of the innermost frame.
#[inline(always)]
fn fail<'t>(alloc: Global, m: &mut Machine<'t>, slot: Slot<'t>) -> Result<Turned, NoMemory>
    requires run { (W : World) × (sub : Standing) × (whole : Answer) × Holds W sub whole m.old Failed }
    requires last { EndsWith slot m.old.frames }
    ensures ok { (W : World) → IfOk result (λ next. Turn W m.old Failed m.new next) }
    ensures less { IfOk result (λ next. Falls m.old Failed m.new next) }
{
    match slot {
        Slot::Then { .. } => {
            m.frames.pop();
            Ok(m.fails())
        }
        Slot::Choose {
            otherwise,
            scope,
            mark,
            ..
        } => fail_choice(m, otherwise, scope, mark),
        Slot::Restore => fail_test(m),
        Slot::Each { .. } => fail_each(m),
        Slot::Leftmost {
            strategy,
            scope,
            mark,
        } => fail_leftmost(m, strategy, scope, mark),
        Slot::Those {
            strategy,
            scope,
            mark,
            any,
        } => fail_those(alloc, m, strategy, scope, mark, any),
        Slot::Tail { .. } => {
            m.frames.pop();
            Ok(m.fails())
        }
        Slot::Rest { edits, .. } => fail_rest(m, edits),
        Slot::Head { .. } => fail_head(m),
        Slot::After { edits } => fail_after(m, edits),
        Slot::Leave { scopes } => {
            m.frames.pop();
            m.scopes.cut(scopes);
            Ok(m.fails())
        }
        Slot::Cut { cells, scopes } => {
            m.frames.pop();
            m.cells.close_to(cells);
            m.scopes.cut(scopes);
            Ok(m.fails())
        }
    }
}

// Goes back to the start, and on to the last branch.
#[inline(always)]
fn fail_choice<'t>(
    m: &mut Machine<'t>,
    otherwise: &'t ResolvedStrategy,
    scope: usize,
    mark: Mark,
) -> Result<Turned, NoMemory>
    requires run { (W : World) × (sub : Standing) × (whole : Answer) × Holds W sub whole m.old Failed }
    requires last { (then : Bor Resolving) × EndsWith (Slot.Choose then otherwise scope mark) m.old.frames }
    ensures ok { (W : World) → IfOk result (λ next. Turn W m.old Failed m.new next) }
    ensures less { IfOk result (λ next. Falls m.old Failed m.new next) }
{
    let Start { part, edits } = m.frames.pop_start();
    m.trail.cut(edits);
    m.cells.back_to(mark);
    put(&mut m.part, part);
    Ok(m.goes_on(otherwise, scope))
}

// A test fails, and its edits are forgotten; so too in the functions below.
#[inline(always)]
fn fail_test<'t>(m: &mut Machine<'t>) -> Result<Turned, NoMemory>
    requires { EndsWith Slot.Restore m.old.frames }
    ensures ok { (W : World) → IfOk result (λ next. Turn W m.old Failed m.new next) }
    ensures less { IfOk result (λ next. Falls m.old Failed m.new next) }
{
    let Start { part, edits } = m.frames.pop_start();
    drop_part(part);
    m.trail.cut(edits);
    Ok(m.fails())
}

// A child failed, so the node fails.
#[inline(always)]
fn fail_each<'t>(m: &mut Machine<'t>) -> Result<Turned, NoMemory>
    requires { (acts : Acts) × (scope : ℕ) × EndsWith (Slot.Each acts scope) m.old.frames }
    ensures ok { (W : World) → IfOk result (λ next. Turn W m.old Failed m.new next) }
    ensures less { IfOk result (λ next. Falls m.old Failed m.new next) }
{
    let walk = m.frames.pop_walk();
    m.trail.cut(walk.edits);
    m.level = walk.level;
    drop_walk(walk);
    Ok(m.fails())
}

// The first element failed, so the list fails.
#[inline(always)]
fn fail_head<'t>(m: &mut Machine<'t>) -> Result<Turned, NoMemory>
    requires { (tail : Bor Resolving) × (scope : ℕ) × EndsWith (Slot.Head tail scope) m.old.frames }
    ensures ok { (W : World) → IfOk result (λ next. Turn W m.old Failed m.new next) }
    ensures less { IfOk result (λ next. Falls m.old Failed m.new next) }
{
    let walk = m.frames.pop_walk();
    m.trail.cut(walk.edits);
    m.level = walk.level;
    drop_walk(walk);
    Ok(m.fails())
}

/// Moves the walk on from the failed child to the next one, which takes the place of `part`.
/// Returns the count of edits to go back to, or `None`, with nothing changed, if there is no next
/// child.
#[inline(always)]
pub(crate) fn pass<'t>(walk: &mut Walk<'t>, part: &mut Part<'t>) -> Result<Option<usize>, NoMemory>
    ensures { IfOk result (λ found. StepsOver walk.old part.old found walk.new part.new) }
{
    let Some(index) = walk.index.checked_add(1) else {
        return Err(NoMemory);
    };
    let Some(child) = child_now(&walk.node, &walk.parts, index)? else {
        return Ok(None);
    };
    put(part, child);
    walk.index = index;
    Ok(Some(walk.edits))
}

// Tries the next child.
#[inline(always)]
fn fail_leftmost<'t>(
    m: &mut Machine<'t>,
    strategy: &'t ResolvedStrategy,
    scope: usize,
    mark: Mark,
) -> Result<Turned, NoMemory>
    requires run { (W : World) × (sub : Standing) × (whole : Answer) × Holds W sub whole m.old Failed }
    requires last { EndsWith (Slot.Leftmost strategy scope mark) m.old.frames }
    ensures ok { (W : World) → IfOk result (λ next. Turn W m.old Failed m.new next) }
    ensures less { IfOk result (λ next. Falls m.old Failed m.new next) }
{
    if let Some(edits) = m.frames.pass_child(&mut m.part)? {
        m.trail.cut(edits);
        m.cells.back_to(mark);
        return Ok(m.begins(strategy, scope));
    }
    let walk = m.frames.pop_walk();
    m.trail.cut(walk.edits);
    m.level = walk.level;
    drop_walk(walk);
    Ok(m.fails())
}

// Continues with the next child after a failure.
#[inline(always)]
fn fail_those<'t>(
    alloc: Global,
    m: &mut Machine<'t>,
    strategy: &'t ResolvedStrategy,
    scope: usize,
    mark: Mark,
    any: bool,
) -> Result<Turned, NoMemory>
    requires run { (W : World) × (sub : Standing) × (whole : Answer) × Holds W sub whole m.old Failed }
    requires last { EndsWith (Slot.Those strategy scope mark any) m.old.frames }
    ensures ok { (W : World) → IfOk result (λ next. Turn W m.old Failed m.new next) }
    ensures less { IfOk result (λ next. Falls m.old Failed m.new next) }
{
    if let Some(edits) = m.frames.pass_child(&mut m.part)? {
        m.trail.cut(edits);
        m.cells.back_to(mark);
        return Ok(m.begins(strategy, scope));
    }
    let walk = m.frames.pop_walk();
    let Some(next) = walk.index.checked_add(1) else {
        drop_walk(walk);
        return Err(NoMemory);
    };
    m.trail.cut(walk.edits);
    m.level = walk.level;
    m.cells.back_to(mark);
    put(&mut m.part, walk.node);
    put_parts(&mut m.parts, walk.parts);
    go_over(alloc, m, strategy, scope, next, any)
}

// The rest of a list failed, so the list fails.
#[inline(always)]
fn fail_rest<'t>(m: &mut Machine<'t>, edits: usize) -> Result<Turned, NoMemory>
    requires { (count : ℕ) × EndsWith (Slot.Rest count edits) m.old.frames }
    ensures ok { (W : World) → IfOk result (λ next. Turn W m.old Failed m.new next) }
    ensures less { IfOk result (λ next. Falls m.old Failed m.new next) }
{
    let Front { node, parts } = m.frames.pop_front();
    drop_parts(parts);
    drop_part(node);
    m.trail.cut(edits);
    Ok(m.fails())
}

// The rest after the first element failed, so the list fails.
#[inline(always)]
fn fail_after<'t>(m: &mut Machine<'t>, edits: usize) -> Result<Turned, NoMemory>
    requires { EndsWith (Slot.After edits) m.old.frames }
    ensures ok { (W : World) → IfOk result (λ next. Turn W m.old Failed m.new next) }
    ensures less { IfOk result (λ next. Falls m.old Failed m.new next) }
{
    let First { node, part } = m.frames.pop_first();
    drop_changed(part);
    drop_part(node);
    m.trail.cut(edits);
    Ok(m.fails())
}
