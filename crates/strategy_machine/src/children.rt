//! Strategies on children.

ghost use Rattle.std.specs.Prelude.{◌≡◌, ◌≤◌, ℕ, suc, ◌-◌, ◌==◌, false, [], ◌∷◌, ◌++◌, cond, length, MatchOption, IfOk, IfSome, OnOk, slice_get, slice_set};
ghost use Rattle.term_core.specs.Tree.{children};
ghost use Rattle.term_changes.specs.Standing.{standing_tree, standing_children};
ghost use Rattle.strategy_meaning.specs.Meaning.{World};
ghost use Rattle.strategy_machine.specs.Frames.{acts_list};
ghost use Rattle.strategy_machine.specs.Leading.{PartsStand, all_parts, node_with, parts_now};
ghost use Rattle.strategy_machine.specs.declared.frames.Acts.TheVariants.{Same};
ghost use Rattle.strategy_machine.specs.inside.Filling.{Fills};
ghost use Rattle.strategy_machine.specs.inside.Walks.{StaysSame};
ghost use Rattle.strategy_machine.specs.Hands.{Each, Leftmost, Those};
ghost use Rattle.strategy_machine.specs.Turns.{Turn, Falls};
ghost use Rattle.strategy_machine.specs.inside.Turning.{GoesIn, EndFalls, Descends};
ghost use Rattle.strategy_machine.specs.inside.Taking.{Takes, TakeFalls};
ghost use Rattle.strategy_syntax.specs.Resolved.{all};

use crate::frames::{Acts, Turned, Walk, drop_part, drop_parts, put_parts};
use crate::lists::end_each;
use crate::machine::Machine;
use crate::stack::Slot;
use std::alloc::Global;
use std::mem;
use strategy_syntax::ResolvedStrategy;
use term_core::NoMemory;
use term_values::Part;

// The strategy for the next child and those for the children after it, if `left` children remain.
pub(crate) fn next_act<'t>(acts: Acts<'t>, left: usize) -> Option<(&'t ResolvedStrategy, Acts<'t>)>
    ensures { MatchOption result (acts_list acts.entry left ≡ [])
        (λ found. acts_list acts.entry left ≡ found.0.now ∷ acts_list found.1 (left - 1)) }
{
    match acts {
        Acts::Same(strategy) => {
            if left == 0 {
                return None;
            }
            Some((strategy, Acts::Same(strategy)))
        }
        Acts::List(strategies) => {
            if strategies.is_empty() {
                return None;
            }
            Some((&strategies[0], Acts::List(&strategies[1..])))
        }
    }
}

/// `next_act` if a child is known to remain.
#[inline(always)]
pub(crate) fn first_act<'t>(acts: Acts<'t>) -> Option<(&'t ResolvedStrategy, Acts<'t>)>
    ensures first { IfSome result (λ found. (k : ℕ) → acts_list acts.entry (suc k) ≡ found.0.now ∷ acts_list found.1 k) }
    ensures same { IfSome result (λ found. StaysSame acts.entry found.1) }
{
    match acts {
        Acts::Same(strategy) => Some((strategy, Acts::Same(strategy))),
        Acts::List(strategies) => {
            if strategies.is_empty() {
                return None;
            }
            Some((&strategies[0], Acts::List(&strategies[1..])))
        }
    }
}

/// The part in the place of child `i`, given those of the first children.
#[inline(always)]
pub(crate) fn child_now<'t>(
    node: &Part<'t>,
    parts: &[Part<'t>],
    i: usize,
) -> Result<Option<Part<'t>>, NoMemory>
    ensures { IfOk result (λ child. child ≡ slice_get (parts_now node.now (all_parts node.now parts.now)) i) }
{
    if i >= parts.len() {
        return node.child(i);
    }
    Ok(Some(parts[i].try_clone()?))
}

// Appends parts for further children until there are `count`, or one for each child.
#[inline(always)]
fn fill<'t>(parts: &mut Vec<Part<'t>>, node: &Part<'t>, count: usize) -> Result<(), NoMemory>
    ensures { OnOk result (Fills (standing_children node.now) parts.old.items count parts.new.items) }
{
    if parts.len() >= count {
        return Ok(());
    }
    fill_missing(parts, node, count)?;
    Ok(())
}

// Appends these parts one by one.
#[inline(never)]
fn fill_missing<'t>(
    parts: &mut Vec<Part<'t>>,
    node: &Part<'t>,
    count: usize,
) -> Result<(), NoMemory>
    ensures { OnOk result (Fills (standing_children node.now) parts.old.items count parts.new.items) }
{
    'fill: while parts.len() < count {
        let Some(child) = node.child(parts.len())? else {
            return Ok(());
        };
        parts.push(child)?;
    }
    Ok(())
}

/// Replaces the node by the node with these parts in the places of its first children.
#[inline(always)]
pub(crate) fn finish<'t>(
    alloc: Global,
    node: &mut Part<'t>,
    parts: &mut Vec<Part<'t>>,
    spares: &mut Vec<Vec<Part<'t>>>,
) -> Result<(), NoMemory>
    requires { PartsStand node.old (all_parts node.old parts.old.items) }
    ensures { OnOk result (node.new ≡ node_with node.old parts.old.items) }
{
    if parts.is_empty() {
        return Ok(());
    }
    finish_changed(alloc, node, parts, spares)
}

// `finish` if a child has changed.
#[inline(never)]
fn finish_changed<'t>(
    alloc: Global,
    node: &mut Part<'t>,
    parts: &mut Vec<Part<'t>>,
    spares: &mut Vec<Vec<Part<'t>>>,
) -> Result<(), NoMemory>
    requires stand { PartsStand node.old (all_parts node.old parts.old.items) }
    requires some { (length parts.old.items == 0) ≡ false }
    ensures { OnOk result (node.new ≡ node_with node.old parts.old.items) }
{
    let mut all = mem::replace(parts, Vec::new(alloc));
    fill(&mut all, node, node.child_count())?;
    let whole = node.over_parts(alloc, &mut all)?;
    *node = whole;
    keep_spare(spares, all);
    Ok(())
}

// Keeps the memory of a vector without elements for the parts of another node.
#[inline(always)]
fn keep_spare<'t>(spares: &mut Vec<Vec<Part<'t>>>, parts: Vec<Part<'t>>) {
    if parts.is_empty() && parts.capacity() != 0 && spares.reserve(1).is_ok() {
        spares.push_reserved(parts);
        return;
    }
    drop_parts(parts);
}

// Gives a vector without elements the memory of a spare one, if there is one.
#[inline(always)]
fn use_spare<'t>(parts: &mut Vec<Part<'t>>, spares: &mut Vec<Vec<Part<'t>>>)
    ensures { parts.new.items ≡ parts.old.items }
{
    if !parts.is_empty() || spares.is_empty() {
        return;
    }
    let spare = spares.take_last();
    if spare.is_empty() {
        put_parts(parts, spare);
    } else {
        drop_parts(spare);
    }
}

/// If child `i` of the `count` children has changed, puts its part at its index; missing parts of
/// unchanged children before it are filled in.
#[inline(always)]
pub(crate) fn settle<'t>(
    parts: &mut Vec<Part<'t>>,
    spares: &mut Vec<Vec<Part<'t>>>,
    node: &Part<'t>,
    i: usize,
    count: usize,
    part: Part<'t>,
    changed: bool,
) -> Result<(), NoMemory>
    requires { count ≡ length (children (standing_tree node.now)) }
    ensures { OnOk result (all_parts node.now parts.new.items
        ≡ cond changed (slice_set (parts_now node.now (all_parts node.now parts.old.items)) i part.entry) (all_parts node.now parts.old.items)) }
{
    if !changed {
        drop_part(part);
        return Ok(());
    }
    if i < parts.len() {
        parts[i] = part;
        return Ok(());
    }
    use_spare(parts, spares);
    match fill(parts, node, i) {
        Ok(()) => {
            if parts.len() < i {
                drop_part(part);
                return Ok(());
            }
            if i >= count {
                drop_part(part);
                return Ok(());
            }
            add(parts, part, count - i)?;
            Ok(())
        }
        Err(error) => {
            drop_part(part);
            Err(error)
        }
    }
}

// Appends the part. There is room for so many then: in the end a changed node has a part for each
// child.
#[inline(always)]
fn add<'t>(parts: &mut Vec<Part<'t>>, part: Part<'t>, room: usize) -> Result<(), NoMemory>
    requires { 1 ≤ room }
    ensures { OnOk result (parts.new.items ≡ parts.old.items ++ part.entry ∷ []) }
{
    if parts.len() < parts.capacity() {
        parts.push_reserved(part);
        return Ok(());
    }
    match parts.reserve_exact(room) {
        Ok(()) => {
            parts.push_reserved(part);
            Ok(())
        }
        Err(_) => {
            drop_part(part);
            Err(NoMemory)
        }
    }
}

/// Goes down from the focus into the child at this index, given the parts in the places of the
/// first children. Returns the walk that holds the node.
#[inline(always)]
pub(crate) fn descend<'t>(
    m: &mut Machine<'t>,
    child: Part<'t>,
    parts: Vec<Part<'t>>,
    index: usize,
) -> Result<Walk<'t>, NoMemory>
    ensures down { IfOk result (λ walk. Descends m.old child.entry parts.entry index m.new walk) }
    ensures steps { OnOk result (m.new.steps ≡ m.old.steps) }
    ensures len { OnOk result (length m.new.frames ≡ length m.old.frames) }
{
    let level = m.level;
    if level == u64::MAX {
        drop_parts(parts);
        drop_part(child);
        return Err(NoMemory);
    }
    m.level += 1;
    let node = mem::replace(&mut m.part, child);
    Ok(Walk {
        node,
        parts,
        index,
        level,
        edits: m.trail.count,
    })
}

/// A strategy on each child.
#[inline(always)]
pub(crate) fn take_all<'t>(
    alloc: Global,
    m: &mut Machine<'t>,
    strategy: &'t ResolvedStrategy,
    scope: usize,
) -> Result<Turned, NoMemory>
    ensures ok { (W : World) → IfOk result (λ next. Takes W m.old (all strategy.entry.now) scope m.old.part m.new next) }
    ensures less { IfOk result (λ next. TakeFalls m.old m.new next) }
{
    if m.part.child_count() == 0 {
        return Ok(m.gives());
    }
    go_in(alloc, m, strategy, scope)
}

/// Begins with the first child, if there is one; no child has changed yet.
#[inline(never)]
pub(crate) fn go_in<'t>(
    alloc: Global,
    m: &mut Machine<'t>,
    strategy: &'t ResolvedStrategy,
    scope: usize,
) -> Result<Turned, NoMemory>
    ensures ok { (W : World)
        → acts_list (Same strategy.entry) (length (children (standing_tree m.old.part)) - 0) ≡ strategy.entry.now ∷ acts_list (Same strategy.entry) (length (children (standing_tree m.old.part)) - 0 - 1)
        → IfOk result (λ next. GoesIn W m.old (Same strategy.entry) scope m.old.part 0 m.new next) }
    ensures less { IfOk result (λ next. EndFalls m.old m.new next) }
{
    let parts = Vec::new(alloc);
    let Some(child) = m.part.child(0)? else {
        drop_parts(parts);
        return Ok(m.fails());
    };
    let walk = descend(m, child, parts, 0)?;
    let slot = Slot::Each {
        acts: Acts::Same(strategy),
        scope,
    };
    m.frames.wait_with_walk(slot, walk)?;
    Ok(m.begins(strategy, scope))
}

/// Continues with the children from this index on.
#[inline(always)]
pub(crate) fn go_on<'t>(
    alloc: Global,
    m: &mut Machine<'t>,
    acts: Acts<'t>,
    scope: usize,
    index: usize,
) -> Result<Turned, NoMemory>
    requires { PartsStand m.old.part (all_parts m.old.part m.old.parts.items) }
    ensures ok { (W : World) → IfOk result (λ next. Turn W m.old (Each acts.entry scope m.old.part index m.old.parts) m.new next) }
    ensures less { IfOk result (λ next. Falls m.old (Each acts.entry scope m.old.part index m.old.parts) m.new next) }
{
    let count = m.part.child_count();
    let left = count.saturating_sub(index);
    let Some((strategy, others)) = next_act(acts, left) else {
        return end_each(alloc, m);
    };
    go_down(alloc, m, strategy, others, scope, index)
}

// Continues with the child at this index, whose strategy this is.
#[inline(never)]
fn go_down<'t>(
    alloc: Global,
    m: &mut Machine<'t>,
    strategy: &'t ResolvedStrategy,
    others: Acts<'t>,
    scope: usize,
    index: usize,
) -> Result<Turned, NoMemory>
    ensures ok { (W : World) (acts : Acts)
        → acts_list acts (length (children (standing_tree m.old.part)) - index) ≡ strategy.entry.now ∷ acts_list others.entry (length (children (standing_tree m.old.part)) - index - 1)
        → IfOk result (λ next. Turn W m.old (Each acts scope m.old.part index m.old.parts) m.new next) }
    ensures less { IfOk result (λ next. EndFalls m.old m.new next) }
{
    let Some(child) = child_now(&m.part, &m.parts, index)? else {
        return Ok(m.fails());
    };
    let parts = mem::replace(&mut m.parts, Vec::new(alloc));
    let walk = descend(m, child, parts, index)?;
    let slot = Slot::Each {
        acts: others,
        scope,
    };
    m.frames.wait_with_walk(slot, walk)?;
    Ok(m.begins(strategy, scope))
}

/// Tries the children from this index on until the strategy succeeds on one.
#[inline(always)]
pub(crate) fn try_on<'t>(
    alloc: Global,
    m: &mut Machine<'t>,
    strategy: &'t ResolvedStrategy,
    scope: usize,
    index: usize,
) -> Result<Turned, NoMemory>
    ensures ok { (W : World) → IfOk result (λ next. Turn W m.old (Leftmost strategy.entry scope m.old.part index) m.new next) }
    ensures less { IfOk result (λ next. Falls m.old (Leftmost strategy.entry scope m.old.part index) m.new next) }
{
    let Some(child) = m.part.child(index)? else {
        return Ok(m.fails());
    };
    let mark = m.cells.mark();
    let walk = descend(m, child, Vec::new(alloc), index)?;
    let slot = Slot::Leftmost {
        strategy,
        scope,
        mark,
    };
    m.frames.wait_with_walk(slot, walk)?;
    Ok(m.begins(strategy, scope))
}

/// Continues with the children from this index on, whether or not the strategy succeeds on them.
pub(crate) fn go_over<'t>(
    alloc: Global,
    m: &mut Machine<'t>,
    strategy: &'t ResolvedStrategy,
    scope: usize,
    index: usize,
    any: bool,
) -> Result<Turned, NoMemory>
    requires { PartsStand m.old.part (all_parts m.old.part m.old.parts.items) }
    ensures ok { (W : World) → IfOk result (λ next. Turn W m.old (Those strategy.entry scope m.old.part index any m.old.parts) m.new next) }
    ensures less { IfOk result (λ next. Falls m.old (Those strategy.entry scope m.old.part index any m.old.parts) m.new next) }
{
    let Some(child) = child_now(&m.part, &m.parts, index)? else {
        if !any {
            return Ok(m.fails());
        }
        finish(alloc, &mut m.part, &mut m.parts, &mut m.spares)?;
        return Ok(m.gives());
    };
    let mark = m.cells.mark();
    let parts = mem::replace(&mut m.parts, Vec::new(alloc));
    let walk = descend(m, child, parts, index)?;
    let slot = Slot::Those {
        strategy,
        scope,
        mark,
        any,
    };
    m.frames.wait_with_walk(slot, walk)?;
    Ok(m.begins(strategy, scope))
}
