//! Lists whose first elements and whose rest have strategies of their own.

ghost use Rattle.std.specs.Prelude.{◌≡◌, ◌≤◌, ◌++◌, cond, length, map, slice_get, take, Some, None, IfOk, IfSome, MatchOption};
ghost use Rattle.term_core.specs.Tree.{children, with_children};
ghost use Rattle.strategy_meaning.specs.Matching.{elements};
ghost use Rattle.strategy_meaning.specs.Answer.{Answer};
ghost use Rattle.strategy_meaning.specs.Meaning.{World};
ghost use Rattle.term_changes.specs.Standing.{Standing, standing_tree};
ghost use Rattle.strategy_machine.specs.Hands.{Done};
ghost use Rattle.strategy_machine.specs.Leading.{PartsStand, parts_now, all_parts, node_with};
ghost use Rattle.strategy_machine.specs.Frames.{first_part};
ghost use Rattle.strategy_machine.specs.declared.frames.Frame.{Frame};
ghost use Rattle.strategy_machine.specs.Turns.{Turn, Falls, Holds};
ghost use Rattle.strategy_machine.specs.inside.Slots.{EndsWith};
ghost use Rattle.strategy_machine.specs.inside.Turning.{Gives, GiveFalls, EndFalls};

use crate::children::finish;
use crate::forms::replace;
use crate::frames::{Turned, Walk, drop_changed, drop_part, drop_parts, drop_value};
use crate::heads::is_list as is_list_part;
use crate::machine::Machine;
use crate::stack::{First, Frames, Front, Slot};
use crate::tails::{first_values, in_front, rest_of_part, with_rest_after};
use std::alloc::Global;
use std::mem;
use strategy_syntax::ResolvedStrategy;
use term_core::NoMemory;
use term_match::is_list;
use term_values::{Part, Value};

// The first elements are done; the list with them becomes the focus.
#[inline(never)]
pub(crate) fn give_tail<'t>(
    alloc: Global,
    m: &mut Machine<'t>,
    tail: &'t ResolvedStrategy,
    scope: usize,
    count: usize,
) -> Result<Turned, NoMemory>
    requires run { (W : World) × (sub : Standing) × (whole : Answer) × Holds W sub whole m.old (Done m.old.part) }
    requires last { EndsWith (Slot.Tail tail scope count) m.old.frames }
    ensures ok { (W : World) → IfOk result (λ next. Turn W m.old (Done m.old.part) m.new next) }
    ensures less { IfOk result (λ next. Falls m.old (Done m.old.part) m.new next) }
{
    m.frames.pop();
    m.parts = Vec::new(alloc);
    begin_tail(alloc, m, tail, scope, count)
}

// If the innermost frame waits for the first elements of a list: the strategy for the rest, its
// scope, and the number of elements before the rest.
fn waiting_tail<'t>(frames: &Frames<'t>) -> Option<(&'t ResolvedStrategy, usize, usize)>
    ensures { IfSome result (λ w. EndsWith (Slot.Tail w.0 w.1 w.2) frames.now) }
{
    match frames.last()? {
        Slot::Tail { tail, scope, count } => Some((tail, scope, count)),
        _ => None,
    }
}

/// Gives the node so far to the innermost frame. If that waits for the first elements of a list,
/// the list with them isn't built.
#[inline(always)]
pub(crate) fn end_each<'t>(alloc: Global, m: &mut Machine<'t>) -> Result<Turned, NoMemory>
    requires { PartsStand m.old.part (all_parts m.old.part m.old.parts.items) }
    ensures ok { (W : World) → IfOk result (λ next. Turn W m.old (Done (node_with m.old.part m.old.parts.items)) m.new next) }
    ensures less { IfOk result (λ next. EndFalls m.old m.new next) }
{
    if let Some((tail, scope, count)) = waiting_tail(&m.frames) {
        if m.parts.len() <= count {
            m.frames.pop();
            return begin_tail(alloc, m, tail, scope, count);
        }
    }
    finish(alloc, &mut m.part, &mut m.parts, &mut m.spares)?;
    Ok(m.gives())
}

// The first elements are done and kept as parts; the list of the rest is opened as a part of its
// own.
#[inline(never)]
fn begin_tail<'t>(
    alloc: Global,
    m: &mut Machine<'t>,
    tail: &'t ResolvedStrategy,
    scope: usize,
    count: usize,
) -> Result<Turned, NoMemory>
    requires stand { PartsStand m.old.part (all_parts m.old.part m.old.parts.items) }
    requires first { length m.old.parts.items ≤ count }
    ensures ok { (W : World) → IfOk result (λ next. Gives W (Frame.Tail tail.entry scope count) m.old (Done (node_with m.old.part m.old.parts.items)) m.new next) }
    ensures less { IfOk result (λ next. GiveFalls m.old m.new next) }
{
    let rest = rest_of_part(alloc, &m.part, count)?;
    let node = mem::replace(&mut m.part, Part::new(rest));
    let parts = mem::replace(&mut m.parts, Vec::new(alloc));
    let edits = m.trail.count;
    m.frames
        .wait_with_front(Slot::Rest { count, edits }, Front { node, parts })?;
    Ok(m.begins(tail, scope))
}

// The rest succeeded. It has to be a list, else the whole fails.
pub(crate) fn give_rest<'t>(
    alloc: Global,
    m: &mut Machine<'t>,
    count: usize,
    edits: usize,
) -> Result<Turned, NoMemory>
    requires { EndsWith (Slot.Rest count edits) m.old.frames }
    ensures ok { (W : World) → IfOk result (λ next. Turn W m.old (Done m.old.part) m.new next) }
    ensures less { IfOk result (λ next. Falls m.old (Done m.old.part) m.new next) }
{
    let Front { node, parts } = m.frames.pop_front();
    m.trail.cut(edits);
    let found = after_those(alloc, &node, &parts, count, &m.part);
    drop_parts(parts);
    drop_part(node);
    match found? {
        None => Ok(m.fails()),
        Some(whole) => {
            replace(alloc, m, whole)?;
            Ok(m.gives())
        }
    }
}

// The node's root over the parts of its first `count` children followed by the children of `rest`,
// if that is a list.
#[inline(always)]
fn after_those<'t>(
    alloc: Global,
    node: &Part<'t>,
    parts: &[Part<'t>],
    count: usize,
    rest: &Part<'t>,
) -> Result<Option<Value<'t>>, NoMemory>
    ensures { IfOk result (λ found. MatchOption found (elements (standing_tree rest.now) ≡ None)
        (λ whole. (elements (standing_tree rest.now) ≡ Some (children (standing_tree rest.now))) × (whole ≡ with_children (standing_tree node.now)
        (take count (map standing_tree (parts_now node.now (all_parts node.now parts.now))) ++ children (standing_tree rest.now))))) }
{
    let rest = rest.value()?;
    let found = with_values(alloc, node, parts, count, &rest);
    drop_value(rest);
    found
}

#[inline(always)]
fn with_values<'t>(
    alloc: Global,
    node: &Part<'t>,
    parts: &[Part<'t>],
    count: usize,
    rest: &Value<'t>,
) -> Result<Option<Value<'t>>, NoMemory>
    ensures { IfOk result (λ found. MatchOption found (elements rest.now ≡ None)
        (λ whole. (elements rest.now ≡ Some (children rest.now)) × (whole ≡ with_children (standing_tree node.now)
        (take count (map standing_tree (parts_now node.now (all_parts node.now parts.now))) ++ children rest.now)))) }
{
    if !is_list(rest) {
        return Ok(None);
    }
    let list = node.value()?;
    let whole = with_list(alloc, node, parts, count, &list, rest);
    drop_value(list);
    Ok(Some(whole?))
}

#[inline(always)]
fn with_list<'t>(
    alloc: Global,
    node: &Part<'t>,
    parts: &[Part<'t>],
    count: usize,
    list: &Value<'t>,
    rest: &Value<'t>,
) -> Result<Value<'t>, NoMemory>
    ensures { IfOk result (λ whole. whole ≡ with_children list.now
        (take count (map standing_tree (parts_now node.now (all_parts node.now parts.now))) ++ children rest.now)) }
{
    let front = first_values(alloc, node, parts, count)?;
    with_rest_after(alloc, list, front, rest)
}

// The first element is done; the list of the rest is opened as a part of its own.
pub(crate) fn give_head<'t>(
    alloc: Global,
    m: &mut Machine<'t>,
    tail: &'t ResolvedStrategy,
    scope: usize,
) -> Result<Turned, NoMemory>
    requires { EndsWith (Slot.Head tail scope) m.old.frames }
    ensures ok { (W : World) → IfOk result (λ next. Turn W m.old (Done m.old.part) m.new next) }
    ensures less { IfOk result (λ next. Falls m.old (Done m.old.part) m.new next) }
{
    let Walk {
        node,
        parts,
        level,
        edits,
        ..
    } = m.frames.pop_walk();
    drop_parts(parts);
    m.level = level;
    let rest = match rest_of_part(alloc, &node, 1) {
        Ok(rest) => rest,
        Err(error) => {
            drop_part(node);
            return Err(error);
        }
    };
    let child = mem::replace(&mut m.part, Part::new(rest));
    let now = m.trail.count;
    let first = where_changed(child, now != edits);
    m.frames
        .wait_with_first(Slot::After { edits: now }, First { node, part: first })?;
    Ok(m.begins(tail, scope))
}

// The part, if it has changed.
#[inline(always)]
fn where_changed<'t>(part: Part<'t>, changed: bool) -> Option<Part<'t>>
    ensures { result ≡ cond changed (Some part.entry) None }
{
    if changed {
        Some(part)
    } else {
        drop_part(part);
        None
    }
}

// The part in the place of the first child.
#[inline(always)]
fn first_now<'t>(node: &Part<'t>, first: Option<Part<'t>>) -> Result<Option<Part<'t>>, NoMemory>
    ensures { IfOk result (λ child. child ≡ slice_get (parts_now node.now (all_parts node.now (first_part first.entry))) 0) }
{
    match first {
        Some(first) => Ok(Some(first)),
        None => node.child(0),
    }
}

// The list's root over the part of its first child followed by the children of `rest`.
#[inline(always)]
fn after_first<'t>(
    alloc: Global,
    list: &Part<'t>,
    first: Option<Part<'t>>,
    rest: Part<'t>,
) -> Result<Value<'t>, NoMemory>
    requires { elements (standing_tree list.now) ≡ Some (children (standing_tree list.now)) }
    ensures { IfOk result (λ whole. whole ≡ with_children (standing_tree list.now)
        (take 1 (map standing_tree (parts_now list.now (all_parts list.now (first_part first.entry)))) ++ children (standing_tree rest.entry))) }
{
    match first_now(list, first) {
        Ok(now) => match now {
            Some(first) => in_front(alloc, list, first, rest),
            None => {
                drop_part(rest);
                Err(NoMemory)
            }
        },
        Err(error) => {
            drop_part(rest);
            Err(error)
        }
    }
}

// The rest succeeded. It has to be a list, else the whole fails.
pub(crate) fn give_after<'t>(
    alloc: Global,
    m: &mut Machine<'t>,
    edits: usize,
) -> Result<Turned, NoMemory>
    requires run { (W : World) × (sub : Standing) × (whole : Answer) × Holds W sub whole m.old (Done m.old.part) }
    requires last { EndsWith (Slot.After edits) m.old.frames }
    ensures ok { (W : World) → IfOk result (λ next. Turn W m.old (Done m.old.part) m.new next) }
    ensures less { IfOk result (λ next. Falls m.old (Done m.old.part) m.new next) }
{
    let First { node, part: first } = m.frames.pop_first();
    m.trail.cut(edits);
    let rest = mem::replace(&mut m.part, node);
    if !is_list_part(&rest) {
        drop_part(rest);
        drop_changed(first);
        return Ok(m.fails());
    }
    let whole = after_first(alloc, &m.part, first, rest)?;
    replace(alloc, m, whole)?;
    Ok(m.gives())
}
