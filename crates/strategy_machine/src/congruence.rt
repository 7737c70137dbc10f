//! Congruences, and the selection of a child.

ghost use Rattle.std.specs.Prelude.{◌≡◌, ◌<◌, true, IfOk};
ghost use Rattle.term_core.specs.Tree.{children};
ghost use Rattle.strategy_syntax.specs.Heads.{head_of};
ghost use Rattle.strategy_meaning.specs.Matching.{elements};
ghost use Rattle.strategy_meaning.specs.Meaning.{is_over as is_headed_over, is_list_from as has_elements, World};
ghost use Rattle.strategy_syntax.specs.Resolved.{congruence, tail_congruence, child, no_strategies, and_strategy, resolveds_of};
ghost use Rattle.term_changes.specs.Standing.{standing_tree};
ghost use Rattle.strategy_machine.specs.Leading.{Has};
ghost use Rattle.strategy_machine.specs.inside.Taking.{Takes, TakeFalls};

use crate::children::{descend, go_on};
use crate::frames::{Acts, Turned};
use crate::machine::Machine;
use crate::stack::Slot;
use std::alloc::Global;
use strategy_syntax::{Head, ResolvedStrategy};
use term_core::{Kind, NoMemory};
use term_values::Part;

/// Whether the part has this head and `count` children.
#[inline(always)]
pub(crate) fn is_over(head: &Head, count: usize, part: &Part<'_>) -> bool
    ensures { result ≡ is_headed_over (head_of head.now) count (standing_tree part.now) }
{
    part.child_count() == count && head.is_head_of(part.kind())
}

/// Whether the part is a list of at least `count` elements.
#[inline(always)]
pub(crate) fn is_list_from(count: usize, part: &Part<'_>) -> bool
    ensures { result ≡ has_elements count (elements (standing_tree part.now)) }
{
    match part.kind() {
        Kind::List => count <= part.child_count(),
        _ => false,
    }
}

/// A strategy for each child, if the head and the number of children agree.
pub(crate) fn take_congruence<'t>(
    alloc: Global,
    m: &mut Machine<'t>,
    head: &Head,
    strategies: &'t [ResolvedStrategy],
    scope: usize,
) -> Result<Turned, NoMemory>
    requires { Has m.old.part }
    ensures ok { (W : World) → IfOk result (λ next. Takes W m.old (congruence (head_of head.now) (resolveds_of strategies.entry.now)) scope m.old.part m.new next) }
    ensures less { IfOk result (λ next. TakeFalls m.old m.new next) }
{
    if !is_over(head, strategies.len(), &m.part) {
        return Ok(m.fails());
    }
    m.parts.clear();
    go_on(alloc, m, Acts::List(strategies), scope, 0)
}

/// A strategy for each of the first elements of a list, and one for the list of the rest.
pub(crate) fn take_tail<'t>(
    alloc: Global,
    m: &mut Machine<'t>,
    strategies: &'t [ResolvedStrategy],
    tail: &'t ResolvedStrategy,
    scope: usize,
) -> Result<Turned, NoMemory>
    requires { Has m.old.part }
    ensures ok { (W : World) → IfOk result (λ next. Takes W m.old (tail_congruence (resolveds_of strategies.entry.now) tail.entry.now) scope m.old.part m.new next) }
    ensures less { IfOk result (λ next. TakeFalls m.old m.new next) }
{
    let count = strategies.len();
    if !is_list_from(count, &m.part) {
        return Ok(m.fails());
    }
    if count == 1 {
        return take_head(alloc, m, &strategies[0], tail, scope);
    }
    m.frames.wait(Slot::Tail { tail, scope, count })?;
    m.parts.clear();
    go_on(alloc, m, Acts::List(strategies), scope, 0)
}

// A strategy for the first element of a list, and one for the list of the rest.
fn take_head<'t>(
    alloc: Global,
    m: &mut Machine<'t>,
    first: &'t ResolvedStrategy,
    tail: &'t ResolvedStrategy,
    scope: usize,
) -> Result<Turned, NoMemory>
    requires { has_elements 1 (elements (standing_tree m.old.part)) ≡ true }
    ensures ok { (W : World) → IfOk result (λ next. Takes W m.old
        (tail_congruence (and_strategy first.entry.now no_strategies) tail.entry.now) scope m.old.part m.new next) }
    ensures less { IfOk result (λ next. TakeFalls m.old m.new next) }
{
    let Some(child) = m.part.child(0)? else {
        return Ok(m.fails());
    };
    let walk = descend(m, child, Vec::new(alloc), 0)?;
    m.frames.wait_with_walk(Slot::Head { tail, scope }, walk)?;
    Ok(m.begins(first, scope))
}

/// A strategy for one child, counted from 1.
pub(crate) fn take_child<'t>(
    alloc: Global,
    m: &mut Machine<'t>,
    number: usize,
    inner: &'t ResolvedStrategy,
    scope: usize,
) -> Result<Turned, NoMemory>
    requires { Has m.old.part }
    ensures ok { (W : World) → IfOk result (λ next. Takes W m.old (child number inner.entry.now) scope m.old.part m.new next) }
    ensures less { IfOk result (λ next. TakeFalls m.old m.new next) }
{
    if number == 0 {
        return Ok(m.fails());
    }
    m.parts.clear();
    let alone = Acts::List(std::slice::from_ref(inner));
    go_on(alloc, m, alone, scope, number - 1)
}
