//! Calls of the shape `try(s)` with `try(s) = s <+ id`: the choice starts at once, with the
//! strategy itself in place of its name.

ghost use Rattle.std.specs.Prelude.{◌≡◌, ◌<◌, ◌≤◌, ℕ, List, length, IfOk, IfSome};
ghost use Rattle.std.specs.Bool.{OnTrue};
ghost use Rattle.term_core.specs.declared.TheConstants.{MAX_ROOM};
ghost use Rattle.strategy_syntax.specs.Resolved.{ResolvedPattern, ResolvedStrategy, id, call, resolveds_of, resolved_patterns_of};
ghost use Rattle.strategy_machine.specs.inside.Tries.{IsTry, IsItself};
ghost use Rattle.strategy_machine.specs.Table.{scopes as scopes_of};
ghost use Rattle.strategy_machine.specs.Turns.{world_of};
ghost use Rattle.strategy_machine.specs.inside.Taking.{Takes, TakeFalls};

use crate::forms::take_guard;
use crate::frames::Turned;
use crate::machine::{Host, Machine};
use crate::scopes::is_name;
use prim_core::Meaning;
use std::alloc::Global;
use strategy_syntax::{Resolved, ResolvedForm as Form, ResolvedPattern, ResolvedStrategy};
use term_core::NoMemory;

/// A strategy to try, with the second and the third branch of the choice.
#[derive(Clone, Copy)]
pub(crate) struct Try<'t> {
    pub first: &'t ResolvedStrategy,
    pub second: &'t ResolvedStrategy,
    pub other: &'t ResolvedStrategy,
}

/// The strategy to try, if the call has this shape and the strategy is no name.
#[inline(always)]
pub(crate) fn tried<'t>(
    definitions: &'t [Resolved],
    definition: usize,
    strategies: &'t [ResolvedStrategy],
    patterns: &[ResolvedPattern],
) -> Option<Try<'t>>
    ensures { IfSome result (λ t. IsTry definitions.entry.now definition strategies.entry.now patterns.now t) }
{
    if strategies.len() != 1 || patterns.len() != 0 {
        return None;
    }
    let body = definitions.get(definition)?;
    if body.variables != 0 {
        return None;
    }
    let Form::Guard(parts) = body.strategy.form() else {
        return None;
    };
    if is_name(&parts.0, 0) && is_id(&parts.1) && is_id(&parts.2) && is_itself(&strategies[0]) {
        return Some(Try {
            first: &strategies[0],
            second: &parts.1,
            other: &parts.2,
        });
    }
    None
}

// Whether the strategy is `id`.
#[inline(always)]
fn is_id(strategy: &ResolvedStrategy) -> bool
    ensures { OnTrue result (strategy.now ≡ id) }
{
    match strategy.form() {
        Form::Id => true,
        _ => false,
    }
}

// Whether the strategy, as an argument, is itself and no name.
#[inline(always)]
fn is_itself(strategy: &ResolvedStrategy) -> bool
    ensures { OnTrue result (IsItself strategy.now) }
{
    match strategy.form() {
        Form::Param(_) => false,
        _ => true,
    }
}

/// The choice of such a call. Its step and that of the name are charged already.
#[inline(always)]
pub(crate) fn take_try<'t, M: Meaning>(
    alloc: Global,
    host: &Host<'t, M>,
    m: &mut Machine<'t>,
    t: Try<'t>,
    scope: usize,
) -> Result<Turned, NoMemory>
    requires there { scope < length (scopes_of m.old.scopes) }
    requires room { host.now.room ≤ MAX_ROOM }
    ensures ok { IfOk result (λ next. (f : ℕ) (ss : List ResolvedStrategy) (ps : List ResolvedPattern) → IsTry host.now.definitions.now f ss ps t.entry
        → Takes (world_of M.meaning host.now.definitions.now host.now.primitives.now host.now.room) m.old (call f (resolveds_of ss) (resolved_patterns_of ps)) scope m.old.part m.new next) }
    ensures less { IfOk result (λ next. TakeFalls m.old m.new next) }
{
    if m.steps < 2 {
        return Ok(Turned::Spent);
    }
    m.steps -= 2;
    take_guard(alloc, host, m, t.first, t.second, t.other, scope)
}
