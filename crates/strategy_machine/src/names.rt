//! What names stand for, and calls that open nothing: other strategies, which start without a turn
//! of their own.

ghost use Rattle.std.specs.Prelude.{◌≡◌, ◌<◌, [], length, IfSome, MatchOption};
ghost use Rattle.strategy_meaning.specs.Scopes.{inside, arguments};
ghost use Rattle.strategy_syntax.specs.Resolved.{call, resolveds_of, resolved_patterns_of};
ghost use Rattle.strategy_machine.specs.Table.{scopes as scopes_of, scope_at};
ghost use Rattle.strategy_machine.specs.Turns.{world_of};
ghost use Rattle.strategy_machine.specs.inside.Names.{Runs, ComesTo, IsSpent};

use crate::machine::{Host, Machine};
use crate::scopes::{Closure, Scopes};
use prim_core::Meaning;
use strategy_syntax::{ResolvedForm as Form, ResolvedPattern, ResolvedStrategy};

/// A strategy whose step is charged, its scope, and the steps left.
#[derive(Clone, Copy)]
pub(crate) struct Charged<'t> {
    pub strategy: &'t ResolvedStrategy,
    pub scope: usize,
    pub left: u64,
}

impl<'t> Machine<'t> {
    /// What the strategy stands for in the scope, if it is a name or a call that opens nothing:
    /// such a strategy starts without a turn of its own.
    pub fn stands_for<M: Meaning>(
        &self,
        host: &Host<'t, M>,
        strategy: &'t ResolvedStrategy,
        scope: usize,
    ) -> Option<Closure<'t>> {
        if scope >= self.scopes.count() {
            return None;
        }
        known_as(host, &self.scopes, strategy, scope)
    }
}

/// What starts in the end, through names and calls that open nothing, each of which costs a step;
/// `None` if the steps don't suffice.
#[inline(always)]
pub(crate) fn start_of<'t, M: Meaning>(
    host: &Host<'t, M>,
    scopes: &Scopes<'t>,
    strategy: &'t ResolvedStrategy,
    scope: usize,
    steps: u64,
) -> Option<Charged<'t>>
    requires { scope < length (scopes_of scopes.now) }
    ensures { MatchOption result
        (IsSpent (world_of M.meaning host.now.definitions.now host.now.primitives.now host.now.room) (scopes_of scopes.now) strategy.entry.now scope steps)
        (λ s. ComesTo (world_of M.meaning host.now.definitions.now host.now.primitives.now host.now.room) (scopes_of scopes.now) strategy.entry.now scope steps s.strategy.now s.scope s.left) }
{
    let mut strategy = strategy;
    let mut scope = scope;
    let mut left = steps;
    'through: loop {
        if left == 0 {
            return None;
        }
        left -= 1;
        let Some(known) = known_as(host, scopes, strategy, scope) else {
            return Some(Charged {
                strategy,
                scope,
                left,
            });
        };
        strategy = known.strategy;
        scope = known.written_in;
    }
}

// What the strategy stands for, if it is a name or a call that opens nothing.
#[inline(always)]
fn known_as<'t, M: Meaning>(
    host: &Host<'t, M>,
    scopes: &Scopes<'t>,
    strategy: &'t ResolvedStrategy,
    scope: usize,
) -> Option<Closure<'t>>
    requires { scope < length (scopes_of scopes.now) }
    ensures { IfSome result (λ k. Runs (world_of M.meaning host.now.definitions.now host.now.primitives.now host.now.room) (scopes_of scopes.now)
        strategy.entry.now scope k.strategy.now k.written_in) }
{
    match strategy.form() {
        Form::Param(name) => scopes.named(scope, *name),
        Form::Call(definition, strategies, patterns) => {
            ready_body(host, scopes, *definition, strategies, patterns, scope)
        }
        _ => None,
    }
}

// The body of a definition, if it can start in a scope that is there.
#[inline(always)]
fn ready_body<'t, M: Meaning>(
    host: &Host<'t, M>,
    scopes: &Scopes<'t>,
    definition: usize,
    strategies: &[ResolvedStrategy],
    patterns: &[ResolvedPattern],
    scope: usize,
) -> Option<Closure<'t>>
    requires { scope < length (scopes_of scopes.now) }
    ensures { IfSome result (λ k. Runs (world_of M.meaning host.now.definitions.now host.now.primitives.now host.now.room) (scopes_of scopes.now)
        (call definition (resolveds_of strategies.now) (resolved_patterns_of patterns.now)) scope k.strategy.now k.written_in) }
{
    if patterns.len() != 0 {
        return None;
    }
    let body = host.definitions.get(definition)?;
    if body.variables != 0 {
        return None;
    }
    let inside = ready_scope(scopes, strategies, scope)?;
    Some(Closure {
        strategy: &body.strategy,
        written_in: inside,
    })
}

// The scope of a body without variables, if it is there: the empty one if the call passes no
// strategies, or the current one if it passes all its names on.
#[inline(always)]
fn ready_scope(scopes: &Scopes<'_>, strategies: &[ResolvedStrategy], scope: usize) -> Option<usize>
    requires { scope < length (scopes_of scopes.now) }
    ensures there { IfSome result (λ n. n < length (scopes_of scopes.now)) }
    ensures scope { IfSome result (λ n. scope_at (scopes_of scopes.now) n
        ≡ inside [] (arguments (scope_at (scopes_of scopes.now) scope) (resolveds_of strategies.now))) }
{
    if strategies.is_empty() {
        return scopes.nowhere();
    }
    if !scopes.hands_all_on(scope, strategies) {
        return None;
    }
    Some(scope)
}
