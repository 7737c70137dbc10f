//! How a strategy starts.

ghost use Rattle.std.specs.Prelude.{◌≡◌, ◌<◌, ◌≤◌, length, IfOk};
ghost use Rattle.term_core.specs.declared.TheConstants.{MAX_ROOM};
ghost use Rattle.strategy_machine.specs.Table.{scopes as scopes_of};
ghost use Rattle.strategy_machine.specs.Hands.{Begin};
ghost use Rattle.strategy_machine.specs.Leading.{Has};
ghost use Rattle.strategy_machine.specs.Turns.{Turn, Falls, world_of};
ghost use Rattle.strategy_machine.specs.inside.Taking.{Takes, TakeFalls};

use crate::calls::{take_call, take_param, take_prim, take_rec, take_scope};
use crate::children::{go_over, take_all, try_on};
use crate::congruence::{take_child, take_congruence, take_tail};
use crate::forms::{take_build, take_choice, take_match, take_seq, take_test};
use crate::frames::Turned;
use crate::machine::{Host, Machine};
use crate::names::start_of;
use prim_core::Meaning;
use std::alloc::Global;
use strategy_syntax::{ResolvedForm as Form, ResolvedStrategy};
use term_core::NoMemory;

/// Starts a strategy, which costs a step, or what it stands for.
#[inline(always)]
pub(crate) fn begin<'t, M: Meaning>(
    alloc: Global,
    host: &Host<'t, M>,
    m: &mut Machine<'t>,
    strategy: &'t ResolvedStrategy,
    scope: usize,
) -> Result<Turned, NoMemory>
    requires there { scope < length (scopes_of m.old.scopes) }
    requires has { Has m.old.part }
    requires room { host.now.room ≤ MAX_ROOM }
    ensures ok { IfOk result (λ next. Turn (world_of M.meaning host.now.definitions.now host.now.primitives.now host.now.room)
        m.old (Begin strategy.entry scope m.old.part) m.new next) }
    ensures less { IfOk result (λ next. Falls m.old (Begin strategy.entry scope m.old.part) m.new next) }
{
    let Some(start) = start_of(host, &m.scopes, strategy, scope, m.steps) else {
        return Ok(Turned::Spent);
    };
    m.steps = start.left;
    take(alloc, host, m, start.strategy, start.scope)
}

// Continues with a strategy by its form.
#[inline(always)]
fn take<'t, M: Meaning>(
    alloc: Global,
    host: &Host<'t, M>,
    m: &mut Machine<'t>,
    strategy: &'t ResolvedStrategy,
    scope: usize,
) -> Result<Turned, NoMemory>
    requires there { scope < length (scopes_of m.old.scopes) }
    requires has { Has m.old.part }
    requires room { host.now.room ≤ MAX_ROOM }
    ensures ok { IfOk result (λ next. Takes (world_of M.meaning host.now.definitions.now host.now.primitives.now host.now.room)
        m.old strategy.entry.now scope m.old.part m.new next) }
    ensures less { IfOk result (λ next. TakeFalls m.old m.new next) }
{
    match strategy.form() {
        Form::Id => Ok(m.gives()),
        Form::Fail => Ok(m.fails()),
        Form::Match(pattern) => take_match(alloc, m, pattern, scope),
        Form::Build(pattern) => take_build(alloc, host.room, m, pattern, scope),
        Form::Seq(parts) => take_seq(alloc, m, &parts.0, &parts.1, scope),
        Form::Guard(parts) => {
            take_choice(
                alloc, host, m, strategy, &parts.0, &parts.1, &parts.2, scope,
            )
        }
        Form::Test(inner) => take_test(m, inner, scope),
        Form::Scope(count, inner) => take_scope(alloc, host.room, m, *count, inner, scope),
        Form::Param(name) => Ok(take_param(m, *name, scope)),
        Form::Call(definition, strategies, patterns) => {
            take_call(alloc, host, m, *definition, strategies, patterns, scope)
        }
        Form::Congruence(head, strategies) => take_congruence(alloc, m, head, strategies, scope),
        Form::TailCongruence(strategies, tail) => take_tail(alloc, m, strategies, tail, scope),
        Form::All(inner) => take_all(alloc, m, inner, scope),
        Form::One(inner) => try_on(alloc, m, inner, scope, 0),
        Form::Some(inner) => {
            m.parts.clear();
            go_over(alloc, m, inner, scope, 0, false)
        }
        Form::Child(number, inner) => take_child(alloc, m, *number, inner, scope),
        Form::Rec(body) => take_rec(m, strategy, body, scope),
        Form::Prim(primitive, patterns) => {
            take_prim(alloc, host, m, *primitive, patterns, scope)
        }
    }
}
