//! Calls of definitions and primitives, and the other forms that open scopes.

ghost use Rattle.std.specs.Prelude.{◌≡◌, ◌<◌, ◌≤◌, ◌++◌, map, replicate, length, Some, None, IfOk};
ghost use Rattle.term_core.specs.declared.TheConstants.{MAX_ROOM};
ghost use Rattle.strategy_syntax.specs.Resolved.{scope as scope_form, rec, param, call, prim, resolveds_of, resolved_patterns_of};
ghost use Rattle.strategy_machine.specs.Table.{scopes as scopes_of};
ghost use Rattle.strategy_meaning.specs.Laws.{in_room};
ghost use Rattle.strategy_meaning.specs.Meaning.{World, primitive_answer};
ghost use Rattle.strategy_machine.specs.Turns.{world_of};
ghost use Rattle.strategy_machine.specs.inside.Taking.{Takes, TakeFalls};
ghost use Rattle.strategy_machine.specs.inside.Endings.{Enters};

use crate::arguments::{BuiltAll, build_all, open_arguments};
use crate::endings::{end_cells, end_scopes};
use crate::forms::replace;
use crate::frames::Turned;
use crate::machine::{Host, Machine};
use crate::rules::take_rule;
use crate::scopes::Closure;
use crate::tries::{take_try, tried};
use prim_core::Meaning;
use std::alloc::Global;
use strategy_syntax::{Resolved, ResolvedForm as Form, ResolvedPattern, ResolvedStrategy};
use term_core::NoMemory;
use term_values::Value;

/// A strategy with `count` new variables. A rule is done at once.
pub(crate) fn take_scope<'t>(
    alloc: Global,
    room: u32,
    m: &mut Machine<'t>,
    count: usize,
    strategy: &'t ResolvedStrategy,
    scope: usize,
) -> Result<Turned, NoMemory>
    requires there { scope < length (scopes_of m.old.scopes) }
    requires room { room ≤ MAX_ROOM }
    ensures ok { (W : World) → IfOk result (λ next. Takes (in_room room W) m.old (scope_form count strategy.entry.now) scope m.old.part m.new next) }
    ensures less { IfOk result (λ next. TakeFalls m.old m.new next) }
{
    if let Form::Seq(parts) = strategy.form() {
        if let Form::Match(left) = parts.0.form() {
            if let Form::Build(right) = parts.1.form() {
                return take_rule(alloc, room, m, count, left, right, scope);
            }
        }
    }
    let first = m.cells.count();
    if first.checked_add(count).is_none() {
        return Err(NoMemory);
    }
    end_cells(m, scope)?;
    m.cells.open_cells(count)?;
    let inner = m.scopes.add_variables(Some(scope), first, count)?;
    Ok(m.begins(strategy, inner))
}

/// A strategy in which a new name stands for the whole strategy.
pub(crate) fn take_rec<'t>(
    m: &mut Machine<'t>,
    whole: &'t ResolvedStrategy,
    body: &'t ResolvedStrategy,
    scope: usize,
) -> Result<Turned, NoMemory>
    requires there { scope < length (scopes_of m.old.scopes) }
    requires whole { whole.now ≡ rec body.now }
    ensures ok { (W : World) → IfOk result (λ next. Takes W m.old (rec body.entry.now) scope m.old.part m.new next) }
    ensures less { IfOk result (λ next. TakeFalls m.old m.new next) }
{
    end_scopes(m, scope)?;
    let known = Closure {
        strategy: whole,
        written_in: scope,
    };
    let inner = m.scopes.add_name(Some(scope), known)?;
    Ok(m.begins(body, inner))
}

/// The strategy that a name stands for.
pub(crate) fn take_param<'t>(m: &mut Machine<'t>, name: usize, scope: usize) -> Turned
    requires { scope < length (scopes_of m.old.scopes) }
    ensures ok { (W : World) → Takes W m.old (param name) scope m.old.part m.new result }
    ensures less { TakeFalls m.old m.new result }
{
    match m.scopes.named(scope, name) {
        None => m.fails(),
        Some(known) => m.begins(known.strategy, known.written_in),
    }
}

/// A call of a definition. A call of the shape of `try(s)` starts its choice at once.
pub(crate) fn take_call<'t, M: Meaning>(
    alloc: Global,
    host: &Host<'t, M>,
    m: &mut Machine<'t>,
    definition: usize,
    strategies: &'t [ResolvedStrategy],
    patterns: &'t [ResolvedPattern],
    scope: usize,
) -> Result<Turned, NoMemory>
    requires there { scope < length (scopes_of m.old.scopes) }
    requires room { host.now.room ≤ MAX_ROOM }
    ensures ok { IfOk result (λ next. Takes (world_of M.meaning host.now.definitions.now host.now.primitives.now host.now.room) m.old
        (call definition (resolveds_of strategies.entry.now) (resolved_patterns_of patterns.entry.now)) scope m.old.part m.new next) }
    ensures less { IfOk result (λ next. TakeFalls m.old m.new next) }
{
    if let Some(tried) = tried(host.definitions, definition, strategies, patterns) {
        return take_try(alloc, host, m, tried, scope);
    }
    let built = build_all(
        alloc,
        &mut m.cells,
        &m.scopes,
        scope,
        m.level,
        host.room,
        patterns,
        &mut m.arguments,
    )?;
    match built {
        BuiltAll::Nothing => Ok(m.fails()),
        BuiltAll::Big => Ok(Turned::Big),
        BuiltAll::All => match host.definitions.get(definition) {
            None => Ok(m.fails()),
            Some(body) => {
                let inner = enter(m, strategies, body, scope)?;
                Ok(m.begins(&body.strategy, inner))
            }
        },
    }
}

// Opens the cells and the scope of a definition's body, with the arguments built so far.
fn enter<'t>(
    m: &mut Machine<'t>,
    strategies: &'t [ResolvedStrategy],
    body: &Resolved,
    scope: usize,
) -> Result<usize, NoMemory>
    requires { scope < length (scopes_of m.old.scopes) }
    ensures { IfOk result (λ inner. Enters m.old (resolveds_of strategies.entry.now) body.now scope m.new inner) }
{
    let first = m.cells.count();
    let Some(count) = m.arguments.len().checked_add(body.variables) else {
        return Err(NoMemory);
    };
    if first.checked_add(count).is_none() {
        return Err(NoMemory);
    }
    end_cells(m, scope)?;
    open_arguments(&mut m.cells, &m.arguments)?;
    m.cells.open_cells(body.variables)?;
    Ok(m.scopes.add_call(scope, strategies, first, count)?)
}

/// A call of a primitive.
pub(crate) fn take_prim<'t, M: Meaning>(
    alloc: Global,
    host: &Host<'t, M>,
    m: &mut Machine<'t>,
    primitive: usize,
    patterns: &'t [ResolvedPattern],
    scope: usize,
) -> Result<Turned, NoMemory>
    requires { host.now.room ≤ MAX_ROOM }
    ensures ok { IfOk result (λ next. Takes (world_of M.meaning host.now.definitions.now host.now.primitives.now host.now.room) m.old
        (prim primitive (resolved_patterns_of patterns.entry.now)) scope m.old.part m.new next) }
    ensures less { IfOk result (λ next. TakeFalls m.old m.new next) }
{
    let built = build_all(
        alloc,
        &mut m.cells,
        &m.scopes,
        scope,
        m.level,
        host.room,
        patterns,
        &mut m.arguments,
    )?;
    match built {
        BuiltAll::Nothing => Ok(m.fails()),
        BuiltAll::Big => Ok(Turned::Big),
        BuiltAll::All => {
            let Some(found) = answer_of(alloc, host, primitive, &m.arguments)? else {
                return Ok(m.fails());
            };
            let mut value = found;
            if !value.fits(m.level, host.room) {
                return Ok(Turned::Big);
            }
            replace(alloc, m, value)?;
            Ok(m.gives())
        }
    }
}

// What a primitive answers on these terms; nothing if there is no such primitive, or if it takes
// another number of terms.
fn answer_of<'t, M: Meaning>(
    alloc: Global,
    host: &Host<'_, M>,
    primitive: usize,
    terms: &[Value<'t>],
) -> Result<Option<Value<'t>>, NoMemory>
    ensures { IfOk result (λ found. found
        ≡ primitive_answer (world_of M.meaning host.now.definitions.now host.now.primitives.now host.now.room) primitive terms.now) }
{
    let Some(arity) = host.primitives.arity(primitive) else {
        return Ok(None);
    };
    if arity != terms.len() {
        return Ok(None);
    }
    host.primitives.call(alloc, primitive, terms)
}
