//! Choices whose first branch is a match followed by a build, or a rule.

ghost use Rattle.std.specs.Prelude.{◌≡◌, ◌≤◌, List, length, IfOk, IfSome};
ghost use Rattle.term_core.specs.declared.TheConstants.{MAX_ROOM};
ghost use Rattle.strategy_syntax.specs.Resolved.{ResolvedStrategy as Resolving, matches, builds, seq, guard, scope as scope_form};
ghost use Rattle.strategy_meaning.specs.Laws.{in_room};
ghost use Rattle.strategy_meaning.specs.Meaning.{World};
ghost use Rattle.strategy_meaning.specs.Scopes.{Scope};
ghost use Rattle.strategy_machine.specs.Table.{scopes as scopes_of, IsThere};
ghost use Rattle.strategy_machine.specs.inside.Rules.{IsRule};
ghost use Rattle.strategy_machine.specs.inside.Taking.{Takes, TakeFalls};

use crate::alternatives::after_rules;
use crate::forms::{matches_shown, replace};
use crate::frames::Turned;
use crate::heads::{RootMatch, glance};
use crate::machine::{InTable, Machine};
use std::alloc::Global;
use strategy_syntax::{Resolved, ResolvedForm as Form, ResolvedPattern, ResolvedStrategy};
use term_core::NoMemory;
use term_match::Built;

/// A choice whose first branch is a match and a build. Their steps are charged one by one, and no
/// frame is needed.
#[inline(never)]
pub(crate) fn rewrite_or<'t>(
    alloc: Global,
    room: u32,
    m: &mut Machine<'t>,
    left: &'t ResolvedPattern,
    right: &'t ResolvedPattern,
    second: &'t ResolvedStrategy,
    other: &'t ResolvedStrategy,
    scope: usize,
) -> Result<Turned, NoMemory>
    requires { room ≤ MAX_ROOM }
    ensures ok { (W : World) → IfOk result (λ next. Takes (in_room room W) m.old
        (guard (seq (matches left.entry.now) (builds right.entry.now)) second.entry.now other.entry.now) scope m.old.part m.new next) }
    ensures less { IfOk result (λ next. TakeFalls m.old m.new next) }
{
    if m.steps < 2 {
        return Ok(Turned::Spent);
    }
    m.steps -= 2;
    let mark = m.cells.mark();
    let variables = InTable {
        scopes: &m.scopes,
        scope,
    };
    let shown = glance(left, &m.part);
    let found = matches_shown(alloc, &mut m.cells, &variables, left, &m.part, shown);
    let matched = found?;
    if !matched {
        return Ok(m.goes_on(other, scope));
    }
    if m.steps == 0 {
        return Ok(Turned::Spent);
    }
    m.steps -= 1;
    match m.cells.build(alloc, &variables, right, m.level, room)? {
        Built::Nothing => {
            m.cells.back_to(mark);
            Ok(m.goes_on(other, scope))
        }
        Built::Big => Ok(Turned::Big),
        Built::Value(value) => {
            replace(alloc, m, value)?;
            Ok(m.goes_on(second, scope))
        }
    }
}

/// A rule, with what it takes to begin it.
#[derive(Clone, Copy)]
pub(crate) struct Rule<'t> {
    /// How many variables it has.
    pub count: usize,
    pub left: &'t ResolvedPattern,
    pub right: &'t ResolvedPattern,
    /// The scope around its variables, or `None` for the empty one.
    pub outer: Option<usize>,
    /// The steps up to its match, and that of the match.
    pub price: u64,
}

/// The rule that the strategy is, or that it calls without arguments.
#[inline(always)]
pub(crate) fn rule_of<'t>(
    definitions: &'t [Resolved],
    strategy: &'t ResolvedStrategy,
    scope: usize,
) -> Option<Rule<'t>>
    ensures { IfSome result (λ r. (es : List Scope) → IsRule definitions.entry.now es strategy.entry.now scope r) }
{
    match strategy.form() {
        // the scope, the sequence and the match cost a step each
        Form::Scope(_, _) => rule_in(strategy, Some(scope), 3),
        Form::Call(definition, strategies, patterns) => {
            if strategies.len() != 0 || patterns.len() != 0 {
                return None;
            }
            let body = definitions.get(*definition)?;
            if body.variables != 0 {
                return None;
            }
            // and so does the call
            rule_in(&body.strategy, None, 4)
        }
        _ => None,
    }
}

// The strategy as a rule.
#[inline(always)]
fn rule_in<'t>(strategy: &'t ResolvedStrategy, outer: Option<usize>, price: u64) -> Option<Rule<'t>>
    ensures { IfSome result (λ r. (strategy.entry.now ≡ scope_form r.count (seq (matches r.left.now) (builds r.right.now))) × (r.outer ≡ outer) × (r.price ≡ price)) }
{
    let Form::Scope(count, inner) = strategy.form() else {
        return None;
    };
    let Form::Seq(parts) = inner.form() else {
        return None;
    };
    let Form::Match(left) = parts.0.form() else {
        return None;
    };
    let Form::Build(right) = parts.1.form() else {
        return None;
    };
    Some(Rule {
        count: *count,
        left,
        right,
        outer,
        price,
    })
}

/// A choice whose first branch is a rule. Its steps up to the match are charged together, and no
/// frame is needed. If the root shows that the rule can't match, the first alternatives of the
/// other branch that are rules for other roots are passed over, too.
#[inline(never)]
pub(crate) fn rule_or<'t>(
    alloc: Global,
    room: u32,
    m: &mut Machine<'t>,
    rule: Rule<'t>,
    second: &'t ResolvedStrategy,
    other: &'t ResolvedStrategy,
    scope: usize,
) -> Result<Turned, NoMemory>
    requires room { room ≤ MAX_ROOM }
    requires there { IsThere (length (scopes_of m.old.scopes)) rule.outer }
    ensures ok { (W : World) (s : Resolving) → IsRule W.bodies (scopes_of m.old.scopes) s scope rule.entry
        → IfOk result (λ next. Takes (in_room room W) m.old (guard s second.entry.now other.entry.now) scope m.old.part m.new next) }
    ensures less { IfOk result (λ next. TakeFalls m.old m.new next) }
{
    if m.steps < rule.price {
        return Ok(Turned::Spent);
    }
    m.steps -= rule.price;
    let shown = glance(rule.left, &m.part);
    if let RootMatch::Misses = shown {
        let passed = after_rules(other, &m.part, m.steps);
        m.steps = passed.1;
        return Ok(m.goes_on(passed.0, scope));
    }
    let mark = m.cells.mark();
    let first = m.cells.count();
    if first.checked_add(rule.count).is_none() {
        return Err(NoMemory);
    }
    let scopes = m.scopes.count();
    m.cells.open_cells(rule.count)?;
    let inner = m.scopes.add_variables(rule.outer, first, rule.count)?;
    let variables = InTable {
        scopes: &m.scopes,
        scope: inner,
    };
    let found = matches_shown(alloc, &mut m.cells, &variables, rule.left, &m.part, shown);
    let matched = found?;
    if !matched {
        m.cells.back_to(mark);
        m.scopes.cut(scopes);
        return Ok(m.goes_on(other, scope));
    }
    if m.steps == 0 {
        return Ok(Turned::Spent);
    }
    m.steps -= 1;
    let built = m.cells.build(alloc, &variables, rule.right, m.level, room)?;
    m.scopes.cut(scopes);
    match built {
        Built::Nothing => {
            m.cells.back_to(mark);
            Ok(m.goes_on(other, scope))
        }
        Built::Big => Ok(Turned::Big),
        Built::Value(value) => {
            m.cells.close_to(first);
            replace(alloc, m, value)?;
            Ok(m.goes_on(second, scope))
        }
    }
}
