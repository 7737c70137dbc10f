//! Rules: a match followed by a build, with variables of their own that end with the rule.

ghost use Rattle.std.specs.Prelude.{◌<◌, ◌≤◌, length, IfOk};
ghost use Rattle.term_core.specs.declared.TheConstants.{MAX_ROOM};
ghost use Rattle.strategy_meaning.specs.Laws.{in_room};
ghost use Rattle.strategy_meaning.specs.Meaning.{World};
ghost use Rattle.strategy_machine.specs.Table.{scopes as scopes_of};
ghost use Rattle.strategy_syntax.specs.Resolved.{scope as scope_form, seq, matches, builds};
ghost use Rattle.strategy_machine.specs.inside.Taking.{Takes, TakeFalls};

use crate::forms::{matches_shown, replace};
use crate::frames::Turned;
use crate::heads::glance;
use crate::machine::{InTable, Machine};
use std::alloc::Global;
use strategy_syntax::ResolvedPattern;
use term_core::NoMemory;
use term_match::Built;

/// A rule with `count` variables. Its steps are charged one by one, and it needs no frame.
#[inline(never)]
pub(crate) fn take_rule<'t>(
    alloc: Global,
    room: u32,
    m: &mut Machine<'t>,
    count: usize,
    left: &'t ResolvedPattern,
    right: &'t ResolvedPattern,
    scope: usize,
) -> Result<Turned, NoMemory>
    requires room { room ≤ MAX_ROOM }
    requires there { scope < length (scopes_of m.old.scopes) }
    ensures ok { (W : World) → IfOk result (λ next. Takes (in_room room W) m.old (scope_form count (seq (matches left.entry.now) (builds right.entry.now))) scope m.old.part m.new next) }
    ensures less { IfOk result (λ next. TakeFalls m.old m.new next) }
{
    if m.steps < 2 {
        return Ok(Turned::Spent);
    }
    m.steps -= 2;
    let first = m.cells.count();
    if first.checked_add(count).is_none() {
        return Err(NoMemory);
    }
    let scopes = m.scopes.count();
    m.cells.open_cells(count)?;
    let inner = m.scopes.add_variables(Some(scope), first, count)?;
    let variables = InTable {
        scopes: &m.scopes,
        scope: inner,
    };
    let shown = glance(left, &m.part);
    let found = matches_shown(alloc, &mut m.cells, &variables, left, &m.part, shown);
    let matched = found?;
    if !matched {
        m.cells.close_to(first);
        m.scopes.cut(scopes);
        return Ok(m.fails());
    }
    if m.steps == 0 {
        return Ok(Turned::Spent);
    }
    m.steps -= 1;
    let built = m.cells.build(alloc, &variables, right, m.level, room)?;
    m.cells.close_to(first);
    m.scopes.cut(scopes);
    match built {
        Built::Nothing => Ok(m.fails()),
        Built::Big => Ok(Turned::Big),
        Built::Value(value) => {
            replace(alloc, m, value)?;
            Ok(m.gives())
        }
    }
}
