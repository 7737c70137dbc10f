//! Term arguments of calls and primitives.

ghost use Rattle.std.specs.Prelude.{◌≡◌, ◌≤◌, ◌++◌, ℕ, List, map, Some, IfOk, OnOk};
ghost use Rattle.term_core.specs.Tree.{Tree};
ghost use Rattle.term_core.specs.declared.TheConstants.{MAX_ROOM};
ghost use Rattle.strategy_syntax.specs.Resolved.{resolved_patterns_of};
ghost use Rattle.strategy_meaning.specs.Scopes.{cells_in};
ghost use Rattle.strategy_meaning.specs.Answer.{Answer, failed, stopped, big};
ghost use Rattle.strategy_meaning.specs.Meaning.{built_all};
ghost use Rattle.strategy_machine.specs.Table.{scopes as scopes_of, scope_at};
ghost use Rattle.term_match.specs.Marks.{mark_of, Before, Stays};
ghost use Rattle.strategy_machine.specs.inside.Arguments.{AreBuilt};

use crate::machine::InTable;
use crate::scopes::Scopes;
use std::alloc::Global;
use strategy_syntax::ResolvedPattern;
use term_core::NoMemory;
use term_match::{Built, Cells};
use term_values::Value;

/// The result of building several patterns.
#[derive(Clone, Copy, Drop)]
pub(crate) enum BuiltAll {
    /// All instances are built.
    All,
    /// One pattern has no instance.
    Nothing,
    /// One instance doesn't fit.
    Big,
}

/// Builds the instances of the patterns in order.
#[inline(always)]
pub(crate) fn build_all<'t>(
    alloc: Global,
    cells: &mut Cells<'t>,
    scopes: &Scopes<'t>,
    scope: usize,
    level: u64,
    room: u32,
    patterns: &'t [ResolvedPattern],
    arguments: &mut Vec<Value<'t>>,
) -> Result<BuiltAll, NoMemory>
    requires { room ≤ MAX_ROOM }
    ensures cells { cells.new ≡ cells.old }
    ensures ok { IfOk result (λ all. AreBuilt room (resolved_patterns_of patterns.now) (cells_in (scope_at (scopes_of scopes.now) scope))
        cells.old.bindings level arguments.new.items all) }
{
    arguments.clear();
    'each: for i in 0..patterns.len() {
        let variables = InTable { scopes, scope };
        match cells.build(alloc, &variables, &patterns[i], level, room)? {
            Built::Value(value) => arguments.push(value)?,
            Built::Nothing => return Ok(BuiltAll::Nothing),
            Built::Big => return Ok(BuiltAll::Big),
        }
    }
    Ok(BuiltAll::All)
}

/// Opens cells for the arguments.
pub(crate) fn open_arguments<'t>(
    cells: &mut Cells<'t>,
    arguments: &[Value<'t>],
) -> Result<(), NoMemory>
    ensures cells { OnOk result (cells.new.bindings ≡ cells.old.bindings ++ map (λ u. Some u) arguments.now) }
    ensures later { Before (mark_of cells.old) (mark_of cells.new) }
    ensures stays { Stays (mark_of cells.old) cells.old cells.new }
{
    'each: for i in 0..arguments.len() {
        cells.open_with(arguments[i].try_clone()?)?;
    }
    Ok(())
}
