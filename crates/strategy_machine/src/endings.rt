//! Where the scopes and cells that a strategy adds end: after it, by a frame. If the innermost
//! frame already ends scopes, nothing else is left to do after the current strategy. A tail call
//! then reuses that frame, and the scopes that it doesn't need end at once. So a tail-recursive
//! loop, by `rec` or by calls that pass all names on, takes constant space.

ghost use Rattle.std.specs.Prelude.{◌<◌, ◌≤◌, ◌-◌, ◌^◌, length, reverse, IfSome, OnOk};
ghost use Rattle.strategy_machine.specs.Table.{scopes as scopes_of};
ghost use Rattle.strategy_machine.specs.inside.Endings.{LeavesScopes, LeavesCells, ScopesEnd, CellsEnd};

use crate::machine::Machine;
use crate::stack::{Frames, Slot};
use term_core::NoMemory;

// How many scopes the innermost frame keeps, if it ends any.
fn scopes_left(frames: &Frames<'_>) -> Option<usize>
    ensures { IfSome result (λ k. LeavesScopes (reverse frames.now) k) }
{
    match frames.last()? {
        Slot::Leave { scopes } => Some(scopes),
        Slot::Cut { scopes, .. } => Some(scopes),
        _ => None,
    }
}

// How many scopes the innermost frame keeps, if it ends cells too.
fn scopes_left_with_cells(frames: &Frames<'_>) -> Option<usize>
    ensures { IfSome result (λ k. LeavesCells (reverse frames.now) k) }
{
    match frames.last()? {
        Slot::Cut { scopes, .. } => Some(scopes),
        _ => None,
    }
}

// How many scopes are needed if `left` are kept and this one is used.
fn needed(left: usize, scope: usize) -> usize
    requires { scope < 2 ^ 64 - 1 }
    ensures left { left ≤ result }
    ensures scope { scope < result }
{
    if scope < left { left } else { scope + 1 }
}

/// Makes scopes that are added from now on end after the current strategy. This scope stays.
pub(crate) fn end_scopes<'t>(m: &mut Machine<'t>, scope: usize) -> Result<(), NoMemory>
    requires { scope < length (scopes_of m.old.scopes) }
    ensures { OnOk result (ScopesEnd m.old scope m.new) }
{
    let scopes = m.scopes.count();
    match scopes_left(&m.frames) {
        Some(left) => {
            m.scopes.cut(needed(left, scope));
            Ok(())
        }
        None => {
            m.frames.wait(Slot::Leave { scopes })?;
            Ok(())
        }
    }
}

/// Makes cells and scopes that are added from now on end after the current strategy. This scope
/// stays.
pub(crate) fn end_cells<'t>(m: &mut Machine<'t>, scope: usize) -> Result<(), NoMemory>
    requires { scope < length (scopes_of m.old.scopes) }
    ensures { OnOk result (CellsEnd m.old scope m.new) }
{
    let cells = m.cells.count();
    let scopes = m.scopes.count();
    match scopes_left_with_cells(&m.frames) {
        Some(left) => {
            m.scopes.cut(needed(left, scope));
            Ok(())
        }
        None => {
            m.frames.wait(Slot::Cut { cells, scopes })?;
            Ok(())
        }
    }
}
