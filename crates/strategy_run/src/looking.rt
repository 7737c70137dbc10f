//! Runs with an observer.

ghost use Rattle.std.specs.Prelude.{◌≤◌, ◌+◌, IfOk};
ghost use Rattle.term_core.specs.Size.{height};
ghost use Rattle.term_core.specs.declared.TheConstants.{MAX_ROOM};
ghost use Rattle.strategy_meaning.specs.Meaning.{run_whole};
ghost use Rattle.strategy_machine.specs.Turns.{world_of};
ghost use Rattle.strategy_run.specs.Planning.{Plans};

use crate::ended::Ended;
use crate::planning::{Planned, plan_patch_by};
use prim_core::Meaning;
use std::alloc::Global;
use strategy_machine::{Host, Machine, Trail};
use strategy_syntax::Resolved;
use term_core::{MAX_HEIGHT, NoMemory, Term};

/// Sees the machine of a run between its turns. It is lent for reading, so a run answers the same
/// with any observer.
pub trait Look<'t> {
    /// Called before each turn.
    ///
    /// Errors: want of memory, which ends the run.
    fn before_turn(&mut self, machine: &Machine<'t>) -> Result<(), NoMemory>;

    /// Called once after the last turn.
    ///
    /// Errors: want of memory, which the run answers, too.
    fn at_end(&mut self, machine: &Machine<'t>) -> Result<(), NoMemory>;
}

/// Sees nothing.
#[derive(Drop)]
pub(crate) struct Unseen;

impl<'t> Look<'t> for Unseen {
    #[inline(always)]
    fn before_turn(&mut self, _machine: &Machine<'t>) -> Result<(), NoMemory> {
        Ok(())
    }

    #[inline(always)]
    fn at_end(&mut self, _machine: &Machine<'t>) -> Result<(), NoMemory> {
        Ok(())
    }
}

/// As [`crate::plan_patch`], with an observer that sees the machine between the turns.
pub fn plan_patch_seen<'t, M: Meaning, L: Look<'t>>(
    alloc: Global,
    host: &Host<'t, M>,
    term: &'t Term,
    level: u64,
    strategy: &'t Resolved,
    steps: u64,
    look: &mut L,
) -> Result<Ended<Planned>, NoMemory>
    requires room { host.now.room ≤ MAX_ROOM }
    requires low { level + height term.now ≤ MAX_HEIGHT }
    ensures { IfOk result (Plans term.entry.now steps
        (run_whole (world_of M.meaning host.now.definitions.now host.now.primitives.now host.now.room)
        level strategy.entry.now steps term.entry.now)) }
{
    let mut m = Machine::new(alloc, Trail::counted(), term, level, steps);
    plan_patch_by(alloc, host, &mut m, term, strategy, look)
}
