//! What a run would replace in a term, which is left unchanged.

ghost use Rattle.std.specs.Prelude.{◌≤◌, ◌+◌, IfOk};
ghost use Rattle.term_core.specs.Size.{height};
ghost use Rattle.term_core.specs.declared.TheConstants.{MAX_ROOM};
ghost use Rattle.strategy_meaning.specs.Meaning.{run_whole};
ghost use Rattle.strategy_machine.specs.Turns.{world_of};
ghost use Rattle.strategy_run.specs.inside.Runs.{IsEmpty};
ghost use Rattle.strategy_run.specs.Planning.{Plans};

use crate::ended::{Ended, when_done};
use crate::evaluation::run_to_end;
use crate::looking::{Look, Unseen};
use prim_core::Meaning;
use std::alloc::Global;
use strategy_machine::{Host, Machine, Trail};
use strategy_syntax::Resolved;
use term_changes::Patch;
use term_core::{MAX_HEIGHT, NoMemory, Term};

/// What running a strategy on a term would replace in it.
#[derive(Drop)]
pub struct Planned {
    /// The outermost places that would be replaced, with a term for each.
    pub patch: Patch,
    /// How many steps the run took.
    pub taken: u64,
}

/// Runs a strategy on the term, which has so many levels above it, in at most `steps` steps, with
/// these definitions and primitives. The host's `room` is the greatest size of a term that is
/// built, at most 1,000,000,000. The level and the height of the term come to at most 1,000
/// together.
///
/// Returns `Done` with what that would replace in the term, as a patch of it, `Failed` if the
/// strategy fails, `Spent` if it needs more steps, or `Big` if it makes a term that doesn't fit.
///
/// For example, the patch of `all(!7)` on `(1,2)` has 7 for each child. Exchanged with `(1,2)` it
/// makes `(7,7)` of it, and then has 1 and 2.
///
/// Errors: only want of memory.
pub fn plan_patch<M: Meaning>(
    alloc: Global,
    host: &Host<'_, M>,
    term: &Term,
    level: u64,
    strategy: &Resolved,
    steps: u64,
) -> Result<Ended<Planned>, NoMemory>
    requires room { host.now.room ≤ MAX_ROOM }
    requires low { level + height term.now ≤ MAX_HEIGHT }
    ensures { IfOk result (Plans term.now steps
        (run_whole (world_of M.meaning host.now.definitions.now host.now.primitives.now host.now.room)
        level strategy.now steps term.now)) }
{
    let mut m = Machine::new(alloc, Trail::counted(), term, level, steps);
    plan_patch_by(alloc, host, &mut m, term, strategy, &mut Unseen)
}

// Runs it on a machine without frames. The machine is borrowed, since its owner drops it on each
// way out.
pub(crate) fn plan_patch_by<'t, M: Meaning, L: Look<'t>>(
    alloc: Global,
    host: &Host<'t, M>,
    m: &mut Machine<'t>,
    term: &'t Term,
    strategy: &'t Resolved,
    look: &mut L,
) -> Result<Ended<Planned>, NoMemory>
    requires room { host.now.room ≤ MAX_ROOM }
    requires empty { IsEmpty m.old }
    requires low { m.old.level + height term.now ≤ MAX_HEIGHT }
    ensures { IfOk result (Plans term.entry.now m.old.steps
        (run_whole (world_of M.meaning host.now.definitions.now host.now.primitives.now host.now.room)
        m.old.level strategy.entry.now m.old.steps term.entry.now)) }
{
    let steps = m.steps;
    let ended = run_to_end(alloc, host, m, strategy, term, look)?;
    look.at_end(m)?;
    when_done!(ended, () => {
        let patch = m.part.patch(alloc)?;
        let taken = steps.saturating_sub(m.steps);
        Planned { patch, taken }
    })
}
