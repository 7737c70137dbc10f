//! Applying strategies to the trees of a session.

ghost use Rattle.std.specs.Prelude.{◌≡◌, IfErr, OnOk, OnErr};
ghost use Rattle.term_changes.specs.Slots.{contents};
ghost use Rattle.term_changes.specs.Entries.{after, FitsForward};
ghost use Rattle.term_changes.specs.PatchLaws.{patch_entries};
ghost use Rattle.session_history.specs.History.{AreFormed};
ghost use Rattle.session_modules.specs.Kept.{IsKept};
ghost use Rattle.session_history.specs.Acts.{apply};
ghost use Rattle.session_history.specs.Moving.{KeepsHistory, Changes, PerformsBy};

use crate::planning::{PlannedAt, plan_at};
use prim_core::{Meaning, Primitives};
use session_history::{ModuleCache, Refusal, Timeline};
use strategy_run::Stop;
use term_changes::Patch;
use term_core::Label;
use term_paths::Path;

/// Applies the strategy given as text to the subterm at the path of the name's tree, within
/// this budget. The modules are checked unless they are kept, and are kept then. A stop ends the
/// run as want of memory does.
pub(crate) fn apply_strategy<M: Meaning>(
    timeline: &mut Timeline,
    primitives: &Primitives<M>,
    cache: &mut ModuleCache,
    stop: Option<&Stop>,
    name: &Label,
    path: &Path,
    budget: u32,
    text: &[u8],
) -> Result<(), Refusal>
    requires formed { AreFormed timeline.old.limits.max_tokens (contents timeline.old.store) }
    requires kept { IsKept primitives.now (contents timeline.old.store).modules cache.old }
    ensures performs { PerformsBy primitives.now (apply M.meaning name.now path.now budget text.now)
        timeline.old timeline.new result }
    ensures kept { IsKept primitives.now (contents timeline.new.store).modules cache.new }
{
    let PlannedAt { slot, planned } = match plan_at(
        timeline, primitives, cache, stop, name, path, budget, text,
    ) {
        Ok(found) => found,
        Err(refusal) => return Err(refusal),
    };
    exchange(timeline, slot, path, planned.patch)
}

// Makes the exchange in the subterm at the path of the slot's tree, as one change.
fn exchange(timeline: &mut Timeline, slot: usize, path: &Path, patch: Patch) -> Result<(), Refusal>
    requires places { FitsForward (patch_entries slot path.now patch) timeline.old.store }
    ensures ok { OnOk result (Changes timeline.old timeline.new) }
    ensures made { OnOk result (timeline.new.store ≡ after (patch_entries slot path.now patch) timeline.old.store) }
    ensures refused { IfErr result (λ refusal. refusal ≡ Refusal.Memory) }
    ensures err { OnErr result (KeepsHistory timeline.old timeline.new) }
{
    let alloc = timeline.allocator();
    if timeline.in_group() {
        let plan = patch.into_plan(alloc, slot, path.parts())?;
        timeline.plan_in_group(plan)?;
        return Ok(());
    }
    let Ok(place) = Vec::from_slice(alloc, path.parts()) else {
        return Err(Refusal::Memory);
    };
    timeline.patch_as_step(slot, place, patch)?;
    Ok(())
}
