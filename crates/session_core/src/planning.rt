//! What a strategy would change in a tree of a session, which is left unchanged.

ghost use Rattle.std.specs.Prelude.{◌≡◌, ◌⊎◌, IfOk, IfErr};
ghost use Rattle.term_changes.specs.Slots.{contents};
ghost use Rattle.term_changes.specs.PatchLaws.{patch_entries};
ghost use Rattle.session_history.specs.History.{AreFormed};
ghost use Rattle.session_modules.specs.Kept.{IsKept};
ghost use Rattle.session_history.specs.Unfolded.{unfolded};
ghost use Rattle.session_core.specs.inside.Foreseen.{PlansTo, PlansNothing};
ghost use Rattle.session_core.specs.inside.Resolved.{replaced_of, IsUnresolved};

use crate::resolving::{ResolvedAt, resolve_at};
use prim_core::{Meaning, Primitives};
use session_history::{ModuleCache, Refusal, Timeline};
use strategy_run::{Ended, Host, Planned, Stop, plan_patch_until};
use term_core::{Label, NoMemory};
use term_paths::Path;

/// What a strategy would replace in the tree of a slot.
#[derive(Drop)]
pub(crate) struct PlannedAt {
    pub(crate) slot: usize,
    pub(crate) planned: Planned,
}

/// The slot of the name's tree, and what the strategy given as text replaces in the subterm at the
/// path, within this budget. The modules are checked unless they are kept, and are kept then. A
/// stop ends the run as want of memory does.
pub(crate) fn plan_at<M: Meaning>(
    timeline: &Timeline,
    primitives: &Primitives<M>,
    cache: &mut ModuleCache,
    stop: Option<&Stop>,
    name: &Label,
    path: &Path,
    budget: u32,
    text: &[u8],
) -> Result<PlannedAt, Refusal>
    requires formed { AreFormed timeline.now.limits.max_tokens (contents timeline.now.store) }
    requires kept { IsKept primitives.now (contents timeline.now.store).modules cache.old }
    ensures ok { IfOk result (λ found. PlansTo M.meaning primitives.now timeline.now name.now path.now text.now budget
        found.slot (patch_entries found.slot path.now found.planned.patch) found.planned.taken) }
    ensures refused { IfErr result (λ refusal. (refusal ≡ Refusal.Memory)
        ⊎ (IsUnresolved name.now path.now text.now (unfolded primitives.now timeline.now) refusal
        ⊎ PlansNothing M.meaning primitives.now timeline.now name.now path.now text.now budget refusal)) }
    ensures kept { IsKept primitives.now (contents timeline.now.store).modules cache.new }
{
    let ResolvedAt { place, strategy } = match resolve_at(
        timeline, primitives, cache, name, path, text,
    ) {
        Ok(found) => found,
        Err(refusal) => return Err(refusal),
    };
    let host = Host {
        definitions: cache.program().definitions(),
        primitives,
        room: timeline.limits().max_terms,
    };
    let (alloc, level) = (timeline.allocator(), path.len() as u64);
    let ended = plan_patch_until(
        alloc,
        &host,
        place.part,
        level,
        &strategy,
        budget as u64,
        stop,
    );
    drop(strategy);
    match replaced(ended) {
        Ok(planned) => Ok(PlannedAt {
            slot: place.slot,
            planned,
        }),
        Err(refusal) => Err(refusal),
    }
}

// What is replaced, or the refusal.
fn replaced(ended: Result<Ended<Planned>, NoMemory>) -> Result<Planned, Refusal>
    ensures { result ≡ replaced_of ended }
{
    match ended {
        Ok(Ended::Done(planned)) => Ok(planned),
        Ok(Ended::Failed) => Err(Refusal::Fails),
        Ok(Ended::Spent) => Err(Refusal::Spent),
        Ok(Ended::Big) => Err(Refusal::Big),
        Err(_) => Err(Refusal::Memory),
    }
}
