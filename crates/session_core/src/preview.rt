//! What applying a strategy would replace.

ghost use Rattle.std.specs.Prelude.{◌≡◌, length, option_map};
ghost use Rattle.term_changes.specs.Slots.{contents};
ghost use Rattle.session_history.specs.History.{AreFormed};
ghost use Rattle.session_modules.specs.Kept.{IsKept};
ghost use Rattle.session_history.specs.Unfolded.{unfolded};
ghost use Rattle.session_core.specs.Previewing.{AnswersPreview, IsNext};

use crate::planning::{PlannedAt, plan_at};
use change_log::Plan;
use prim_core::{Meaning, Primitives};
use session_history::{ModuleCache, Refusal, Timeline};
use std::marker::Model;
use strategy_run::{Planned, Stop};
use term_changes::{Kept, Replaced};
use term_core::{Label, Term};
use term_paths::Path;

/// What applying a strategy would replace, and in how many steps.
#[derive(Drop)]
pub struct Preview {
    /// The outermost places that would be replaced, in their order, with what would be put there.
    pub plan: Plan,
    /// How many steps the strategy takes.
    pub steps: u64,
}

impl Preview {
    /// The places that would be replaced, in their order, with the terms that would be put there.
    pub fn places(&self) -> Places<'_>
        ensures { result ≡ self.now.plan }
    {
        Places {
            changes: self.plan.changes.as_slice(),
            paths: self.plan.paths.as_slice(),
        }
    }
}

/// Places with a term for each. Contracts see entries.
#[derive(Drop)]
pub struct Places<'a> {
    changes: &'a [Replaced],
    // The paths of all changes, concatenated.
    paths: &'a [usize],
}

impl<'a> Model for Places<'a> {
    ghost use Rattle.std.specs.Prelude.{◌≡◌, List, length};
    ghost use Rattle.std.specs.Coded.{coded_list};
    ghost use Rattle.term_changes.specs.Entries.{Entry};
    ghost use Rattle.term_changes.specs.inside.Codes.{entry_code};

    ghost Value = { List Entry };

    ghost coded = { coded_list entry_code };

    ghost use Rattle.term_changes.specs.inside.LogView.{entries, depths};

    ghost view = { λ a. entries a.changes.now a.paths.now };

    ghost invariant = { λ a. depths a.changes.now ≡ length a.paths.now };
}

impl<'a> Places<'a> {
    /// How many there are.
    pub fn count(&self) -> usize
        ensures { result ≡ length self.now }
    {
        self.changes.len()
    }

    /// The path of the next place, and the term for it; `None` after the last one.
    pub fn next(&mut self) -> Option<(&'a [usize], &'a Term)>
        ensures { IsNext self.old (option_map (λ x. (x.0.now, x.1.now)) result) self.new }
    {
        let (first, rest) = self.changes.split_first()?;
        let (path, paths) = self.paths.split_at(first.depth);
        self.changes = rest;
        self.paths = paths;
        match &first.kept {
            Kept::Subterm(term) => Some((path, term)),
            _ => None,
        }
    }
}

/// What applying the strategy given as text to the subterm at the path of the name's tree would
/// replace. The modules are checked unless they are kept, and are kept then. A stop ends the run as
/// want of memory does.
pub(crate) fn preview_strategy<M: Meaning>(
    timeline: &Timeline,
    primitives: &Primitives<M>,
    cache: &mut ModuleCache,
    stop: Option<&Stop>,
    name: &Label,
    path: &Path,
    budget: u32,
    text: &[u8],
) -> Result<Preview, Refusal>
    requires formed { AreFormed timeline.now.limits.max_tokens (contents timeline.now.store) }
    requires kept { IsKept primitives.now (contents timeline.now.store).modules cache.old }
    ensures answers { AnswersPreview M.meaning name.now path.now budget text.now (unfolded primitives.now timeline.now) result }
    ensures kept { IsKept primitives.now (contents timeline.now.store).modules cache.new }
{
    let PlannedAt { slot, planned } = match plan_at(
        timeline, primitives, cache, stop, name, path, budget, text,
    ) {
        Ok(found) => found,
        Err(refusal) => return Err(refusal),
    };
    let Planned { patch, taken } = planned;
    Ok(Preview {
        plan: patch.into_plan(timeline.allocator(), slot, path.parts())?,
        steps: taken,
    })
}
