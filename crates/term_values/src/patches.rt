//! What was replaced in the borrowed term, as a patch.
#![tactic(auto, using(crate::proofs::KindLemmas::node_parts))]

ghost use Rattle.std.specs.Prelude.{◌≡◌, ◌++◌, List, length, IfOk};
ghost use Rattle.term_core.specs.Tree.{Tree, children};
ghost use Rattle.term_changes.specs.Change.{inside, places};
ghost use Rattle.term_changes.specs.Putting.{HasPlaces, HaveAllPlaces};
ghost use Rattle.term_changes.specs.Standing.{Suits, SuitAll, standing_change, standing_changes};
ghost use Rattle.term_changes.specs.inside.Trimmed.{item_of, items_of};

use crate::part::{Changed, Part, PartForm};
use std::alloc::Global;
use term_changes::{Draft, Patch};
use term_core::NoMemory;

/// For the places of so many parts there is room soon enough.
const FEW: usize = 8;

impl<'t> Part<'t> {
    /// The outermost places that were replaced, each with an owned term. The places exist in each
    /// subterm whose place this part can take.
    pub fn patch(&self, alloc: Global) -> Result<Patch, NoMemory>
        ensures all { IfOk result (λ patch. places patch ≡ places (standing_change self.now)) }
        ensures there { IfOk result (λ _. (t : Tree) → Suits t self.now → HasPlaces t (standing_change self.now)) }
    {
        let mut draft = Draft::new(alloc);
        let _items = self.draft(alloc, &mut draft)?;
        Ok(draft.finish())
    }

    // Adds what was replaced to the draft: one item, or none where nothing was. Returns how many.
    #[cycle(draft)]
    #[inline(always)]
    fn draft(&self, alloc: Global, draft: &mut Draft) -> Result<usize, NoMemory>
        ensures draft { IfOk result (λ _. draft.new ≡ item_of (standing_change self.now) ++ draft.old) }
        ensures count { IfOk result (λ items. items ≡ length (item_of (standing_change self.now))) }
        ensures there { IfOk result (λ _. (t : Tree) → Suits t self.now → HasPlaces t (standing_change self.now)) }
    {
        match &self.form {
            PartForm::Same(_, _) => Ok(0),
            PartForm::Inside(changed, _) => changed.draft(alloc, draft),
            PartForm::New(value) => {
                draft.term(value.to_term(alloc)?)?;
                Ok(1)
            }
        }
    }
}

impl<'t> Changed<'t> {
    #[cycle(draft)]
    fn draft(&self, alloc: Global, draft: &mut Draft) -> Result<usize, NoMemory>
        ensures draft { IfOk result (λ _. draft.new ≡ item_of (inside self.now.changes) ++ draft.old) }
        ensures count { IfOk result (λ items. items ≡ length (item_of (inside self.now.changes))) }
        ensures there { IfOk result (λ _. HaveAllPlaces (children self.now.before) self.now.changes) }
    {
        let parts = self.parts.as_slice();
        make_room(parts, draft)?;
        let kids = draft_children(alloc, parts, draft)?;
        if kids > 0 {
            draft.node(kids)?;
            return Ok(1);
        }
        Ok(0)
    }
}

// Makes room in the draft for the places of many parts.
#[inline(always)]
fn make_room(parts: &[Part<'_>], draft: &mut Draft) -> Result<(), NoMemory>
    ensures { draft.new ≡ draft.old }
{
    if parts.len() <= FEW {
        return Ok(());
    }
    // the node takes a place, too
    draft.reserve(changed_count(parts).saturating_add(1))
}

// How many of the parts have places.
#[inline(never)]
fn changed_count(parts: &[Part<'_>]) -> usize {
    parts.iter().filter(|part| !part.is_same()).count()
}

// Adds what was replaced in the children, in whose places these parts are, from the last to the
// first. Returns how many children that is.
#[cycle(draft)]
fn draft_children<'t>(
    alloc: Global,
    parts: &[Part<'t>],
    draft: &mut Draft,
) -> Result<usize, NoMemory>
    ensures draft { IfOk result (λ _. draft.new ≡ items_of (standing_changes parts.now) ++ draft.old) }
    ensures count { IfOk result (λ items. items ≡ length (items_of (standing_changes parts.now))) }
    ensures there { IfOk result (λ _. (us : List Tree) → SuitAll us parts.now → HaveAllPlaces us (standing_changes parts.now)) }
{
    let mut items = 0;
    let mut skipped = 0;
    let mut i = parts.len();
    while i > 0 {
        i -= 1;
        if parts[i].draft(alloc, draft)? > 0 {
            items += 1;
            skipped = 0;
        } else if items > 0 {
            skipped += 1;
            draft.leave(skipped);
        }
    }
    Ok(items)
}
