//! What commands do to a timeline: each is a step of the session's machine, or is refused and
//! changes nothing.
#![tactic(auto, using(crate::proofs::ActLemmas::acting))]

ghost use Rattle.std.specs.Prelude.{◌≡◌, Some, Err, IfOk, IfErr};
ghost use Rattle.std.specs.Bool.{OnFalse};
ghost use Rattle.std.specs.List.{list_all};
ghost use Rattle.term_core.specs.Size.{fits};
ghost use Rattle.term_changes.specs.Slots.{contents};
ghost use Rattle.term_changes.specs.Entries.{subterm_in};
ghost use Rattle.session_history.specs.Acts.{set_tree, copy_tree, drop_tree, put, annotate, undo, redo, begin, abandon, place_of};
ghost use Rattle.session_history.specs.Unfolded.{IsPlaceOf};
ghost use Rattle.session_history.specs.Moving.{PerformsOn, PerformsSurelyOn};

use crate::finding::find_tree;
use crate::{Refusal, Timeline};
use change_log::Entry;
use term_core::{Label, Term};
use term_paths::{Path, at};

/// A subterm of the tree of a name.
#[derive(Clone, Copy)]
pub struct Found<'a> {
    /// The slot of the tree.
    pub slot: usize,
    /// The subterm at the path.
    pub part: &'a Term,
}

impl Timeline {
    /// Sets the tree of this name.
    #[inline(always)]
    pub fn set_tree(&mut self, name: &Label, tree: Term) -> Result<(), Refusal>
        ensures { PerformsOn (set_tree name.now tree) self.old self.new result }
    {
        if !tree.fits(0, self.limits().max_terms) {
            return Err(Refusal::Big);
        }
        let slot = self.tree_slot(name)?;
        self.change(Entry::tree(slot, Some(tree)))?;
        Ok(())
    }

    /// Sets the tree of `copy` to a copy of the tree of `name`.
    pub fn copy_tree(&mut self, name: &Label, copy: &Label) -> Result<(), Refusal>
        ensures { PerformsOn (copy_tree name.now copy.now) self.old self.new result }
    {
        let Some(tree) = self.tree(name) else {
            return Err(Refusal::NoTree);
        };
        let tree = tree.try_clone()?;
        let slot = self.tree_slot(copy)?;
        self.change(Entry::tree(slot, Some(tree)))?;
        Ok(())
    }

    /// Removes the tree of this name.
    pub fn drop_tree(&mut self, name: &Label) -> Result<(), Refusal>
        ensures { PerformsOn (drop_tree name.now) self.old self.new result }
    {
        let Some((slot, _)) = find_tree(self.store(), name) else {
            return Err(Refusal::NoTree);
        };
        self.change(Entry::tree(slot, None))?;
        Ok(())
    }

    /// Replaces the subterm at the path in the tree of this name.
    pub fn put(&mut self, name: &Label, path: &Path, part: Term) -> Result<(), Refusal>
        ensures { PerformsOn (put name.now path.now part) self.old self.new result }
    {
        let Found { slot, .. } = self.place(name, path)?;
        if !part.fits(path.len() as u64, self.limits().max_terms) {
            return Err(Refusal::Big);
        }
        self.change(Entry::subterm(slot, path.parts(), part))?;
        Ok(())
    }

    /// Replaces the annotations of the subterm at the path in the tree of this name.
    pub fn annotate(
        &mut self,
        name: &Label,
        path: &Path,
        annotations: Vec<Term>,
    ) -> Result<(), Refusal>
        ensures { PerformsOn (annotate name.now path.now annotations.items) self.old self.new result }
    {
        let Found { slot, .. } = self.place(name, path)?;
        let level = path.parts().len() as u64 + 1;
        if !all_fit(&annotations, level, self.limits().max_terms) {
            return Err(Refusal::Big);
        }
        self.change(Entry::annotations(slot, path.parts(), annotations))?;
        Ok(())
    }

    /// The slot of the name's tree, and its subterm at the path, if there is one.
    pub fn place(&self, name: &Label, path: &Path) -> Result<Found<'_>, Refusal>
        ensures there { IfOk result (λ found. IsPlaceOf self.now.store name.now path.now found.slot) }
        ensures part { IfOk result (λ found. subterm_in self.now.store.trees found.slot path.now ≡ Some found.part.now) }
        ensures refused { IfErr result (λ refusal. place_of (contents self.now.store) name.now path.now
            ≡ Err refusal) }
    {
        let Some((slot, tree)) = find_tree(self.store(), name) else {
            return Err(Refusal::NoTree);
        };
        let Some(part) = at(tree, path) else {
            return Err(Refusal::Path);
        };
        Ok(Found { slot, part })
    }

    /// Goes `n` steps back. Returns whether module texts may have changed.
    pub fn undo(&mut self, n: u32) -> Result<bool, Refusal>
        ensures performs { PerformsSurelyOn (undo n) self.old self.new result }
        ensures texts { IfOk result (λ touched. OnFalse touched (self.new.store.modules ≡ self.old.store.modules)) }
    {
        if self.in_group() {
            return Err(Refusal::Group);
        }
        let steps = n as usize;
        if self.past() < steps {
            return Err(Refusal::NoUndo);
        }
        Ok(self.back_by(steps))
    }

    /// Goes `n` steps forward. Returns whether module texts may have changed.
    pub fn redo(&mut self, n: u32) -> Result<bool, Refusal>
        ensures performs { PerformsSurelyOn (redo n) self.old self.new result }
        ensures texts { IfOk result (λ touched. OnFalse touched (self.new.store.modules ≡ self.old.store.modules)) }
    {
        if self.in_group() {
            return Err(Refusal::Group);
        }
        let steps = n as usize;
        if self.later() < steps {
            return Err(Refusal::NoRedo);
        }
        Ok(self.forward_by(steps))
    }

    /// Opens a group.
    pub fn begin(&mut self) -> Result<(), Refusal>
        ensures { PerformsSurelyOn begin self.old self.new result }
    {
        if self.in_group() {
            return Err(Refusal::Group);
        }
        self.open_group();
        Ok(())
    }

    /// Undoes the changes of the open group and closes it. Returns whether module texts may have
    /// changed.
    pub fn abandon(&mut self) -> Result<bool, Refusal>
        ensures performs { PerformsSurelyOn abandon self.old self.new result }
        ensures texts { IfOk result (λ touched. OnFalse touched (self.new.store.modules ≡ self.old.store.modules)) }
    {
        if !self.in_group() {
            return Err(Refusal::NoGroup);
        }
        Ok(self.leave_group())
    }
}

// Whether all terms fit at the level in this room.
fn all_fit(terms: &[Term], level: u64, room: u32) -> bool
    ensures { result ≡ list_all (fits room level) terms.now }
{
    terms.iter().all(|term| term.fits(level, room))
}
