//! Steps: changes that are undone and redone together.

ghost use Rattle.std.specs.Prelude.{◌≡◌, ◌∷◌, [], IfOk, OnOk, OnErr, true};
ghost use Rattle.term_changes.specs.Slots.{Store};
ghost use Rattle.term_changes.specs.Entries.{slot_text, put, found, before, after, flipped_back, flipped_forward, has_text, Fits};
ghost use Rattle.term_changes.specs.Compact.{IsCompact};
ghost use Rattle.term_changes.specs.PatchLaws.{patch_entries};
ghost use Rattle.change_log.specs.Reading.{whole_entry, part_entries, entries_of};

use crate::{Log, Store};
use std::alloc::Global;
use std::marker::Model;
use term_changes::{Entry, Kept, Patch, Text};
use term_core::NoMemory;

/// What the changes of a step replaced, the oldest first. A step of one change with an empty path
/// takes no memory.
#[derive(Drop)]
pub struct Step {
    changes: Changes,
}

/// The changes of a step.
#[derive(Drop)]
pub enum Changes {
    /// One change with an empty path: of a tree, its root or its annotations there, or of a module
    /// text.
    One(Whole),
    /// Changes of subterms of one tree, of which none lies within another.
    Patched(PatchedSubterm),
    /// All other changes.
    Logged(Log),
}

/// A patch of the subterm at `path` in the tree of a slot. It has what was there before.
#[derive(Drop)]
pub struct PatchedSubterm {
    /// The slot of the tree.
    pub slot: usize,
    /// The path of the subterm; empty for the whole tree.
    pub path: Vec<usize>,
    /// What was there, for each place that changed.
    pub patch: Patch,
}

/// What a change with an empty path replaced.
#[derive(Drop)]
pub struct Whole {
    /// The slot of the tree or module.
    pub slot: usize,
    /// What was there.
    pub kept: Kept,
}

impl Model for Step {
    ghost use Rattle.std.specs.Prelude.{List};
    ghost use Rattle.std.specs.Coded.{coded_list};
    ghost use Rattle.term_changes.specs.Entries.{Entry};
    ghost use Rattle.term_changes.specs.inside.Codes.{entry_code};

    ghost Value = { List Entry };

    ghost coded = { coded_list entry_code };

    ghost use Rattle.change_log.specs.Reading.{entries_of};

    ghost view = { λ a. entries_of a.changes };
}

impl Step {
    /// Makes the change, as `Log::push` does, and a step of it. If memory can't grow, the store
    /// stays as it was and the change is dropped.
    pub fn make(alloc: Global, store: &mut Store, change: Entry<'_>) -> Result<Step, NoMemory>
        ensures step { IfOk result (λ step. step ≡ found change.entry store.old ∷ []) }
        ensures store { OnOk result (store.new ≡ put change.entry store.old) }
        ensures err { OnErr result (store.new ≡ store.old) }
    {
        if !change.path.is_empty() {
            return logged(alloc, store, change);
        }
        let Entry {
            slot,
            path,
            mut kept,
        } = change;
        store.exchange(slot, path, &mut kept);
        Ok(Step {
            changes: Changes::One(Whole { slot, kept }),
        })
    }

    /// Puts a module text into the slot, or none, and makes a step of it. It takes no memory.
    pub fn of_text(store: &mut Store, slot: usize, text: Option<Text>) -> Step
        ensures step { result ≡ found (slot_text slot text) store.old ∷ [] }
        ensures store { store.new ≡ put (slot_text slot text) store.old }
    {
        let mut whole = Whole {
            slot,
            kept: Kept::Text(text),
        };
        whole.exchange(store);
        Step {
            changes: Changes::One(whole),
        }
    }

    /// The step of the entries of the log, compacted.
    pub fn of(log: Log) -> Step
        ensures before { (s : Store) → before result s ≡ before log s }
        ensures fits { (s : Store) → Fits log s → Fits result s }
        ensures compact { IsCompact result }
    {
        let mut log = log;
        log.compact();
        Step {
            changes: Changes::Logged(log),
        }
    }

    /// Exchanges the patch in the subterm that the path leads to in the tree of the slot, and makes
    /// a step of it. It takes no memory.
    pub fn patched(store: &mut Store, slot: usize, path: Vec<usize>, patch: Patch) -> Step
        ensures step { result ≡ flipped_forward (patch_entries slot path.items patch) store.old }
        ensures store { store.new ≡ after (patch_entries slot path.items patch) store.old }
        ensures compact { IsCompact result }
    {
        let mut parts = PatchedSubterm { slot, path, patch };
        parts.exchange(store);
        Step {
            changes: Changes::Patched(parts),
        }
    }

    /// The changes, to be read.
    pub fn changes(&self) -> &Changes
        ensures { entries_of result.now ≡ self.now }
    {
        &self.changes
    }

    /// Whether it has no changes.
    pub fn is_empty(&self) -> bool
        ensures { result ≡ true → self.now ≡ [] }
    {
        match &self.changes {
            Changes::One(_) => false,
            Changes::Patched(parts) => parts.patch.is_nothing(),
            Changes::Logged(log) => log.count() == 0,
        }
    }

    /// Whether a module text changes.
    pub fn has_text(&self) -> bool
        ensures { result ≡ has_text self.now }
    {
        match &self.changes {
            Changes::One(whole) => whole.kept.texts() > 0,
            Changes::Patched(parts) => parts.has_text(),
            Changes::Logged(log) => log.has_text(),
        }
    }

    /// Undoes all changes, the newest first. It leaves the step ready for `flip_forward`, which
    /// redoes them. It takes no memory.
    pub fn flip_back(&mut self, store: &mut Store)
        ensures step { self.new ≡ flipped_back self.old store.old }
        ensures store { store.new ≡ before self.old store.old }
    {
        match &mut self.changes {
            Changes::One(whole) => whole.exchange(store),
            Changes::Patched(parts) => parts.exchange(store),
            Changes::Logged(log) => log.flip_back(store),
        }
    }

    /// Redoes all changes, the oldest first. It leaves the step ready for `flip_back`. It takes no
    /// memory.
    pub fn flip_forward(&mut self, store: &mut Store)
        ensures step { self.new ≡ flipped_forward self.old store.old }
        ensures store { store.new ≡ after self.old store.old }
    {
        match &mut self.changes {
            Changes::One(whole) => whole.exchange(store),
            Changes::Patched(parts) => parts.exchange(store),
            Changes::Logged(log) => log.flip_forward(store),
        }
    }
}

// Makes the change with a log of its own.
fn logged(alloc: Global, store: &mut Store, change: Entry<'_>) -> Result<Step, NoMemory>
    ensures step { IfOk result (λ step. step ≡ found change.entry store.old ∷ []) }
    ensures store { OnOk result (store.new ≡ put change.entry store.old) }
    ensures err { OnErr result (store.new ≡ store.old) }
{
    let mut log = Log::new(alloc);
    log.push(store, change)?;
    Ok(Step {
        changes: Changes::Logged(log),
    })
}

impl Whole {
    // Swaps the held value with the content of the slot.
    fn exchange(&mut self, store: &mut Store)
        ensures store { store.new ≡ put (whole_entry self.old) store.old }
        ensures kept { whole_entry self.new ≡ found (whole_entry self.old) store.old }
    {
        store.exchange(self.slot, &[], &mut self.kept);
    }
}

impl PatchedSubterm {
    // Exchanges the held terms with what stands at their places, which undoes the changes and
    // redoes them.
    fn exchange(&mut self, store: &mut Store)
        ensures back { part_entries self.new ≡ flipped_back (part_entries self.old) store.old }
        ensures forward { part_entries self.new ≡ flipped_forward (part_entries self.old) store.old }
        ensures store_back { store.new ≡ before (part_entries self.old) store.old }
        ensures store_forward { store.new ≡ after (part_entries self.old) store.old }
        ensures compact { IsCompact (part_entries self.new) }
    {
        store.exchange_patch(self.slot, &self.path, &mut self.patch);
    }

    // No change is of a module text.
    fn has_text(&self) -> bool
        ensures { result ≡ has_text (part_entries self.now) }
    {
        false
    }
}
