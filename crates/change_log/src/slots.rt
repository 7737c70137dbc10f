//! Slots: numbered places with a label each, for trees or for module texts.

ghost use Rattle.std.specs.Prelude.{◌≡◌, [], Some, unwrap_or, IfOk, OnOk, OnErr, option_copied, option_map, slice_get};
ghost use Rattle.std.specs.FinMap as finmap;
ghost use Rattle.term_paths.specs.Paths.{set_at, set_annotations_at};
ghost use Rattle.term_changes.specs.Slots.{HaveDistinctLabels, slot_at, content, with_content, slot_of, with_slot, named};
ghost use Rattle.std.specs.Option.{option_map_or};
ghost use Rattle.term_changes.specs.Exchange.{changed_in, taken_in};
ghost use Rattle.term_changes.specs.Entries.{changed_tree, subterm_in, annotations_in};

use indexmap::IndexMap;
use std::alloc::Global;
use std::marker::Model;
use std::mem;
use term_changes::Patch;
use term_core::{Label, NoMemory, Term};
use term_paths::{swap_annotations_at_parts, swap_at_parts};

/// The contents of the slots by label. A slot keeps its number once it is made.
#[derive(Drop)]
pub struct Slots<T: Drop> {
    slots: IndexMap<Label, Option<T>>,
}

impl<T: Drop> Model for Slots<T> {
    ghost use Rattle.term_changes.specs.Slots.{Slots};
    ghost use Rattle.term_changes.specs.inside.Codes.{slots_code};

    ghost Value = { Slots T };

    ghost coded = { slots_code T.code };

    ghost view = { λ a. a.slots.entries };
}

impl<T: Drop> Slots<T> {
    /// No slots. It takes no memory.
    pub(crate) fn new(alloc: Global) -> Slots<T>
        ensures { result ≡ [] }
    {
        Slots {
            slots: IndexMap::new(alloc),
        }
    }

    pub(crate) fn find(&self, name: &Label) -> Option<usize>
        ensures slot { result ≡ slot_of self.now name.now }
        ensures apart { HaveDistinctLabels self.now }
    {
        self.slots.get_index_of(name)
    }

    /// The number of the slot of this label. It is made, empty, if there is none.
    pub(crate) fn find_or_make(&mut self, name: &Label) -> Result<usize, NoMemory>
        ensures ok { OnOk result (self.new ≡ with_slot self.old name.now) }
        ensures slot { IfOk result (λ i. slot_of self.new name.now ≡ Some i) }
        ensures err { OnErr result (self.new ≡ self.old) }
        ensures apart { HaveDistinctLabels self.new }
    {
        if let Some(i) = self.slots.get_index_of(name) {
            return Ok(i);
        }
        let name = name.try_clone()?;
        let i = self.slots.len();
        self.slots.insert(name, None)?;
        Ok(i)
    }

    /// The content of slot `i`, if the slot exists and isn't empty.
    pub(crate) fn content(&self, i: usize) -> Option<&T>
        ensures { option_copied result ≡ content self.now i }
    {
        let (_name, content) = self.slots.get_index(i)?;
        content.as_ref()
    }

    /// The label of slot `i`, if the slot exists.
    pub(crate) fn label(&self, i: usize) -> Option<&Label>
        ensures label { option_copied result ≡ option_map (λ s. s.0) (slice_get self.now i) }
        ensures apart { HaveDistinctLabels self.now }
    {
        if i >= self.slots.len() {
            return None;
        }
        let (name, _content) = self.slots.get_index(i)?;
        Some(name)
    }

    /// The labels of the slots that have content, in byte order.
    pub(crate) fn names(&self, alloc: Global) -> Result<Vec<Label>, NoMemory>
        ensures { IfOk result (λ names. names.items ≡ finmap.keys (named self.now)) }
    {
        let mut names = Vec::new(alloc);
        for (name, content) in self.slots.iter() {
            if content.is_some() {
                names.push(name.try_clone()?)?;
            }
        }
        names.sort_unstable();
        Ok(names)
    }

    /// Swaps the content of slot `i` with `other`; does nothing if there is no such slot.
    pub(crate) fn swap(&mut self, i: usize, other: &mut Option<T>)
        ensures slots { self.new ≡ with_content self.old i other.old }
        ensures other { other.new ≡ unwrap_or (slot_at self.old i) other.old }
    {
        let Some(content) = self.slots.get_index_mut(i) else {
            return;
        };
        mem::swap(content, other);
    }
}

impl Slots<Term> {
    /// Swaps the subterm at the path in the tree of slot `i` with `other`; does nothing if there is
    /// none.
    pub(crate) fn swap_subterm(&mut self, i: usize, path: &[usize], other: &mut Term)
        ensures slots { self.new ≡ changed_tree (λ t. set_at t path.now other.old) self.old i }
        ensures other { other.new ≡ unwrap_or (subterm_in self.old i path.now) other.old }
    {
        let Some(content) = self.slots.get_index_mut(i) else {
            return;
        };
        let Some(tree) = content else {
            return;
        };
        swap_at_parts(tree, path, other);
    }

    /// Swaps the annotations of that subterm with `other`.
    pub(crate) fn swap_annotations(&mut self, i: usize, path: &[usize], other: &mut Vec<Term>)
        ensures slots { self.new
            ≡ changed_tree (λ t. set_annotations_at t path.now other.old.items) self.old i }
        ensures other { other.new.items
            ≡ unwrap_or (annotations_in self.old i path.now) other.old.items }
    {
        let Some(content) = self.slots.get_index_mut(i) else {
            return;
        };
        let Some(tree) = content else {
            return;
        };
        swap_annotations_at_parts(tree, path, other);
    }

    /// Exchanges the patch in the subterm that the path leads to in the tree of slot `i`; does
    /// nothing if there is none.
    pub(crate) fn exchange(&mut self, i: usize, path: &[usize], patch: &mut Patch)
        ensures slots { self.new ≡ changed_tree (λ t. changed_in patch.old t path.now) self.old i }
        ensures patch { patch.new
            ≡ option_map_or (λ t. taken_in patch.old t path.now) (content self.old i) patch.old }
    {
        let Some(content) = self.slots.get_index_mut(i) else {
            return;
        };
        let Some(tree) = content else {
            return;
        };
        patch.exchange_at(tree, path);
    }
}
