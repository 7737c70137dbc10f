//! Stores: trees and module texts by name, in numbered slots.

ghost use Rattle.std.specs.Prelude.{◌≡◌, IfOk, OnOk, OnErr, Some, option_copied, option_map, slice_get};
ghost use Rattle.std.specs.FinMap as finmap;
ghost use Rattle.term_changes.specs.Slots.{HaveDistinctLabels, content, slot_of, empty_store, contents, with_tree_slot, with_module_slot};
ghost use Rattle.term_changes.specs.Entries.{put, found};
ghost use Rattle.term_changes.specs.LogView.{entry_of};
ghost use Rattle.term_changes.specs.PatchLaws.{patched, taken_slot};

use crate::Slots;
use std::alloc::Global;
use std::marker::Model;
use term_changes::{Kept, Patch, Text};
use term_core::{Label, NoMemory, Term};

/// Trees and module texts in slots. A slot is made when a label is first asked for, and is never
/// removed; it is empty until a change puts something there. Its number is its index among the
/// slots for trees, or among those for modules. The contents of a store are those of its slots that
/// aren't empty.
#[derive(Drop)]
pub struct Store {
    trees: Slots<Term>,
    modules: Slots<Text>,
}

impl Model for Store {
    ghost use Rattle.term_changes.specs.Slots.{Store};
    ghost use Rattle.term_changes.specs.inside.Codes.{store_code};

    ghost Value = { Store };

    ghost coded = { store_code };

    ghost view = { λ a. record { trees = a.trees; modules = a.modules } };
}

impl Store {
    /// An empty store. It takes no memory.
    pub fn new(alloc: Global) -> Store
        ensures { result ≡ empty_store }
    {
        Store {
            trees: Slots::new(alloc),
            modules: Slots::new(alloc),
        }
    }

    /// The slot for the tree of this label. It is made if there is none.
    pub fn tree_slot(&mut self, name: &Label) -> Result<usize, NoMemory>
        ensures ok { OnOk result (self.new ≡ with_tree_slot self.old name.now) }
        ensures slot { IfOk result (λ i. slot_of self.new.trees name.now ≡ Some i) }
        ensures err { OnErr result (self.new ≡ self.old) }
        ensures apart { HaveDistinctLabels self.new.trees }
    {
        self.trees.find_or_make(name)
    }

    /// The slot for the module of this label. It is made if there is none.
    pub fn module_slot(&mut self, name: &Label) -> Result<usize, NoMemory>
        ensures ok { OnOk result (self.new ≡ with_module_slot self.old name.now) }
        ensures slot { IfOk result (λ i. slot_of self.new.modules name.now ≡ Some i) }
        ensures err { OnErr result (self.new ≡ self.old) }
        ensures apart { HaveDistinctLabels self.new.modules }
    {
        self.modules.find_or_make(name)
    }

    /// The slot for the tree of this label, empty or not, or `None` if it has none.
    pub fn find_tree(&self, name: &Label) -> Option<usize>
        ensures slot { result ≡ slot_of self.now.trees name.now }
        ensures apart { HaveDistinctLabels self.now.trees }
    {
        self.trees.find(name)
    }

    /// The slot for the module of this label, empty or not, or `None` if it has none.
    pub fn find_module(&self, name: &Label) -> Option<usize>
        ensures slot { result ≡ slot_of self.now.modules name.now }
        ensures apart { HaveDistinctLabels self.now.modules }
    {
        self.modules.find(name)
    }

    /// The tree in the slot, or `None` if the slot is empty or doesn't exist.
    pub fn tree(&self, slot: usize) -> Option<&Term>
        ensures { option_copied result ≡ content self.now.trees slot }
    {
        self.trees.content(slot)
    }

    /// The module text in the slot, or `None` if the slot is empty or doesn't exist.
    pub fn module(&self, slot: usize) -> Option<&[u8]>
        ensures { option_copied result ≡ content self.now.modules slot }
    {
        match self.modules.content(slot) {
            Some(text) => Some(text.bytes()),
            None => None,
        }
    }

    /// The name of the tree whose slot this is, or `None` if there is no such slot.
    pub fn tree_name(&self, slot: usize) -> Option<&Label>
        ensures label { option_copied result ≡ option_map (λ s. s.0) (slice_get self.now.trees slot) }
        ensures apart { HaveDistinctLabels self.now.trees }
    {
        self.trees.label(slot)
    }

    /// The name of the module whose slot this is, or `None` if there is no such slot.
    pub fn module_name(&self, slot: usize) -> Option<&Label>
        ensures label { option_copied result ≡ option_map (λ s. s.0) (slice_get self.now.modules slot) }
        ensures apart { HaveDistinctLabels self.now.modules }
    {
        self.modules.label(slot)
    }

    /// The names of the trees, in byte order.
    pub fn tree_names(&self, alloc: Global) -> Result<Vec<Label>, NoMemory>
        ensures { IfOk result (λ names. names.items ≡ finmap.keys (contents self.now).trees) }
    {
        self.trees.names(alloc)
    }

    /// The names of the modules, in byte order.
    pub fn module_names(&self, alloc: Global) -> Result<Vec<Label>, NoMemory>
        ensures { IfOk result (λ names. names.items ≡ finmap.keys (contents self.now).modules) }
    {
        self.modules.names(alloc)
    }

    // Swaps what is at a place with `kept`; does nothing if the store doesn't have the place.
    #[inline(always)]
    pub(crate) fn exchange(&mut self, slot: usize, path: &[usize], kept: &mut Kept)
        ensures store { self.new ≡ put (entry_of slot path.now kept.old) self.old }
        ensures kept { entry_of slot path.now kept.new
            ≡ found (entry_of slot path.now kept.old) self.old }
    {
        match kept {
            Kept::Subterm(term) => self.trees.swap_subterm(slot, path, term),
            _ => self.exchange_other(slot, path, kept),
        }
    }

    // Exchanges the patch in the subterm that the path leads to in the tree of the slot.
    pub(crate) fn exchange_patch(&mut self, slot: usize, path: &[usize], patch: &mut Patch)
        ensures store { self.new ≡ patched patch.old slot path.now self.old }
        ensures patch { patch.new ≡ taken_slot patch.old slot path.now self.old }
    {
        self.trees.exchange(slot, path, patch);
    }

    // `exchange` for everything but a subterm.
    #[inline(never)]
    fn exchange_other(&mut self, slot: usize, path: &[usize], kept: &mut Kept)
        ensures store { self.new ≡ put (entry_of slot path.now kept.old) self.old }
        ensures kept { entry_of slot path.now kept.new
            ≡ found (entry_of slot path.now kept.old) self.old }
    {
        match kept {
            Kept::Tree(tree) => self.trees.swap(slot, tree),
            Kept::Subterm(term) => self.trees.swap_subterm(slot, path, term),
            Kept::Annotations(terms) => self.trees.swap_annotations(slot, path, terms),
            Kept::Text(text) => self.modules.swap(slot, text),
        }
    }
}
