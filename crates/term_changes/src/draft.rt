//! Drafts of patches: what a patch is made from, the last place first.

ghost use Rattle.std.specs.Prelude.{◌≡◌, ◌≤◌, [], ◌∷◌, length, IfOk};
ghost use Rattle.term_changes.specs.Change.{replaced};
ghost use Rattle.term_changes.specs.Items.{after_skipped, gathered, first_change};

use crate::Patch;
use std::alloc::Global;
use std::marker::Model;
use term_core::{NoMemory, Term};

/// A place of a patch: a term, or a node with places below some of its children.
#[derive(Clone, Copy)]
pub struct PlaceMark {
    // How many children are left as they are between the place before it and this one.
    pub(crate) skipped: usize,
    // How many places below children a node has; none: a term.
    pub(crate) kids: usize,
}

/// Builder for a [`Patch`], filled right to left, bottom up: the last place is added first, and a
/// node after the places below its children. Contracts see places of one node, the first one first.
///
/// For example, `term(y)`, `term(x)`, `leave(1)`, `node(1)`, `leave(1)`, `node(2)` and `finish()`
/// give the patch with x for the place `/1/1` and y for `/2`.
#[derive(Drop)]
pub struct Draft {
    // The last place in the tree stands first here, and a node after the places below its children.
    pub(crate) marks: Vec<PlaceMark>,
    // In the same order.
    pub(crate) terms: Vec<Term>,
}

impl Model for Draft {
    ghost use Rattle.std.specs.Prelude.{List, length, reverse};
    ghost use Rattle.term_changes.specs.Items.{Item};
    ghost use Rattle.term_changes.specs.inside.ItemCodes.{items_code};
    ghost use Rattle.term_changes.specs.inside.Marks.{read, AreWhole};

    ghost Value = { List Item };

    ghost coded = { items_code };

    ghost view = { λ a. read (reverse a.marks.items) (reverse a.terms.items) };

    ghost invariant = { λ a. AreWhole (reverse a.marks.items) (length a.terms.items) };
}

impl Draft {
    /// No places. It takes no memory.
    pub fn new(alloc: Global) -> Draft
        ensures { result ≡ [] }
    {
        Draft {
            marks: Vec::new(alloc),
            terms: Vec::new(alloc),
        }
    }

    /// Makes room for so many more places.
    pub fn reserve(&mut self, places: usize) -> Result<(), NoMemory>
        ensures { self.new ≡ self.old }
    {
        self.marks.reserve(places)?;
        self.terms.reserve(places)?;
        Ok(())
    }

    /// Adds a place before the others, and the term for it.
    #[inline(always)]
    pub fn term(&mut self, term: Term) -> Result<(), NoMemory>
        ensures { IfOk result (λ _. self.new ≡ (0, replaced term) ∷ self.old) }
    {
        self.marks.reserve(1)?;
        self.terms.reserve(1)?;
        self.marks.push_reserved(PlaceMark {
            skipped: 0,
            kids: 0,
        });
        self.terms.push_reserved(term);
        Ok(())
    }

    /// Makes the first places those of one node, which has them below its children.
    pub fn node(&mut self, kids: usize) -> Result<(), NoMemory>
        requires some { 1 ≤ kids }
        requires there { kids ≤ length self.old }
        ensures { IfOk result (λ _. self.new ≡ gathered kids self.old) }
    {
        self.marks.push(PlaceMark { skipped: 0, kids })?;
        Ok(())
    }

    /// Leaves so many children before the first place as they are.
    pub fn leave(&mut self, skipped: usize)
        ensures { self.new ≡ after_skipped skipped self.old }
    {
        let count = self.marks.len();
        if count > 0 {
            self.marks[count - 1].skipped = skipped;
        }
    }

    /// The patch of the first place; no places where there is none.
    pub fn finish(self) -> Patch
        ensures { result ≡ first_change self }
    {
        Patch {
            marks: self.marks,
            terms: self.terms,
        }
    }
}
