//! Reading a patch, without changing it.

ghost use Rattle.std.specs.Prelude.{◌≡◌};
ghost use Rattle.term_changes.specs.Items.{first_change};
ghost use Rattle.term_changes.specs.Reading.{IsNextItem};

use crate::Patch;
use crate::draft::PlaceMark;
use std::marker::Model;
use term_core::Term;

/// What comes next in a patch.
#[derive(Clone, Copy)]
pub enum PatchItem<'a> {
    /// A term for a place.
    Term(&'a Term),
    /// A node. The next so many items belong to it.
    Node(usize),
}

/// The places of a patch that are yet to be read, the first one first. Contracts see places of one
/// node, as with a draft.
#[derive(Drop)]
pub struct PatchReader<'a> {
    marks: &'a [PlaceMark],
    terms: &'a [Term],
}

impl<'a> Model for PatchReader<'a> {
    ghost use Rattle.std.specs.Prelude.{List, length, reverse};
    ghost use Rattle.term_changes.specs.Items.{Item};
    ghost use Rattle.term_changes.specs.inside.ItemCodes.{items_code};
    ghost use Rattle.term_changes.specs.inside.Marks.{read, AreWhole};

    ghost Value = { List Item };

    ghost coded = { items_code };

    ghost view = { λ a. read (reverse a.marks.now) (reverse a.terms.now) };

    ghost invariant = { λ a. AreWhole (reverse a.marks.now) (length a.terms.now) };
}

impl Patch {
    /// The places, to be read.
    pub fn reader(&self) -> PatchReader<'_>
        ensures { first_change result ≡ self.now }
    {
        PatchReader {
            marks: self.marks.as_slice(),
            terms: self.terms.as_slice(),
        }
    }
}

impl<'a> PatchReader<'a> {
    /// What comes next, and how many children are left as they are between the place before it and
    /// this one; `None` at the end.
    ///
    /// For example, the patch with x for `/1/1` and y for `/2` gives `Node(2)`, `Node(1)` with 1
    /// child left, x with 1 child left, and y.
    pub fn next(&mut self) -> Option<(usize, PatchItem<'a>)>
        ensures { IsNextItem self.old result self.new }
    {
        let (mark, marks) = self.marks.split_last()?;
        self.marks = marks;
        if mark.kids > 0 {
            return Some((mark.skipped, PatchItem::Node(mark.kids)));
        }
        let Some((term, terms)) = self.terms.split_last() else {
            unreachable!()
        };
        self.terms = terms;
        Some((mark.skipped, PatchItem::Term(term)))
    }
}
