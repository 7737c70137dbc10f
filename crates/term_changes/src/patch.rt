//! Patches.

ghost use Rattle.std.specs.Prelude.{◌≡◌, true};
ghost use Rattle.term_changes.specs.Change.{inside, no_more, changed};
ghost use Rattle.term_changes.specs.Exchange.{taken, changed_in, taken_in};

use crate::draft::PlaceMark;
use crate::exchange::exchange_item;
use std::alloc::Global;
use std::marker::Model;
use term_core::Term;

/// Terms for places of a tree of which none lies within another: for the whole tree, or for places
/// below some of its children. Contracts see the change that it makes.
#[derive(Drop)]
pub struct Patch {
    pub(crate) marks: Vec<PlaceMark>,
    pub(crate) terms: Vec<Term>,
}

impl Model for Patch {
    ghost use Rattle.std.specs.Prelude.{reverse, length};
    ghost use Rattle.term_changes.specs.Change.{Change};
    ghost use Rattle.term_changes.specs.inside.ItemCodes.{change_code};
    ghost use Rattle.term_changes.specs.Items.{first_change};
    ghost use Rattle.term_changes.specs.inside.Marks.{read, AreWhole};

    ghost Value = { Change };

    ghost coded = { change_code };

    ghost view = { λ a. first_change (read (reverse a.marks.items) (reverse a.terms.items)) };

    ghost invariant = { λ a. AreWhole (reverse a.marks.items) (length a.terms.items) };
}

impl Patch {
    /// No places. It takes no memory.
    pub fn nothing(alloc: Global) -> Patch
        ensures { result ≡ inside no_more }
    {
        Patch {
            marks: Vec::new(alloc),
            terms: Vec::new(alloc),
        }
    }

    /// Whether it has no places.
    pub fn is_nothing(&self) -> bool
        ensures { result ≡ true → self.now ≡ inside no_more }
    {
        self.marks.is_empty()
    }

    /// Exchanges each of the terms with what stands at its place. A second time takes that back. It
    /// takes no memory, and goes to no child that has no place in it.
    ///
    /// For example, the patch with `x` for `/0` makes `f(x,b)` of `f(a,b)`, and is then the patch
    /// with `a` for `/0`.
    pub fn exchange(&mut self, tree: &mut Term)
        ensures tree { tree.new ≡ changed self.old tree.old }
        ensures patch { self.new ≡ taken self.old tree.old }
    {
        let marks = self.marks.as_slice();
        if marks.len() > 0 {
            let _left = exchange_item(marks, self.terms.as_mut_slice(), tree);
        }
    }

    /// Exchanges in the subterm that the path leads to; nothing where it leads nowhere. The places
    /// of the patch are counted from that subterm: `/0` with the path 1 is `/1/0` of the tree.
    pub fn exchange_at(&mut self, tree: &mut Term, path: &[usize])
        ensures tree { tree.new ≡ changed_in self.old tree.old path.now }
        ensures patch { self.new ≡ taken_in self.old tree.old path.now }
    {
        let Some((first, rest)) = path.split_first() else {
            self.exchange(tree);
            return;
        };
        if *first >= tree.child_count() {
            return;
        }
        self.exchange_at(&mut tree.children_mut()[*first], rest);
    }
}
