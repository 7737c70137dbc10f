//! Entries: changes of one place of a store.

ghost use Rattle.std.specs.Prelude.{◌≡◌, ◌≤◌, ℕ, List, option_map};
ghost use Rattle.term_changes.specs.Entries.{slot_tree, subterm, subterm_annotations, slot_text, text_count};
ghost use Rattle.term_changes.specs.LogView.{entry_of};

use crate::text::Text;
use std::marker::Model;
use term_core::Term;

/// A place in a store and what to put there. A slot of trees or of module texts is given by its
/// number, a subterm by its path: the numbers of the children from the root.
#[derive(Drop)]
pub struct Entry<'a> {
    pub slot: usize,
    pub path: &'a [usize],
    pub kept: Kept,
}

/// What an entry holds for its place.
#[derive(Drop)]
pub enum Kept {
    /// A slot's tree, or none.
    Tree(Option<Term>),
    /// The subterm at a path.
    Subterm(Term),
    /// The annotations of the subterm at a path.
    Annotations(Vec<Term>),
    /// A slot's module text, or none.
    Text(Option<Text>),
}

impl Kept {
    /// 1 for a module text, else 0.
    pub fn texts(&self) -> usize
        ensures value { (i : ℕ) (p : List ℕ) → result ≡ text_count (entry_of i p self.now) }
        ensures one { result ≤ 1 }
    {
        match self {
            Kept::Text(_) => 1,
            _ => 0,
        }
    }
}

impl<'a> Model for Entry<'a> {
    ghost use Rattle.term_changes.specs.Entries.{Entry};
    ghost use Rattle.term_changes.specs.inside.Codes.{entry_code};

    ghost Value = { Entry };

    ghost coded = { entry_code };

    ghost use Rattle.term_changes.specs.LogView.{entry_of};

    ghost view = { λ a. entry_of a.slot a.path.now a.kept };
}

impl<'a> Entry<'a> {
    /// An entry that sets the tree of a slot, or with `None` empties it.
    pub fn tree(slot: usize, tree: Option<Term>) -> Entry<'a>
        ensures { result ≡ slot_tree slot tree }
    {
        Entry {
            slot,
            path: &[],
            kept: Kept::Tree(tree),
        }
    }

    /// An entry that replaces the subterm at the path in a slot's tree: with the path 1, 0 and the
    /// term `c`, it makes `f(a,g(c))` of `f(a,g(b))`.
    #[inline(always)]
    pub fn subterm(slot: usize, path: &'a [usize], term: Term) -> Entry<'a>
        ensures { result ≡ subterm slot path.now term }
    {
        Entry {
            slot,
            path,
            kept: Kept::Subterm(term),
        }
    }

    /// An entry that replaces the annotations of the subterm at the path in a slot's tree.
    pub fn annotations(slot: usize, path: &'a [usize], annotations: Vec<Term>) -> Entry<'a>
        ensures { result ≡ subterm_annotations slot path.now annotations.items }
    {
        Entry {
            slot,
            path,
            kept: Kept::Annotations(annotations),
        }
    }

    /// An entry that sets the module text of a slot, or with `None` empties it.
    pub fn text(slot: usize, text: Option<Vec<u8>>) -> Entry<'a>
        ensures { result ≡ slot_text slot (option_map (λ bytes. bytes.items) text) }
    {
        let text = match text {
            Some(bytes) => Some(Text::new(bytes)),
            None => None,
        };
        Entry {
            slot,
            path: &[],
            kept: Kept::Text(text),
        }
    }
}
