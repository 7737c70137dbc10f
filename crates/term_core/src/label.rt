//! Labels: the names that users give to trees and modules.

ghost use Rattle.std.specs.Prelude.{◌≡◌, ◌↔◌, IfOk, Some, None, Err, is_err};
ghost use Rattle.term_core.specs.Word.{label_of};

use crate::{Name, NoMemory, is_word};
use std::alloc::{AllocError, Global};
use std::cmp::Ordering;
use std::fmt::{self, Debug, Formatter};
use std::hash::{Hash, Hasher};
use std::marker::Model;
use thiserror::Error;

/// The greatest length of a label, in bytes.
pub const MAX_LABEL: usize = 64;

/// A word of at most 64 bytes that names a tree or a module. Labels compare by their bytes. One of
/// at most 13 bytes takes no memory.
#[derive(Drop)]
pub struct Label {
    name: Name,
}

impl Model for Label {
    ghost use Rattle.std.specs.Prelude.{◌≡◌, ℕ, List, Some};
    ghost use Rattle.term_core.specs.Word.{label_of};

    ghost Value = { List ℕ };

    ghost view = { λ l. l.name.text };

    ghost invariant = { λ l. label_of l.name.text ≡ Some l.name.text };
}

/// Why a text is no label.
#[derive(Clone, Copy, Debug, PartialEq, Eq, Error)]
pub enum LabelFault {
    /// It isn't a word, or is longer than 64 bytes.
    #[error("name")]
    Name,
    /// Memory couldn't grow.
    #[error("memory")]
    Memory,
}

impl From<AllocError> for LabelFault {
    ghost use Rattle.std.specs.Prelude.{◌≡◌};
    ghost use Rattle.term_core.specs.declared.label.LabelFault.{LabelFault};

    ghost from_gives = { λ _ e. e ≡ LabelFault.Memory };

    fn from(_refused: AllocError) -> LabelFault {
        LabelFault::Memory
    }
}

impl From<NoMemory> for LabelFault {
    ghost use Rattle.std.specs.Prelude.{◌≡◌};
    ghost use Rattle.term_core.specs.declared.label.LabelFault.{LabelFault};

    ghost from_gives = { λ _ e. e ≡ LabelFault.Memory };

    fn from(_refused: NoMemory) -> LabelFault {
        LabelFault::Memory
    }
}

impl Label {
    /// The label with these bytes: `t`, `rules-2` or `x'`, for example, but neither `2t` nor `a b`.
    pub fn read(alloc: Global, text: &[u8]) -> Result<Label, LabelFault>
        ensures label { IfOk result (λ label. label_of text.now ≡ Some label) }
        ensures name { (result ≡ Err LabelFault.Name) ↔ (label_of text.now ≡ None) }
    {
        if text.len() > MAX_LABEL || !is_word(text) {
            return Err(LabelFault::Name);
        }
        let name = Name::of_word(alloc, text)?;
        Ok(Label { name })
    }

    pub fn bytes(&self) -> &[u8]
        ensures value { result.now ≡ self.now }
        ensures label { label_of self.now ≡ Some self.now }
    {
        self.name.bytes()
    }

    /// An equal label.
    pub fn try_clone(&self) -> Result<Label, NoMemory>
        ensures { IfOk result (λ label. label ≡ self.now) }
    {
        let name = self.name.try_clone()?;
        Ok(Label { name })
    }
}

impl Debug for Label {
    fn fmt<W: fmt::Write>(&self, f: &mut Formatter<W>) -> fmt::Result {
        self.bytes().fmt(f)
    }
}

impl PartialEq for Label {
    ghost use Rattle.std.specs.Prelude.{nat_eq};
    ghost use Rattle.std.proofs.Common.{rules};
    ghost use Rattle.std.specs.Cmp.Rules.{comparing};
    ghost use lib.Pointwise.{pointwise};

    ghost eq = { λ a b. pointwise nat_eq a b };

    ghost laws = { Prim.search (comparing, rules) };

    fn eq(&self, other: &Label) -> bool {
        self.bytes() == other.bytes()
    }
}

impl Eq for Label {
    ghost use Rattle.std.proofs.lemmas.Cmp.{nat_list_eq_equiv};

    ghost laws = { nat_list_eq_equiv };
}

impl Ord for Label {
    ghost use Rattle.std.proofs.Common.{rules};
    ghost use Rattle.std.specs.Cmp.Rules.{comparing};
    ghost use Rattle.std.specs.Cmp.Lexicographic.{slice_cmp};
    ghost use Rattle.std.specs.Ordering.{nat_cmp};

    ghost cmp = { λ a b. slice_cmp nat_cmp a b };

    ghost total = { Prim.search (comparing, rules) };

    ghost matches_partial_cmp = { Prim.search (comparing, rules) };

    ghost matches_eq = { Prim.search (comparing, rules) };

    fn cmp(&self, other: &Label) -> Ordering {
        self.bytes().cmp(other.bytes())
    }
}

impl PartialOrd for Label {
    ghost use Rattle.std.proofs.Common.{rules};
    ghost use Rattle.std.specs.Cmp.{partial_order_from_own_ties};
    ghost use Rattle.std.specs.Cmp.Rules.{comparing};
    ghost use Rattle.std.specs.Cmp.Lexicographic.{slice_cmp};
    ghost use Rattle.std.specs.Ordering.{nat_cmp, as_partial_cmp};

    ghost partial_cmp = { as_partial_cmp (slice_cmp nat_cmp) };

    ghost laws = { partial_order_from_own_ties (Prim.search (comparing, rules)) (Prim.search (comparing, rules)) };

    fn partial_cmp(&self, other: &Label) -> Option<Ordering> {
        Some(self.cmp(other))
    }
}

impl Hash for Label {
    ghost use Rattle.std.proofs.Common.{rules};
    ghost use Rattle.std.specs.Hash as fed;
    ghost use Rattle.std.specs.Cmp.Rules.{hashing};

    ghost hash_input = { λ a. fed.slice fed.u8 a };

    ghost respects_eq = { Prim.search (hashing, rules) };

    fn hash<H: Hasher>(&self, state: &mut H) {
        self.bytes().hash(state);
    }
}
