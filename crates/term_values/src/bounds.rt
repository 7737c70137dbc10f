//! Upper bounds of size and height, stored with each reference so that few tests of fitting need a
//! walk.

ghost use Rattle.std.specs.Prelude.{◌≡◌, ℕ, ◌+◌, ◌≤◌, ◌↔◌, IsTrue, max, true};
ghost use Rattle.term_core.specs.Tree.{Tree};
ghost use Rattle.term_core.specs.Size.{fits};
ghost use Rattle.term_core.specs.declared.TheConstants.{MAX_ROOM};
ghost use Rattle.term_values.specs.inside.Bounded.{Covers, Bounded};

use term_core::MAX_HEIGHT;

/// A size and a height that a tree, or a list of trees, doesn't exceed. The greatest numbers mean
/// that there is no bound.
#[derive(Clone, Copy)]
pub struct Bounds {
    pub(crate) size: u32,
    pub(crate) height: u16,
    /// Whether these are the exact size and height, as far as the number types reach.
    pub(crate) exact: bool,
}

impl Bounds {
    /// No bound is known.
    pub(crate) fn unknown() -> Bounds
        ensures { (s h : ℕ) → Covers s h result }
    {
        Bounds {
            size: u32::MAX,
            height: u16::MAX,
            exact: false,
        }
    }

    /// Bounds of a term without children and annotations.
    pub(crate) fn of_leaf() -> Bounds
        ensures { Covers 1 1 result }
    {
        Bounds {
            size: 1,
            height: 1,
            exact: true,
        }
    }

    /// Bounds of no trees.
    pub(crate) fn of_none() -> Bounds
        ensures covers { Covers 0 0 result }
        ensures exact { result.exact ≡ true }
    {
        Bounds {
            size: 0,
            height: 0,
            exact: true,
        }
    }

    /// Bounds of these trees and more trees together.
    pub(crate) fn and(self, more: Bounds) -> Bounds
        ensures covers { (s h r k : ℕ) → Covers s h self → Covers r k more → Covers (s + r) (max h k) result }
        ensures exact { self.exact ≡ true → more.exact ≡ true → result.exact ≡ true }
    {
        Bounds {
            size: self.size.saturating_add(more.size),
            height: self.height.max(more.height),
            exact: self.exact && more.exact,
        }
    }

    /// Bounds of a node over these trees.
    pub(crate) fn over(self) -> Bounds
        ensures covers { (s h : ℕ) → Covers s h self → Covers (s + 1) (h + 1) result }
        ensures exact { self.exact ≡ true → result.exact ≡ true }
    {
        Bounds {
            size: self.size.saturating_add(1),
            height: self.height.saturating_add(1),
            exact: self.exact,
        }
    }

    /// Bounds of a list with these trees in front of the elements of another.
    pub(crate) fn before(self, list: Bounds) -> Bounds
        ensures { (s h r k : ℕ) → Covers s h self → Covers r k list → Covers (s + r) (max (h + 1) k) result }
    {
        Bounds {
            size: self.size.saturating_add(list.size),
            height: self.height.saturating_add(1).max(list.height),
            exact: self.exact && list.exact,
        }
    }

    /// Bounds of a part, if the whole has at least `terms` other terms and the part lies `levels`
    /// lower.
    pub(crate) fn less(self, terms: usize, levels: u16) -> Bounds
        ensures { (s h r k : ℕ) → Covers s h self → r + terms ≤ s → k + levels ≤ h → Covers r k result }
    {
        let size = if self.size == u32::MAX {
            u32::MAX
        } else {
            (u64::from(self.size).saturating_sub(terms as u64)) as u32
        };
        let height = if self.height == u16::MAX {
            u16::MAX
        } else {
            self.height.saturating_sub(levels)
        };
        Bounds {
            size,
            height,
            exact: false,
        }
    }

    /// Bounds of a part that lies a level lower: the height alone.
    pub(crate) fn lower(self) -> Bounds
        ensures { (s h r k : ℕ) → Covers s h self → k + 1 ≤ h → Covers r k result }
    {
        let height = if self.height == u16::MAX {
            u16::MAX
        } else {
            self.height.saturating_sub(1)
        };
        Bounds {
            size: u32::MAX,
            height,
            exact: false,
        }
    }

    /// Bounds of trees that are within these and the others.
    pub(crate) fn both(self, others: Bounds) -> Bounds
        ensures { (s h : ℕ) → Covers s h self → Covers s h others → Covers s h result }
    {
        Bounds {
            size: self.size.min(others.size),
            height: self.height.min(others.height),
            exact: self.exact || others.exact,
        }
    }

    /// Bounds of one tree whose height is at most `height`.
    pub(crate) fn of_height(height: u64) -> Bounds
        ensures { (s h : ℕ) → h ≤ height → Covers s h result }
    {
        let height = if height >= u64::from(u16::MAX) {
            u16::MAX
        } else {
            height as u16
        };
        Bounds {
            size: u32::MAX,
            height,
            exact: false,
        }
    }

    // Whether the exact size or height here exceeds the other's bound.
    fn above(self, other: Bounds) -> bool
        ensures { IsTrue result → (s h : ℕ) → Covers s h self → Covers s h other → ⊥ }
    {
        self.exact && (other.size < self.size || other.height < self.height)
    }

    /// Whether the bounds show that two trees can't be equal.
    pub(crate) fn excludes(self, other: Bounds) -> bool
        ensures { IsTrue result → (s h : ℕ) → Covers s h self → Covers s h other → ⊥ }
    {
        self.above(other) || other.above(self)
    }

    /// Whether the bounds show that a tree fits at the level.
    pub(crate) fn fit(self, level: u64, room: u32) -> bool
        requires { room ≤ MAX_ROOM }
        ensures sure { IsTrue result → (t : Tree) → Bounded t self → IsTrue (fits room level t) }
        ensures exact { self.exact ≡ true → (t : Tree) → Bounded t self → result ≡ fits room level t }
    {
        level.saturating_add(u64::from(self.height)) <= MAX_HEIGHT && self.size <= room
    }
}
