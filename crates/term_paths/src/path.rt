//! Paths as lists of child numbers.

ghost use Rattle.std.specs.Prelude.{◌≡◌, ◌↔◌, ◌++◌, ◌∷◌, [], length, IsTrue, OnOk, OnErr, IfOk, IfSome, IfNone, None, slice_get};
ghost use Rattle.term_paths.specs.Paths.{LiesWithin};

use std::alloc::Global;
use std::marker::Model;
use term_core::NoMemory;

/// A place in a term: the numbers of the children, counted from 0, on the way from the root. Its
/// length is the level of the subterm there. Paths don't lead into annotations.
#[derive(Drop)]
pub struct Path {
    parts: Vec<usize>,
}

impl Model for Path {
    ghost use Rattle.std.specs.Prelude.{ℕ, List};

    ghost Value = { List ℕ };

    ghost view = { λ path. path.parts.items };
}

impl Path {
    /// The path of the root. It takes no memory.
    pub fn root(alloc: Global) -> Path
        ensures { result ≡ [] }
    {
        Path {
            parts: Vec::new(alloc),
        }
    }

    /// The path with these parts. It takes no memory.
    pub fn from_parts(parts: Vec<usize>) -> Path
        ensures { result ≡ parts.items }
    {
        Path { parts }
    }

    /// The parts, consuming the path. It takes no memory.
    pub fn into_parts(self) -> Vec<usize>
        ensures { result.items ≡ self }
    {
        let Path { parts } = self;
        parts
    }

    /// Goes down to this child. If memory can't grow, the path stays the same.
    pub fn down(&mut self, part: usize) -> Result<(), NoMemory>
        ensures ok { OnOk result (self.new ≡ self.old ++ part ∷ []) }
        ensures err { OnErr result (self.new ≡ self.old) }
    {
        self.parts.push(part)?;
        Ok(())
    }

    /// Goes up to the parent, and returns the number of the child it came from; at the root,
    /// `None`.
    pub fn up(&mut self) -> Option<usize>
        ensures some { IfSome result (λ part. self.old ≡ self.new ++ part ∷ []) }
        ensures none { (result ≡ None) ↔ (self.old ≡ []) }
        ensures root { IfNone result (self.new ≡ self.old) }
    {
        self.parts.pop()
    }

    /// The numbers of the children, from the root.
    pub fn parts(&self) -> &[usize]
        ensures { result.now ≡ self.now }
    {
        self.parts.as_slice()
    }

    /// The number of parts: the level of the subterm at the path.
    pub fn len(&self) -> usize
        ensures { result ≡ length self.now }
    {
        self.parts.len()
    }

    /// Whether the path leads to the root.
    pub fn is_root(&self) -> bool
        ensures { IsTrue result ↔ (self.now ≡ []) }
    {
        self.parts.is_empty()
    }

    /// Part `i`, counted from 0, or `None` if there is none.
    pub fn part(&self, i: usize) -> Option<usize>
        ensures { result ≡ slice_get self.now i }
    {
        self.parts.get(i).copied()
    }

    /// Whether the path lies within the other one: that is a prefix of it, or the two are equal.
    pub fn lies_within(&self, outer: &Path) -> bool
        ensures { IsTrue result ↔ LiesWithin self.now outer.now }
    {
        parts_lie_within(self.parts(), outer.parts())
    }

    /// Whether the two paths have the same parts.
    pub fn equals(&self, other: &Path) -> bool
        ensures { IsTrue result ↔ (self.now ≡ other.now) }
    {
        self.parts() == other.parts()
    }

    /// An equal path.
    pub fn try_clone(&self) -> Result<Path, NoMemory>
        ensures { IfOk result (λ path. path ≡ self.now) }
    {
        let parts = Vec::from_slice(*self.parts.allocator(), &self.parts)?;
        Ok(Path { parts })
    }
}

/// Whether the path with the parts `inner` lies within that of `outer`.
pub fn parts_lie_within(inner: &[usize], outer: &[usize]) -> bool
    ensures { IsTrue result ↔ LiesWithin inner.now outer.now }
{
    inner.starts_with(outer)
}
