//! Cells for trees, which can be rolled back to a mark.
//!
//! A trail lists the cells that were filled, the oldest first. A mark is two numbers, and rolling
//! back to it costs what was done since.

ghost use Rattle.std.specs.Prelude.{◌≡◌, ◌≤◌, ◌<◌, ◌+◌, ◌-◌, [], ◌∷◌, ◌++◌, length, replicate, take, slice_get, slice_set, option_and_then, vec_len, vec_capacity, OnOk, OnErr, Some, None};
ghost use Rattle.std.specs.Option.{option_copied};
ghost use Rattle.term_match.specs.Marks.{emptied, kept, mark_of, Before, Stays};
ghost use Rattle.term_match.specs.inside.Growing.{Grows};

use std::alloc::Global;
use std::marker::Model;
use term_core::NoMemory;
use term_values::Value;

/// The numbers of cells and of filled cells.
#[derive(Clone, Copy)]
pub struct Mark {
    pub count: usize,
    pub filled: usize,
}

/// Cells, each empty or holding a tree, and the trail of those that were filled.
#[derive(Drop)]
pub struct Cells<'t> {
    pub(crate) cells: Vec<Option<Value<'t>>>,
    filled: Vec<usize>,
}

impl<'t> Model for Cells<'t> {
    ghost use Rattle.term_match.specs.CellContents.{CellContents};
    ghost use Rattle.term_match.specs.inside.ContentsCode.{contents_code};

    ghost Value = { CellContents };

    ghost coded = { contents_code };

    ghost view = { λ a. record { bindings = a.cells.items; filled = a.filled.items } };
}

impl<'t> Cells<'t> {
    /// No cells. It takes no memory.
    pub fn new(alloc: Global) -> Cells<'t>
        ensures bindings { result.bindings ≡ [] }
        ensures filled { result.filled ≡ [] }
    {
        Cells {
            cells: Vec::new(alloc),
            filled: Vec::new(alloc),
        }
    }

    /// The number of cells.
    pub fn count(&self) -> usize
        ensures { result ≡ length self.now.bindings }
    {
        self.cells.len()
    }

    /// The content of cell `i`, if the cell exists and isn't empty.
    #[inline(always)]
    pub fn get(&self, i: usize) -> Option<&Value<'t>>
        ensures { option_copied result ≡ option_and_then (λ o. o) (slice_get self.now.bindings i) }
    {
        if i >= self.cells.len() {
            return None;
        }
        self.cells[i].as_ref()
    }

    /// The mark of the current state.
    pub fn mark(&self) -> Mark
        ensures result { result ≡ mark_of self.now }
        ensures kept { kept self.now result ≡ self.now.bindings }
    {
        Mark {
            count: self.cells.len(),
            filled: self.filled.len(),
        }
    }

    /// Adds `count` empty cells.
    pub fn open_cells(&mut self, count: usize) -> Result<(), NoMemory>
        ensures ok { OnOk result (self.new.bindings ≡ self.old.bindings ++ replicate count None) }
        ensures filled { self.new.filled ≡ self.old.filled }
        ensures err { OnErr result (self.new ≡ self.old) }
        ensures later { Before (mark_of self.old) (mark_of self.new) }
        ensures stays { Stays (mark_of self.old) self.old self.new }
    {
        self.cells.reserve(count)?;
        add_empty(&mut self.cells, count);
        Ok(())
    }

    /// Adds a cell that holds the value. It isn't put on the trail.
    pub fn open_with(&mut self, value: Value<'t>) -> Result<(), NoMemory>
        ensures ok { OnOk result (self.new.bindings ≡ self.old.bindings ++ Some value.entry ∷ []) }
        ensures filled { self.new.filled ≡ self.old.filled }
        ensures err { OnErr result (self.new ≡ self.old) }
        ensures later { Before (mark_of self.old) (mark_of self.new) }
        ensures stays { Stays (mark_of self.old) self.old self.new }
    {
        self.cells.push(Some(value))?;
        Ok(())
    }

    /// Removes the last `count` cells.
    pub fn close_cells(&mut self, count: usize)
        requires { count ≤ length self.old.bindings }
        ensures cells { self.new.bindings ≡ take (length self.old.bindings - count) self.old.bindings }
        ensures filled { self.new.filled ≡ self.old.filled }
        ensures later { Before (record { count = length self.old.bindings - count; filled = length self.old.filled }) (mark_of self.new) }
        ensures stays { Stays (record { count = length self.old.bindings - count; filled = length self.old.filled }) self.old self.new }
    {
        let left = self.cells.len() - count;
        self.close_to(left);
    }

    /// Keeps only the first `count` cells.
    #[inline(always)]
    pub fn close_to(&mut self, count: usize)
        requires { count ≤ length self.old.bindings }
        ensures cells { self.new.bindings ≡ take count self.old.bindings }
        ensures filled { self.new.filled ≡ self.old.filled }
        ensures later { Before (record { count = count; filled = length self.old.filled }) (mark_of self.new) }
        ensures stays { Stays (record { count = count; filled = length self.old.filled }) self.old self.new }
    {
        self.cells.truncate(count);
    }

    /// Rolls back to a mark: cells opened since are removed, and those filled since are emptied.
    #[inline(always)]
    pub fn back_to(&mut self, mark: Mark)
        requires { Before mark (mark_of self.old) }
        ensures cells { self.new.bindings ≡ kept self.old mark }
        ensures filled { self.new.filled ≡ take mark.filled self.old.filled }
        ensures mark { mark_of self.new ≡ mark }
        ensures stays { Stays mark self.old self.new }
    {
        self.cells.truncate(mark.count);
        let since = &self.filled[mark.filled..];
        empty_all(&mut self.cells, since);
        self.filled.truncate(mark.filled);
    }

    /// Fills an empty cell.
    pub(crate) fn fill(&mut self, i: usize, value: Value<'t>) -> Result<(), NoMemory>
        requires { slice_get self.old.bindings i ≡ Some None }
        ensures ok { OnOk result (self.new.bindings ≡ slice_set self.old.bindings i (Some value.entry)) }
        ensures grows { Grows self.old self.new }
    {
        match self.filled.push(i) {
            Ok(()) => {
                drop(self.cells[i].replace(value));
                Ok(())
            }
            Err(refused) => {
                drop(value);
                Err(NoMemory::from(refused))
            }
        }
    }
}

// Adds `count` empty cells, for which there is room.
fn add_empty(cells: &mut Vec<Option<Value<'_>>>, count: usize)
    requires { vec_len cells.old + count ≤ vec_capacity cells.old }
    ensures { cells.new.items ≡ cells.old.items ++ replicate count None }
{
    for _ in 0..count {
        cells.push_reserved(None);
    }
}

// Empties the cells with these numbers.
fn empty_all(cells: &mut [Option<Value<'_>>], numbers: &[usize])
    ensures { cells.new ≡ emptied numbers.now cells.old }
{
    for i in numbers {
        if *i < cells.len() {
            cells[*i] = None;
        }
    }
}
