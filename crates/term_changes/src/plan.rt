//! Changes that are yet to be made.

ghost use Rattle.std.specs.Prelude.{◌≡◌, ◌++◌, [], ◌∷◌, OnOk, OnErr};

use crate::entry::{Entry, Kept};
use std::alloc::Global;
use std::marker::Model;
use term_core::NoMemory;

/// A change without the path of its place: in a plan it holds what to put there, in a log what was
/// replaced.
#[derive(Drop)]
pub struct Replaced {
    pub slot: usize,
    /// The length of the path.
    pub depth: usize,
    pub kept: Kept,
}

/// Changes that are yet to be made, the first one first. A log makes them.
#[derive(Drop)]
pub struct Plan {
    pub changes: Vec<Replaced>,
    /// The paths of all changes, concatenated.
    pub paths: Vec<usize>,
}

impl Model for Plan {
    ghost use Rattle.std.specs.Prelude.{◌≡◌, List, length};
    ghost use Rattle.std.specs.Coded.{coded_list};
    ghost use Rattle.term_changes.specs.Entries.{Entry};
    ghost use Rattle.term_changes.specs.inside.Codes.{entry_code};

    ghost Value = { List Entry };

    ghost coded = { coded_list entry_code };

    ghost use Rattle.term_changes.specs.inside.LogView.{entries, depths};

    ghost view = { λ a. entries a.changes.items a.paths.items };

    ghost invariant = { λ a. depths a.changes.items ≡ length a.paths.items };
}

impl Plan {
    /// An empty plan. It takes no memory.
    pub fn new(alloc: Global) -> Plan
        ensures { result ≡ [] }
    {
        Plan {
            changes: Vec::new(alloc),
            paths: Vec::new(alloc),
        }
    }

    /// Reserves room for `count` more changes.
    pub fn reserve(&mut self, count: usize) -> Result<(), NoMemory>
        ensures { self.new ≡ self.old }
    {
        self.changes.reserve(count)?;
        Ok(())
    }

    /// Adds a change.
    ///
    /// If memory can't grow, the plan stays as it was and the entry is dropped.
    #[inline(always)]
    pub fn add(&mut self, change: Entry<'_>) -> Result<(), NoMemory>
        ensures ok { OnOk result (self.new ≡ self.old ++ change.entry ∷ []) }
        ensures err { OnErr result (self.new ≡ self.old) }
    {
        let Entry { slot, path, kept } = change;
        self.changes.reserve(1)?;
        self.paths.extend_from_slice(path)?;
        self.changes.push_reserved(Replaced {
            slot,
            depth: path.len(),
            kept,
        });
        Ok(())
    }
}
