//! Reading the entries of a log.

ghost use Rattle.change_log.specs.Reading.{IsNextEntry};

use std::marker::Model;
use term_changes::{Kept, Replaced};

/// An entry of a log, to be read.
#[derive(Clone, Copy)]
pub struct HeldEntry<'a> {
    /// The slot of the tree or module.
    pub slot: usize,
    /// The path in the tree; empty for a module.
    pub path: &'a [usize],
    /// What was there.
    pub kept: &'a Kept,
}

/// The entries of a log that are yet to be read, the oldest first.
#[derive(Drop)]
pub struct LogEntries<'a> {
    pub(crate) replaced: &'a [Replaced],
    // The paths of all entries, concatenated.
    pub(crate) paths: &'a [usize],
}

impl<'a> Model for LogEntries<'a> {
    ghost use Rattle.std.specs.Prelude.{◌≡◌, List, length};
    ghost use Rattle.std.specs.Coded.{coded_list};
    ghost use Rattle.term_changes.specs.Entries.{Entry};
    ghost use Rattle.term_changes.specs.inside.Codes.{entry_code};

    ghost Value = { List Entry };

    ghost coded = { coded_list entry_code };

    ghost use Rattle.term_changes.specs.inside.LogView.{entries, depths};

    ghost view = { λ a. entries a.replaced.now a.paths.now };

    ghost invariant = { λ a. depths a.replaced.now ≡ length a.paths.now };
}

impl<'a> LogEntries<'a> {
    /// The next entry; `None` after the last one.
    pub fn next(&mut self) -> Option<HeldEntry<'a>>
        ensures { IsNextEntry self.old result self.new }
    {
        let (first, rest) = self.replaced.split_first()?;
        let (path, paths) = self.paths.split_at(first.depth);
        self.replaced = rest;
        self.paths = paths;
        Some(HeldEntry {
            slot: first.slot,
            path,
            kept: &first.kept,
        })
    }
}
