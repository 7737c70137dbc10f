//! Logs: what changes of a store replaced, so that they can be undone.

ghost use Rattle.std.specs.Prelude.{◌≡◌, ◌<◌, ◌≤◌, ◌+◌, ◌-◌, ◌*◌, ◌++◌, ℕ, List, [], ◌∷◌, length, take, drop, OnOk, OnErr, vec_len, vec_capacity};
ghost use Rattle.term_changes.specs.Slots.{Store};
ghost use Rattle.term_changes.specs.Entries.{put, found, before, after, flipped_back, flipped_forward, Fits, texts, has_text};
ghost use Rattle.term_changes.specs.Compact.{IsCompact};
ghost use Rattle.term_changes.specs.LogView.{entry_of};
ghost use Rattle.term_changes.specs.inside.LogView.{entries, depths};

use crate::compact::compact;
use crate::{LogEntries, Store};
use std::alloc::Global;
use std::marker::Model;
use term_changes::{Entry, Kept, Plan, Replaced};
use term_core::NoMemory;

/// What changes of one store replaced, the oldest first. The changes can be undone, one by one or
/// all at once, and redone; neither takes memory.
#[derive(Drop)]
pub struct Log {
    replaced: Vec<Replaced>,
    // The paths of all entries, concatenated.
    paths: Vec<usize>,
    // How many entries hold module texts.
    text_count: usize,
    // Three numbers for each entry if there is more than one, so that `compact` takes no memory.
    space: Vec<usize>,
}

impl Model for Log {
    ghost use Rattle.std.specs.Prelude.{◌≡◌, ◌<◌, ◌≤◌, ◌*◌, List, length};
    ghost use Rattle.std.specs.Coded.{coded_list};
    ghost use Rattle.term_changes.specs.Entries.{Entry};
    ghost use Rattle.term_changes.specs.inside.Codes.{entry_code};

    ghost Value = { List Entry };

    ghost coded = { coded_list entry_code };

    ghost use Rattle.term_changes.specs.Entries.{texts};
    ghost use Rattle.term_changes.specs.inside.LogView.{entries, depths};

    ghost view = { λ a. entries a.replaced.items a.paths.items };

    ghost invariant = { λ a. (depths a.replaced.items ≡ length a.paths.items)
        × (1 < length a.replaced.items → 3 * length a.replaced.items ≤ length a.space.items)
        × (a.text_count ≡ texts (entries a.replaced.items a.paths.items)) };
}

impl Log {
    /// An empty log. It takes no memory.
    pub fn new(alloc: Global) -> Log
        ensures { result ≡ [] }
    {
        Log {
            replaced: Vec::new(alloc),
            paths: Vec::new(alloc),
            text_count: 0,
            space: Vec::new(alloc),
        }
    }

    /// The number of entries.
    pub fn count(&self) -> usize
        ensures { result ≡ length self.now }
    {
        self.replaced.len()
    }

    /// The mark to roll back to: the current number of entries.
    pub fn mark(&self) -> usize
        ensures { result ≡ length self.now }
    {
        self.count()
    }

    /// The entries, to be read.
    pub fn entries(&self) -> LogEntries<'_>
        ensures { result ≡ self.now }
    {
        LogEntries {
            replaced: self.replaced.as_slice(),
            paths: self.paths.as_slice(),
        }
    }

    /// Whether an entry holds a module text.
    pub fn has_text(&self) -> bool
        ensures { result ≡ has_text self.now }
    {
        self.text_count > 0
    }

    /// Makes the change: puts the entry's value at its place, and records what was there. If the
    /// store doesn't have the place, nothing is put, and the entry is recorded as it is.
    ///
    /// If memory can't grow, log and store stay as they were and the entry is dropped.
    pub fn push(&mut self, store: &mut Store, change: Entry<'_>) -> Result<(), NoMemory>
        ensures log { OnOk result (self.new ≡ self.old ++ found change.entry store.old ∷ []) }
        ensures store { OnOk result (store.new ≡ put change.entry store.old) }
        ensures log_err { OnErr result (self.new ≡ self.old) }
        ensures store_err { OnErr result (store.new ≡ store.old) }
    {
        let Entry {
            slot,
            path,
            mut kept,
        } = change;
        reserve_one(&mut self.replaced)?;
        make_space(&mut self.space, self.replaced.len() + 1)?;
        self.paths.extend_from_slice(path)?;
        store.exchange(slot, path, &mut kept);
        self.text_count += kept.texts();
        self.replaced.push_reserved(Replaced {
            slot,
            depth: path.len(),
            kept,
        });
        Ok(())
    }

    /// Makes the changes of a plan in order, each as `push` does.
    ///
    /// If memory can't grow, log and store stay as they were and the plan is dropped.
    pub fn make(&mut self, store: &mut Store, plan: Plan) -> Result<(), NoMemory>
        ensures log { OnOk result (self.new ≡ self.old ++ flipped_forward plan store.old) }
        ensures store { OnOk result (store.new ≡ after plan store.old) }
        ensures log_err { OnErr result (self.new ≡ self.old) }
        ensures store_err { OnErr result (store.new ≡ store.old) }
    {
        let Plan { mut changes, paths } = plan;
        self.replaced.reserve(changes.len())?;
        make_space(&mut self.space, self.replaced.len() + changes.len())?;
        self.paths.extend_from_slice(&paths)?;
        self.text_count += count_texts(&changes);
        flip_forward(&mut changes, &paths, store);
        add_all(&mut self.replaced, changes);
        Ok(())
    }

    /// Undoes the changes since the mark, the newest first, and drops their entries. It takes no
    /// memory. A mark past the last entry undoes nothing.
    pub fn roll_back(&mut self, mark: usize, store: &mut Store)
        ensures log { self.new ≡ take mark self.old }
        ensures store { store.new ≡ before (drop mark self.old) store.old }
    {
        while self.count() > mark {
            self.take_back(store);
        }
    }

    // Undoes the newest change and drops its entry.
    fn take_back(&mut self, store: &mut Store)
        requires { 0 < length self.old }
        ensures log { self.new ≡ take (length self.old - 1) self.old }
        ensures store { store.new ≡ before (drop (length self.old - 1) self.old) store.old }
    {
        if let Some(newest) = self.replaced.pop() {
            let begin = self.paths.len() - newest.depth;
            self.text_count -= newest.kept.texts();
            put_back(newest, &self.paths[begin..], store);
            self.paths.truncate(begin);
        }
    }

    /// Undoes all changes, the newest first. It leaves the log ready for `flip_forward`, which
    /// redoes them. It takes no memory.
    pub fn flip_back(&mut self, store: &mut Store)
        ensures log { self.new ≡ flipped_back self.old store.old }
        ensures store { store.new ≡ before self.old store.old }
    {
        flip_back(&mut self.replaced, &self.paths, store);
    }

    /// Redoes all changes, the oldest first. It leaves the log ready for `flip_back`. It takes no
    /// memory.
    pub fn flip_forward(&mut self, store: &mut Store)
        ensures log { self.new ≡ flipped_forward self.old store.old }
        ensures store { store.new ≡ after self.old store.old }
    {
        flip_forward(&mut self.replaced, &self.paths, store);
    }

    /// Leaves entries at disjoint places that lead back to the same store. It takes no memory.
    /// Earlier marks are no longer valid.
    pub fn compact(&mut self)
        ensures before { (s : Store) → before self.new s ≡ before self.old s }
        ensures fits { (s : Store) → Fits self.old s → Fits self.new s }
        ensures compact { IsCompact self.new }
        ensures count { length self.new ≤ length self.old }
    {
        if self.count() > 1 {
            compact(&mut self.replaced, &mut self.paths, &mut self.space);
            self.text_count = count_texts(&self.replaced);
        }
    }
}

// Reserves room for one more entry. The first one is reserved exactly, since most logs have one
// change.
fn reserve_one(replaced: &mut Vec<Replaced>) -> Result<(), NoMemory>
    ensures items { replaced.new.items ≡ replaced.old.items }
    ensures room { OnOk result (vec_len replaced.new < vec_capacity replaced.new) }
{
    if replaced.is_empty() {
        replaced.reserve_exact(1)?;
    } else {
        replaced.reserve(1)?;
    }
    Ok(())
}

fn count_texts(replaced: &[Replaced]) -> usize
    ensures { (paths : List ℕ) → result ≡ texts (entries replaced.now paths) }
{
    let mut count = 0;
    for entry in replaced {
        count += entry.kept.texts();
    }
    count
}

// Makes scratch space for `count` entries; a single one needs none.
fn make_space(space: &mut Vec<usize>, count: usize) -> Result<(), NoMemory>
    ensures room { OnOk result (1 < count → 3 * count ≤ vec_len space.new) }
    ensures kept { vec_len space.old ≤ vec_len space.new }
{
    if count <= 1 {
        return Ok(());
    }
    let Some(all) = count.checked_mul(3) else {
        return Err(NoMemory);
    };
    if space.len() < all {
        space.resize(all, 0)?;
    }
    Ok(())
}

// Appends these entries; there is room for them.
fn add_all(to: &mut Vec<Replaced>, from: Vec<Replaced>)
    requires { vec_len to.old + vec_len from ≤ vec_capacity to.old }
    ensures { to.new.items ≡ to.old.items ++ from.items }
{
    if to.is_empty() {
        *to = from;
        return;
    }
    let mut from = from;
    let _added = to.append(&mut from);
}

// Puts what was replaced back at its path, and drops what is there now.
fn put_back(replaced: Replaced, path: &[usize], store: &mut Store)
    ensures { store.new ≡ put (entry_of replaced.slot path.now replaced.kept) store.old }
{
    let Replaced { slot, mut kept, .. } = replaced;
    store.exchange(slot, path, &mut kept);
}

fn flip_back(replaced: &mut [Replaced], paths: &[usize], store: &mut Store)
    requires paths { depths replaced.old ≡ length paths.now }
    ensures log { entries replaced.new paths.now
        ≡ flipped_back (entries replaced.old paths.now) store.old }
    ensures depths { depths replaced.new ≡ depths replaced.old }
    ensures store { store.new ≡ before (entries replaced.old paths.now) store.old }
{
    let mut rest = paths;
    let mut left = replaced.len();
    while left > 0 {
        left -= 1;
        let entry = &mut replaced[left];
        let (front, path) = rest.split_at(rest.len() - entry.depth);
        store.exchange(entry.slot, path, &mut entry.kept);
        rest = front;
    }
}

fn flip_forward(replaced: &mut [Replaced], paths: &[usize], store: &mut Store)
    requires paths { depths replaced.old ≡ length paths.now }
    ensures log { entries replaced.new paths.now
        ≡ flipped_forward (entries replaced.old paths.now) store.old }
    ensures depths { depths replaced.new ≡ depths replaced.old }
    ensures store { store.new ≡ after (entries replaced.old paths.now) store.old }
{
    let mut rest = paths;
    for i in 0..replaced.len() {
        let entry = &mut replaced[i];
        let (path, later) = rest.split_at(entry.depth);
        store.exchange(entry.slot, path, &mut entry.kept);
        rest = later;
    }
}
