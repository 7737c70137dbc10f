//! What the last step changed.

ghost use Rattle.std.specs.Prelude.{◌≡◌, ◌≤◌, ◌∷◌, [], ◌⊎◌, ◌↔◌, IsTrue, List, Ok, Err, IfOk, IfErr, OnOk, OnErr, None, IsSome, IfSome, option_copied, option_and_then, vec_capacity};
ghost use Rattle.std.specs.List.{flat_map};
ghost use Rattle.term_paths.specs.Paths.{at};
ghost use Rattle.prim_core.specs.Signature.{Signature};
ghost use Rattle.term_changes.specs.Contents.{Contents};
ghost use Rattle.term_changes.specs.Slots.{HaveDistinctLabels, contents};
ghost use Rattle.term_changes.specs.Compact.{IsCompact};
ghost use Rattle.term_changes.specs.Entries.{Fits};
ghost use Rattle.change_log.specs.Reading.{held_entry, whole_entry, part_entries, entries_of};
ghost use Rattle.session_history.specs.Differences.{base_of, changes_of, TellsChanges};
ghost use Rattle.session_history.specs.Moving.{KeepsHistory};
ghost use Rattle.session_history.specs.Unfolded.{unfolded};
ghost use Rattle.session_changes.specs.inside.Lined.{AddsLines};
ghost use Rattle.session_changes.specs.inside.NamedPairs.{pairs_of};
ghost use Rattle.session_changes.specs.inside.Told.{entry_lines, log_lines, asked_lines, is_of_text, those, AllAs, HasSlot, IsNamed, IsAsked};

use crate::differences::{add_annotations, add_differences, add_text, add_tree};
use crate::lines::{CountedLines, append_counted};
use crate::patches::add_patch;
use change_log::{Changes, HeldEntry, Kept, Log, PatchedSubterm, Store, Text, Whole};
use session_history::{Refusal, Timeline};
use std::alloc::Global;
use term_core::{Label, NoMemory, Term};
use term_paths::at_parts;

/// Appends what the last step changed, or in a group what that changed so far: the number of
/// lines, and then a line for each outermost place where a tree differs in head or number of
/// children from the one before, one for each place where these are the same but the
/// annotations differ, and one for each module that changed. With a name these are only those
/// of the name.
///
/// No term is copied. The lines take memory of their own before they are appended, and a step
/// of several changes some for a reference to each of them; those of an open group are compacted
/// first.
///
/// Errors: `NoUndo` if no group is open and there is no step to undo; want of memory. Then `out`
/// is unchanged.
pub fn diff(timeline: &mut Timeline, name: Option<&Label>, out: &mut Vec<u8>) -> Result<(), Refusal>
    ensures same { KeepsHistory timeline.old timeline.new }
    ensures ok { OnOk result ((ps : List Signature) → TellsChanges (option_copied name.entry) (unfolded ps timeline.old) out.old.items out.new.items) }
    ensures refused { IfErr result (λ refusal. (refusal ≡ Refusal.Memory)
        ⊎ ((ps : List Signature) → base_of (unfolded ps timeline.old) ≡ Err refusal)) }
    ensures err { OnErr result (out.new.items ≡ out.old.items) }
    ensures room { vec_capacity out.old ≤ vec_capacity out.new }
{
    timeline.compact_group();
    let text = Vec::new(timeline.allocator());
    let mut lines = CountedLines { text, count: 0 };
    match add_changes(timeline, name, &mut lines) {
        Ok(()) => Ok(append_counted(&lines, out)?),
        Err(refusal) => Err(refusal),
    }
}

// Adds the lines of the open group or else of the last step.
fn add_changes(
    timeline: &Timeline,
    name: Option<&Label>,
    lines: &mut CountedLines,
) -> Result<(), Refusal>
    requires { IsSome timeline.now.group → IsCompact timeline.now.current }
    ensures ok { OnOk result ((ps : List Signature) → (base : Contents) × (base_of (unfolded ps timeline.now) ≡ Ok base)
        × AddsLines (changes_of (option_copied name.entry) base (contents timeline.now.store)) lines.old lines.new) }
    ensures refused { IfErr result (λ refusal. (refusal ≡ Refusal.Memory)
        ⊎ ((ps : List Signature) → base_of (unfolded ps timeline.now) ≡ Err refusal)) }
{
    match timeline.group_log() {
        Some(log) => Ok(add_log(timeline.store(), log, name, lines)?),
        None => add_step(timeline, name, lines),
    }
}

fn add_step(
    timeline: &Timeline,
    name: Option<&Label>,
    lines: &mut CountedLines,
) -> Result<(), Refusal>
    requires { timeline.now.group ≡ None }
    ensures ok { OnOk result ((ps : List Signature) → (base : Contents) × (base_of (unfolded ps timeline.now) ≡ Ok base)
        × AddsLines (changes_of (option_copied name.entry) base (contents timeline.now.store)) lines.old lines.new) }
    ensures refused { IfErr result (λ refusal. (refusal ≡ Refusal.Memory)
        ⊎ ((ps : List Signature) → base_of (unfolded ps timeline.now) ≡ Err refusal)) }
{
    let store = timeline.store();
    match timeline.newest() {
        Some(step) => Ok(add_entries(store, step.changes(), name, lines)?),
        None => Err(Refusal::NoUndo),
    }
}

fn add_entries(
    store: &Store,
    changes: &Changes,
    name: Option<&Label>,
    lines: &mut CountedLines,
) -> Result<(), NoMemory>
    requires fits { Fits (entries_of changes.now) store.now }
    requires compact { IsCompact (entries_of changes.now) }
    ensures { OnOk result (AddsLines (log_lines (option_copied name.entry) (entries_of changes.now) store.now) lines.old lines.new) }
{
    match changes {
        Changes::One(whole) => add_whole(store, whole, name, lines),
        Changes::Patched(parts) => add_parts(store, parts, name, lines),
        Changes::Logged(log) => add_log(store, log, name, lines),
    }
}

// Whether changes of this name are asked for.
fn is_asked(name: Option<&Label>, label: &Label) -> bool
    ensures { IsTrue result ↔ IsAsked (option_copied name.entry) label.now }
{
    match name {
        Some(name) => name == label,
        None => true,
    }
}

// The name that the entry is of.
fn name_of<'a>(store: &'a Store, held: HeldEntry<'_>) -> Option<&'a Label>
    ensures named { IfSome result (λ name. IsNamed store.now name.now (held_entry held.entry)) }
    ensures there { HasSlot store.now (held_entry held.entry) → IsSome result }
{
    match held.kept {
        Kept::Text(_) => store.module_name(held.slot),
        _ => store.tree_name(held.slot),
    }
}

// No two trees have the same name, nor two modules. It does nothing.
fn names_are_distinct(store: &Store)
    ensures trees { HaveDistinctLabels store.now.trees }
    ensures modules { HaveDistinctLabels store.now.modules }
{
    let _tree = store.tree_name(0);
    let _module = store.module_name(0);
}

fn add_whole(
    store: &Store,
    whole: &Whole,
    name: Option<&Label>,
    lines: &mut CountedLines,
) -> Result<(), NoMemory>
    requires { Fits (whole_entry whole.now ∷ []) store.now }
    ensures { OnOk result (AddsLines (log_lines (option_copied name.entry) (whole_entry whole.now ∷ []) store.now) lines.old lines.new) }
{
    names_are_distinct(store);
    let held = HeldEntry {
        slot: whole.slot,
        path: &[],
        kept: &whole.kept,
    };
    let Some(label) = name_of(store, held) else {
        unreachable!()
    };
    add_named(store, &[NamedEntry { name: label, held }], name, lines)
}

fn add_parts(
    store: &Store,
    parts: &PatchedSubterm,
    name: Option<&Label>,
    lines: &mut CountedLines,
) -> Result<(), NoMemory>
    ensures { OnOk result (AddsLines (log_lines (option_copied name.entry) (part_entries parts.now) store.now) lines.old lines.new) }
{
    names_are_distinct(store);
    let Some(label) = store.tree_name(parts.slot) else {
        return Ok(());
    };
    if !is_asked(name, label) {
        return Ok(());
    }
    let Some(tree) = store.tree(parts.slot) else {
        return Ok(());
    };
    let Some(part) = at_parts(tree, &parts.path) else {
        return Ok(());
    };
    let mut path = Vec::from_slice(lines.allocator(), &parts.path)?;
    add_patch(label.bytes(), &mut path, &parts.patch, part, lines)
}

// Adds the lines of trees, and then those of modules, each in byte order of their names. The
// entries are put in that order, those of one tree by their paths.
fn add_log(
    store: &Store,
    log: &Log,
    name: Option<&Label>,
    lines: &mut CountedLines,
) -> Result<(), NoMemory>
    requires fits { Fits log.now store.now }
    requires compact { IsCompact log.now }
    ensures { OnOk result (AddsLines (log_lines (option_copied name.entry) log.now store.now) lines.old lines.new) }
{
    names_are_distinct(store);
    let mut found = find_names(store, log, lines.allocator())?;
    found.sort_unstable_by_key(|it| (is_of_text(it.held), it.name, it.held.path));
    add_named(store, &found, name, lines)
}

// An entry, and the name that it is of.
#[derive(Clone, Copy)]
struct NamedEntry<'a> {
    name: &'a Label,
    held: HeldEntry<'a>,
}

// The entries of the log, with their names.
fn find_names<'a>(
    store: &'a Store,
    log: &'a Log,
    alloc: Global,
) -> Result<Vec<NamedEntry<'a>>, NoMemory>
    requires { Fits log.now store.now }
    ensures log { IfOk result (λ found. those (pairs_of found.items) ≡ log.now) }
    ensures names { IfOk result (λ found. AllAs (IsNamed store.now) (pairs_of found.items)) }
{
    let mut found = Vec::new(alloc);
    let mut rest = log.entries();
    while let Some(held) = rest.next() {
        let Some(name) = name_of(store, held) else {
            unreachable!()
        };
        found.push(NamedEntry { name, held })?;
    }
    Ok(found)
}

// Adds the lines of these entries, those of the name or all.
fn add_named(
    store: &Store,
    entries: &[NamedEntry<'_>],
    name: Option<&Label>,
    lines: &mut CountedLines,
) -> Result<(), NoMemory>
    ensures { OnOk result (AddsLines (flat_map (asked_lines (option_copied name.entry) store.now) (pairs_of entries.now)) lines.old lines.new) }
{
    let mut path = Vec::new(lines.allocator());
    for it in entries {
        add_asked(store, *it, name, &mut path, lines)?;
    }
    Ok(())
}

// Adds the lines of one entry, if its name is asked for. The path is scratch.
fn add_asked(
    store: &Store,
    it: NamedEntry<'_>,
    name: Option<&Label>,
    path: &mut Vec<usize>,
    lines: &mut CountedLines,
) -> Result<(), NoMemory>
    ensures { OnOk result (AddsLines (asked_lines (option_copied name.entry) store.now (it.entry.name.now, held_entry it.entry.held)) lines.old lines.new) }
{
    if !is_asked(name, it.name) {
        return Ok(());
    }
    add_held(store, it.name.bytes(), it.held, path, lines)
}

fn is_of_text(held: HeldEntry<'_>) -> bool
    ensures { result ≡ is_of_text (held_entry held.entry) }
{
    matches!(held.kept, Kept::Text(_))
}

// Adds the lines of one entry. The path is scratch.
fn add_held(
    store: &Store,
    name: &[u8],
    held: HeldEntry<'_>,
    path: &mut Vec<usize>,
    lines: &mut CountedLines,
) -> Result<(), NoMemory>
    ensures { OnOk result (AddsLines (entry_lines store.now name.now (held_entry held.entry)) lines.old lines.new) }
{
    path.clear();
    let tree = store.tree(held.slot);
    match held.kept {
        Kept::Tree(old) => add_tree(name, path, old.as_ref(), tree, lines),
        Kept::Text(old) => add_text(name, bytes_of(old), store.module(held.slot), lines),
        Kept::Subterm(old) => match part_at(tree, held.path) {
            Some(new) => {
                path.extend_from_slice(held.path)?;
                add_differences(name, path, old, new, lines)
            }
            None => Ok(()),
        },
        Kept::Annotations(old) => match part_at(tree, held.path) {
            Some(new) => add_annotations(name, held.path, old, new.annotations(), lines),
            None => Ok(()),
        },
    }
}

fn bytes_of(text: &Option<Text>) -> Option<&[u8]>
    ensures { option_copied result ≡ text.now }
{
    match text {
        Some(text) => Some(text.bytes()),
        None => None,
    }
}

fn part_at<'a>(tree: Option<&'a Term>, path: &[usize]) -> Option<&'a Term>
    ensures { option_copied result ≡ option_and_then (λ t. at t path.now) (option_copied tree.entry) }
{
    at_parts(tree?, path)
}
