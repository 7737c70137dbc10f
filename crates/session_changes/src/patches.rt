//! What a patch changed in a tree.

ghost use Rattle.std.specs.Prelude.{◌≡◌, ◌≤◌, OnOk, map, length, take, drop};
ghost use Rattle.term_changes.specs.Change.{changed};
ghost use Rattle.session_history.specs.Differences.{differences, difference_line};
ghost use Rattle.session_changes.specs.inside.Lined.{AddsLines};
ghost use Rattle.session_changes.specs.inside.ReadPatches.{kids_of, change_of, differences_of};

use crate::differences::add_differences;
use crate::lines::CountedLines;
use term_changes::{Patch, PatchItem, PatchReader};
use term_core::{NoMemory, Term};

/// Adds a line for each place where a subterm differs from the one before. The patch has what was
/// there before. The subterm is at the path.
pub(crate) fn add_patch(
    name: &[u8],
    path: &mut Vec<usize>,
    patch: &Patch,
    tree: &Term,
    lines: &mut CountedLines,
) -> Result<(), NoMemory>
    ensures { OnOk result (AddsLines (map (difference_line name.now) (differences path.old.items (changed patch.now tree.now) tree.now)) lines.old lines.new) }
{
    let mut reader = patch.reader();
    let Some((_, next)) = reader.next() else {
        return Ok(());
    };
    add_next(name, path, next, &mut reader, tree, lines)
}

// Adds the lines of what was read, and of the items that belong to it.
#[cycle(patches)]
fn add_next(
    name: &[u8],
    path: &mut Vec<usize>,
    next: PatchItem<'_>,
    reader: &mut PatchReader<'_>,
    tree: &Term,
    lines: &mut CountedLines,
) -> Result<(), NoMemory>
    requires { kids_of next ≤ length reader.old }
    ensures ok { OnOk result (AddsLines (map (difference_line name.now) (differences path.old.items (changed (change_of next.entry reader.old) tree.now) tree.now)) lines.old lines.new) }
    ensures reader { OnOk result (reader.new ≡ drop (kids_of next.entry) reader.old) }
    ensures path { OnOk result (path.new.items ≡ path.old.items) }
{
    match next {
        PatchItem::Term(old) => add_differences(name, path, old, tree, lines),
        PatchItem::Node(kids) => add_kids(name, path, kids, reader, tree.children(), lines),
    }
}

// Adds the lines of the next `kids` items, which are below these children.
#[cycle(patches)]
fn add_kids(
    name: &[u8],
    path: &mut Vec<usize>,
    kids: usize,
    reader: &mut PatchReader<'_>,
    children: &[Term],
    lines: &mut CountedLines,
) -> Result<(), NoMemory>
    requires { kids ≤ length reader.old }
    ensures ok { OnOk result (AddsLines (map (difference_line name.now) (differences_of path.old.items 0 (take kids reader.old) children.now)) lines.old lines.new) }
    ensures reader { OnOk result (reader.new ≡ drop kids reader.old) }
    ensures path { OnOk result (path.new.items ≡ path.old.items) }
{
    let mut at = 0;
    for _k in 0..kids {
        let Some((skipped, next)) = reader.next() else {
            unreachable!()
        };
        if skipped >= children.len() - at {
            at = children.len();
            pass(next, reader);
            continue;
        }
        at += skipped;
        path.push(at)?;
        add_next(name, path, next, reader, &children[at], lines)?;
        let _child = path.pop();
        at += 1;
    }
    Ok(())
}

// Passes over what was read, and over the items that belong to it: its place isn't there.
fn pass(next: PatchItem<'_>, reader: &mut PatchReader<'_>)
    requires { kids_of next ≤ length reader.old }
    ensures { reader.new ≡ drop (kids_of next.entry) reader.old }
{
    let PatchItem::Node(kids) = next else {
        return;
    };
    for _k in 0..kids {
        let Some((_, next)) = reader.next() else {
            unreachable!()
        };
        pass(next, reader);
    }
}
