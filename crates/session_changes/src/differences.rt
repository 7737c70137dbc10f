//! How a tree differs from the one that was there before.

ghost use Rattle.std.specs.Prelude.{◌≡◌, [], OnOk, map, length, option_copied};
ghost use Rattle.term_core.specs.Tree.{of_list};
ghost use Rattle.session_history.specs.Differences.{differences as differences_of, differences_from, annotated, difference_line, tree_lines, text_lines};
ghost use Rattle.session_changes.specs.inside.Lined.{AddsLines, same_kind};
ghost use Rattle.session_changes.specs.DifferenceLaws.{same_root};

use crate::lines::{CountedLines, Side};
use term_core::{Kind, NoMemory, Term, all_equal};

/// Adds the lines of the tree of a name.
pub(crate) fn add_tree(
    name: &[u8],
    path: &mut Vec<usize>,
    old: Option<&Term>,
    new: Option<&Term>,
    lines: &mut CountedLines,
) -> Result<(), NoMemory>
    requires { path.old.items ≡ [] }
    ensures ok { OnOk result (AddsLines (tree_lines name.now (option_copied old.entry) (option_copied new.entry)) lines.old lines.new) }
    ensures path { OnOk result (path.new.items ≡ path.old.items) }
{
    match (old, new) {
        (Some(old), Some(new)) => add_differences(name, path, old, new, lines),
        (Some(old), None) => lines.add_change(name, path, Side::Tree(old), Side::Nothing),
        (None, Some(new)) => lines.add_change(name, path, Side::Nothing, Side::Tree(new)),
        (None, None) => Ok(()),
    }
}

/// Adds the lines of the module of a name.
pub(crate) fn add_text(
    name: &[u8],
    old: Option<&[u8]>,
    new: Option<&[u8]>,
    lines: &mut CountedLines,
) -> Result<(), NoMemory>
    ensures { OnOk result (AddsLines (text_lines name.now (option_copied old.entry) (option_copied new.entry)) lines.old lines.new) }
{
    match (old, new) {
        (Some(old), Some(new)) if old == new => Ok(()),
        (Some(_), Some(_)) => lines.add_text_change(name, b"changed"),
        (Some(_), None) => lines.add_text_change(name, b"went"),
        (None, Some(_)) => lines.add_text_change(name, b"came"),
        (None, None) => Ok(()),
    }
}

/// Adds a line for each place where a tree differs from another, in their order. Both are at the
/// path.
#[cycle(differences)]
pub(crate) fn add_differences(
    name: &[u8],
    path: &mut Vec<usize>,
    old: &Term,
    new: &Term,
    lines: &mut CountedLines,
) -> Result<(), NoMemory>
    ensures ok { OnOk result (AddsLines (map (difference_line name.now) (differences_of path.old.items old.now new.now)) lines.old lines.new) }
    ensures path { OnOk result (path.new.items ≡ path.old.items) }
{
    if !same_root(old, new) {
        return lines.add_change(name, path, Side::Tree(old), Side::Tree(new));
    }
    add_annotations(name, path, old.annotations(), new.annotations(), lines)?;
    add_children(name, path, old.children(), new.children(), lines)
}

#[cycle(differences)]
fn add_children(
    name: &[u8],
    path: &mut Vec<usize>,
    old: &[Term],
    new: &[Term],
    lines: &mut CountedLines,
) -> Result<(), NoMemory>
    requires { length old.now ≡ length new.now }
    ensures ok { OnOk result (AddsLines (map (difference_line name.now) (differences_from path.old.items 0 (of_list old.now) (of_list new.now))) lines.old lines.new) }
    ensures path { OnOk result (path.new.items ≡ path.old.items) }
{
    for i in 0..old.len() {
        path.push(i)?;
        add_differences(name, path, &old[i], &new[i], lines)?;
        let _child = path.pop();
    }
    Ok(())
}

/// Adds a line for the annotations of the subterm at the path, if they differ.
pub(crate) fn add_annotations(
    name: &[u8],
    path: &[usize],
    old: &[Term],
    new: &[Term],
    lines: &mut CountedLines,
) -> Result<(), NoMemory>
    ensures { OnOk result (AddsLines (map (difference_line name.now) (annotated path.now (of_list old.now) (of_list new.now))) lines.old lines.new) }
{
    if all_equal(old, new) {
        return Ok(());
    }
    lines.add_change(name, path, Side::Annotations(old), Side::Annotations(new))
}

// Whether two terms have the same head and as many children.
fn same_root(old: &Term, new: &Term) -> bool
    ensures { result ≡ same_root old.now new.now }
{
    old.child_count() == new.child_count() && same_kind(old.kind(), new.kind())
}

fn same_kind(old: Kind<'_>, new: Kind<'_>) -> bool
    ensures { result ≡ same_kind old.entry new.entry }
{
    match (old, new) {
        (Kind::Integer(a), Kind::Integer(b)) => a == b,
        (Kind::Application(f), Kind::Application(g)) => f.equals(g),
        (Kind::List, Kind::List) => true,
        (Kind::Tuple, Kind::Tuple) => true,
        _ => false,
    }
}
