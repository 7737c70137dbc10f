//! Lines that say what changed.

ghost use Rattle.std.specs.Prelude.{◌≡◌, ◌≤◌, ◌+◌, ◌++◌, ◌∷◌, [], OnOk, OnErr, codes, decimal, length, vec_capacity};
ghost use Rattle.std.specs.List.{flat_map};
ghost use Rattle.term_core.specs.Tree.{of_list};
ghost use Rattle.aterm_text.specs.Printed.{print_all};
ghost use Rattle.aterm_text.specs.inside.Printing.{Extends};
ghost use Rattle.session_history.specs.Differences.{change_line, in_braces, text_line};
ghost use Rattle.session_changes.specs.Sides.{side_text};

use aterm_text::print;
use itoa::Buffer;
use std::alloc::Global;
use term_core::{NoMemory, Term};

/// Lines of a text that are counted.
#[derive(Drop)]
pub(crate) struct CountedLines {
    pub(crate) text: Vec<u8>,
    pub(crate) count: u64,
    ghost counted: { count ≤ length text.items },
}

/// What a place had before a change, or has now.
#[derive(Clone, Copy)]
pub enum Side<'a> {
    /// No tree.
    Nothing,
    /// A tree or a subterm.
    Tree(&'a Term),
    /// The annotations of a subterm.
    Annotations(&'a [Term]),
}

impl CountedLines {
    pub(crate) fn allocator(&self) -> Global {
        *self.text.allocator()
    }

    /// Adds a line: a place in the tree of the name, what was there and what is there now.
    pub(crate) fn add_change(
        &mut self,
        name: &[u8],
        path: &[usize],
        old: Side<'_>,
        new: Side<'_>,
    ) -> Result<(), NoMemory>
        ensures text { OnOk result (self.new.text.items
            ≡ self.old.text.items ++ change_line name.now path.now (side_text old.entry) (side_text new.entry)) }
        ensures count { OnOk result (self.new.count ≡ self.old.count + 1) }
    {
        append_change(name, path, old, new, &mut self.text)?;
        self.count += 1;
        Ok(())
    }

    /// Adds a line that says what became of the module of the name.
    pub(crate) fn add_text_change(&mut self, name: &[u8], what: &[u8]) -> Result<(), NoMemory>
        ensures text { OnOk result (self.new.text.items ≡ self.old.text.items ++ text_line name.now what.now) }
        ensures count { OnOk result (self.new.count ≡ self.old.count + 1) }
    {
        self.text.extend_from_slice(b"module ")?;
        self.text.extend_from_slice(name)?;
        self.text.push(b' ')?;
        self.text.extend_from_slice(what)?;
        self.text.push(b'\n')?;
        self.count += 1;
        Ok(())
    }
}

/// Appends a line: a place in the tree of the name, what was there and what is there now. If memory
/// can't grow, `out` is unchanged.
pub fn append_change(
    name: &[u8],
    path: &[usize],
    old: Side<'_>,
    new: Side<'_>,
    out: &mut Vec<u8>,
) -> Result<(), NoMemory>
    ensures ok { OnOk result (out.new.items
        ≡ out.old.items ++ change_line name.now path.now (side_text old.entry) (side_text new.entry)) }
    ensures err { OnErr result (out.new.items ≡ out.old.items) }
    ensures room { vec_capacity out.old ≤ vec_capacity out.new }
{
    let begun = out.len();
    let appended = append_parts(name, path, old, new, out);
    if appended.is_err() {
        out.truncate(begun);
    }
    appended
}

fn append_parts(
    name: &[u8],
    path: &[usize],
    old: Side<'_>,
    new: Side<'_>,
    out: &mut Vec<u8>,
) -> Result<(), NoMemory>
    ensures ok { OnOk result (out.new.items
        ≡ out.old.items ++ change_line name.now path.now (side_text old.entry) (side_text new.entry)) }
    ensures err { Extends out.old.items out.new.items }
    ensures room { vec_capacity out.old ≤ vec_capacity out.new }
{
    out.extend_from_slice(name)?;
    append_path(path, out)?;
    out.push(b' ')?;
    append_side(old, out)?;
    out.extend_from_slice(b" => ")?;
    append_side(new, out)?;
    out.push(b'\n')?;
    Ok(())
}

fn append_path(path: &[usize], out: &mut Vec<u8>) -> Result<(), NoMemory>
    ensures ok { OnOk result (out.new.items ≡ out.old.items ++ flat_map (λ i. 47 ∷ decimal i) path.now) }
    ensures err { Extends out.old.items out.new.items }
    ensures room { vec_capacity out.old ≤ vec_capacity out.new }
{
    for part in path {
        out.push(b'/')?;
        append_number(*part as u64, out)?;
    }
    Ok(())
}

fn append_number(number: u64, out: &mut Vec<u8>) -> Result<(), NoMemory>
    ensures ok { OnOk result (out.new.items ≡ out.old.items ++ decimal number) }
    ensures err { Extends out.old.items out.new.items }
    ensures room { vec_capacity out.old ≤ vec_capacity out.new }
{
    let mut digits = Buffer::new();
    out.extend_from_slice(digits.format(number).as_bytes())?;
    Ok(())
}

fn append_side(side: Side<'_>, out: &mut Vec<u8>) -> Result<(), NoMemory>
    ensures ok { OnOk result (out.new.items ≡ out.old.items ++ side_text side.entry) }
    ensures err { Extends out.old.items out.new.items }
    ensures room { vec_capacity out.old ≤ vec_capacity out.new }
{
    match side {
        Side::Nothing => {
            out.extend_from_slice(b"(none)")?;
            Ok(())
        }
        Side::Tree(term) => print(term, out),
        Side::Annotations(terms) => append_annotations(terms, out),
    }
}

fn append_annotations(terms: &[Term], out: &mut Vec<u8>) -> Result<(), NoMemory>
    ensures ok { OnOk result (out.new.items ≡ out.old.items ++ in_braces (of_list terms.now)) }
    ensures err { Extends out.old.items out.new.items }
    ensures room { vec_capacity out.old ≤ vec_capacity out.new }
{
    out.push(b'{')?;
    append_all(terms, out)?;
    out.push(b'}')?;
    Ok(())
}

// The terms, separated by commas.
fn append_all(terms: &[Term], out: &mut Vec<u8>) -> Result<(), NoMemory>
    ensures ok { OnOk result (out.new.items ≡ out.old.items ++ print_all (of_list terms.now)) }
    ensures err { Extends out.old.items out.new.items }
    ensures room { vec_capacity out.old ≤ vec_capacity out.new }
{
    let Some((first, rest)) = terms.split_first() else {
        return Ok(());
    };
    print(first, out)?;
    for term in rest {
        out.push(b',')?;
        print(term, out)?;
    }
    Ok(())
}

/// Appends the number of lines, and then the lines. If memory can't grow, `out` is unchanged.
pub(crate) fn append_counted(lines: &CountedLines, out: &mut Vec<u8>) -> Result<(), NoMemory>
    ensures ok { OnOk result (out.new.items ≡ out.old.items
        ++ (codes "changes " ++ decimal lines.now.count ++ 10 ∷ lines.now.text.items)) }
    ensures err { OnErr result (out.new.items ≡ out.old.items) }
    ensures room { vec_capacity out.old ≤ vec_capacity out.new }
{
    let length = out.len();
    let appended = append_lines(lines, out);
    if appended.is_err() {
        out.truncate(length);
    }
    appended
}

fn append_lines(lines: &CountedLines, out: &mut Vec<u8>) -> Result<(), NoMemory>
    ensures ok { OnOk result (out.new.items ≡ out.old.items
        ++ (codes "changes " ++ decimal lines.now.count ++ 10 ∷ lines.now.text.items)) }
    ensures err { Extends out.old.items out.new.items }
    ensures room { vec_capacity out.old ≤ vec_capacity out.new }
{
    out.extend_from_slice(b"changes ")?;
    append_number(lines.count, out)?;
    out.push(b'\n')?;
    out.extend_from_slice(&lines.text)?;
    Ok(())
}
