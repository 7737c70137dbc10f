//! Whether a printed text fits. What is measured of a term is never more than the room for it.
#![tactic(auto, using(crate::proofs::RoomLemmas::room_steps))]

ghost use Rattle.std.specs.Prelude.{◌≡◌, ◌++◌, ◌∷◌, [], ℕ, length};
ghost use Rattle.std.specs.List.{flat_map};
ghost use Rattle.std.specs.Fmt.{signed_decimal};
ghost use Rattle.term_core.specs.Tree.{of_list, bare};
ghost use Rattle.aterm_text.specs.Printed.{escaped as escaped_of, print as print_of, print_name as print_name_of, print_all as print_all_of, bracketed as bracketed_of};
ghost use Rattle.aterm_text.specs.inside.Printing.{Leaves};

use crate::printer::is_plain;
use itoa::Buffer;
use term_core::{Kind, Name, Term};

/// What the printed text of the term leaves of this room, in bytes, or `None` if it is longer.
#[cycle(room)]
pub(crate) fn room_after(term: &Term, room: usize) -> Option<usize>
    ensures { Leaves room (length (print_of term.now)) result }
{
    let left = room_after_bare(term, room)?;
    room_after_bracketed(term.annotations(), left)
}

// The term is measured without its annotations.
#[cycle(room)]
fn room_after_bare(term: &Term, room: usize) -> Option<usize>
    ensures { Leaves room (length (print_of (bare term.now))) result }
{
    match term.kind() {
        Kind::Integer(value) => room_after_integer(value, room),
        Kind::Application(name) => {
            let left = room_after_name(name, room)?;
            room_after_bracketed(term.children(), left)
        }
        Kind::List => room_after_between(term.children(), room),
        Kind::Tuple => room_after_between(term.children(), room),
    }
}

// The terms are measured with their brackets, if there are any.
#[cycle(room)]
fn room_after_bracketed(terms: &[Term], room: usize) -> Option<usize>
    ensures { let all = of_list terms.now in
        (o c : ℕ) → Leaves room (length (bracketed_of o c all (print_all_of all))) result }
{
    if terms.is_empty() {
        return Some(room);
    }
    room_after_between(terms, room)
}

#[cycle(room)]
fn room_after_between(terms: &[Term], room: usize) -> Option<usize>
    ensures { let all = print_all_of (of_list terms.now) in
        (o c : ℕ) → Leaves room (length (o ∷ (all ++ c ∷ []))) result }
{
    let left = room.checked_sub(2)?;
    room_after_all(terms, left)
}

// The terms are measured with commas between them.
#[cycle(room)]
fn room_after_all(terms: &[Term], room: usize) -> Option<usize>
    ensures { Leaves room (length (print_all_of (of_list terms.now))) result }
{
    let Some((first, rest)) = terms.split_first() else {
        return Some(room);
    };
    let mut left = room_after(first, room)?;
    for term in rest {
        let after_comma = left.checked_sub(1)?;
        left = room_after(term, after_comma)?;
    }
    Some(left)
}

fn room_after_integer(value: i64, room: usize) -> Option<usize>
    ensures { Leaves room (length (signed_decimal value)) result }
{
    let mut buffer = Buffer::new();
    room.checked_sub(buffer.format(value).as_bytes().len())
}

fn room_after_name(name: &Name, room: usize) -> Option<usize>
    ensures { Leaves room (length (print_name_of name.now)) result }
{
    let bytes = name.bytes();
    if name.is_quoted() {
        let left = room.checked_sub(2)?;
        room_after_escaped(bytes, left)
    } else {
        room.checked_sub(bytes.len())
    }
}

fn room_after_escaped(bytes: &[u8], room: usize) -> Option<usize>
    ensures { Leaves room (length (flat_map escaped_of bytes.now)) result }
{
    let mut left = room;
    for byte in bytes {
        left = left.checked_sub(escaped_len(*byte))?;
    }
    Some(left)
}

fn escaped_len(byte: u8) -> usize
    ensures { result ≡ length (escaped_of byte) }
{
    match byte {
        b'"' | b'\\' | b'\n' | b'\t' | b'\r' => 2,
        _ if is_plain(byte) => 1,
        _ => 4,
    }
}
