//! Where a text stops being a term of the textual ATerm format. The text is passed over byte by
//! byte, with a stack of open brackets; no term is made.

ghost use Rattle.std.specs.Prelude.{◌≡◌, ◌<◌, ℕ, List, length, IfOk, IfSome};
ghost use Rattle.text_faults.specs.Places.{HasByte, IsPlaceOf};
ghost use Rattle.text_faults.specs.inside.ReadTerms.{KeepsPlaces, LeadsOn};

use crate::escape::{Escape, Escaped, read_escape};
use aterm_text::is_blank;
use std::alloc::Global;
use std::str;
use term_core::{NoMemory, begins_word, continues_word};

/// Why a text is no term.
#[derive(Clone, Copy, Debug, PartialEq, Eq)]
pub enum TermFault {
    /// It ends too early.
    End,
    /// No term goes on with the byte.
    Byte,
    /// A whole term ended before the byte.
    After,
    /// The byte is the `.` of a real number.
    Real,
    /// The byte is the `<` of a placeholder.
    Placeholder,
    /// The quote that begins a string, which isn't closed.
    OpenString,
    /// The backslash of a wrong escape.
    Escape,
    /// The first byte of an integer that isn't from -2^63 to 2^63 - 1.
    Range,
}

/// Where a text stops being a term.
#[derive(Clone, Copy, Debug, PartialEq, Eq)]
pub struct StuckTerm {
    /// The number of bytes before the place; all bytes if the text ends too early.
    pub at: usize,
    pub fault: TermFault,
    /// The number of bytes before the innermost bracket that is open there.
    pub open: Option<usize>,
}

/// Where the text stops being a term; `None` if it is one. Nothing is said of how deep it is.
///
/// Errors: `NoMemory` if memory can't grow.
pub fn stuck_term(alloc: Global, text: &[u8]) -> Result<Option<StuckTerm>, NoMemory>
    ensures place { IfOk result (λ found. IfSome found (λ s. IsPlaceOf s.fault text.now s.at)) }
{
    stuck_after(alloc, text, TermState::Expected)
}

/// Where the text stops being an annotation part; `None` if it is one.
///
/// Errors: `NoMemory` if memory can't grow.
pub fn stuck_annotations(alloc: Global, text: &[u8]) -> Result<Option<StuckTerm>, NoMemory>
    ensures place { IfOk result (λ found. IfSome found (λ s. IsPlaceOf s.fault text.now s.at)) }
{
    stuck_after(alloc, text, TermState::Annotations)
}

// What was read last.
#[derive(Clone, Copy)]
enum TermState {
    // Nothing: an annotation part has to begin.
    Annotations,
    // Nothing, or a comma: a term has to begin.
    Expected,
    // An opening bracket: a term may begin, or the bracket is closed.
    Entered,
    // A name, whose arguments may come.
    Named,
    // A term that may still get annotations.
    Base,
    // A term with its annotations.
    Whole,
    // A part of a token that began at this place: of a word, an integer, or what is in quotes.
    Word,
    Minus(usize),
    Digits(usize),
    Quoted(usize),
    // A part of an escape, with the places of the quote and the backslash.
    Escape(usize, usize, Escape),
}

// An open bracket: its place, and the byte that closes it.
#[derive(Clone, Copy)]
struct Bracket {
    at: usize,
    closing: u8,
}

// What a byte leads to.
#[derive(Clone, Copy)]
enum Next {
    Goes(TermState),
    Opens(u8),
    Closes(TermState),
    // The token ended before the byte, and leads to this state.
    Ended(TermState),
    // It ends here, at this place.
    Stuck(usize, TermFault),
}

fn stuck_after(alloc: Global, text: &[u8], first: TermState) -> Result<Option<StuckTerm>, NoMemory>
    requires { KeepsPlaces first text.now }
    ensures place { IfOk result (λ found. IfSome found (λ s. IsPlaceOf s.fault text.now s.at)) }
{
    let mut open = Vec::new(alloc);
    let mut state = first;
    for (at, byte) in text.iter().enumerate() {
        let mut next = next_in_token(text, state, at, *byte);
        if let Next::Ended(ended) = next {
            next = next_token(ended, open.last().copied(), at, *byte);
        }
        match next {
            Next::Goes(goes) => state = goes,
            Next::Ended(ended) => state = ended,
            Next::Opens(closing) => {
                open.push(Bracket { at, closing })?;
                state = TermState::Entered;
            }
            Next::Closes(closed) => {
                drop(open.pop());
                state = closed;
            }
            Next::Stuck(place, fault) => return Ok(Some(stuck(place, fault, &open))),
        }
    }
    Ok(stuck_at_end(text, state, &open))
}

fn stuck(at: usize, fault: TermFault, open: &[Bracket]) -> StuckTerm
    ensures at { result.at ≡ at }
    ensures fault { result.fault ≡ fault }
{
    StuckTerm {
        at,
        fault,
        open: open.last().map(|bracket| bracket.at),
    }
}

// Why the text may not end, if it may not.
fn stuck_at_end(text: &[u8], state: TermState, open: &[Bracket]) -> Option<StuckTerm>
    requires { KeepsPlaces state text.now }
    ensures place { IfSome result (λ s. IsPlaceOf s.fault text.now s.at) }
{
    match state {
        TermState::Quoted(start) | TermState::Escape(start, _, _) => {
            Some(stuck(start, TermFault::OpenString, open))
        }
        TermState::Minus(start) => Some(stuck(start, TermFault::Byte, open)),
        TermState::Digits(start) if !is_in_range(text.get(start..)) => {
            Some(stuck(start, TermFault::Range, open))
        }
        TermState::Annotations | TermState::Expected | TermState::Entered => {
            Some(stuck(text.len(), TermFault::End, open))
        }
        _ if open.is_empty() => None,
        _ => Some(stuck(text.len(), TermFault::End, open)),
    }
}

// ---- inside a token

fn next_in_token(text: &[u8], state: TermState, at: usize, byte: u8) -> Next
    requires byte { HasByte text.now at byte }
    requires state { KeepsPlaces state text.now }
    ensures { LeadsOn result text.now }
{
    match state {
        TermState::Word if continues_word(byte) => Next::Goes(TermState::Word),
        TermState::Word => Next::Ended(TermState::Named),
        TermState::Minus(start) if byte.is_ascii_digit() => Next::Goes(TermState::Digits(start)),
        TermState::Minus(start) => Next::Stuck(start, TermFault::Byte),
        TermState::Digits(start) => next_in_integer(text, start, at, byte),
        TermState::Quoted(start) => Next::Goes(next_in_quotes(start, at, byte)),
        TermState::Escape(start, backslash, read) => match read_escape(read, byte) {
            Escaped::More(read) => Next::Goes(TermState::Escape(start, backslash, read)),
            Escaped::Whole => Next::Goes(TermState::Quoted(start)),
            Escaped::Wrong => Next::Stuck(backslash, TermFault::Escape),
        },
        _ => Next::Ended(state),
    }
}

fn next_in_integer(text: &[u8], start: usize, at: usize, byte: u8) -> Next
    requires byte { HasByte text.now at byte }
    requires start { start < length text.now }
    ensures { LeadsOn result text.now }
{
    if byte.is_ascii_digit() {
        return Next::Goes(TermState::Digits(start));
    }
    if byte == b'.' {
        return Next::Stuck(at, TermFault::Real);
    }
    if !is_in_range(text.get(start..at)) {
        return Next::Stuck(start, TermFault::Range);
    }
    Next::Ended(TermState::Base)
}

fn is_in_range(digits: Option<&[u8]>) -> bool {
    let Some(digits) = digits else {
        return false;
    };
    match str::from_utf8(digits) {
        Ok(text) => text.parse::<i64>().is_ok(),
        Err(_) => false,
    }
}

fn next_in_quotes(start: usize, at: usize, byte: u8) -> TermState
    ensures { (text : List ℕ) → HasByte text at byte → HasByte text start 34
        → KeepsPlaces result text }
{
    match byte {
        b'"' => TermState::Named,
        b'\\' => TermState::Escape(start, at, Escape::Begun),
        _ => TermState::Quoted(start),
    }
}

// ---- between two tokens

fn next_token(state: TermState, innermost: Option<Bracket>, at: usize, byte: u8) -> Next
    ensures { (text : List ℕ) → HasByte text at byte → KeepsPlaces state text
        → LeadsOn result text }
{
    if is_blank(byte) {
        return Next::Goes(state);
    }
    match state {
        TermState::Annotations if byte == b'{' => Next::Opens(b'}'),
        TermState::Annotations => Next::Stuck(at, TermFault::Byte),
        TermState::Entered => match innermost {
            Some(bracket) if bracket.closing == byte => Next::Closes(closed(byte)),
            _ => begin(at, byte),
        },
        TermState::Named if byte == b'(' => Next::Opens(b')'),
        TermState::Named | TermState::Base if byte == b'{' => Next::Opens(b'}'),
        TermState::Named | TermState::Base | TermState::Whole => after_whole(innermost, at, byte),
        _ => begin(at, byte),
    }
}

// What was read after this closing bracket.
fn closed(byte: u8) -> TermState
    ensures { (text : List ℕ) → KeepsPlaces result text }
{
    if byte == b'}' {
        TermState::Whole
    } else {
        TermState::Base
    }
}

// A term has to begin with the byte.
fn begin(at: usize, byte: u8) -> Next
    ensures { (text : List ℕ) → HasByte text at byte → LeadsOn result text }
{
    match byte {
        b'[' => Next::Opens(b']'),
        b'(' => Next::Opens(b')'),
        b'"' => Next::Goes(TermState::Quoted(at)),
        b'-' => Next::Goes(TermState::Minus(at)),
        b'<' => Next::Stuck(at, TermFault::Placeholder),
        _ if byte.is_ascii_digit() => Next::Goes(TermState::Digits(at)),
        _ if begins_word(byte) => Next::Goes(TermState::Word),
        _ => Next::Stuck(at, TermFault::Byte),
    }
}

fn after_whole(innermost: Option<Bracket>, at: usize, byte: u8) -> Next
    ensures { (text : List ℕ) → HasByte text at byte → LeadsOn result text }
{
    let Some(bracket) = innermost else {
        return Next::Stuck(at, TermFault::After);
    };
    if byte == b',' {
        return Next::Goes(TermState::Expected);
    }
    if byte == bracket.closing {
        return Next::Closes(closed(byte));
    }
    Next::Stuck(at, TermFault::Byte)
}
