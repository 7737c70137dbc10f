//! What is bad in a bad token of a strategy or a module.

ghost use Rattle.std.specs.Prelude.{◌≡◌, ℕ, List, Some, IfSome};
ghost use Rattle.text_faults.specs.Places.{HasByte};
ghost use Rattle.text_faults.specs.inside.ReadStrings.{KeepsEscape};

use crate::escape::{Escape, Escaped, read_escape};

/// What is bad in a token.
#[derive(Clone, Copy, Debug, PartialEq, Eq)]
pub enum BadToken {
    /// A string that isn't closed.
    OpenString,
    /// A comment that isn't closed.
    OpenComment,
    /// A string with a wrong escape, whose backslash is so many bytes after the start of the token.
    Escape(usize),
    /// An integer that isn't from -2^63 to 2^63 - 1.
    Range,
    /// A byte that begins no token.
    Byte,
}

/// What is bad in the token of these bytes, which is a bad one.
pub fn bad_token(token: &[u8]) -> BadToken
    ensures escape { (n : ℕ) → result ≡ BadToken.Escape n → HasByte token.now n 92 }
{
    match token {
        [b'"', ..] => bad_string(token),
        [b'/', b'*', ..] => BadToken::OpenComment,
        [b'0'..=b'9', ..] => BadToken::Range,
        [b'-', _, ..] => BadToken::Range,
        _ => BadToken::Byte,
    }
}

// What is read between the quotes.
#[derive(Clone, Copy)]
enum StringState {
    // The opening quote has to come.
    Before,
    // An item has to begin.
    Items,
    // An escape that began at this place.
    Escape(usize, Escape),
}

// What is bad in a string, with its opening quote.
fn bad_string(token: &[u8]) -> BadToken
    ensures { (n : ℕ) → result ≡ BadToken.Escape n → HasByte token.now n 92 }
{
    let mut place = StringState::Before;
    let mut wrong = None;
    for (at, byte) in token.iter().enumerate() {
        if wrong.is_none() {
            wrong = wrong_escape(place, *byte);
        }
        match next_place(place, at, *byte) {
            Some(next) => place = next,
            None => return closed_string(wrong),
        }
    }
    BadToken::OpenString
}

// Where the escape begins that this byte makes a wrong one.
fn wrong_escape(place: StringState, byte: u8) -> Option<usize>
    ensures { (token : List ℕ) → KeepsEscape place token → IfSome result (λ n. HasByte token n 92) }
{
    let StringState::Escape(start, read) = place else {
        return None;
    };
    match read_escape(read, byte) {
        Escaped::Wrong => Some(start),
        _ => None,
    }
}

fn closed_string(wrong: Option<usize>) -> BadToken
    ensures { (n : ℕ) → result ≡ BadToken.Escape n → wrong ≡ Some n }
{
    match wrong {
        Some(start) => BadToken::Escape(start),
        None => BadToken::Byte,
    }
}

// What is read after this byte, or `None` after the closing quote. A backslash takes the next byte
// with it, whatever that is.
fn next_place(place: StringState, at: usize, byte: u8) -> Option<StringState>
    ensures { (token : List ℕ) → HasByte token at byte → KeepsEscape place token
        → IfSome result (λ p. KeepsEscape p token) }
{
    match place {
        StringState::Before => Some(StringState::Items),
        StringState::Escape(start, Escape::Begun) => match read_escape(Escape::Begun, byte) {
            Escaped::More(read) => Some(StringState::Escape(start, read)),
            _ => Some(StringState::Items),
        },
        StringState::Escape(start, read) => match read_escape(read, byte) {
            Escaped::More(read) => Some(StringState::Escape(start, read)),
            Escaped::Whole => Some(StringState::Items),
            Escaped::Wrong => next_item(at, byte),
        },
        StringState::Items => next_item(at, byte),
    }
}

fn next_item(at: usize, byte: u8) -> Option<StringState>
    ensures { (token : List ℕ) → HasByte token at byte → IfSome result (λ p. KeepsEscape p token) }
{
    match byte {
        b'"' => None,
        b'\\' => Some(StringState::Escape(at, Escape::Begun)),
        _ => Some(StringState::Items),
    }
}
