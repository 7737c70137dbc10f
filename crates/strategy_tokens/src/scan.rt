//! The pieces of a text: white space, comments and tokens, found without taking memory.
#![tactic(auto, using(crate::proofs::ScanLemmas::scan_parts))]

ghost use Rattle.std.specs.Prelude.{◌≡◌, ◌≤◌, ◌<◌, ◌==◌, ◌&&◌, ◌∷◌, [], ℕ, length, Some, None, IfSome, List, true, suc, ◌+◌, take};
ghost use Rattle.std.specs.List.{prefix_len};
ghost use Rattle.std.specs.Char.{is_ascii_digit};
ghost use Rattle.aterm_text.specs.Signs.{minus};
ghost use Rattle.term_core.specs.Word.{begins_word};
ghost use Rattle.strategy_tokens.specs.Tokens.{is_no_line_feed, comment_len, continues_ident, ident_len, ident_token, quote_at, piece_at, comment_piece, minus_piece, sign_piece, short_sign, closed_string, integer_token, begins_with};
ghost use Rattle.std.specs.Str.Parse.{IsNumeral, without_leading_sign};
ghost use Rattle.strategy_tokens.specs.inside.Pieces.{piece_token, HoldsWord};

use crate::Sign;
use aterm_text::is_blank;
use std::str;

/// What begins at a place of a text. Names are still slices of it.
#[derive(Clone, Copy)]
pub enum Scanned<'a> {
    /// White space, or a comment.
    White,
    /// An identifier, a reserved word or `_`.
    Word(&'a [u8]),
    /// An integer.
    Integer(i64),
    /// What is between the quotes of a string, escapes included, valid or not.
    Text(&'a [u8]),
    /// A sign.
    Sign(Sign),
    /// A bad token.
    Bad,
}

fn begins_ident(b: u8) -> bool
    ensures { result ≡ begins_word b }
{
    b.is_ascii_alphabetic() || b == b'_'
}

fn begins_with(byte: u8, text: &[u8]) -> bool
    ensures { result ≡ begins_with byte text.now }
{
    match text.split_first() {
        Some((first, _)) => *first == byte,
        None => false,
    }
}

// Whether an identifier continues with the byte, given the bytes after it.
fn continues_ident(b: u8, rest: &[u8]) -> bool
    ensures { result ≡ continues_ident b rest.now }
{
    b.is_ascii_alphanumeric() || b == b'_' || b == b'\'' || (b == b'-' && !begins_with(b'>', rest))
}

// The number of leading bytes that continue an identifier.
fn ident_length(text: &[u8]) -> usize
    ensures value { result ≡ ident_len text.now }
    ensures bound { result ≤ length text.now }
{
    let mut rest = text;
    while let Some((first, left)) = rest.split_first() {
        if !continues_ident(*first, left) {
            break;
        }
        rest = left;
    }
    text.len() - rest.len()
}

fn digits_length(text: &[u8]) -> usize
    ensures value { result ≡ prefix_len is_ascii_digit text.now }
    ensures bound { result ≤ length text.now }
{
    text.iter().take_while(|b| b.is_ascii_digit()).count()
}

fn line_length(text: &[u8]) -> usize
    ensures value { result ≡ prefix_len is_no_line_feed text.now }
    ensures bound { result ≤ length text.now }
{
    text.iter().take_while(|b| **b != b'\n').count()
}

fn ends_comment(first: u8, rest: &[u8]) -> bool
    ensures { result ≡ (first == 42) && begins_with 47 rest.now }
{
    first == b'*' && begins_with(b'/', rest)
}

// The number of bytes up to and including the `*/` that ends a comment.
fn comment_length(text: &[u8]) -> Option<usize>
    ensures value { result ≡ comment_len text.now }
    ensures bound { IfSome result (λ n. n ≤ length text.now) }
{
    let mut rest = text;
    while let Some((first, left)) = rest.split_first() {
        if ends_comment(*first, left) {
            return Some(text.len() - left.len() + 1);
        }
        rest = left;
    }
    None
}

// The number of bytes before the next `"` that isn't escaped.
fn quote_position(text: &[u8]) -> Option<usize>
    ensures value { result ≡ quote_at text.now }
    ensures bound { IfSome result (λ n. n < length text.now) }
{
    let mut rest = text;
    while let Some((first, left)) = rest.split_first() {
        if *first == b'"' {
            return Some(text.len() - rest.len());
        }
        rest = left;
        if *first == b'\\' {
            let Some((_, left)) = left.split_first() else {
                return None;
            };
            rest = left;
        }
    }
    None
}

// The integer that these bytes spell, with an optional `-`, or a bad token if it is out of range.
fn integer(text: &[u8]) -> Scanned<'static>
    requires { IsNumeral 10 (without_leading_sign text.now) }
    ensures token { piece_token result ≡ Some (integer_token text.now) }
    ensures word { HoldsWord result }
{
    let Ok(text) = str::from_utf8(text) else {
        return Scanned::Bad;
    };
    match text.parse::<i64>() {
        Ok(value) => Scanned::Integer(value),
        Err(_) => Scanned::Bad,
    }
}

// What begins with a `/`, and the number of bytes after it.
fn comment(rest: &[u8]) -> (Scanned<'static>, usize)
    ensures token { piece_token result.0 ≡ (comment_piece rest.now).token }
    ensures more { result.1 ≡ (comment_piece rest.now).more }
    ensures bound { result.1 ≤ length rest.now }
    ensures word { HoldsWord result.0 }
{
    match rest.split_first() {
        Some((b'/', line)) => (Scanned::White, 1 + line_length(line)),
        Some((b'*', inside)) => match comment_length(inside) {
            Some(count) => (Scanned::White, 1 + count),
            None => (Scanned::Bad, rest.len()),
        },
        _ => (Scanned::Bad, 0),
    }
}

// What begins with a `"`, and the number of bytes after it.
fn string(rest: &[u8]) -> (Scanned<'_>, usize)
    ensures token { piece_token result.0 ≡ (closed_string (quote_at rest.now) rest.now).token }
    ensures more { result.1 ≡ (closed_string (quote_at rest.now) rest.now).more }
    ensures bound { result.1 ≤ length rest.now }
    ensures word { HoldsWord result.0 }
{
    match quote_position(rest) {
        Some(count) => (Scanned::Text(&rest[..count]), count + 1),
        None => (Scanned::Bad, rest.len()),
    }
}

// A sign of one byte, or of two.
fn sign(first: u8, rest: &[u8]) -> (Scanned<'static>, usize)
    ensures token { piece_token result.0 ≡ (sign_piece first rest.now).token }
    ensures more { result.1 ≡ (sign_piece first rest.now).more }
    ensures bound { result.1 ≤ length rest.now }
    ensures word { HoldsWord result.0 }
{
    match first {
        b'=' if begins_with(b'>', rest) => (Scanned::Sign(Sign::FatArrow), 1),
        b'<' if begins_with(b'+', rest) => (Scanned::Sign(Sign::LeftChoice), 1),
        _ => (short_sign(first), 0),
    }
}

fn short_sign(byte: u8) -> Scanned<'static>
    ensures token { piece_token result ≡ Some (short_sign byte) }
    ensures word { HoldsWord result }
{
    match byte {
        b'(' => Scanned::Sign(Sign::OpenRound),
        b')' => Scanned::Sign(Sign::CloseRound),
        b'[' => Scanned::Sign(Sign::OpenSquare),
        b']' => Scanned::Sign(Sign::CloseSquare),
        b'{' => Scanned::Sign(Sign::OpenCurly),
        b'}' => Scanned::Sign(Sign::CloseCurly),
        b',' => Scanned::Sign(Sign::Comma),
        b';' => Scanned::Sign(Sign::Semicolon),
        b':' => Scanned::Sign(Sign::Colon),
        b'|' => Scanned::Sign(Sign::Bar),
        b'=' => Scanned::Sign(Sign::Equals),
        b'<' => Scanned::Sign(Sign::Less),
        b'>' => Scanned::Sign(Sign::Greater),
        b'+' => Scanned::Sign(Sign::Plus),
        b'*' => Scanned::Sign(Sign::Star),
        b'?' => Scanned::Sign(Sign::Question),
        b'!' => Scanned::Sign(Sign::Exclamation),
        b'@' => Scanned::Sign(Sign::At),
        b'\\' => Scanned::Sign(Sign::Backslash),
        _ => Scanned::Bad,
    }
}

// What begins with a byte that may begin an identifier.
fn word<'a>(text: &'a [u8], first: u8, rest: &'a [u8]) -> (Scanned<'a>, usize)
    requires front { text.now ≡ first ∷ rest.now }
    requires begins { begins_word first ≡ true }
    ensures token { piece_token result.0
        ≡ Some (ident_token (first ∷ take (ident_len rest.now) rest.now)) }
    ensures more { result.1 ≡ ident_len rest.now }
    ensures bound { result.1 ≤ length rest.now }
    ensures word { HoldsWord result.0 }
{
    let count = ident_length(rest);
    (Scanned::Word(&text[..count + 1]), count)
}

// What begins with a digit.
fn number<'a>(text: &'a [u8], first: u8, rest: &'a [u8]) -> (Scanned<'a>, usize)
    requires front { text.now ≡ first ∷ rest.now }
    requires digit { is_ascii_digit first ≡ true }
    ensures token { piece_token result.0
        ≡ Some (integer_token (first ∷ take (prefix_len is_ascii_digit rest.now) rest.now)) }
    ensures more { result.1 ≡ prefix_len is_ascii_digit rest.now }
    ensures bound { result.1 ≤ length rest.now }
    ensures word { HoldsWord result.0 }
{
    let count = digits_length(rest);
    (integer(&text[..count + 1]), count)
}

// The integer that begins with a `-` followed by a digit.
fn negative<'a>(text: &'a [u8], digit: u8, after: &'a [u8]) -> (Scanned<'a>, usize)
    requires front { text.now ≡ minus ∷ (digit ∷ after.now) }
    requires digit { is_ascii_digit digit ≡ true }
    ensures token { piece_token result.0 ≡ Some
        (integer_token (minus ∷ (digit ∷ take (prefix_len is_ascii_digit after.now) after.now))) }
    ensures more { result.1 ≡ suc (prefix_len is_ascii_digit after.now) }
    ensures bound { result.1 ≤ 1 + length after.now }
    ensures word { HoldsWord result.0 }
{
    let count = digits_length(after);
    (integer(&text[..count + 2]), count + 1)
}

// What begins with a `-`: an arrow, an integer or a bad token.
fn minus<'a>(text: &'a [u8], rest: &'a [u8]) -> (Scanned<'a>, usize)
    requires { text.now ≡ minus ∷ rest.now }
    ensures token { piece_token result.0 ≡ (minus_piece rest.now).token }
    ensures more { result.1 ≡ (minus_piece rest.now).more }
    ensures bound { result.1 ≤ length rest.now }
    ensures word { HoldsWord result.0 }
{
    match rest.split_first() {
        Some((b'>', _)) => (Scanned::Sign(Sign::Arrow), 1),
        Some((digit, after)) if digit.is_ascii_digit() => negative(text, *digit, after),
        _ => (Scanned::Bad, 0),
    }
}

/// What begins the text, and the number of its bytes after the first.
pub fn first_piece<'a>(text: &'a [u8], first: u8, rest: &'a [u8]) -> (Scanned<'a>, usize)
    requires { text.now ≡ first ∷ rest.now }
    ensures token { piece_token result.0 ≡ (piece_at first rest.now).token }
    ensures more { result.1 ≡ (piece_at first rest.now).more }
    ensures bound { result.1 ≤ length rest.now }
    ensures word { HoldsWord result.0 }
{
    if is_blank(first) {
        return (Scanned::White, 0);
    }
    if first == b'/' {
        return comment(rest);
    }
    if begins_ident(first) {
        return word(text, first, rest);
    }
    if first.is_ascii_digit() {
        return number(text, first, rest);
    }
    if first == b'-' {
        return minus(text, rest);
    }
    if first == b'"' {
        return string(rest);
    }
    sign(first, rest)
}
