//! The tokens of a text: white space, integers, words and quoted bytes.

ghost use Rattle.std.specs.Prelude.{◌≡◌, ◌||◌, ◌==◌, ◌+◌, ◌≤◌, ◌∷◌, ◌<◌, ℕ, ℤ, IsTrue, IfOk, IfSome, IfNone, Some, None, Err, true, List, take, drop, length};
ghost use Rattle.std.specs.List.{prefix_len};
ghost use Rattle.std.specs.Char.{is_ascii_digit};
ghost use Rattle.aterm_text.specs.Tokens.{is_blank, without_blanks, integer_len, IsInteger, escape_at, octal_at, ReadsItems};
ghost use Rattle.aterm_text.specs.inside.Runs.{is_plain};

use crate::escapes::{octal_byte, short_escape};
use crate::reader::ReadFault;
use memchr::memchr2;
use std::alloc::Global;
use std::str;
use term_core::Name;

// A number with this many digits is always in range.
const FEW: usize = 18;

/// Whether this byte is white space: a space, a tab, a line feed or a carriage return.
pub fn is_blank(b: u8) -> bool
    ensures { result ≡ is_blank b }
{
    matches!(b, b' ' | b'\t' | b'\n' | b'\r')
}

/// The text without its leading white space.
pub fn after_blanks(text: &[u8]) -> &[u8]
    ensures value { result.now ≡ without_blanks text.now }
    ensures bound { length result.now ≤ length text.now }
{
    match text.first() {
        // The first comparison decides for most bytes.
        Some(first) if *first <= b' ' && is_blank(*first) => skip_blanks(text),
        _ => text,
    }
}

fn skip_blanks(text: &[u8]) -> &[u8]
    ensures value { result.now ≡ without_blanks text.now }
    ensures bound { length result.now ≤ length text.now }
{
    &text[blanks_length(text)..]
}

fn blanks_length(text: &[u8]) -> usize
    ensures value { result ≡ prefix_len is_blank text.now }
    ensures bound { result ≤ length text.now }
{
    text.iter().take_while(|b| is_blank(**b)).count()
}

/// What follows this byte, if it comes first: `a)` after `(` in `(a)`, and `None` in `a)`.
pub fn after_byte(byte: u8, text: &[u8]) -> Option<&[u8]>
    ensures some { IfSome result (λ rest. text.now ≡ byte ∷ rest.now) }
    ensures shorter { IfSome result (λ rest. length rest.now < length text.now) }
    ensures none { IfNone result ((rest : List ℕ) → text.now ≡ byte ∷ rest → ⊥) }
{
    match text.split_first() {
        Some((first, rest)) if *first == byte => Some(rest),
        _ => None,
    }
}

fn digits_length(text: &[u8]) -> usize
    ensures value { result ≡ prefix_len is_ascii_digit text.now }
    ensures bound { result ≤ length text.now }
{
    text.iter().take_while(|b| b.is_ascii_digit()).count()
}

fn integer_length(text: &[u8]) -> usize
    ensures value { result ≡ integer_len text.now }
    ensures bound { result ≤ length text.now }
{
    match text.split_first() {
        Some((b'-', digits)) => 1 + digits_length(digits),
        _ => digits_length(text),
    }
}

/// The integer at the start, and the rest.
pub fn integer(text: &[u8]) -> Option<(i64, &[u8])>
    ensures some { IfSome result (λ found.
        IsInteger (take (integer_len text.now) text.now) found.0
        × (found.1.now ≡ drop (integer_len text.now) text.now)) }
    ensures none { IfNone result ((z : ℤ) →
        IsInteger (take (integer_len text.now) text.now) z → ⊥) }
{
    let (front, rest) = text.split_at(integer_length(text));
    match parsed(front) {
        Some(value) => Some((value, rest)),
        None => None,
    }
}

fn parsed(text: &[u8]) -> Option<i64>
    ensures some { IfSome result (λ z. IsInteger text.now z) }
    ensures none { IfNone result ((z : ℤ) → IsInteger text.now z → ⊥) }
{
    if let Some(value) = few_digits(text) {
        return Some(value);
    }
    let Ok(text) = str::from_utf8(text) else {
        return None;
    };
    match text.parse::<i64>() {
        Ok(value) => Some(value),
        Err(_) => None,
    }
}

// The integer that this text is, if it consists of at most 18 digits, as most do.
fn few_digits(text: &[u8]) -> Option<i64>
    ensures { IfSome result (λ z. IsInteger text.now z) }
{
    if text.is_empty() || text.len() > FEW {
        return None;
    }
    let mut value = 0u64;
    for byte in text {
        if !byte.is_ascii_digit() {
            return None;
        }
        value = 10 * value + u64::from(*byte - b'0');
    }
    i64::try_from(value).ok()
}

// The byte that three octal digits stand for, and the rest.
fn octal(text: &[u8]) -> Option<(u8, &[u8])>
    ensures some { IfSome result (λ found. octal_at text.now ≡ Some (found.0, found.1.now)) }
    ensures none { IfNone result (octal_at text.now ≡ None) }
    ensures shorter { IfSome result (λ found. length found.1.now < length text.now) }
{
    let [a, b, c, rest @ ..] = text else {
        return None;
    };
    let byte = octal_byte(*a, *b, *c)?;
    Some((byte, rest))
}

// The byte that an escape stands for, given what follows the backslash, and the rest.
fn escape(text: &[u8]) -> Option<(u8, &[u8])>
    ensures some { IfSome result (λ found. escape_at text.now ≡ Some (found.0, found.1.now)) }
    ensures none { IfNone result (escape_at text.now ≡ None) }
    ensures shorter { IfSome result (λ found. length found.1.now < length text.now) }
{
    let (first, rest) = text.split_first()?;
    match short_escape(*first) {
        Some(byte) => Some((byte, rest)),
        None => octal(text),
    }
}

// The leading bytes that stand for themselves between quotes, and the rest.
fn first_run(text: &[u8]) -> (&[u8], &[u8])
    ensures run { result.0.now ≡ take (prefix_len is_plain text.now) text.now }
    ensures rest { result.1.now ≡ drop (prefix_len is_plain text.now) text.now }
{
    text.split_at(run_length(text))
}

fn run_length(text: &[u8]) -> usize
    ensures value { result ≡ prefix_len is_plain text.now }
    ensures bound { result ≤ length text.now }
{
    match memchr2(b'"', b'\\', text) {
        Some(place) => place,
        None => text.len(),
    }
}

/// The quoted name whose opening quote was read, and the text after its closing quote.
pub fn quoted(alloc: Global, text: &[u8]) -> Result<(Name, &[u8]), ReadFault>
    ensures found { IfOk result (λ found. found.0.is_quoted ≡ true
        × ReadsItems found.0.text text.now found.1.now) }
    ensures shorter { IfOk result (λ found. length found.1.now < length text.now) }
    ensures none { result ≡ Err ReadFault.Term →
        (bytes y : List ℕ) → ReadsItems bytes text.now y → ⊥ }
    ensures deep { result ≡ Err ReadFault.Deep → ⊥ }
{
    let (run, rest) = first_run(text);
    if let Some(left) = after_byte(b'"', rest) {
        return Ok((Name::quoted(alloc, run)?, left));
    }
    let (bytes, left) = escaped(alloc, text, run.len())?;
    Ok((Name::quoted(alloc, &bytes)?, left))
}

// The bytes that the items up to the closing quote stand for, and the text after it; the first
// `run` bytes stand for themselves.
fn escaped(alloc: Global, text: &[u8], run: usize) -> Result<(Vec<u8>, &[u8]), ReadFault>
    requires { run ≡ prefix_len is_plain text.now }
    ensures found { IfOk result (λ found. ReadsItems found.0.items text.now found.1.now) }
    ensures shorter { IfOk result (λ found. length found.1.now < length text.now) }
    ensures none { result ≡ Err ReadFault.Term →
        (bytes y : List ℕ) → ReadsItems bytes text.now y → ⊥ }
    ensures deep { result ≡ Err ReadFault.Deep → ⊥ }
{
    let (run, mut rest) = text.split_at(run);
    let mut bytes = Vec::from_slice(alloc, run)?;
    while let Some(after) = after_byte(b'\\', rest) {
        let Some((byte, after)) = escape(after) else {
            return Err(ReadFault::Term);
        };
        let (run, left) = first_run(after);
        bytes.push(byte)?;
        bytes.extend_from_slice(run)?;
        rest = left;
    }
    match after_byte(b'"', rest) {
        Some(left) => Ok((bytes, left)),
        None => Err(ReadFault::Term),
    }
}
