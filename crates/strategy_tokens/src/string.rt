//! What is between the quotes of a string.

ghost use Rattle.std.specs.Prelude.{◌≡◌, ◌<◌, ◌≤◌, length, take, drop, IfOk, IfSome, IfNone, MatchOption, Some, None};
ghost use Rattle.std.specs.List.{prefix_len};
ghost use Rattle.strategy_tokens.specs.Tokens.{unescaped, after_backslash, after_octal, and_byte};
ghost use Rattle.strategy_tokens.specs.inside.Pieces.{is_no_backslash};

use aterm_text::{octal_byte, short_escape};
use std::alloc::Global;
use term_core::NoMemory;

/// The bytes that these items stand for, or `None` if an escape is invalid.
pub fn unescape(alloc: Global, items: &[u8]) -> Result<Option<Vec<u8>>, NoMemory>
    ensures { IfOk result (λ found. MatchOption found (unescaped items.now ≡ None)
        (λ bytes. unescaped items.now ≡ Some bytes.items)) }
{
    let (run, mut rest) = first_run(items);
    let mut bytes = Vec::from_slice(alloc, run)?;
    while let Some((_, after)) = rest.split_first() {
        let Some((byte, after)) = escape(after) else {
            return Ok(None);
        };
        let (run, left) = first_run(after);
        bytes.push(byte)?;
        bytes.extend_from_slice(run)?;
        rest = left;
    }
    Ok(Some(bytes))
}

// The leading bytes up to a backslash, and the rest.
fn first_run(items: &[u8]) -> (&[u8], &[u8])
    ensures run { result.0.now ≡ take (prefix_len is_no_backslash items.now) items.now }
    ensures rest { result.1.now ≡ drop (prefix_len is_no_backslash items.now) items.now }
{
    items.split_at(run_length(items))
}

/// The number of bytes before a backslash. They stand for themselves.
pub fn run_length(items: &[u8]) -> usize
    ensures value { result ≡ prefix_len is_no_backslash items.now }
    ensures bound { result ≤ length items.now }
{
    items.iter().take_while(|b| **b != b'\\').count()
}

// The byte that an escape stands for, given what follows the backslash, and the rest of the items.
fn escape(items: &[u8]) -> Option<(u8, &[u8])>
    ensures some { IfSome result (λ found.
        after_backslash items.now ≡ and_byte found.0 (unescaped found.1.now)) }
    ensures none { IfNone result (after_backslash items.now ≡ None) }
    ensures shorter { IfSome result (λ found. length found.1.now < length items.now) }
{
    let (first, rest) = items.split_first()?;
    match short_escape(*first) {
        Some(byte) => Some((byte, rest)),
        None => octal(*first, rest),
    }
}

// The byte that three octal digits stand for, and the rest of the items.
fn octal(first: u8, rest: &[u8]) -> Option<(u8, &[u8])>
    ensures some { IfSome result (λ found.
        after_octal first rest.now ≡ and_byte found.0 (unescaped found.1.now)) }
    ensures none { IfNone result (after_octal first rest.now ≡ None) }
    ensures shorter { IfSome result (λ found. length found.1.now < length rest.now) }
{
    let (second, rest) = rest.split_first()?;
    let (third, after) = rest.split_first()?;
    let byte = octal_byte(first, *second, *third)?;
    Some((byte, after))
}
