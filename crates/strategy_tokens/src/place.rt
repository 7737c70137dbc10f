//! The places of tokens.

ghost use Rattle.std.specs.Prelude.{◌≡◌, ◌≤◌, length, slice_get, IfNone};
ghost use Rattle.strategy_tokens.specs.Places.{places};
ghost use Rattle.strategy_tokens.specs.Tokens.{tokens};

use crate::scan::{Scanned, first_piece};

/// The place of a token in a text.
#[derive(Clone, Copy, Debug, PartialEq, Eq)]
pub struct TokenPlace {
    /// The number of bytes before its first one.
    pub start: usize,
    /// The number of bytes up to its last one.
    pub end: usize,
}

/// The place of the token of this number, counted from 0, if the text has it. It takes no memory.
pub fn token_place(text: &[u8], number: usize) -> Option<TokenPlace>
    ensures value { result ≡ slice_get (places text.now) number }
    ensures none { IfNone result (length (tokens text.now) ≤ number) }
{
    let mut before = number;
    let mut start = 0usize;
    let mut left = text;
    while let Some((first, rest)) = left.split_first() {
        let (piece, more) = first_piece(left, *first, rest);
        let end = start + 1 + more;
        if !matches!(piece, Scanned::White) {
            if before == 0 {
                return Some(TokenPlace { start, end });
            }
            before -= 1;
        }
        start = end;
        left = &rest[more..];
    }
    None
}
