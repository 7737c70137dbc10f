//! Counting the tokens of a text.
#![tactic(auto, using(crate::proofs::ScanLemmas::scan_parts))]

ghost use Rattle.std.specs.Prelude.{◌≡◌, ◌≤◌, length};
ghost use Rattle.strategy_tokens.specs.Tokens.{tokens};

use crate::scan::{Scanned, first_piece};

/// The number of tokens of the text, bad ones included. It takes no memory.
pub fn token_count(text: &[u8]) -> u64
    ensures { result ≡ length (tokens text.now) }
{
    let mut count = 0u64;
    let mut left = text;
    while let Some((first, rest)) = left.split_first() {
        let (piece, more) = first_piece(left, *first, rest);
        if !matches!(piece, Scanned::White) {
            count += 1;
        }
        left = &rest[more..];
    }
    count
}
