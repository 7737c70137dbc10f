//! How long the items of a module are.
#![tactic(auto, using(crate::proofs::ScanLemmas::scan_parts))]

ghost use Rattle.std.specs.Prelude.{◌≡◌, ◌≤◌, List, false, is_none, IfSome, IfNone};
ghost use Rattle.strategy_tokens.specs.Items.{items_fit, runs_fit, begins_item, may_end, is_section};
ghost use Rattle.strategy_tokens.specs.Tokens.{tokens, and_token};
ghost use Rattle.strategy_tokens.specs.declared.token.Token.{Token};
ghost use Rattle.strategy_tokens.specs.inside.Pieces.{piece_token, HoldsWord};

use crate::keyword::keyword;
use crate::scan::{Scanned, first_piece};
use crate::{Keyword, MAX_TOKENS, Sign};

/// The number of the first token with which more than 4,000 are in a row in which no item may begin,
/// counted from 0; `None` if no item of a module text is so long. It takes no memory.
pub fn long_item(text: &[u8]) -> Option<usize>
    ensures { is_none result ≡ items_fit (tokens text.now) }
{
    let mut number = 0usize;
    let mut count = 0u64;
    let mut ended = false;
    let mut left = text;
    while let Some((first, rest)) = left.split_first() {
        let (piece, more) = first_piece(left, *first, rest);
        let Some((next, ends)) = after_piece(count, ended, piece) else {
            return Some(number);
        };
        if !is_white(piece) {
            number += 1;
        }
        count = next;
        ended = ends;
        left = &rest[more..];
    }
    None
}

// The tokens in a row without an item after that of the piece, and whether a form may end with it;
// `None` if these are too many.
#[tactic(auto, using(crate::proofs::ItemLemmas::long_run))]
fn after_piece(count: u64, ended: bool, piece: Scanned<'_>) -> Option<(u64, bool)>
    requires word { HoldsWord piece }
    requires count { count ≤ MAX_TOKENS }
    ensures some { IfSome result (λ r. (r.0 ≤ MAX_TOKENS) × ((ts : List Token)
        → runs_fit count ended (and_token (piece_token piece.entry) ts) ≡ runs_fit r.0 r.1 ts)) }
    ensures none { IfNone result ((ts : List Token)
        → runs_fit count ended (and_token (piece_token piece.entry) ts) ≡ false) }
{
    if is_white(piece) {
        return Some((count, ended));
    }
    let ends = may_end(piece);
    if begins_item(ended, piece) {
        return Some((1, ends));
    }
    if count < MAX_TOKENS {
        Some((count + 1, ends))
    } else {
        None
    }
}

fn is_white(piece: Scanned<'_>) -> bool
    ensures { result ≡ is_none (piece_token piece.entry) }
{
    matches!(piece, Scanned::White)
}

// Whether an item may begin with the token of the piece, given whether a form may end before it.
fn begins_item(ended: bool, piece: Scanned<'_>) -> bool
    requires { HoldsWord piece }
    ensures { IfSome (piece_token piece.entry) (λ t. result ≡ begins_item ended t) }
{
    match piece {
        Scanned::Word(bytes) => match keyword(bytes) {
            Some(word) => is_section(word),
            None => ended && bytes != b"_".as_slice(),
        },
        Scanned::White | Scanned::Integer(_) | Scanned::Text(_) | Scanned::Sign(_) | Scanned::Bad =>
            { false }
    }
}

fn is_section(word: Keyword) -> bool
    ensures { result ≡ is_section word }
{
    matches!(
        word,
        Keyword::Signature
            | Keyword::Sorts
            | Keyword::Constructors
            | Keyword::Rules
            | Keyword::Strategies
    )
}

// Whether a form may end with the token of the piece.
fn may_end(piece: Scanned<'_>) -> bool
    requires { HoldsWord piece }
    ensures { IfSome (piece_token piece.entry) (λ t. result ≡ may_end t) }
{
    match piece {
        Scanned::Word(bytes) => match keyword(bytes) {
            Some(word) => matches!(word, Keyword::Id | Keyword::Fail | Keyword::End),
            None => true,
        },
        Scanned::White | Scanned::Integer(_) | Scanned::Text(_) | Scanned::Bad => true,
        Scanned::Sign(sign) => matches!(
            sign,
            Sign::CloseRound | Sign::CloseSquare | Sign::CloseCurly
        ),
    }
}
