//! Reading the tokens of a text.

ghost use Rattle.std.specs.Prelude.{◌≡◌, ◌↔◌, ◌<◌, ◌≤◌, ◌+◌, ◌++◌, [], length, IfOk, Err};
ghost use Rattle.strategy_tokens.specs.Items.{module_tokens};
ghost use Rattle.strategy_tokens.specs.Tokens.{tokens, and_token};
ghost use Rattle.strategy_tokens.specs.inside.Pieces.{piece_token, HoldsWord};

use crate::make::make_token;
use crate::scan::{Scanned, first_piece};
use crate::{MAX_TOKENS, MODULE_TOKENS, Token, TokensFault, long_item, token_count};
use std::alloc::Global;
use term_core::NoMemory;

/// The tokens of the text, bad ones included, in one pass.
///
/// Errors: `Deep` if there are more than 4,000 tokens; `Memory` if memory can't grow and there are
/// no more than that.
pub fn read_tokens(alloc: Global, text: &[u8]) -> Result<Vec<Token>, TokensFault>
    ensures deep { (result ≡ Err TokensFault.Deep) ↔ (MAX_TOKENS < length (tokens text.now)) }
    ensures tokens { IfOk result (λ found. found.items ≡ tokens text.now) }
{
    read_up_to(alloc, text, MAX_TOKENS)
}

/// The tokens of a module text. It may have `most`, which counts as 4,000 where it is less, and as
/// 65,535 where it is more; none of its items may have more than 4,000.
///
/// Errors: `Deep` if there are more than that; `Memory` if memory can't grow and there are no more
/// than that.
pub fn read_module_tokens(alloc: Global, text: &[u8], most: u64) -> Result<Vec<Token>, TokensFault>
    ensures deep { (result ≡ Err TokensFault.Deep)
        ↔ (module_tokens most (tokens text.now) < length (tokens text.now)) }
    ensures tokens { IfOk result (λ found. found.items ≡ tokens text.now) }
{
    match read_up_to(alloc, text, most.clamp(MAX_TOKENS, MODULE_TOKENS)) {
        Ok(found) => {
            if found.len() as u64 > MAX_TOKENS && long_item(text).is_some() {
                return Err(TokensFault::Deep);
            }
            Ok(found)
        }
        Err(fault) => match long_item(text) {
            None => Err(fault),
            Some(_) => Err(TokensFault::Deep),
        },
    }
}

// The tokens of the text, if there are at most so many.
fn read_up_to(alloc: Global, text: &[u8], most: u64) -> Result<Vec<Token>, TokensFault>
    ensures deep { (result ≡ Err TokensFault.Deep) ↔ (most < length (tokens text.now)) }
    ensures tokens { IfOk result (λ found. found.items ≡ tokens text.now) }
{
    let mut found = Vec::new(alloc);
    let mut left = text;
    while let Some((first, rest)) = left.split_first() {
        let (piece, more) = first_piece(left, *first, rest);
        let count = found.len() as u64;
        if let Err(NoMemory) = add_token(alloc, &mut found, piece) {
            return Err(refused(count, left, most));
        }
        if found.len() as u64 > most {
            return Err(TokensFault::Deep);
        }
        left = &rest[more..];
    }
    Ok(found)
}

// Appends the token of the piece, unless it is white space.
fn add_token(alloc: Global, found: &mut Vec<Token>, piece: Scanned<'_>) -> Result<(), NoMemory>
    requires { HoldsWord piece }
    ensures { IfOk result (λ _. found.new.items
        ≡ found.old.items ++ and_token (piece_token piece.entry) []) }
{
    if let Some(token) = make_token(alloc, piece)? {
        found.push(token)?;
    }
    Ok(())
}

// The fault to return if memory ran out after `count` tokens: `Deep` takes precedence.
fn refused(count: u64, left: &[u8], most: u64) -> TokensFault
    requires { count ≤ most }
    ensures deep { (result ≡ TokensFault.Deep) ↔ (most < count + length (tokens left.now)) }
{
    if token_count(left) > most - count {
        TokensFault::Deep
    } else {
        TokensFault::Memory
    }
}
