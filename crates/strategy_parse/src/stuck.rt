//! Where a text stops being the beginning of a strategy.

ghost use Rattle.std.specs.Prelude.{◌≡◌, ◌↔◌, ◌<◌, ◌≤◌, ◌+◌, length, take, slice_get, IfOk, IfSome, IfNone, Err, Some};
ghost use Rattle.strategy_parse.specs.Stuck.{Begin, StuckAt, BytesBeginNone};
ghost use Rattle.strategy_tokens.specs.Places.{places};
ghost use Rattle.strategy_tokens.specs.Tokens.{tokens};

use crate::parser::first_stuck;
use std::alloc::Global;
use strategy_tokens::{MAX_TOKENS, TokenPlace, TokensFault, read_tokens, token_place};
use term_core::NoMemory;

/// A token with which a text stops being the beginning of a strategy.
#[derive(Clone, Copy, Debug, PartialEq, Eq)]
pub struct Stuck {
    /// Its number, counted from 0.
    pub token: usize,
    /// Its place in the text.
    pub place: TokenPlace,
}

/// The first token with which the text begins no strategy, whatever tokens follow; `None` if the
/// text is a strategy, or more tokens would make one of it.
///
/// Errors: `Deep` if the text has more than 4,000 tokens, which is tested first; `Memory` if memory
/// can't grow.
pub fn stuck_strategy(alloc: Global, text: &[u8]) -> Result<Option<Stuck>, TokensFault>
    ensures deep { (result ≡ Err TokensFault.Deep) ↔ (MAX_TOKENS < length (tokens text.now)) }
    ensures stuck { IfOk result (λ found. IfSome found (λ s. StuckAt (tokens text.now) s.token)) }
    ensures place { IfOk result (λ found. IfSome found (λ s.
        slice_get (places text.now) s.token ≡ Some s.place)) }
    ensures bytes { IfOk result (λ found. IfSome found (λ s. s.place.end + 2 ≤ length text.now
        → BytesBeginNone (take (s.place.end + 2) text.now))) }
    ensures begins { IfOk result (λ found. IfNone found (Begin (tokens text.now))) }
{
    let tokens = read_tokens(alloc, text)?;
    let token = match first_stuck(alloc, &tokens) {
        Ok(Some(token)) => token,
        Ok(None) => return Ok(None),
        Err(NoMemory) => return Err(TokensFault::Memory),
    };
    let Some(place) = token_place(text, token) else {
        unreachable!()
    };
    Ok(Some(Stuck { token, place }))
}
