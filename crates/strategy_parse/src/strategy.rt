//! Parsing strategies.

ghost use Rattle.std.specs.Prelude.{◌≡◌, ◌↔◌, ◌<◌, length, IfOk, Err};
ghost use Rattle.strategy_syntax.specs.Syntax as syntax;
ghost use Rattle.strategy_parse.specs.Gives.{GivesStrategy};
ghost use Rattle.strategy_tokens.specs.Tokens.{tokens};

use crate::ParseFault;
use crate::parser::read_strategy;
use std::alloc::Global;
use strategy_syntax::Strategy;
use strategy_tokens::{MAX_TOKENS, read_tokens};

/// The strategy that a text is, in its core form.
///
/// Errors: `Deep` if the text has more than 4,000 tokens, which is tested first; `Syntax` if it is
/// no strategy; `Memory` if memory can't grow.
pub fn parse_strategy(alloc: Global, text: &[u8]) -> Result<Strategy, ParseFault>
    ensures deep { (result ≡ Err ParseFault.Deep) ↔ (MAX_TOKENS < length (tokens text.now)) }
    ensures given { IfOk result (λ s. GivesStrategy (tokens text.now) s) }
    ensures only { IfOk result (λ s. (r : syntax.Strategy) → GivesStrategy (tokens text.now) r
        → r ≡ s) }
    ensures no_strategy { result ≡ Err ParseFault.Syntax → (r : syntax.Strategy)
        → GivesStrategy (tokens text.now) r → ⊥ }
{
    let tokens = read_tokens(alloc, text)?;
    let (strategy, left) = read_strategy(alloc, &tokens)?;
    if !left.is_empty() {
        return Err(ParseFault::Syntax);
    }
    Ok(strategy)
}
