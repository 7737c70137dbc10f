//! Why a text wasn't parsed.

use strategy_tokens::TokensFault;
use thiserror::Error;

/// Why a text wasn't parsed.
#[derive(Clone, Copy, Debug, PartialEq, Eq, Error)]
pub enum ParseFault {
    /// The text has too many tokens.
    #[error("deep")]
    Deep,
    /// The text is no strategy, or no module.
    #[error("syntax")]
    Syntax,
    /// Memory couldn't grow.
    #[error("memory")]
    Memory,
}

impl From<TokensFault> for ParseFault {
    ghost use Rattle.std.specs.Prelude.{◌≡◌};
    ghost use Rattle.strategy_parse.specs.Faults.{unread_fault};

    ghost from_gives = { λ fault e. e ≡ unread_fault fault };

    fn from(fault: TokensFault) -> ParseFault {
        match fault {
            TokensFault::Deep => ParseFault::Deep,
            TokensFault::Memory => ParseFault::Memory,
        }
    }
}
