//! Why the tokens of a text weren't read.

use thiserror::Error;

/// Why the tokens of a text weren't read.
#[derive(Clone, Copy, Debug, PartialEq, Eq, Error)]
pub enum TokensFault {
    /// The text has too many tokens.
    #[error("deep")]
    Deep,
    /// Memory couldn't grow.
    #[error("memory")]
    Memory,
}
