//! The limits that a user can raise.

ghost use Rattle.std.specs.Prelude.{◌≡◌};
ghost use Rattle.session_history.specs.History.{default_limits};

use crate::{MAX_BUDGET, USUAL_TOKENS};
use term_core::MAX_SIZE;

/// How large terms, budgets and modules may be in a session.
#[derive(Clone, Copy)]
pub struct Limits {
    /// The greatest size of a term that is put into a tree or built: a number of terms, at most
    /// 1,000,000,000.
    pub max_terms: u32,
    /// The greatest budget that a command may name: a number of steps.
    pub max_steps: u32,
    /// The greatest number of tokens of a module text. Less than 4,000 count as 4,000, and more than
    /// 65,535 as 65,535. No item of a module may have more than 4,000, whatever this is.
    pub max_tokens: u32,
}

impl Default for Limits {
    ghost is_default = { λ limits. limits ≡ default_limits };

    /// 100,000 terms, 1,000,000 steps and 4,000 tokens.
    fn default() -> Limits {
        Limits {
            max_terms: MAX_SIZE,
            max_steps: MAX_BUDGET,
            max_tokens: USUAL_TOKENS,
        }
    }
}
