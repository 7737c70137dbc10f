//! Parsing strategies and modules.
#![tactic(auto)]

mod fault;
pub mod laws;
mod modules;
mod parser;
mod stands;
mod strategy;
mod stuck;

pub use fault::ParseFault;
pub use modules::{DefinitionTokens, StuckModule, definition_tokens, parse_module, stuck_module};
pub use stands::{
    bytes_of, declaration_stands_at, definition_stands_at, pattern_stands_at, stands_at,
};
pub use strategy::parse_strategy;
pub use strategy_tokens::{MAX_TOKENS, MODULE_TOKENS, token_count};
pub use stuck::{Stuck, stuck_strategy};
