//! The tokens of strategy and module texts.
#![tactic(auto)]

mod count;
mod fault;
mod items;
mod keyword;
pub mod laws;
mod make;
mod marks;
mod place;
mod read;
mod scan;
mod string;
mod token;

pub use count::token_count;
pub use fault::TokensFault;
pub use items::long_item;
pub use marks::{is_mark, is_word};
pub use place::{TokenPlace, token_place};
pub use read::{read_module_tokens, read_tokens};
pub use token::{Keyword, Sign, Token};

/// The greatest number of tokens of a text that is read.
pub const MAX_TOKENS: u64 = 4000;

/// The greatest number of tokens of a module text, where more than usual are asked for: as many as
/// the places of forms can count.
pub const MODULE_TOKENS: u64 = 65_535;
