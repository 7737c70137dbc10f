//! Terms of the ATerm format: names, terms with children and annotations, and labels.
#![tactic(auto)]

mod kind;
mod label;
mod memory;
mod name;
mod term;

pub use kind::Kind;
pub use label::{Label, LabelFault, MAX_LABEL};
pub use memory::NoMemory;
pub use name::{Name, begins_word, continues_word, is_word};
pub use term::{Term, all_equal};

/// The greatest sum of a level and the height of a term that fits there.
pub const MAX_HEIGHT: u64 = 1000;

/// The room for a term by default: the greatest size of one that fits, a number of terms.
pub const MAX_SIZE: u32 = 100_000;

/// The most room that there can be for a term.
pub const MAX_ROOM: u32 = 1_000_000_000;
