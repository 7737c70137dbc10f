//! The steps of a session: changes of named trees and modules. Each step holds what it replaced, so
//! that it can be undone and redone.
#![tactic(auto)]

mod acts;
mod dump;
mod finding;
mod limits;
mod modules;
mod timeline;

pub use acts::Found;
pub use limits::Limits;
pub use session_modules::{CheckedTexts, ModuleCache, ReadModule, Refusal, read_module};
pub use timeline::{OpenGroup, Timeline};

/// The most steps of one `undo` or `redo`.
pub const MAX_STEPS: u32 = 1_000_000;

/// The greatest budget of a command by default: the steps that its strategy may take.
pub const MAX_BUDGET: u32 = 1_000_000;

/// The most that [`Limits::max_steps`] can be on a command line.
pub const MOST_STEPS: u32 = 4_000_000_000;

/// The tokens that a module may have by default, and the fewest that [`Limits::max_tokens`] can be on
/// a command line.
pub const USUAL_TOKENS: u32 = 4_000;

/// The most that [`Limits::max_tokens`] can be on a command line.
pub const MOST_TOKENS: u32 = 65_535;
