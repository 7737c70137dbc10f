//! What the last step of a session changed, as lines.
#![tactic(auto)]

mod differences;
mod last_step;
pub mod laws;
mod lines;
mod patches;

pub use last_step::diff;
pub use lines::{Side, append_change};
