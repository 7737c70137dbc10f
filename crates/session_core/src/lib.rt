//! Sessions: named trees and modules, in which every accepted change can be undone and redone.
#![tactic(auto)]

mod applying;
pub mod laws;
mod planning;
mod preview;
mod resolving;
mod session;

pub use preview::{Places, Preview};
pub use session::Session;
pub use session_history::{Limits, MAX_BUDGET, Refusal};
pub use strategy_run::Stop;
