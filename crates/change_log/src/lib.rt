//! Changes of named trees and module texts that can be undone: a store of slots, and logs that hold
//! what was replaced in it.
#![tactic(auto)]

mod compact;
pub mod laws;
mod log;
mod merge;
mod reading;
mod relation;
mod slots;
mod step;
mod store;

pub use log::Log;
pub use reading::{HeldEntry, LogEntries};
#[doc(hidden)]
pub use relation::Relation;
#[doc(hidden)]
pub use slots::Slots;
pub use step::{Changes, PatchedSubterm, Step, Whole};
pub use store::Store;
pub use term_changes::{Entry, Kept, Plan, Replaced, Text};
