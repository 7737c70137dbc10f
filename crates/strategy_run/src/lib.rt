//! Strategies run to their end: on a term, and on a subterm of a tree of a store.
#![tactic(auto)]

mod application;
mod ended;
mod evaluation;
mod in_place;
pub mod laws;
mod looking;
mod planning;
mod stopping;

pub use application::{Outcome, apply, is_low_enough};
pub use ended::Ended;
pub use evaluation::{Evaluated, evaluate};
pub use looking::{Look, plan_patch_seen};
pub use planning::{Planned, plan_patch};
pub use stopping::{Stop, plan_patch_until};
pub use strategy_machine::Host;
