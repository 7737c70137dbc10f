//! What is said of runs of strategies: why one failed, and where its steps went.
#![tactic(auto)]

mod about;
mod alternatives;
mod attempts;
mod calls;
mod causes;
mod explain;
mod failing;
mod finding;
mod matching;
mod observing;
mod record;
mod spending;
mod stands;
mod steps;
mod telling;

pub use explain::{explain_nothing, explain_run, profile_run, tree_of};
