//! What is said of a refused command, beside its number and its word: what went wrong, and where.
#![tactic(auto)]

mod constructors;
mod explainer;
mod faults;
mod later;
mod limits;
mod lines;
mod names;
mod sorts;
mod strategies;
mod stuck;
mod texts;
mod trees;
mod variables;
mod warnings;

pub use explainer::explain;
pub use faults::faulty_module;
pub use sorts::{part_before, signature_after, signature_of, warn_of_result};
pub use warnings::{warn, warn_of_end, warn_of_nothing};
