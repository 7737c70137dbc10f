//! Sorts: which terms are of which sort, by what signatures declare.
#![tactic(auto)]

mod conforming;
mod declaration;
mod injecting;
pub mod laws;
mod numbers;
mod signature;
mod sort;
mod table;
mod taking;
mod wanted;
mod words;

pub use declaration::{Declaration, Injection};
pub use signature::Signature;
pub use sort::Sort;
pub use wanted::Wanted;
