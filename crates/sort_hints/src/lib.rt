//! What declarations of sorts say of terms and of strategies: mistakes that have a meaning, and seldom the
//! one that was wanted.
#![tactic(auto)]

mod check;
mod known;
mod patterns;
mod reading;
mod signature;
mod sorts;
mod terms;

pub use check::{Found, SortFault, sort_faults};
pub use known::Known;
pub use signature::{Declared, Signature};
pub use sorts::{EmptySort, Parts, Sort, Sorts};
pub use terms::{TermFault, new_fault};
