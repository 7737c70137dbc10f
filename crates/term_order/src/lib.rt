//! A total order on terms, and tables by it: maps from terms to terms, which are terms themselves.
#![tactic(auto)]

pub mod laws;
pub mod order;
mod shape;
pub mod tables;

pub use order::compare;
pub use tables::{keys, put, removed, value_at};
