//! Names in strategies: which binder one stands for, and which variables are free.
#![tactic(auto)]

mod binders;
mod free;

pub use binders::Binders;
pub use free::{free_names, free_variables, rule_names};
