//! The meaning of strategies: definitions, and laws over them. There is no code to run here.
#![tactic(auto)]

pub mod laws;
