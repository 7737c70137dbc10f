//! The command line of the program: what its words say.
#![tactic(auto)]

mod escaped;
mod named;
mod words;

pub use escaped::Escaped;
pub use named::{Load, Named};
pub use words::{CommandLine, arguments};
