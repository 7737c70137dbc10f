//! The library, and modules and trees as files have them, each loaded as a step of a session.
#![tactic(auto)]

pub mod laws;
mod library;
mod loading;
mod module_text;

pub use library::{LIBRARY, LIBRARY_NAME, load_library};
pub use loading::{load_module, load_tree};
