//! The observer of runs: it sees the commands of a script and how they are answered, and says why they
//! are refused, what may be a mistake, and where steps went.
#![tactic(auto)]

mod observer;
mod screen;

pub use observer::{LoadedText, Observer, Wanted, faulty_module};
pub use screen::{Form, Screen};
