//! What is said of a command: sentences with the places that they speak of, as data, and the two
//! forms in which that is written, text and JSON.
#![tactic(auto)]

mod characters;
mod diagnostic;
mod excerpts;
mod json;
mod printing;
mod sentences;
mod span;
mod text;

pub use characters::{
    begins_with_mark, character_at, count_characters, first_characters, last_characters, place_of,
};
pub use diagnostic::{Code, Diagnostic, Origin, Report, Severity};
pub use excerpts::QUOTED;
pub use printing::DEEPEST;
pub use sentences::Fill;
pub use span::{Source, Span, Spot};
