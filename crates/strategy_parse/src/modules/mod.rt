//! Parsing modules: sections of sorts, declarations of constructors, and definitions. Their nesting
//! is bounded, so each has a function that reads it from the start of the tokens; the bodies of
//! definitions are left to the machine that parses strategies.

mod declarations;
mod definitions;
mod headers;
mod items;
mod parse;
mod place;
mod rules;
mod sections;
mod sort_stack;
mod sorts;
mod stuck;
mod tokens;

pub use declarations::{Declared, read_declaration};
pub use definitions::read_definition;
pub use items::{DefinitionTokens, definition_tokens};
pub use parse::parse_module;
pub use stuck::{StuckModule, stuck_module};
