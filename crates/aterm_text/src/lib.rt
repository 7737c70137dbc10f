//! Terms as text: reading and printing the textual ATerm format.
#![tactic(auto)]

mod brackets;
mod escapes;
pub mod laws;
mod layout;
mod printer;
mod reader;
mod room;

pub use brackets::nesting;
pub use escapes::{octal_byte, short_escape};
pub use layout::{LINE_WIDTH, pretty};
pub use printer::{print, print_name};
pub use reader::{ReadFault, after_blanks, after_byte, is_blank, read, read_annotations};

/// The greatest number of brackets that may be open at one place of a text.
pub const MAX_NESTING: u64 = 1000;
