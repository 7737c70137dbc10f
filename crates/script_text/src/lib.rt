//! Scripts as text: commands are cut out of bytes and read, and streams bring the bytes and take
//! the answers.
#![tactic(auto)]

mod command;
mod framing;
mod keyword;
mod pending;
mod sink;
mod source;
mod splitter;
mod write;

pub use command::{Budgets, Command, read_name_and_text, read_path_and_text, split_keyword};
pub use framing::Framing;
pub use keyword::Keyword;
pub use sink::{Held, Sink};
pub use source::{Bytes, Counted, Failed, Source};
pub use splitter::{Fed, Piece, Splitter};
pub use write::write_whole;

/// The most bytes of a command.
pub const MAX_COMMAND: usize = 65_536;
