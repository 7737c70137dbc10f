//! Scripts: commands are split off the bytes as they arrive, and each is answered when it is
//! complete.
#![tactic(auto)]

mod answer;
mod buffer;
mod exit_status;
pub mod laws;
mod lines;
mod preview;
mod refusing;
mod running;
mod watch;

pub use answer::{answer_text, answer_watched};
pub use buffer::{ANSWER_ROOM, Answer};
pub use exit_status::status;
pub use running::{MAX_READS, PIECE, RunFault, Settings, Summary, run, run_watched};
pub use script_text::{
    Bytes, Command, Counted, Failed, Fed, Framing, Held, MAX_COMMAND, Piece, Sink, Source, Splitter,
};
pub use watch::{Unwatched, Watch};
