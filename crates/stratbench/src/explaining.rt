//! What is said on standard error while a script is run.

use command_line::{CommandLine, Escaped};
use observing::{Observer, Screen};
use prim_core::Meaning;
use script_core::{Piece, Watch};
use session_core::{Refusal, Session};
use std::alloc::{AllocError, Global};
use std::cell::Cell;
use std::io::Write;

/// Standard error, or what stands for it. What can't be written is left out.
#[derive(Drop)]
pub struct Shown<W> {
    pub stream: W,
}

impl<W: Write> Screen for Shown<W> {
    fn show(&mut self, lines: &[u8]) {
        let _ = self.stream.write_all(lines);
    }
}

/// The name of a file as what is said has it. In JSON it stays as it is, since JSON escapes it.
pub fn shown_name(alloc: Global, line: &CommandLine<'_>, file: &str) -> Result<String, AllocError> {
    if line.explain_json {
        String::from_str(alloc, file)
    } else {
        format!(in alloc; "{}", Escaped(file))
    }
}

/// Has a run observed, and what is said of it shown. With prompts it also notes after each command
/// whether the session has a group open.
#[derive(Drop)]
pub struct Explaining<'a, W> {
    observer: Observer<'a>,
    screen: Shown<W>,
    // Where that is noted, if there are prompts.
    in_group: Option<&'a Cell<bool>>,
}

impl<'a, W: Write> Explaining<'a, W> {
    /// One that shows on this stream what the observer says.
    pub fn new(
        observer: Observer<'a>,
        stream: W,
        in_group: Option<&'a Cell<bool>>,
    ) -> Explaining<'a, W> {
        Explaining {
            observer,
            screen: Shown { stream },
            in_group,
        }
    }

    /// Says what may not be meant at the end of the script.
    pub fn end(&mut self) {
        self.observer.end(&mut self.screen);
    }

    fn note_group<M: Meaning>(&self, session: &Session<M>) {
        if let Some(in_group) = self.in_group {
            in_group.set(session.timeline().in_group());
        }
    }
}

impl<M: Meaning, W: Write> Watch<M> for Explaining<'_, W> {
    fn consumed(&mut self, bytes: &[u8]) {
        self.observer.consumed(bytes);
    }

    fn expected(&mut self, session: &Session<M>, command: Piece<'_>) {
        self.observer.expected(session, command);
    }

    fn accepted(&mut self, session: &Session<M>, command: Piece<'_>) {
        self.observer.accepted(session, command, &mut self.screen);
        self.note_group(session);
    }

    fn refused(&mut self, session: &Session<M>, command: Piece<'_>, refusal: &Refusal) {
        self.observer
            .refused(session, command, refusal, &mut self.screen);
        self.note_group(session);
    }
}
