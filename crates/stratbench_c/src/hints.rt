//! What is said of refused commands and of accepted ones, where a caller wants to hear it.

ghost use Rattle.std.specs.Prelude.{◌≡◌, []};
ghost use Rattle.stratbench_c.specs.Runs.{AreCopied};

use crate::answers::copy_both;
use observing::{Form, LoadedText, Observer, Screen, Wanted};
use prim_core::Meaning;
use script_core::{Framing, Piece, Settings, Watch};
use session_core::{MAX_BUDGET, Refusal, Session};
use session_loading::LIBRARY;
use std::alloc::Global;
use std::marker::Model;

/// What was said of the last call: lines on each refusal, and on what an accepted command may not
/// be meant to say. Lines that memory can't grow for are left out.
#[derive(Drop)]
pub struct Hints {
    text: Held,
    observer: Observer<'static>,
}

// Lines that are kept.
#[derive(Drop)]
struct Held {
    text: Vec<u8>,
}

impl Screen for Held {
    fn show(&mut self, lines: &[u8]) {
        let _ = self.text.extend_from_slice(lines);
    }
}

impl Model for Hints {
    ghost use Rattle.std.specs.Prelude.{ℕ, List};

    ghost Value = { List ℕ };

    ghost view = { λ hints. hints.text.text.items };
}

// How a script is read unless a call says so.
fn usual() -> Settings {
    Settings {
        steps: MAX_BUDGET,
        stop: false,
        framing: Framing::Continued,
    }
}

// In which form what is wanted is said: not at all, as text or as JSON.
fn wanted(explains: bool, form: Form) -> Wanted {
    Wanted {
        explanations: explains,
        profiles: false,
        form,
    }
}

impl Hints {
    /// Nothing is said, until that is wanted.
    pub fn new(alloc: Global) -> Hints
        ensures { result ≡ [] }
    {
        Hints {
            text: Held {
                text: Vec::new(alloc),
            },
            observer: Observer::new(alloc, usual(), wanted(false, Form::Text("")), Some(LIBRARY)),
        }
    }

    /// Sets whether anything is said of the calls that follow, and whether as JSON.
    pub fn explain(&mut self, explains: bool, as_json: bool) {
        let form = if as_json { Form::Json } else { Form::Text("") };
        self.observer.want(wanted(explains, form));
    }

    /// Whether the library was loaded.
    pub fn add_library(&mut self, outcome: &Result<(), Refusal>) {
        if outcome.is_ok() {
            self.observer.add_library();
        }
    }

    /// Begins a call that isn't a script. Nothing is said of it so far.
    pub fn clear(&mut self) {
        self.text.text.clear();
    }

    /// How long it is what was said so far.
    pub fn len(&self) -> usize {
        self.text.text.len()
    }

    /// Takes back what was said since then.
    pub fn take_back_to(&mut self, len: usize) {
        self.text.text.truncate(len);
    }

    /// Begins a script. `steps` is the budget of a command that names none.
    pub fn begin(&mut self, framing: Framing, steps: u32) {
        self.clear();
        self.observer.begin(Settings {
            steps,
            stop: false,
            framing,
        });
    }

    /// Is lent the bytes of a script, up to the one that completes a command, or up to the last
    /// one.
    pub fn consume(&mut self, bytes: &[u8]) {
        if self.observer.wanted().explanations {
            self.observer.consumed(bytes);
        }
    }

    /// Is lent a text after it was loaded under a name, or refused, and the session then. `word` is
    /// the command that would load it.
    pub fn loaded<M: Meaning>(
        &mut self,
        session: &Session<M>,
        word: &'static str,
        name: &[u8],
        text: &[u8],
        outcome: &Result<(), Refusal>,
    ) {
        let loaded = LoadedText {
            word,
            name,
            file: str::from_utf8(name).unwrap_or("text"),
            text,
        };
        match outcome {
            Ok(()) => self.observer.loaded(session, loaded, &mut self.text),
            Err(refusal) => {
                let _ = self
                    .observer
                    .load_refused(session, loaded, refusal, &mut self.text);
            }
        }
    }

    /// Copies what was said to the start of `out` if there is room for it, and returns its length.
    pub fn copy_to(&self, out: &mut [u8]) -> usize
        ensures { AreCopied self.now out.old out.new result }
    {
        copy_both(&[], &self.text.text, out)
    }
}

impl<M: Meaning> Watch<M> for Hints {
    fn consumed(&mut self, bytes: &[u8]) {
        self.consume(bytes);
    }

    fn expected(&mut self, session: &Session<M>, command: Piece<'_>) {
        if self.observer.wanted().explanations {
            self.observer.expected(session, command);
        }
    }

    fn accepted(&mut self, session: &Session<M>, command: Piece<'_>) {
        if self.observer.wanted().explanations {
            self.observer.accepted(session, command, &mut self.text);
        }
    }

    fn refused(&mut self, session: &Session<M>, command: Piece<'_>, refusal: &Refusal) {
        if self.observer.wanted().explanations {
            self.observer
                .refused(session, command, refusal, &mut self.text);
        }
    }
}
