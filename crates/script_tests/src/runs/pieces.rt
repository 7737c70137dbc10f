//! Whatever the pieces in which a script is read, its answers, the numbers of its commands, and the
//! lines on which these begin are the same.

use super::devices::{Reader, UNDISTURBED};
use super::{Outcome, ends, new_session, settings};
use hint_text::Numbered;
use prim_core::NoPrimitives;
use script_core::{Counted, Framing, Held, Piece, Watch, run_watched};
use session_core::{Refusal, Session};
use std::alloc::Global;
use std::test::Fail;

// Keeps of each command its line, the blanks before it, and the lines of the comments in it.
#[derive(Drop)]
struct Lines {
    numbered: Numbered,
    found: Vec<u64>,
}

impl Lines {
    // A number that finds no memory is missed by the test.
    fn keep(&mut self, number: u64) {
        let _ = self.found.push(number);
    }

    fn keep_command(&mut self) {
        let (line, indent) = (self.numbered.line(), self.numbered.indent());
        self.keep(line);
        self.keep(indent);
        for place in 0..self.comment_count() {
            let comment = self.comment(place);
            self.keep(comment);
        }
    }

    fn comment_count(&self) -> usize {
        self.numbered.comments().len()
    }

    fn comment(&self, place: usize) -> u64 {
        match self.numbered.comments().get(place) {
            Some(line) => *line,
            None => 0,
        }
    }
}

impl Watch<NoPrimitives> for Lines {
    fn consumed(&mut self, bytes: &[u8]) {
        self.numbered.consume(bytes);
    }

    fn expected(&mut self, _session: &Session<NoPrimitives>, _command: Piece<'_>) {}

    fn accepted(&mut self, _session: &Session<NoPrimitives>, _command: Piece<'_>) {
        self.keep_command();
    }

    fn refused(
        &mut self,
        _session: &Session<NoPrimitives>,
        _command: Piece<'_>,
        _refusal: &Refusal,
    ) {
        self.keep_command();
    }
}

// A script, and what a run of it gives.
#[derive(Clone, Copy)]
struct Script<'a> {
    text: &'a [u8],
    framing: Framing,
    answers: &'a [u8],
    ended: Outcome,
    lines: &'a [u64],
}

fn goes_in_pieces(alloc: Global, script: Script<'_>, most: usize) -> Result<bool, Fail> {
    let mut session = new_session(alloc)?;
    let mut source = Counted::new(Reader {
        rest: script.text,
        most,
        fails: false,
        turns: UNDISTURBED,
    });
    let mut sink = Held::new(alloc);
    let mut lines = Lines {
        numbered: Numbered::new(alloc, script.framing),
        found: Vec::new(alloc),
    };
    let settings = settings(script.framing, false);
    let ended = run_watched(
        alloc,
        &mut session,
        &mut source,
        &mut sink,
        &mut lines,
        settings,
    );
    Ok(
        ended == script.ended
            && sink.bytes() == script.answers
            && lines.found.as_slice() == script.lines,
    )
}

// Every kind of boundary between commands: CR LF, lines that go on, an empty one, comments between
// the lines of a command and after it, a line that begins with a CR, and an end without LF.
#[test]
fn answers_in_pieces(rt: HostRuntime) -> Result<(), Fail> {
    let script = Script {
        text: b"tree t f(\r\n# a\n\n  a)\r\r\n#b\nshow t\r\n\r#\ntrees\n\rshow t\nundo",
        framing: Framing::Continued,
        answers: b"ok\nf(a)\nrefused 2 line\ntrees t\nf(a)\nok\n",
        ended: ends(5, 1),
        lines: &[1, 0, 2, 5, 6, 0, 7, 0, 8, 0, 9, 0, 10, 0],
    };
    for most in [1, 2, 4096] {
        assert!(rt; goes_in_pieces(rt.alloc(), script, most)?, "{most}");
    }
    Ok(())
}

// Boundaries where each line is a command: blanks in front, empty lines and comments.
#[test]
fn answers_lines_in_pieces(rt: HostRuntime) -> Result<(), Fail> {
    let script = Script {
        text: b"\n  tree t f(\n a)\n# a\n\t # b\n\r\n\ttree t a\r\r\n\rshow t",
        framing: Framing::Lines,
        answers: b"refused 7 term\nrefused 2 line\nok\na\n",
        ended: ends(2, 2),
        lines: &[2, 2, 3, 1, 7, 1, 8, 1],
    };
    for most in [1, 2, 4096] {
        assert!(rt; goes_in_pieces(rt.alloc(), script, most)?, "{most}");
    }
    Ok(())
}
