//! The lines of a script on which its commands begin.

use script_text::Framing;
use std::alloc::Global;
use std::mem;

// Where in a line the next byte is: at its start, there after carriage returns, or in a line whose
// kind is known.
#[derive(Clone, Copy)]
enum LinePlace {
    Start,
    Returned,
    Inside,
}

// Where a command begins.
#[derive(Clone, Copy)]
struct Begun {
    line: u64,
    blanks: u64,
}

/// Counts the lines of a script as its bytes are consumed.
#[derive(Drop)]
pub struct Numbered {
    framing: Framing,
    place: LinePlace,
    // The line of the next byte, and the blanks of that line before it.
    here: Begun,
    begun: Option<Begun>,
    comments: Vec<u64>,
    complete: Option<Begun>,
    complete_comments: Vec<u64>,
}

impl Numbered {
    /// Before the first byte of a script.
    pub fn new(alloc: Global, framing: Framing) -> Numbered {
        Numbered {
            framing,
            place: LinePlace::Start,
            here: Begun { line: 1, blanks: 0 },
            begun: None,
            comments: Vec::new(alloc),
            complete: None,
            complete_comments: Vec::new(alloc),
        }
    }

    /// Consumes bytes, up to the one that completes a command, or up to the last one that was read.
    pub fn consume(&mut self, bytes: &[u8]) {
        self.complete = None;
        for byte in bytes {
            self.take(*byte);
        }
    }

    /// The line on which the command begins that these bytes completed, or at the end of the script
    /// the last command.
    pub fn line(&self) -> u64 {
        self.complete.or(self.begun).unwrap_or(self.here).line
    }

    /// How many blanks stand on that line before the command.
    pub fn indent(&self) -> u64 {
        match self.complete.or(self.begun) {
            Some(begun) => begun.blanks,
            None => 0,
        }
    }

    /// The comments within that command, each by its line, in order. Its text is without them.
    pub fn comments(&self) -> &[u64] {
        if self.complete.is_some() {
            &self.complete_comments
        } else {
            &self.comments
        }
    }

    fn take(&mut self, byte: u8) {
        let is_continued = self.framing == Framing::Continued;
        match (self.place, byte) {
            (_, b'\n') => self.end_line(),
            (LinePlace::Inside, _) => {}
            (_, b'\r') => self.skip(LinePlace::Returned),
            (LinePlace::Start, b' ' | b'\t') if is_continued => self.place = LinePlace::Inside,
            (_, b' ' | b'\t') if !is_continued => self.skip(LinePlace::Start),
            (LinePlace::Start, b'#') if is_continued => self.comment(),
            (_, b'#') if !is_continued => self.place = LinePlace::Inside,
            _ => self.begin(),
        }
    }

    fn skip(&mut self, place: LinePlace) {
        self.place = place;
        self.here.blanks = self.here.blanks.saturating_add(1);
    }

    // A comment whose line there is no memory for isn't counted.
    fn comment(&mut self) {
        self.place = LinePlace::Inside;
        if self.begun.is_some() {
            let _ = self.comments.push(self.here.line);
        }
    }

    fn begin(&mut self) {
        self.place = LinePlace::Inside;
        if self.begun.is_some() {
            self.finish();
        }
        let mut begun = self.here;
        if self.framing == Framing::Continued {
            begun.blanks = 0;
        }
        self.begun = Some(begun);
    }

    fn finish(&mut self) {
        self.complete = self.begun;
        self.begun = None;
        mem::swap(&mut self.comments, &mut self.complete_comments);
        self.comments.clear();
    }

    fn end_line(&mut self) {
        if self.framing == Framing::Lines && self.begun.is_some() {
            self.finish();
        }
        self.place = LinePlace::Start;
        self.here.line = self.here.line.saturating_add(1);
        self.here.blanks = 0;
    }
}
