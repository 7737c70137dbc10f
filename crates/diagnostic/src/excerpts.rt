//! Lines of a text with a `^` below a place, and quotations.

ghost use Rattle.std.specs.Prelude.{◌≡◌};

use crate::characters::{count_characters, first_characters, last_characters, place_of};
use crate::diagnostic::{Diagnostic, LineKind};

/// The most bytes of a command that are quoted in a line.
pub const QUOTED: usize = 60;

// The most bytes of a line that are shown, and those of them before the place.
const SHOWN: usize = 72;

const BEFORE: usize = 48;

// What stands where a line is cut.
const CUT: &str = "..";

impl Diagnostic {
    pub(crate) fn quote(&mut self, bytes: &[u8])
        ensures { (self.new.severity ≡ self.old.severity) × (self.new.code ≡ self.old.code) }
    {
        self.words("`");
        self.shown(first_characters(bytes, QUOTED));
        self.words(if bytes.len() > QUOTED { "..`" } else { "`" });
    }

    // Begins a quotation. Returns the number of bytes before what is quoted.
    pub(crate) fn open(&mut self) -> usize
        ensures { (self.new.severity ≡ self.old.severity) × (self.new.code ≡ self.old.code) }
    {
        self.words("`");
        self.text.len()
    }

    // Ends the quotation of what is after so many bytes: of at most 60 bytes, on one line.
    pub(crate) fn close(&mut self, start: usize)
        ensures { (self.new.severity ≡ self.old.severity) × (self.new.code ≡ self.old.code) }
    {
        let length = self.text.len();
        let end = quoted_end(&self.text, start);
        self.text.truncate(end);
        let is_cut = end < length;
        for number in start..self.text.len() {
            if let Some(byte) = self.text.get_mut(number) {
                *byte = (*byte).max(b' ');
            }
        }
        self.words(if is_cut { "..`" } else { "`" });
    }

    // Appends these bytes, with a blank for each control character.
    fn shown(&mut self, bytes: &[u8])
        ensures { (self.new.severity ≡ self.old.severity) × (self.new.code ≡ self.old.code) }
    {
        for byte in bytes {
            let refused = self.text.push((*byte).max(b' ')).is_err();
            self.note_refused(refused);
        }
    }

    /// Adds the line of the place after so many bytes of a text, and below it one with a `^` under the
    /// place.
    pub fn show(&mut self, text: &[u8], at: usize)
        ensures { (self.new.severity ≡ self.old.severity) × (self.new.code ≡ self.old.code) }
    {
        let place = place_of(text, 1, at);
        let before = shown_before(place.before, place.after);
        let is_cut = before.len() < place.before.len();
        self.begin(LineKind::Excerpt);
        self.words(if is_cut { CUT } else { "" });
        self.shown(before);
        self.show_after(place.after, SHOWN.saturating_sub(before.len()));
        self.begin(LineKind::Excerpt);
        self.words(if is_cut { "  " } else { "" });
        for _ in 0..count_characters(before) {
            self.words(" ");
        }
        self.words("^");
    }

    // Nothing is cut where the sign of the cut is as long.
    fn show_after(&mut self, after: &[u8], most: usize)
        ensures { (self.new.severity ≡ self.old.severity) × (self.new.code ≡ self.old.code) }
    {
        if after.len() <= most.saturating_add(CUT.len()) {
            self.shown(after);
        } else {
            self.shown(first_characters(after, most));
            self.words(CUT);
        }
    }
}

// Where a quotation of what a text has after so many bytes ends.
fn quoted_end(text: &[u8], start: usize) -> usize {
    match text.get(start..) {
        Some(quoted) => start.saturating_add(first_characters(quoted, QUOTED).len()),
        None => text.len(),
    }
}

// What is shown of a line before the place.
fn shown_before<'a>(before: &'a [u8], after: &[u8]) -> &'a [u8] {
    let all = before.len().saturating_add(after.len());
    if all <= SHOWN.saturating_add(CUT.len()) || before.len() <= BEFORE.saturating_add(CUT.len()) {
        return before;
    }
    last_characters(before, BEFORE)
}
