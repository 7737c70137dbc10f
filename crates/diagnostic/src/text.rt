//! Diagnostics as text.

use crate::diagnostic::{Diagnostic, LineKind, Severity};
use itoa::Buffer;
use std::alloc::AllocError;

impl Diagnostic {
    /// Appends its lines as text, each with a line feed: first where the command stands, what it was
    /// answered, and the message, and then the others, indented. The first line begins with these words.
    ///
    /// Errors: `AllocError` if memory can't grow.
    pub fn write_text(&self, before: &str, out: &mut Vec<u8>) -> Result<(), AllocError> {
        out.extend_from_slice(before.as_bytes())?;
        match self.file {
            Some(file) => out.extend_from_slice(self.kept_bytes(file))?,
            None => {
                out.extend_from_slice(b"line ")?;
                out.extend_from_slice(Buffer::new().format(self.line).as_bytes())?;
            }
        }
        if self.severity == Severity::Warning {
            out.extend_from_slice(b": warning")?;
        }
        for (number, line) in self.lines.iter().enumerate() {
            let bytes = self.line_bytes(number);
            let separator = match line.kind {
                LineKind::Answer => ": ",
                LineKind::Message if bytes.is_empty() => "",
                LineKind::Message => ": ",
                LineKind::Note | LineKind::Fault | LineKind::Help if bytes.is_empty() => "",
                LineKind::Note | LineKind::Fault | LineKind::Help | LineKind::Excerpt => "\n    ",
            };
            out.extend_from_slice(separator.as_bytes())?;
            if let (LineKind::Message, Some(subject)) = (line.kind, self.subject) {
                out.extend_from_slice(self.kept_bytes(subject))?;
                out.extend_from_slice(b": ")?;
            }
            out.extend_from_slice(bytes)?;
        }
        Ok(out.push(b'\n')?)
    }
}
