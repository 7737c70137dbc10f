//! Names of files in messages.

use std::fmt::{self, Display, Formatter, Write};

/// The name of a file as messages show it: its control characters are escaped, so that none of them
/// reaches a terminal or begins a line.
#[derive(Clone, Copy)]
pub struct Escaped<'a>(pub &'a str);

impl Display for Escaped<'_> {
    fn fmt<W: fmt::Write>(&self, f: &mut Formatter<W>) -> fmt::Result {
        for c in self.0.chars() {
            if c.is_control() {
                write!(f, "{}", c.escape_default())?;
            } else {
                f.write_char(c)?;
            }
        }
        Ok(())
    }
}
