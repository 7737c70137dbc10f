//! How a script is divided into commands.

/// Where a command of a script ends.
#[derive(Clone, Copy, Debug, PartialEq, Eq)]
pub enum Framing {
    /// An empty line, and one that begins with a space or a tab, continues the command before it.
    /// So a command is complete when the next one begins.
    Continued,
    /// Each line is a command, which is complete at its line feed.
    Lines,
}
