//! Places in texts.

ghost use Rattle.std.specs.Prelude.{◌≤◌, ◌<◌, ◌≡◌, length, IfSome};

use crate::characters::{count_characters, place_of};

/// A run of bytes in a text, at least one: that of a place, which can be underlined. Only `within` makes
/// one.
#[derive(Clone, Copy)]
pub struct Span {
    /// The number of bytes before it.
    pub(crate) start: usize,
    /// The number of bytes before its end.
    pub(crate) end: usize,
}

impl Span {
    /// The bytes of the text from one place to before another, or to the end of the text; `None` if
    /// there are none.
    pub fn within(text: &[u8], start: usize, end: usize) -> Option<Span>
        ensures within { IfSome result (λ span. (span.start < span.end) × (span.end ≤ length text.now)) }
        ensures start { IfSome result (λ span. span.start ≡ start) }
    {
        let end = end.min(text.len());
        if start < end {
            Some(Span { start, end })
        } else {
            None
        }
    }
}

/// The text that a place is in.
#[derive(Clone, Copy)]
pub enum Source<'a> {
    /// What the command has after its form: a term, annotations, a module or a strategy; of a file
    /// that is loaded its text.
    Command,
    /// The text of the module of this name, which was loaded before.
    Module(&'a [u8]),
}

/// A place: the bytes of its text, unless it is at the end, and its line and column as somebody reads
/// them who looks at the script, the file or the module. Both are counted from 1, a column in
/// characters.
#[derive(Clone, Copy)]
pub struct Spot<'a> {
    pub source: Source<'a>,
    pub span: Option<Span>,
    pub line: u64,
    pub column: u64,
}

impl<'a> Spot<'a> {
    /// The place of these bytes of the text of a module.
    pub fn in_module(name: &'a [u8], text: &[u8], start: usize, end: usize) -> Spot<'a> {
        let place = place_of(text, 1, start);
        Spot {
            source: Source::Module(name),
            span: Span::within(text, start, end),
            line: place.line,
            column: count_characters(place.before).saturating_add(1),
        }
    }
}
