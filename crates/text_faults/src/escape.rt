//! Escapes between quotes, byte by byte.

/// How much of an escape was read.
#[derive(Clone, Copy, PartialEq, Eq)]
pub enum Escape {
    /// A backslash.
    Begun,
    /// A backslash and one of its three octal digits.
    First,
    /// A backslash and two of its three octal digits.
    Second,
}

/// The effect of a byte in an escape.
#[derive(Clone, Copy, PartialEq, Eq)]
pub enum Escaped {
    /// More of it has to come.
    More(Escape),
    /// It is whole.
    Whole,
    /// There is no such escape.
    Wrong,
}

/// Reads one byte of an escape.
pub fn read_escape(read: Escape, byte: u8) -> Escaped {
    match read {
        Escape::Begun => match byte {
            b'"' | b'\\' | b'n' | b't' | b'r' => Escaped::Whole,
            b'0'..=b'3' => Escaped::More(Escape::First),
            _ => Escaped::Wrong,
        },
        Escape::First => match byte {
            b'0'..=b'7' => Escaped::More(Escape::Second),
            _ => Escaped::Wrong,
        },
        Escape::Second => match byte {
            b'0'..=b'7' => Escaped::Whole,
            _ => Escaped::Wrong,
        },
    }
}
