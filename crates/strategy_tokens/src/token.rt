//! Tokens.

use term_core::Name;

/// A token.
#[derive(Drop)]
pub enum Token {
    /// An identifier that is no reserved word, as a word.
    Ident(Name),
    /// `_` alone.
    Wildcard,
    /// A reserved word, which is no name.
    Reserved(Keyword),
    /// An integer.
    Integer(i64),
    /// A string, as the quoted name that it spells.
    Text(Name),
    /// A sign.
    Sign(Sign),
    /// A byte that begins no token, an integer out of range, a string with an invalid escape, or a
    /// string or comment that isn't closed. A text with one is no strategy and no module.
    Bad,
}

/// The reserved words.
#[derive(Clone, Copy)]
pub enum Keyword {
    Module,
    Signature,
    Sorts,
    Constructors,
    Rules,
    Strategies,
    Id,
    Fail,
    All,
    One,
    Some,
    Not,
    Where,
    Test,
    If,
    Then,
    Else,
    End,
    Rec,
    Prim,
}

/// The signs.
#[derive(Clone, Copy)]
pub enum Sign {
    /// `(`
    OpenRound,
    /// `)`
    CloseRound,
    /// `[`
    OpenSquare,
    /// `]`
    CloseSquare,
    /// `{`
    OpenCurly,
    /// `}`
    CloseCurly,
    /// `,`
    Comma,
    /// `;`
    Semicolon,
    /// `:`
    Colon,
    /// `|`
    Bar,
    /// `=`
    Equals,
    /// `=>`
    FatArrow,
    /// `->`
    Arrow,
    /// `<`
    Less,
    /// `>`
    Greater,
    /// `<+`
    LeftChoice,
    /// `+`
    Plus,
    /// `*`
    Star,
    /// `?`
    Question,
    /// `!`
    Exclamation,
    /// `@`
    At,
    /// `\`
    Backslash,
}
