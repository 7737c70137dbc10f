//! Reserved words.

ghost use Rattle.std.specs.Prelude.{◌≡◌};
ghost use Rattle.std.specs.Str.{bytes_eq};
ghost use Rattle.strategy_tokens.specs.Tokens.{keyword_of, found_in, strategy_keywords};

use crate::Keyword;

/// The reserved word of these bytes, if they are one.
pub fn keyword(word: &[u8]) -> Option<Keyword>
    ensures { result ≡ keyword_of word.now }
{
    if word == b"module".as_slice() {
        Some(Keyword::Module)
    } else if word == b"signature".as_slice() {
        Some(Keyword::Signature)
    } else if word == b"sorts".as_slice() {
        Some(Keyword::Sorts)
    } else if word == b"constructors".as_slice() {
        Some(Keyword::Constructors)
    } else if word == b"rules".as_slice() {
        Some(Keyword::Rules)
    } else if word == b"strategies".as_slice() {
        Some(Keyword::Strategies)
    } else {
        strategy_keyword(word)
    }
}

fn strategy_keyword(word: &[u8]) -> Option<Keyword>
    ensures { result ≡ found_in bytes_eq strategy_keywords word.now }
{
    if word == b"id".as_slice() {
        Some(Keyword::Id)
    } else if word == b"fail".as_slice() {
        Some(Keyword::Fail)
    } else if word == b"all".as_slice() {
        Some(Keyword::All)
    } else if word == b"one".as_slice() {
        Some(Keyword::One)
    } else if word == b"some".as_slice() {
        Some(Keyword::Some)
    } else if word == b"not".as_slice() {
        Some(Keyword::Not)
    } else if word == b"where".as_slice() {
        Some(Keyword::Where)
    } else if word == b"test".as_slice() {
        Some(Keyword::Test)
    } else if word == b"if".as_slice() {
        Some(Keyword::If)
    } else if word == b"then".as_slice() {
        Some(Keyword::Then)
    } else if word == b"else".as_slice() {
        Some(Keyword::Else)
    } else if word == b"end".as_slice() {
        Some(Keyword::End)
    } else if word == b"rec".as_slice() {
        Some(Keyword::Rec)
    } else if word == b"prim".as_slice() {
        Some(Keyword::Prim)
    } else {
        None
    }
}
