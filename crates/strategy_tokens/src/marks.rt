//! Tests for signs and reserved words.

ghost use Rattle.std.specs.Prelude.{◌≡◌, ◌==◌};
ghost use Rattle.strategy_tokens.specs.Marks.{is_mark, is_word, sign_code, word_code};

use crate::{Keyword, Sign, Token};

fn sign_number(sign: Sign) -> u8
    ensures { result ≡ sign_code sign }
{
    sign as u8
}

fn word_number(word: Keyword) -> u8
    ensures { result ≡ word_code word }
{
    word as u8
}

/// Whether the token is this sign.
pub fn is_mark(token: &Token, sign: Sign) -> bool
    ensures { result ≡ is_mark sign token.now }
{
    match token {
        Token::Sign(mark) => sign_number(*mark) == sign_number(sign),
        _ => false,
    }
}

/// Whether the token is this reserved word.
pub fn is_word(token: &Token, word: Keyword) -> bool
    ensures { result ≡ is_word word token.now }
{
    match token {
        Token::Reserved(keyword) => word_number(*keyword) == word_number(word),
        _ => false,
    }
}
