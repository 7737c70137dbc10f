//! The tokens that pieces of a text stand for.

ghost use Rattle.std.specs.Prelude.{◌≡◌, IsTrue, IfOk, Some};
ghost use Rattle.term_core.specs.Word.{is_word};
ghost use Rattle.strategy_tokens.specs.Tokens.{ident_token, text_or_bad, unescaped};
ghost use Rattle.strategy_tokens.specs.inside.Pieces.{piece_token, HoldsWord};

use crate::Token;
use crate::keyword::keyword;
use crate::scan::Scanned;
use crate::string::{run_length, unescape};
use std::alloc::Global;
use term_core::{Name, NoMemory};

/// The token of a piece, or `None` for white space.
pub fn make_token(alloc: Global, piece: Scanned<'_>) -> Result<Option<Token>, NoMemory>
    requires { HoldsWord piece }
    ensures { IfOk result (λ made. made ≡ piece_token piece.entry) }
{
    match piece {
        Scanned::White => Ok(None),
        Scanned::Word(bytes) => Ok(Some(make_ident(alloc, bytes)?)),
        Scanned::Integer(value) => Ok(Some(Token::Integer(value))),
        Scanned::Text(items) => Ok(Some(make_text(alloc, items)?)),
        Scanned::Sign(sign) => Ok(Some(Token::Sign(sign))),
        Scanned::Bad => Ok(Some(Token::Bad)),
    }
}

// The token of an identifier: a reserved word, `_` or a name.
fn make_ident(alloc: Global, bytes: &[u8]) -> Result<Token, NoMemory>
    requires { IsTrue (is_word bytes.now) }
    ensures { IfOk result (λ made. made ≡ ident_token bytes.now) }
{
    if bytes == b"_".as_slice() {
        return Ok(Token::Wildcard);
    }
    if let Some(word) = keyword(bytes) {
        return Ok(Token::Reserved(word));
    }
    let Some(name) = Name::word(alloc, bytes)? else {
        unreachable!();
    };
    Ok(Token::Ident(name))
}

// The token of a string, given what is between its quotes.
fn make_text(alloc: Global, items: &[u8]) -> Result<Token, NoMemory>
    ensures { IfOk result (λ made. made ≡ text_or_bad (unescaped items.now)) }
{
    if run_length(items) == items.len() {
        return Ok(Token::Text(Name::quoted(alloc, items)?));
    }
    match unescape(alloc, items)? {
        Some(bytes) => Ok(Token::Text(Name::quoted(alloc, &bytes)?)),
        None => Ok(Token::Bad),
    }
}
