//! Terms that begin with no bracket.

ghost use Rattle.std.specs.Prelude.{◌≡◌, ◌<◌, ℕ, List, IfOk, Err, length, Some, None};
ghost use Rattle.term_core.specs.Word.{first_word};
ghost use Rattle.aterm_text.specs.Tokens.{without_blanks};
ghost use Rattle.aterm_text.specs.inside.Beginnings.{Begins, NoLexeme, beginning_of};

use crate::reader::{ReadFault, scan};
use std::alloc::Global;
use term_core::{Name, begins_word};

/// The start of a term that is neither a list nor a tuple: a whole integer, or a name.
#[derive(Drop)]
pub enum Lexeme {
    Integer(i64),
    Named(Name),
}

/// The integer or the name at the start of a text without leading white space, and the rest.
pub fn first_lexeme(alloc: Global, text: &[u8]) -> Result<(Lexeme, &[u8]), ReadFault>
    requires { without_blanks text.now ≡ text.now }
    ensures found { IfOk result (λ found.
        Begins (beginning_of found.0) text.now found.1.now) }
    ensures shorter { IfOk result (λ found. length found.1.now < length text.now) }
    ensures none { result ≡ Err ReadFault.Term → NoLexeme text.now }
    ensures deep { result ≡ Err ReadFault.Deep → ⊥ }
{
    let Some((first, rest)) = text.split_first() else {
        return Err(ReadFault::Term);
    };
    match *first {
        b'"' => {
            let (name, rest) = scan::quoted(alloc, rest)?;
            Ok((Lexeme::Named(name), rest))
        }
        byte if begins_word(byte) => match Name::first_word(alloc, text)? {
            Some((name, rest)) => Ok((Lexeme::Named(name), rest)),
            None => Err(ReadFault::Term),
        },
        _ => match scan::integer(text) {
            Some((value, rest)) => Ok((Lexeme::Integer(value), rest)),
            None => Err(ReadFault::Term),
        },
    }
}
