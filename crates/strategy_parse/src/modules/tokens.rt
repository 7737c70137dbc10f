//! Single tokens at the start of a list.
#![tactic(auto, using(crate::proofs::WordLemmas::word_rules))]

ghost use Rattle.std.specs.Prelude.{◌≡◌, ◌∷◌, IfOk, IfSome, IfNone, Err, Some, None, false};
ghost use Rattle.strategy_parse.specs.inside.NextToken.{next_token};
ghost use Rattle.strategy_tokens.specs.Marks.{is_word};
ghost use Rattle.strategy_parse.specs.inside.ModuleFronts.{after_ident, after_mark};

use crate::parser::SyntaxFault;
use strategy_tokens::{Keyword, Sign, Token, is_mark, is_word};

/// The tokens after the sign, if it comes first.
pub fn after_mark<'a>(tokens: &'a [Token], sign: Sign) -> Option<&'a [Token]>
    ensures some { IfSome result (λ rest. after_mark sign tokens.now ≡ Some rest.now) }
    ensures none { IfNone result (after_mark sign tokens.now ≡ None) }
{
    let (token, rest) = tokens.split_first()?;
    if is_mark(token, sign) {
        Some(rest)
    } else {
        None
    }
}

/// The tokens after the sign, which has to come first.
pub fn expect_mark<'a>(tokens: &'a [Token], sign: Sign) -> Result<&'a [Token], SyntaxFault>
    ensures ok { IfOk result (λ rest. after_mark sign tokens.now ≡ Some rest.now) }
    ensures none { result ≡ Err SyntaxFault.Syntax → after_mark sign tokens.now ≡ None }
{
    match after_mark(tokens, sign) {
        Some(rest) => Ok(rest),
        None => Err(SyntaxFault::Syntax),
    }
}

/// The tokens after the reserved word, if it comes first.
pub fn after_word<'a>(tokens: &'a [Token], word: Keyword) -> Option<&'a [Token]>
    ensures some { IfSome result (λ rest. tokens.now ≡ Token.Reserved word ∷ rest.now) }
    ensures none { IfNone result (is_word word (next_token tokens.now) ≡ false) }
{
    let (token, rest) = tokens.split_first()?;
    if is_word(token, word) {
        Some(rest)
    } else {
        None
    }
}

/// The tokens after the identifier, if one comes first.
pub fn after_ident<'a>(tokens: &'a [Token]) -> Option<&'a [Token]>
    ensures some { IfSome result (λ rest. after_ident tokens.now ≡ Some rest.now) }
    ensures none { IfNone result (after_ident tokens.now ≡ None) }
{
    let (token, rest) = tokens.split_first()?;
    match token {
        Token::Ident(_) => Some(rest),
        _ => None,
    }
}
