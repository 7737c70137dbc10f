//! Ends of strategies and patterns, by their last tokens.

use strategy_tokens::{Keyword, Sign, Token};

/// Whether a whole strategy or pattern may end with the token, given whether one may end with the
/// token before. A `\` ends one if it doesn't begin one.
pub fn ends_operand(token: &Token, operand: bool) -> bool {
    match token {
        Token::Ident(_) | Token::Wildcard | Token::Integer(_) | Token::Text(_) => true,
        Token::Reserved(Keyword::Id | Keyword::Fail | Keyword::End) => true,
        Token::Sign(Sign::CloseRound | Sign::CloseSquare | Sign::CloseCurly) => true,
        Token::Sign(Sign::Backslash) => operand,
        _ => false,
    }
}
