//! Tokens that are required.

ghost use Rattle.std.specs.Prelude.{◌≡◌, OnOk, Err, true, false};
ghost use Rattle.strategy_tokens.specs.Marks.{is_mark, is_word};

use crate::parser::fault::SyntaxFault;
use strategy_tokens::{Keyword, Sign, Token, is_mark, is_word};

/// Checks that the token is this sign.
pub fn expect(token: &Token, sign: Sign) -> Result<(), SyntaxFault>
    ensures ok { OnOk result (is_mark sign token.now ≡ true) }
    ensures none { result ≡ Err SyntaxFault.Syntax → is_mark sign token.now ≡ false }
    ensures memory { result ≡ Err SyntaxFault.Memory → ⊥ }
{
    if is_mark(token, sign) {
        Ok(())
    } else {
        Err(SyntaxFault::Syntax)
    }
}

/// Checks that the token is this reserved word.
pub fn expect_word(token: &Token, word: Keyword) -> Result<(), SyntaxFault>
    ensures ok { OnOk result (is_word word token.now ≡ true) }
    ensures none { result ≡ Err SyntaxFault.Syntax → is_word word token.now ≡ false }
    ensures memory { result ≡ Err SyntaxFault.Memory → ⊥ }
{
    if is_word(token, word) {
        Ok(())
    } else {
        Err(SyntaxFault::Syntax)
    }
}
