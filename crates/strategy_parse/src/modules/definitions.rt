//! Definitions.

ghost use Rattle.std.specs.Prelude.{◌≡◌, ◌<◌, List, length, IfOk, Err};
ghost use Rattle.strategy_parse.specs.Core.{core_definition};
ghost use Rattle.strategy_parse.specs.inside.Definitions.{DefinitionEnds, DefinitionGives};
ghost use Rattle.strategy_parse.specs.GrammarModules.{ReadsDefined};
ghost use Rattle.strategy_parse.specs.Written.{Defined};
ghost use Rattle.strategy_tokens.specs.declared.token.Token.{Token};

use crate::modules::headers::{Header, read_header};
use crate::modules::rules::{make_definition, read_rule};
use crate::modules::tokens::{after_mark, expect_mark};
use crate::parser::{SyntaxFault, read_strategy};
use std::alloc::Global;
use strategy_syntax::Definition;
use strategy_tokens::{Sign, Token};

/// The definition at the start of the tokens, and the rest.
pub fn read_definition<'a>(
    alloc: Global,
    tokens: &'a [Token],
) -> Result<(Definition, &'a [Token]), SyntaxFault>
    ensures given { IfOk result (λ r. DefinitionGives tokens.now r.0 r.1.now) }
    ensures only { IfOk result (λ r. (w : Defined) (y : List Token) → ReadsDefined w tokens.now y
        → DefinitionEnds y → (core_definition w ≡ r.0) × (y ≡ r.1.now)) }
    ensures none { result ≡ Err SyntaxFault.Syntax → (w : Defined) (y : List Token)
        → ReadsDefined w tokens.now y → DefinitionEnds y → ⊥ }
{
    let (header, left) = read_header(alloc, tokens)?;
    if let Some(rest) = after_mark(left, Sign::Equals) {
        let (body, after) = read_strategy(alloc, rest)?;
        return Ok((make_definition(header, body), after));
    }
    let rest = expect_mark(left, Sign::Colon)?;
    read_rule(alloc, header, rest)
}
