//! Parsing the start of a list of tokens.

ghost use Rattle.std.specs.Prelude.{◌≡◌, List, [], IfOk, Err, Some, None};
ghost use Rattle.strategy_syntax.specs.Syntax as syntax;
ghost use Rattle.strategy_parse.specs.Core.{core};
ghost use Rattle.strategy_parse.specs.declared.parser.state.Order.TheVariants.{Run, Written};
ghost use Rattle.strategy_parse.specs.inside.Forms.{forms};
ghost use Rattle.strategy_parse.specs.inside.Fronts.{FrontGives, Stops};
ghost use Rattle.strategy_parse.specs.Grammar.{ReadsChoice, ReadsPattern};
ghost use Rattle.strategy_parse.specs.inside.Parser.{front, step as step_of};
ghost use Rattle.strategy_parse.specs.Written.{Choice};
ghost use Rattle.strategy_tokens.specs.declared.token.Token.{Token};

use crate::parser::fault::SyntaxFault;
use crate::parser::stack::ParserStack;
use crate::parser::state::{Effect, ParserState};
use crate::parser::step::step;
use std::alloc::Global;
use strategy_syntax::{Pattern, Place, Strategy, StrategyForm};
use strategy_tokens::Token;

/// The strategy at the start of the tokens, as long as possible, and the rest.
pub fn read_strategy<'a>(
    alloc: Global,
    tokens: &'a [Token],
) -> Result<(Strategy, &'a [Token]), SyntaxFault>
    ensures given { IfOk result (λ r. FrontGives tokens.now r.0 r.1.now) }
    ensures only { IfOk result (λ r. (a : Choice) (y : List Token) → ReadsChoice a tokens.now y
        → Stops y → (core Run a ≡ r.0) × (y ≡ r.1.now)) }
    ensures none { result ≡ Err SyntaxFault.Syntax → (a : Choice) (y : List Token)
        → ReadsChoice a tokens.now y → Stops y → ⊥ }
{
    run(
        alloc,
        ParserState::Strategy,
        ParserStack::new(alloc),
        tokens,
    )
}

/// The strategy that all of the tokens are, with its parts in the order of the text.
pub fn read_in_text(alloc: Global, tokens: &[Token]) -> Result<Strategy, SyntaxFault>
    ensures only { IfOk result (λ s. (a : Choice) → ReadsChoice a tokens.now []
        → core Written a ≡ s) }
    ensures none { result ≡ Err SyntaxFault.Syntax → (a : Choice) → ReadsChoice a tokens.now []
        → ⊥ }
{
    let (strategy, _left) = run(
        alloc,
        ParserState::Strategy,
        ParserStack::in_text(alloc)?,
        tokens,
    )?;
    Ok(strategy)
}

/// The pattern at the start of the tokens, as long as possible, and the rest.
pub fn read_pattern<'a>(
    alloc: Global,
    tokens: &'a [Token],
) -> Result<(Pattern, &'a [Token]), SyntaxFault>
    ensures given { IfOk result (λ r. ReadsPattern r.0 tokens.now r.1.now) }
    ensures only { IfOk result (λ r. (p : syntax.Pattern) (y : List Token)
        → ReadsPattern p tokens.now y → Stops y → (p ≡ r.0) × (y ≡ r.1.now)) }
    ensures none { result ≡ Err SyntaxFault.Syntax → (p : syntax.Pattern) (y : List Token)
        → ReadsPattern p tokens.now y → Stops y → ⊥ }
{
    let (strategy, left) = run(alloc, ParserState::Pattern, ParserStack::new(alloc), tokens)?;
    match strategy.into_form() {
        StrategyForm::Match(pattern) => Ok((pattern, left)),
        other => {
            drop(other);
            Err(SyntaxFault::Syntax)
        }
    }
}

// What the machine returns from there on, and the tokens that it leaves.
fn run<'a>(
    alloc: Global,
    first: ParserState,
    bottom: ParserStack,
    tokens: &'a [Token],
) -> Result<(Strategy, &'a [Token]), SyntaxFault>
    ensures ok { IfOk result (λ r.
        front (step_of first (forms bottom)) tokens.now ≡ Some (r.0, r.1.now)) }
    ensures none { result ≡ Err SyntaxFault.Syntax →
        front (step_of first (forms bottom)) tokens.now ≡ None }
{
    let mut state = first;
    let mut stack = bottom;
    let mut left = tokens;
    while let Some((token, rest)) = left.split_first() {
        match step(alloc, state, &mut stack, token, Place::of_token(left.len()))? {
            Effect::Goes(next) => state = next,
            Effect::Ends(strategy) => return Ok((strategy, left)),
        }
        left = rest;
    }
    match step(alloc, state, &mut stack, &Token::Bad, Place::of_token(0))? {
        Effect::Ends(strategy) => Ok((strategy, left)),
        Effect::Goes(next) => {
            drop(next);
            Err(SyntaxFault::Syntax)
        }
    }
}
