//! Where the machine doesn't go on.

ghost use Rattle.std.specs.Prelude.{◌≡◌, ◌≤◌, length, IfOk, IfSome, IfNone};
ghost use Rattle.strategy_parse.specs.Stuck.{Begin, StuckAt};
ghost use Rattle.strategy_parse.specs.inside.StuckPlaces.{IsFirst, Passed};

use crate::parser::fault::SyntaxFault;
use crate::parser::stack::ParserStack;
use crate::parser::state::{Effect, ParserState};
use crate::parser::step::step;
use std::alloc::Global;
use strategy_syntax::Place;
use strategy_tokens::Token;
use term_core::NoMemory;

/// The number of the first token that the machine doesn't take.
pub fn first_stuck(alloc: Global, tokens: &[Token]) -> Result<Option<usize>, NoMemory>
    ensures stuck { IfOk result (λ found. IfSome found (λ k. StuckAt tokens.now k)) }
    ensures begins { IfOk result (λ found. IfNone found (Begin tokens.now)) }
{
    let (_ended, left) = pass(alloc, ParserState::Strategy, tokens)?;
    if left.is_empty() {
        return Ok(None);
    }
    Ok(Some(tokens.len() - left.len()))
}

/// Whether a strategy at the start of the tokens ends before the first one that the machine doesn't
/// take, and the tokens from that one on; none if it takes all.
pub fn pass_strategy<'a>(
    alloc: Global,
    tokens: &'a [Token],
) -> Result<(bool, &'a [Token]), NoMemory>
    ensures { IfOk result (λ r. Passed ParserState.Strategy tokens.now r.0 r.1.now) }
{
    pass(alloc, ParserState::Strategy, tokens)
}

/// The same for a pattern.
pub fn pass_pattern<'a>(alloc: Global, tokens: &'a [Token]) -> Result<(bool, &'a [Token]), NoMemory>
    ensures { IfOk result (λ r. Passed ParserState.Pattern tokens.now r.0 r.1.now) }
{
    pass(alloc, ParserState::Pattern, tokens)
}

#[tactic(auto, using(crate::proofs::StuckLemmas::taking_rules))]
fn pass<'a>(
    alloc: Global,
    first: ParserState,
    tokens: &'a [Token],
) -> Result<(bool, &'a [Token]), NoMemory>
    requires { IsFirst first }
    ensures { IfOk result (λ r. Passed first tokens.now r.0 r.1.now) }
{
    let mut state = first;
    let mut stack = ParserStack::new(alloc);
    let mut left = tokens;
    while let Some((token, rest)) = left.split_first() {
        match step(alloc, state, &mut stack, token, Place::nowhere()) {
            Ok(Effect::Goes(next)) => state = next,
            Ok(Effect::Ends(strategy)) => {
                drop(strategy);
                drop(stack);
                return Ok((true, left));
            }
            Err(SyntaxFault::Syntax) => {
                drop(stack);
                return Ok((false, left));
            }
            Err(SyntaxFault::Memory) => {
                drop(stack);
                return Err(NoMemory);
            }
        }
        left = rest;
    }
    drop(state);
    drop(stack);
    Ok((false, left))
}
