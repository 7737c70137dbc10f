//! Lists of strategies and of patterns: their closing sign, and what they make.
#![tactic(auto, using(crate::proofs::MachineLemmas::bracket_rules))]

ghost use Rattle.std.specs.Prelude.{◌≡◌, IfOk};
ghost use Rattle.strategy_syntax.specs.Syntax as syntax;
ghost use Rattle.strategy_parse.specs.Core.{in_brackets};
ghost use Rattle.strategy_parse.specs.inside.Parser as machine;

use crate::parser::lists::ItemList;
use crate::parser::state::{ParserState, PatternGroup, StrategyGroup};
use std::alloc::Global;
use strategy_syntax::{Head, Pattern, PatternForm, Place, Strategy, StrategyForm};
use strategy_tokens::Sign;
use term_core::{Name, NoMemory};

/// The sign that closes a list of strategies.
pub fn closing_of(group: &StrategyGroup) -> Sign
    ensures { result ≡ machine.closing group.now }
{
    match group {
        StrategyGroup::Round => Sign::CloseRound,
        StrategyGroup::Square => Sign::CloseSquare,
        StrategyGroup::Arguments(_) => Sign::CloseRound,
    }
}

/// What a list of strategies makes, whose closing sign stands there.
pub fn make_group(
    alloc: Global,
    group: StrategyGroup,
    done: ItemList<Strategy>,
    sign: Place,
) -> Strategy
    ensures { result ≡ machine.grouped group done }
{
    let first = first_strategy_place(done.as_slice(), sign);
    match group {
        StrategyGroup::Round => make_round(done).at(first.begun(1).to(sign)),
        StrategyGroup::Square => {
            let form = StrategyForm::Congruence(Head::List, done.into_vec());
            Strategy::new(form).at(first.begun(1).to(sign))
        }
        StrategyGroup::Arguments(name) => {
            let form = StrategyForm::Use(name, done.into_vec(), Vec::new(alloc));
            Strategy::new(form).at(first.begun(2).to(sign))
        }
    }
}

/// The place of the first strategy, or of the sign after the list if it is empty.
pub fn first_strategy_place(strategies: &[Strategy], sign: Place) -> Place {
    match strategies.first() {
        Some(strategy) => strategy.place(),
        None => sign,
    }
}

/// The place of the first pattern, or of the sign after the list if it is empty.
pub fn first_pattern_place(patterns: &[Pattern], sign: Place) -> Place {
    match patterns.first() {
        Some(pattern) => pattern.place(),
        None => sign,
    }
}

// The strategy that strategies in round brackets stand for.
fn make_round(strategies: ItemList<Strategy>) -> Strategy
    ensures { result ≡ in_brackets (syntax.strategies_of strategies) }
{
    let mut strategies = strategies.into_vec();
    if strategies.len() != 1 {
        return Strategy::new(StrategyForm::Congruence(Head::Tuple, strategies));
    }
    match strategies.pop() {
        Some(only) => only,
        None => unreachable!(),
    }
}

/// The sign that closes a list of patterns.
pub fn closing_sign_of(group: &PatternGroup) -> Sign
    ensures { result ≡ machine.closing_sign group.now }
{
    match group {
        PatternGroup::List => Sign::CloseSquare,
        PatternGroup::Annotations(_) => Sign::CloseCurly,
        PatternGroup::Application(_) => Sign::CloseRound,
        PatternGroup::Tuple => Sign::CloseRound,
        PatternGroup::Terms(_, _) => Sign::CloseRound,
        PatternGroup::Prim(_) => Sign::CloseRound,
    }
}

/// What a list of patterns makes, whose closing sign stands there.
pub fn close_patterns(
    alloc: Global,
    group: PatternGroup,
    done: ItemList<Pattern>,
    sign: Place,
) -> Result<ParserState, NoMemory>
    ensures { IfOk result (λ state. state ≡ machine.close_patterns group done) }
{
    let first = first_pattern_place(done.as_slice(), sign);
    let patterns = done.into_vec();
    match group {
        PatternGroup::Application(name) => {
            let form = PatternForm::Compound(Head::Application(name), patterns);
            Ok(ParserState::Base(Pattern::new(form).at(first.begun(2).to(sign))))
        }
        PatternGroup::List => {
            let form = PatternForm::Compound(Head::List, patterns);
            Ok(ParserState::Base(Pattern::new(form).at(first.begun(1).to(sign))))
        }
        PatternGroup::Tuple => {
            let form = PatternForm::Compound(Head::Tuple, patterns);
            Ok(ParserState::Base(Pattern::new(form).at(first.begun(1).to(sign))))
        }
        PatternGroup::Annotations(pattern) => {
            let place = pattern.place().to(sign);
            let form = PatternForm::Annotated(Box::new(alloc, pattern)?, patterns);
            Ok(ParserState::Whole(Pattern::new(form).at(place)))
        }
        PatternGroup::Terms(name, strategies) => {
            // `|` comes after the name and `(`, and after the strategies, if there are some
            let bar = first.begun(1);
            let name_place = first_strategy_place(strategies.as_slice(), bar).begun(2);
            let form = StrategyForm::Use(name, strategies.into_vec(), patterns);
            Ok(ParserState::Read(Strategy::new(form).at(name_place.to(sign))))
        }
        PatternGroup::Prim(name) => {
            let form = StrategyForm::Prim(name, patterns);
            Ok(ParserState::Read(Strategy::new(form).at(first.begun(4).to(sign))))
        }
    }
}
