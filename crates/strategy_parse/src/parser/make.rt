//! Strategies from their parts.

ghost use Rattle.std.specs.Prelude.{◌≡◌, [], IfOk};
ghost use Rattle.strategy_syntax.specs.Lists.{first_ones};
ghost use Rattle.strategy_syntax.specs.Syntax as syntax;
ghost use Rattle.strategy_syntax.specs.Variables.{variables};
ghost use Rattle.strategy_parse.specs.Core.{operated, ordered, rewrite, rewrite_where};
ghost use Rattle.term_core.specs.Tree.{same_name};

use crate::parser::closure::scope_of;
use crate::parser::group::first_strategy_place;
use crate::parser::lists::ItemList;
use crate::parser::state::{Operator, Order};
use std::alloc::Global;
use strategy_syntax::{Pattern, Strategy, StrategyForm};
use term_core::{Name, NoMemory};

/// `id`
pub fn make_id() -> Strategy
    ensures { result ≡ syntax.id }
{
    Strategy::new(StrategyForm::Id)
}

/// `fail`
pub fn make_fail() -> Strategy
    ensures { result ≡ syntax.fail }
{
    Strategy::new(StrategyForm::Fail)
}

/// `?p`, at the place of `p`.
pub fn make_match(pattern: Pattern) -> Strategy
    ensures { result ≡ syntax.matches pattern }
{
    let place = pattern.place();
    Strategy::new(StrategyForm::Match(pattern)).at(place)
}

/// `!p`, at the place of `p`.
pub fn make_build(pattern: Pattern) -> Strategy
    ensures { result ≡ syntax.builds pattern }
{
    let place = pattern.place();
    Strategy::new(StrategyForm::Build(pattern)).at(place)
}

/// `s1; s2`, from the first to the last token of the two.
pub fn make_seq(alloc: Global, first: Strategy, second: Strategy) -> Result<Strategy, NoMemory>
    ensures { IfOk result (λ made. made ≡ syntax.seq first second) }
{
    let place = first.place().to(second.place());
    let parts = Box::new(alloc, (first, second))?;
    Ok(Strategy::new(StrategyForm::Seq(parts)).at(place))
}

// Two strategies that are run one after the other, but stand in the text the other way round.
fn make_ordered(
    alloc: Global,
    order: Order,
    first: Strategy,
    second: Strategy,
) -> Result<Strategy, NoMemory>
    ensures { IfOk result (λ made. made ≡ ordered order first second) }
{
    match order {
        Order::Run => make_seq(alloc, first, second),
        Order::Written => make_seq(alloc, second, first),
    }
}

/// The core form of `< s > p`.
pub fn make_applied(
    alloc: Global,
    order: Order,
    strategy: Strategy,
    pattern: Pattern,
) -> Result<Strategy, NoMemory>
    ensures { IfOk result (λ made. made ≡ ordered order (syntax.builds pattern) strategy) }
{
    let place = strategy.place().begun(1).to(pattern.place());
    Ok(make_ordered(alloc, order, make_build(pattern), strategy)?.at(place))
}

/// `s1 < s2 + s3`, from the first token of `s1` to the last one of `s3`.
pub fn make_guard(
    alloc: Global,
    tested: Strategy,
    then: Strategy,
    otherwise: Strategy,
) -> Result<Strategy, NoMemory>
    ensures { IfOk result (λ made. made ≡ syntax.guard tested then otherwise) }
{
    let place = tested.place().to(otherwise.place());
    let parts = Box::new(alloc, (tested, then, otherwise))?;
    Ok(Strategy::new(StrategyForm::Guard(parts)).at(place))
}

/// `where(s)`, at the place of `s`.
pub fn make_test(alloc: Global, strategy: Strategy) -> Result<Strategy, NoMemory>
    ensures { IfOk result (λ made. made ≡ syntax.test strategy) }
{
    let place = strategy.place();
    let strategy = Box::new(alloc, strategy)?;
    Ok(Strategy::new(StrategyForm::Test(strategy)).at(place))
}

/// The core form of `if s1 then s2 else s3 end`, where `s3` is the last part before `end`.
pub fn make_if(
    alloc: Global,
    tested: Strategy,
    then: Strategy,
    otherwise: Strategy,
) -> Result<Strategy, NoMemory>
    ensures { IfOk result (λ made. made ≡ syntax.guard (syntax.test tested) then otherwise) }
{
    let place = tested.place().begun(1).to(otherwise.place()).closed();
    match make_test(alloc, tested) {
        Ok(tested) => Ok(make_guard(alloc, tested, then, otherwise)?.at(place)),
        Err(error) => {
            drop(otherwise);
            drop(then);
            Err(error)
        }
    }
}

/// The core form of a word before a strategy in brackets. What it makes has its place.
pub fn make_operated(
    alloc: Global,
    operator: Operator,
    strategy: Strategy,
) -> Result<Strategy, NoMemory>
    ensures { IfOk result (λ made. made ≡ operated operator strategy) }
{
    let place = strategy.place().begun(2).closed();
    match operator {
        Operator::All => {
            let strategy = Box::new(alloc, strategy)?;
            Ok(Strategy::new(StrategyForm::All(strategy)).at(place))
        }
        Operator::One => {
            let strategy = Box::new(alloc, strategy)?;
            Ok(Strategy::new(StrategyForm::One(strategy)).at(place))
        }
        Operator::Some => {
            let strategy = Box::new(alloc, strategy)?;
            Ok(Strategy::new(StrategyForm::Some(strategy)).at(place))
        }
        Operator::Not => {
            let (fail, id) = (make_fail().at(place), make_id().at(place));
            Ok(make_guard(alloc, strategy, fail, id)?.at(place))
        }
        Operator::Where | Operator::Test => Ok(make_test(alloc, strategy)?.at(place)),
    }
}

/// `rec x(s)`
pub fn make_rec(alloc: Global, name: Name, strategy: Strategy) -> Result<Strategy, NoMemory>
    ensures { IfOk result (λ made. made ≡ syntax.rec name strategy) }
{
    let place = strategy.place().begun(3).closed();
    let strategy = Box::new(alloc, strategy)?;
    Ok(Strategy::new(StrategyForm::Rec(name, strategy)).at(place))
}

/// `i(s)`
pub fn make_child(alloc: Global, index: usize, strategy: Strategy) -> Result<Strategy, NoMemory>
    ensures { IfOk result (λ made. made ≡ syntax.child index strategy) }
{
    let place = strategy.place().begun(2).closed();
    let strategy = Box::new(alloc, strategy)?;
    Ok(Strategy::new(StrategyForm::Child(index, strategy)).at(place))
}

/// `{x1,..,xn: s}`, at the place of `s`.
pub fn make_scope(
    alloc: Global,
    names: ItemList<Name>,
    strategy: Strategy,
) -> Result<Strategy, NoMemory>
    ensures { IfOk result (λ made. made ≡ syntax.scope names strategy) }
{
    let place = strategy.place();
    let strategy = Box::new(alloc, strategy)?;
    Ok(Strategy::new(StrategyForm::Scope(names.into_vec(), strategy)).at(place))
}

/// `{x1,..,xn: s}`, with its brackets.
pub fn make_written_scope(
    alloc: Global,
    names: ItemList<Name>,
    strategy: Strategy,
) -> Result<Strategy, NoMemory>
    ensures { IfOk result (λ made. made ≡ syntax.scope names strategy) }
{
    // `{`, and each name with a comma or a colon after it, or a colon alone
    let before = names
        .as_slice()
        .len()
        .saturating_mul(2)
        .saturating_add(1)
        .max(2);
    let place = strategy.place().begun(before).closed();
    Ok(make_scope(alloc, names, strategy)?.at(place))
}

/// The core form of a rule without a condition, from its two patterns.
pub fn make_rewrite(alloc: Global, left: Pattern, right: Pattern) -> Result<Strategy, NoMemory>
    ensures { IfOk result (λ made. made ≡ rewrite left right) }
{
    make_seq(alloc, make_match(left), make_build(right))
}

/// The core form of a rule with a condition.
pub fn make_rewrite_where(
    alloc: Global,
    order: Order,
    left: Pattern,
    right: Pattern,
    condition: Strategy,
) -> Result<Strategy, NoMemory>
    ensures { IfOk result (λ made. made ≡ rewrite_where order left right condition) }
{
    // the condition comes last in the text
    let place = right.place().to(condition.place());
    let condition = make_test(alloc, condition)?;
    let rest = make_ordered(alloc, order, condition, make_build(right))?.at(place);
    make_seq(alloc, make_match(left), rest)
}

/// `\ l -> r \`
pub fn make_closure(alloc: Global, left: Pattern, right: Pattern) -> Result<Strategy, NoMemory>
    ensures { IfOk result (λ made. made
        ≡ syntax.scope (first_ones same_name [] (variables left)) (rewrite left right)) }
{
    let names = scope_of(alloc, &left)?;
    let body = make_rewrite(alloc, left, right)?;
    let place = body.place().begun(1).closed();
    Ok(make_scope(alloc, names, body)?.at(place))
}

/// `\ l -> r where s \`
pub fn make_closure_where(
    alloc: Global,
    order: Order,
    left: Pattern,
    right: Pattern,
    condition: Strategy,
) -> Result<Strategy, NoMemory>
    ensures { IfOk result (λ made. made ≡ syntax.scope
        (first_ones same_name [] (variables left)) (rewrite_where order left right condition)) }
{
    match scope_of(alloc, &left) {
        Ok(names) => {
            let body = make_rewrite_where(alloc, order, left, right, condition)?;
            let place = body.place().begun(1).closed();
            Ok(make_scope(alloc, names, body)?.at(place))
        }
        Err(error) => {
            drop(condition);
            drop(right);
            drop(left);
            Err(error)
        }
    }
}

/// `[s1,..,sn|s]`
pub fn make_square_tail(
    alloc: Global,
    strategies: ItemList<Strategy>,
    tail: Strategy,
) -> Result<Strategy, NoMemory>
    ensures { IfOk result (λ made.
        made ≡ syntax.tail_congruence (syntax.strategies_of strategies) tail) }
{
    let place = first_strategy_place(strategies.as_slice(), tail.place())
        .begun(1)
        .to(tail.place())
        .closed();
    let tail = Box::new(alloc, tail)?;
    Ok(Strategy::new(StrategyForm::TailCongruence(strategies.into_vec(), tail)).at(place))
}
