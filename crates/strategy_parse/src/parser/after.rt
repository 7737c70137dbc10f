//! What may come after a strategy.

ghost use Rattle.std.specs.Prelude.{◌≡◌, IfOk, Err};
ghost use Rattle.strategy_syntax.specs.Syntax as syntax;
ghost use Rattle.strategy_parse.specs.inside.Forms.{forms};
ghost use Rattle.strategy_parse.specs.inside.Parser as machine;
ghost use Rattle.strategy_parse.specs.inside.Parser.{no_operand};

use crate::parser::expect::{expect, expect_word};
use crate::parser::fault::SyntaxFault;
use crate::parser::group::{closing_of, make_group};
use crate::parser::lists::ItemList;
use crate::parser::make::{
    make_child, make_closure_where, make_guard, make_id, make_if, make_operated, make_rec,
    make_seq, make_square_tail, make_written_scope,
};
use crate::parser::stack::ParserStack;
use crate::parser::state::{
    Effect, Infix, ParserFrame, ParserState, PatternFrame, PatternGroup, StrategyFrame,
    StrategyGroup,
};
use std::alloc::Global;
use strategy_syntax::{Place, Strategy};
use strategy_tokens::{Keyword, Sign, Token, is_mark, is_word};

/// After a strategy, which may continue.
pub fn after(
    alloc: Global,
    strategy: Strategy,
    stack: &mut ParserStack,
    token: &Token,
) -> Result<Effect, SyntaxFault>
    ensures ok { IfOk result (λ o.
        machine.after strategy (forms stack.old) token.now ≡ machine.leads o (forms stack.new)) }
    ensures none { result ≡ Err SyntaxFault.Syntax →
        machine.after strategy (forms stack.old) token.now ≡ machine.stuck }
{
    if is_mark(token, Sign::FatArrow) {
        stack.push(ParserFrame::Pattern(PatternFrame::Matched(strategy)))?;
        return Ok(Effect::Goes(ParserState::Pattern));
    }
    if is_mark(token, Sign::Semicolon) {
        stack.push(ParserFrame::Operand(Infix::Before, strategy))?;
        return Ok(Effect::Goes(ParserState::Strategy));
    }
    after_arrow(alloc, strategy, stack, token)
}

// After an arrow form without a `;`: the strategies of a sequence are joined, from the right. After
// `s < r` a `+` has to come.
#[tactic(auto, using(crate::proofs::MachineLemmas::arrow_rules))]
fn after_arrow(
    alloc: Global,
    last: Strategy,
    stack: &mut ParserStack,
    token: &Token,
) -> Result<Effect, SyntaxFault>
    ensures ok { IfOk result (λ o.
        machine.after_arrow last (forms stack.old) token.now ≡ machine.leads o (forms stack.new)) }
    ensures none { result ≡ Err SyntaxFault.Syntax →
        machine.after_arrow last (forms stack.old) token.now ≡ machine.stuck }
{
    let mut strategy = last;
    while let Some(first) = stack.pop_operand(Infix::Before) {
        strategy = make_seq(alloc, first, strategy)?;
    }
    if stack.has_operand(Infix::Guarded) {
        if !is_mark(token, Sign::Plus) {
            drop(strategy);
            return Err(SyntaxFault::Syntax);
        }
        stack.push(ParserFrame::Operand(Infix::Otherwise, strategy))?;
        return Ok(Effect::Goes(ParserState::Strategy));
    }
    after_seq(alloc, strategy, stack, token)
}

// After a sequence that isn't the second branch of a guarded choice.
fn after_seq(
    alloc: Global,
    strategy: Strategy,
    stack: &mut ParserStack,
    token: &Token,
) -> Result<Effect, SyntaxFault>
    ensures ok { IfOk result (λ o.
        machine.after_seq strategy (forms stack.old) token.now
        ≡ machine.leads o (forms stack.new)) }
    ensures none { result ≡ Err SyntaxFault.Syntax →
        machine.after_seq strategy (forms stack.old) token.now ≡ machine.stuck }
{
    if is_mark(token, Sign::LeftChoice) {
        let sign = strategy.place().next();
        stack.push(ParserFrame::Operand(Infix::Guarded, strategy))?;
        stack.push(ParserFrame::Operand(Infix::Otherwise, make_id().at(sign)))?;
        return Ok(Effect::Goes(ParserState::Strategy));
    }
    if is_mark(token, Sign::Less) {
        stack.push(ParserFrame::Operand(Infix::Guarded, strategy))?;
        return Ok(Effect::Goes(ParserState::Strategy));
    }
    after_choice(alloc, strategy, stack, token)
}

// After the last part of a choice: the parts are joined, from the right.
#[tactic(auto, using(crate::proofs::MachineLemmas::choice_rules))]
fn after_choice(
    alloc: Global,
    last: Strategy,
    stack: &mut ParserStack,
    token: &Token,
) -> Result<Effect, SyntaxFault>
    ensures ok { IfOk result (λ o.
        machine.after_choice last (forms stack.old) token.now
        ≡ machine.leads o (forms stack.new)) }
    ensures none { result ≡ Err SyntaxFault.Syntax →
        machine.after_choice last (forms stack.old) token.now ≡ machine.stuck }
{
    let mut strategy = last;
    while let Some(second) = stack.pop_operand(Infix::Otherwise) {
        let Some(first) = stack.pop_operand(Infix::Guarded) else {
            drop(second);
            drop(strategy);
            return Err(SyntaxFault::Syntax);
        };
        strategy = make_guard(alloc, first, second, strategy)?;
    }
    leave_choice(alloc, strategy, stack, token)
}

// After a whole choice.
fn leave_choice(
    alloc: Global,
    strategy: Strategy,
    stack: &mut ParserStack,
    token: &Token,
) -> Result<Effect, SyntaxFault>
    requires { no_operand Infix.Otherwise (forms stack.old) }
    ensures ok { IfOk result (λ o.
        machine.after_choice strategy (forms stack.old) token.now
        ≡ machine.leads o (forms stack.new)) }
    ensures none { result ≡ Err SyntaxFault.Syntax →
        machine.after_choice strategy (forms stack.old) token.now ≡ machine.stuck }
{
    match stack.pop() {
        Some(ParserFrame::Strategy(frame)) => in_frame(alloc, strategy, frame, stack, token),
        Some(ParserFrame::InText) => Ok(Effect::Ends(strategy)),
        Some(other) => {
            drop(other);
            drop(strategy);
            Err(SyntaxFault::Syntax)
        }
        None => Ok(Effect::Ends(strategy)),
    }
}

// After a whole strategy, in an open form.
fn in_frame(
    alloc: Global,
    strategy: Strategy,
    frame: StrategyFrame,
    stack: &mut ParserStack,
    token: &Token,
) -> Result<Effect, SyntaxFault>
    ensures ok { IfOk result (λ o.
        machine.in_frame strategy frame (forms stack.old) token.now
        ≡ machine.leads o (forms stack.new)) }
    ensures none { result ≡ Err SyntaxFault.Syntax →
        machine.in_frame strategy frame (forms stack.old) token.now ≡ machine.stuck }
{
    match frame {
        StrategyFrame::Operator(operator) => {
            expect(token, Sign::CloseRound)?;
            Ok(Effect::Goes(ParserState::Read(make_operated(alloc, operator, strategy)?)))
        }
        StrategyFrame::Rec(name) => {
            expect(token, Sign::CloseRound)?;
            Ok(Effect::Goes(ParserState::Read(make_rec(alloc, name, strategy)?)))
        }
        StrategyFrame::Child(index) => {
            expect(token, Sign::CloseRound)?;
            Ok(Effect::Goes(ParserState::Read(make_child(alloc, index, strategy)?)))
        }
        StrategyFrame::Scope(names) => {
            expect(token, Sign::CloseCurly)?;
            Ok(Effect::Goes(ParserState::Read(make_written_scope(alloc, names, strategy)?)))
        }
        StrategyFrame::Application => {
            expect(token, Sign::Greater)?;
            stack.push(ParserFrame::Pattern(PatternFrame::Applied(strategy)))?;
            Ok(Effect::Goes(ParserState::Pattern))
        }
        StrategyFrame::If => {
            expect_word(token, Keyword::Then)?;
            stack.push(ParserFrame::Strategy(StrategyFrame::Then(strategy)))?;
            Ok(Effect::Goes(ParserState::Strategy))
        }
        StrategyFrame::Then(tested) => after_then(alloc, tested, strategy, stack, token),
        StrategyFrame::Else(tested, then) => {
            expect_word(token, Keyword::End)?;
            Ok(Effect::Goes(ParserState::Read(make_if(alloc, tested, then, strategy)?)))
        }
        StrategyFrame::Where(left, right) => {
            expect(token, Sign::Backslash)?;
            let whole = make_closure_where(alloc, stack.order(), left, right, strategy)?;
            Ok(Effect::Goes(ParserState::Read(whole)))
        }
        StrategyFrame::List(group, done) => {
            let next = strategy.place().next();
            after_element(alloc, group, done.with(strategy)?, stack, token, next)
        }
        StrategyFrame::Tail(done) => {
            expect(token, Sign::CloseSquare)?;
            Ok(Effect::Goes(ParserState::Read(make_square_tail(alloc, done, strategy)?)))
        }
    }
}

fn after_then(
    alloc: Global,
    tested: Strategy,
    strategy: Strategy,
    stack: &mut ParserStack,
    token: &Token,
) -> Result<Effect, SyntaxFault>
    ensures ok { IfOk result (λ o.
        machine.in_frame strategy (StrategyFrame.Then tested) (forms stack.old) token.now
        ≡ machine.leads o (forms stack.new)) }
    ensures none { result ≡ Err SyntaxFault.Syntax →
        machine.in_frame strategy (StrategyFrame.Then tested) (forms stack.old) token.now
        ≡ machine.stuck }
{
    if is_word(token, Keyword::Else) {
        stack.push(ParserFrame::Strategy(StrategyFrame::Else(tested, strategy)))?;
        return Ok(Effect::Goes(ParserState::Strategy));
    }
    if is_word(token, Keyword::End) {
        let otherwise = make_id().at(strategy.place());
        return Ok(Effect::Goes(ParserState::Read(make_if(alloc, tested, strategy, otherwise)?)));
    }
    drop(strategy);
    drop(tested);
    Err(SyntaxFault::Syntax)
}

// After a strategy of a list, which was added to the list.
fn after_element(
    alloc: Global,
    group: StrategyGroup,
    done: ItemList<Strategy>,
    stack: &mut ParserStack,
    token: &Token,
    place: Place,
) -> Result<Effect, SyntaxFault>
    ensures ok { IfOk result (λ o.
        machine.after_element group done (forms stack.old) token.now
        ≡ machine.leads o (forms stack.new)) }
    ensures none { result ≡ Err SyntaxFault.Syntax →
        machine.after_element group done (forms stack.old) token.now ≡ machine.stuck }
{
    if is_mark(token, Sign::Comma) {
        stack.push(ParserFrame::Strategy(StrategyFrame::List(group, done)))?;
        return Ok(Effect::Goes(ParserState::Strategy));
    }
    if is_mark(token, Sign::Bar) {
        return after_bar(group, done, stack);
    }
    if is_mark(token, closing_of(&group)) {
        return Ok(Effect::Goes(ParserState::Read(make_group(alloc, group, done, place))));
    }
    drop(done);
    drop(group);
    Err(SyntaxFault::Syntax)
}

// A `|` after the strategies of a list.
fn after_bar(
    group: StrategyGroup,
    done: ItemList<Strategy>,
    stack: &mut ParserStack,
) -> Result<Effect, SyntaxFault>
    ensures ok { IfOk result (λ o.
        machine.after_bar group done (forms stack.old) ≡ machine.leads o (forms stack.new)) }
    ensures none { result ≡ Err SyntaxFault.Syntax →
        machine.after_bar group done (forms stack.old) ≡ machine.stuck }
{
    match group {
        StrategyGroup::Round => Err(SyntaxFault::Syntax),
        StrategyGroup::Square => {
            stack.push(ParserFrame::Strategy(StrategyFrame::Tail(done)))?;
            Ok(Effect::Goes(ParserState::Strategy))
        }
        StrategyGroup::Arguments(name) => {
            Ok(Effect::Goes(ParserState::FirstPattern(PatternGroup::Terms(name, done))))
        }
    }
}
