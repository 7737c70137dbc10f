//! Patterns: what may begin one, and what may come after one.

ghost use Rattle.std.specs.Prelude.{◌≡◌, ◌∷◌, [], IfOk, Err, List};
ghost use Rattle.strategy_syntax.specs.Syntax as syntax;
ghost use Rattle.strategy_parse.specs.inside.Forms.{forms};
ghost use Rattle.strategy_parse.specs.inside.Parser as machine;
ghost use Rattle.strategy_parse.specs.inside.Parser.{no_at};
ghost use Rattle.strategy_parse.specs.declared.parser.state.ParserFrame.{ParserFrame};

use crate::parser::after::after;
use crate::parser::fault::SyntaxFault;
use crate::parser::group::{close_patterns, closing_sign_of, first_pattern_place};
use crate::parser::lists::ItemList;
use crate::parser::make::{make_applied, make_build, make_closure, make_match, make_seq};
use crate::parser::stack::ParserStack;
use crate::parser::state::{
    Effect, ParserFrame, ParserState, PatternFrame, PatternGroup, StrategyFrame,
};
use std::alloc::Global;
use strategy_syntax::{Head, Pattern, PatternForm, Place};
use strategy_tokens::{Keyword, Sign, Token, is_mark, is_word};
use term_core::{Name, NoMemory};

/// A pattern has to begin here.
pub fn begin_pattern(alloc: Global, token: &Token, place: Place) -> Result<Effect, SyntaxFault>
    ensures ok { IfOk result (λ o. (S : List ParserFrame) →
        machine.begin_pattern S token.now ≡ machine.leads o S) }
    ensures none { result ≡ Err SyntaxFault.Syntax → (S : List ParserFrame) →
        machine.begin_pattern S token.now ≡ machine.stuck }
{
    match token {
        Token::Wildcard => {
            let pattern = Pattern::new(PatternForm::Wildcard).at(place);
            Ok(Effect::Goes(ParserState::Base(pattern)))
        }
        Token::Ident(name) => Ok(Effect::Goes(ParserState::Named(name.try_clone()?))),
        Token::Integer(value) => {
            let pattern = Pattern::new(PatternForm::Integer(*value)).at(place);
            Ok(Effect::Goes(ParserState::Base(pattern)))
        }
        Token::Text(name) => {
            let head = Head::Application(name.try_clone()?);
            let pattern = Pattern::new(PatternForm::Compound(head, Vec::new(alloc))).at(place);
            Ok(Effect::Goes(ParserState::Base(pattern)))
        }
        Token::Sign(sign) => open_pattern(*sign),
        _ => Err(SyntaxFault::Syntax),
    }
}

// A list or a tuple of patterns has to be opened here.
fn open_pattern(sign: Sign) -> Result<Effect, SyntaxFault>
    ensures ok { IfOk result (λ o. (S : List ParserFrame) →
        machine.open_pattern S sign ≡ machine.leads o S) }
    ensures none { result ≡ Err SyntaxFault.Syntax → (S : List ParserFrame) →
        machine.open_pattern S sign ≡ machine.stuck }
{
    match sign {
        Sign::OpenSquare => Ok(Effect::Goes(ParserState::FirstPattern(PatternGroup::List))),
        Sign::OpenRound => Ok(Effect::Goes(ParserState::FirstPattern(PatternGroup::Tuple))),
        _ => Err(SyntaxFault::Syntax),
    }
}

/// After the opening bracket of a list of patterns: it ends, or a pattern has to begin.
pub fn first_pattern(
    alloc: Global,
    group: PatternGroup,
    stack: &mut ParserStack,
    token: &Token,
    place: Place,
) -> Result<Effect, SyntaxFault>
    ensures ok { IfOk result (λ o.
        machine.first_pattern group (forms stack.old) token.now
        ≡ machine.leads o (forms stack.new)) }
    ensures none { result ≡ Err SyntaxFault.Syntax →
        machine.first_pattern group (forms stack.old) token.now ≡ machine.stuck }
{
    if is_mark(token, closing_sign_of(&group)) {
        return Ok(Effect::Goes(close_patterns(alloc, group, ItemList::new(alloc), place)?));
    }
    stack.push(ParserFrame::Pattern(PatternFrame::List(group, ItemList::new(alloc))))?;
    begin_pattern(alloc, token, place)
}

/// After a pattern that may still get annotations.
pub fn after_base(
    alloc: Global,
    pattern: Pattern,
    stack: &mut ParserStack,
    token: &Token,
) -> Result<Effect, SyntaxFault>
    ensures ok { IfOk result (λ o.
        machine.after_base pattern (forms stack.old) token.now
        ≡ machine.leads o (forms stack.new)) }
    ensures none { result ≡ Err SyntaxFault.Syntax →
        machine.after_base pattern (forms stack.old) token.now ≡ machine.stuck }
{
    if is_mark(token, Sign::OpenCurly) {
        let group = PatternGroup::Annotations(pattern);
        return Ok(Effect::Goes(ParserState::FirstPattern(group)));
    }
    after_pattern(alloc, pattern, stack, token)
}

/// After a whole pattern: it belongs to the `x@` before it.
#[tactic(auto, using(crate::proofs::MachineLemmas::at_rules))]
pub fn after_pattern(
    alloc: Global,
    last: Pattern,
    stack: &mut ParserStack,
    token: &Token,
) -> Result<Effect, SyntaxFault>
    ensures ok { IfOk result (λ o.
        machine.after_pattern last (forms stack.old) token.now
        ≡ machine.leads o (forms stack.new)) }
    ensures none { result ≡ Err SyntaxFault.Syntax →
        machine.after_pattern last (forms stack.old) token.now ≡ machine.stuck }
{
    let mut pattern = last;
    while let Some(name) = stack.pop_at() {
        pattern = make_at(alloc, name, pattern)?;
    }
    leave_pattern(alloc, pattern, stack, token)
}

fn make_at(alloc: Global, name: Name, pattern: Pattern) -> Result<Pattern, NoMemory>
    ensures { IfOk result (λ made. made ≡ syntax.at name pattern) }
{
    let place = pattern.place().begun(2);
    let pattern = Box::new(alloc, pattern)?;
    Ok(Pattern::new(PatternForm::At(name, pattern)).at(place))
}

// After a whole pattern without an `x@` before it. One that stands alone ends as the strategy that
// matches it.
fn leave_pattern(
    alloc: Global,
    pattern: Pattern,
    stack: &mut ParserStack,
    token: &Token,
) -> Result<Effect, SyntaxFault>
    requires { no_at (forms stack.old) }
    ensures ok { IfOk result (λ o.
        machine.after_pattern pattern (forms stack.old) token.now
        ≡ machine.leads o (forms stack.new)) }
    ensures none { result ≡ Err SyntaxFault.Syntax →
        machine.after_pattern pattern (forms stack.old) token.now ≡ machine.stuck }
{
    match stack.pop() {
        Some(ParserFrame::Pattern(frame)) => pattern_in_frame(alloc, pattern, frame, stack, token),
        Some(other) => {
            drop(other);
            Err(SyntaxFault::Syntax)
        }
        None => Ok(Effect::Ends(make_match(pattern))),
    }
}

// After a whole pattern, in an open form.
fn pattern_in_frame(
    alloc: Global,
    pattern: Pattern,
    frame: PatternFrame,
    stack: &mut ParserStack,
    token: &Token,
) -> Result<Effect, SyntaxFault>
    ensures ok { IfOk result (λ o.
        machine.pattern_in_frame pattern frame (forms stack.old) token.now
        ≡ machine.leads o (forms stack.new)) }
    ensures none { result ≡ Err SyntaxFault.Syntax →
        machine.pattern_in_frame pattern frame (forms stack.old) token.now ≡ machine.stuck }
{
    match frame {
        PatternFrame::Match => {
            let place = pattern.place().begun(1);
            after(alloc, make_match(pattern).at(place), stack, token)
        }
        PatternFrame::Build => {
            let place = pattern.place().begun(1);
            after(alloc, make_build(pattern).at(place), stack, token)
        }
        PatternFrame::Applied(strategy) => {
            let whole = make_applied(alloc, stack.order(), strategy, pattern)?;
            after(alloc, whole, stack, token)
        }
        PatternFrame::Matched(strategy) => {
            let whole = make_seq(alloc, strategy, make_match(pattern))?;
            after(alloc, whole, stack, token)
        }
        PatternFrame::Left => after_left(pattern, stack, token),
        PatternFrame::Right(left) => after_closure(alloc, left, pattern, stack, token),
        PatternFrame::List(group, done) => {
            let next = pattern.place().next();
            after_one(alloc, group, done.with(pattern)?, stack, token, next)
        }
        PatternFrame::Tail(done) => after_tail(alloc, done, pattern, token),
    }
}

// After the left side of a closure.
fn after_left(left: Pattern, stack: &mut ParserStack, token: &Token) -> Result<Effect, SyntaxFault>
    ensures ok { IfOk result (λ o.
        machine.pattern_in_frame left PatternFrame.Left (forms stack.old) token.now
        ≡ machine.leads o (forms stack.new)) }
    ensures none { result ≡ Err SyntaxFault.Syntax →
        machine.pattern_in_frame left PatternFrame.Left (forms stack.old) token.now
        ≡ machine.stuck }
{
    if is_mark(token, Sign::Arrow) {
        stack.push(ParserFrame::Pattern(PatternFrame::Right(left)))?;
        return Ok(Effect::Goes(ParserState::Pattern));
    }
    drop(left);
    Err(SyntaxFault::Syntax)
}

// After the tail of a list.
fn after_tail(
    alloc: Global,
    done: ItemList<Pattern>,
    tail: Pattern,
    token: &Token,
) -> Result<Effect, SyntaxFault>
    ensures ok { IfOk result (λ o. (S : List ParserFrame) →
        machine.pattern_in_frame tail (PatternFrame.Tail done) S token.now ≡ machine.leads o S) }
    ensures none { result ≡ Err SyntaxFault.Syntax → (S : List ParserFrame) →
        machine.pattern_in_frame tail (PatternFrame.Tail done) S token.now ≡ machine.stuck }
{
    if is_mark(token, Sign::CloseSquare) {
        let whole = make_with_tail(alloc, done, tail)?;
        return Ok(Effect::Goes(ParserState::Base(whole)));
    }
    drop(tail);
    drop(done);
    Err(SyntaxFault::Syntax)
}

fn make_with_tail(
    alloc: Global,
    done: ItemList<Pattern>,
    tail: Pattern,
) -> Result<Pattern, NoMemory>
    ensures { IfOk result (λ made. made ≡ syntax.with_tail (syntax.patterns_of done) tail) }
{
    let place = first_pattern_place(done.as_slice(), tail.place())
        .begun(1)
        .to(tail.place())
        .closed();
    let tail = Box::new(alloc, tail)?;
    Ok(Pattern::new(PatternForm::WithTail(done.into_vec(), tail)).at(place))
}

// After the right side of a closure.
fn after_closure(
    alloc: Global,
    left: Pattern,
    right: Pattern,
    stack: &mut ParserStack,
    token: &Token,
) -> Result<Effect, SyntaxFault>
    ensures ok { IfOk result (λ o.
        machine.pattern_in_frame right (PatternFrame.Right left) (forms stack.old) token.now
        ≡ machine.leads o (forms stack.new)) }
    ensures none { result ≡ Err SyntaxFault.Syntax →
        machine.pattern_in_frame right (PatternFrame.Right left) (forms stack.old) token.now
        ≡ machine.stuck }
{
    if is_mark(token, Sign::Backslash) {
        return Ok(Effect::Goes(ParserState::Read(make_closure(alloc, left, right)?)));
    }
    if is_word(token, Keyword::Where) {
        stack.push(ParserFrame::Strategy(StrategyFrame::Where(left, right)))?;
        return Ok(Effect::Goes(ParserState::Strategy));
    }
    drop(right);
    drop(left);
    Err(SyntaxFault::Syntax)
}

// After a pattern of a list, which was added to the list.
fn after_one(
    alloc: Global,
    group: PatternGroup,
    done: ItemList<Pattern>,
    stack: &mut ParserStack,
    token: &Token,
    place: Place,
) -> Result<Effect, SyntaxFault>
    ensures ok { IfOk result (λ o.
        machine.after_one group done (forms stack.old) token.now
        ≡ machine.leads o (forms stack.new)) }
    ensures none { result ≡ Err SyntaxFault.Syntax →
        machine.after_one group done (forms stack.old) token.now ≡ machine.stuck }
{
    if is_mark(token, Sign::Comma) {
        stack.push(ParserFrame::Pattern(PatternFrame::List(group, done)))?;
        return Ok(Effect::Goes(ParserState::Pattern));
    }
    if is_mark(token, closing_sign_of(&group)) {
        return Ok(Effect::Goes(close_patterns(alloc, group, done, place)?));
    }
    if is_mark(token, Sign::Bar) {
        return pattern_bar(group, done, stack);
    }
    drop(done);
    drop(group);
    Err(SyntaxFault::Syntax)
}

// A `|` after the patterns of a list.
fn pattern_bar(
    group: PatternGroup,
    done: ItemList<Pattern>,
    stack: &mut ParserStack,
) -> Result<Effect, SyntaxFault>
    ensures ok { IfOk result (λ o.
        machine.pattern_bar group done (forms stack.old) ≡ machine.leads o (forms stack.new)) }
    ensures none { result ≡ Err SyntaxFault.Syntax →
        machine.pattern_bar group done (forms stack.old) ≡ machine.stuck }
{
    match group {
        PatternGroup::List => {
            stack.push(ParserFrame::Pattern(PatternFrame::Tail(done)))?;
            Ok(Effect::Goes(ParserState::Pattern))
        }
        other => {
            drop(done);
            drop(other);
            Err(SyntaxFault::Syntax)
        }
    }
}
