//! One step of the parser.

ghost use Rattle.std.specs.Prelude.{◌≡◌, ◌∷◌, [], IfOk, Err, List};
ghost use Rattle.strategy_parse.specs.inside.Forms.{forms};
ghost use Rattle.strategy_parse.specs.inside.Parser as machine;
ghost use Rattle.strategy_parse.specs.declared.parser.state.ParserFrame.{ParserFrame};
ghost use Rattle.strategy_syntax.specs.Syntax as syntax;

use crate::parser::after::after;
use crate::parser::expect::expect;
use crate::parser::fault::SyntaxFault;
use crate::parser::lists::ItemList;
use crate::parser::patterns::{after_base, after_pattern, begin_pattern, first_pattern};
use crate::parser::stack::ParserStack;
use crate::parser::state::{
    Effect, ParserFrame, ParserState, PatternFrame, PatternGroup, StrategyFrame, StrategyGroup,
};
use crate::parser::strategies::{begin, first_strategy};
use std::alloc::Global;
use strategy_syntax::{Pattern, PatternForm, Place, Strategy, StrategyForm};
use strategy_tokens::{Sign, Token, is_mark};
use term_core::Name;

/// Reads one token, which stands there.
pub fn step(
    alloc: Global,
    state: ParserState,
    stack: &mut ParserStack,
    token: &Token,
    place: Place,
) -> Result<Effect, SyntaxFault>
    ensures ok { IfOk result (λ o.
        machine.step state (forms stack.old) token.now ≡ machine.leads o (forms stack.new)) }
    ensures none { result ≡ Err SyntaxFault.Syntax →
        machine.step state (forms stack.old) token.now ≡ machine.stuck }
{
    match state {
        ParserState::Strategy => begin(stack, token, place),
        ParserState::FirstStrategy(group) => first_strategy(alloc, group, stack, token, place),
        ParserState::Read(strategy) => after(alloc, strategy, stack, token),
        ParserState::Used(name) => after_used(alloc, name, stack, token, place),
        ParserState::Opening(frame) => open_frame(frame, stack, token),
        ParserState::Rec => rec_name(token),
        ParserState::Prim => {
            expect(token, Sign::OpenRound)?;
            Ok(Effect::Goes(ParserState::PrimOpen))
        }
        ParserState::PrimOpen => prim_name(token),
        ParserState::PrimNamed(name) => after_prim(alloc, name, stack, token, place),
        ParserState::ScopeOpen => first_scope_name(alloc, stack, token),
        ParserState::ScopeComma(names) => scope_name(names, token),
        ParserState::ScopeNamed(names) => after_scope_name(names, stack, token),
        ParserState::Pattern => begin_pattern(alloc, token, place),
        ParserState::FirstPattern(group) => first_pattern(alloc, group, stack, token, place),
        ParserState::Named(name) => after_named(alloc, name, stack, token, place),
        ParserState::Base(pattern) => after_base(alloc, pattern, stack, token),
        ParserState::Whole(pattern) => after_pattern(alloc, pattern, stack, token),
    }
}

// After an identifier that uses a strategy.
fn after_used(
    alloc: Global,
    name: Name,
    stack: &mut ParserStack,
    token: &Token,
    place: Place,
) -> Result<Effect, SyntaxFault>
    ensures ok { IfOk result (λ o.
        machine.step (ParserState.Used name) (forms stack.old) token.now
        ≡ machine.leads o (forms stack.new)) }
    ensures none { result ≡ Err SyntaxFault.Syntax →
        machine.step (ParserState.Used name) (forms stack.old) token.now ≡ machine.stuck }
{
    if is_mark(token, Sign::OpenRound) {
        return Ok(Effect::Goes(ParserState::FirstStrategy(StrategyGroup::Arguments(name))));
    }
    let form = StrategyForm::Use(name, Vec::new(alloc), Vec::new(alloc));
    after(
        alloc,
        Strategy::new(form).at(place.previous()),
        stack,
        token,
    )
}

// After a word that comes before a strategy in brackets.
fn open_frame(
    frame: StrategyFrame,
    stack: &mut ParserStack,
    token: &Token,
) -> Result<Effect, SyntaxFault>
    ensures ok { IfOk result (λ o.
        machine.step (ParserState.Opening frame) (forms stack.old) token.now
        ≡ machine.leads o (forms stack.new)) }
    ensures none { result ≡ Err SyntaxFault.Syntax →
        machine.step (ParserState.Opening frame) (forms stack.old) token.now ≡ machine.stuck }
{
    if is_mark(token, Sign::OpenRound) {
        stack.push(ParserFrame::Strategy(frame))?;
        return Ok(Effect::Goes(ParserState::Strategy));
    }
    drop(frame);
    Err(SyntaxFault::Syntax)
}

// The name after `rec` has to come.
fn rec_name(token: &Token) -> Result<Effect, SyntaxFault>
    ensures ok { IfOk result (λ o. (S : List ParserFrame) →
        machine.rec_name S token.now ≡ machine.leads o S) }
    ensures none { result ≡ Err SyntaxFault.Syntax → (S : List ParserFrame) →
        machine.rec_name S token.now ≡ machine.stuck }
{
    match token {
        Token::Ident(name) => Ok(Effect::Goes(ParserState::Opening(StrategyFrame::Rec(
            name.try_clone()?,
        )))),
        _ => Err(SyntaxFault::Syntax),
    }
}

// The name of a primitive has to come.
fn prim_name(token: &Token) -> Result<Effect, SyntaxFault>
    ensures ok { IfOk result (λ o. (S : List ParserFrame) →
        machine.prim_name S token.now ≡ machine.leads o S) }
    ensures none { result ≡ Err SyntaxFault.Syntax → (S : List ParserFrame) →
        machine.prim_name S token.now ≡ machine.stuck }
{
    match token {
        Token::Text(name) => Ok(Effect::Goes(ParserState::PrimNamed(name.try_clone()?))),
        _ => Err(SyntaxFault::Syntax),
    }
}

// After the name of a primitive.
fn after_prim(
    alloc: Global,
    name: Name,
    stack: &mut ParserStack,
    token: &Token,
    place: Place,
) -> Result<Effect, SyntaxFault>
    ensures ok { IfOk result (λ o.
        machine.step (ParserState.PrimNamed name) (forms stack.old) token.now
        ≡ machine.leads o (forms stack.new)) }
    ensures none { result ≡ Err SyntaxFault.Syntax →
        machine.step (ParserState.PrimNamed name) (forms stack.old) token.now ≡ machine.stuck }
{
    if is_mark(token, Sign::Comma) {
        stack.push(ParserFrame::Pattern(PatternFrame::List(
            PatternGroup::Prim(name),
            ItemList::new(alloc),
        )))?;
        return Ok(Effect::Goes(ParserState::Pattern));
    }
    if is_mark(token, Sign::CloseRound) {
        let form = StrategyForm::Prim(name, Vec::new(alloc));
        let strategy = Strategy::new(form).at(place.begun(3));
        return Ok(Effect::Goes(ParserState::Read(strategy)));
    }
    drop(name);
    Err(SyntaxFault::Syntax)
}

// The first name of a scope has to come, or the end of the names.
fn first_scope_name(
    alloc: Global,
    stack: &mut ParserStack,
    token: &Token,
) -> Result<Effect, SyntaxFault>
    ensures ok { IfOk result (λ o.
        machine.step ParserState.ScopeOpen (forms stack.old) token.now
        ≡ machine.leads o (forms stack.new)) }
    ensures none { result ≡ Err SyntaxFault.Syntax →
        machine.step ParserState.ScopeOpen (forms stack.old) token.now ≡ machine.stuck }
{
    if is_mark(token, Sign::Colon) {
        return begin_scope(ItemList::new(alloc), stack);
    }
    scope_name(ItemList::new(alloc), token)
}

// A name of a scope has to come.
fn scope_name(names: ItemList<Name>, token: &Token) -> Result<Effect, SyntaxFault>
    ensures ok { IfOk result (λ o. (S : List ParserFrame) →
        machine.scope_name names S token.now ≡ machine.leads o S) }
    ensures none { result ≡ Err SyntaxFault.Syntax → (S : List ParserFrame) →
        machine.scope_name names S token.now ≡ machine.stuck }
{
    match token {
        Token::Ident(name) => {
            let names = names.with(name.try_clone()?)?;
            Ok(Effect::Goes(ParserState::ScopeNamed(names)))
        }
        _ => Err(SyntaxFault::Syntax),
    }
}

// After a name of a scope.
fn after_scope_name(
    names: ItemList<Name>,
    stack: &mut ParserStack,
    token: &Token,
) -> Result<Effect, SyntaxFault>
    ensures ok { IfOk result (λ o.
        machine.step (ParserState.ScopeNamed names) (forms stack.old) token.now
        ≡ machine.leads o (forms stack.new)) }
    ensures none { result ≡ Err SyntaxFault.Syntax →
        machine.step (ParserState.ScopeNamed names) (forms stack.old) token.now ≡ machine.stuck }
{
    if is_mark(token, Sign::Colon) {
        return begin_scope(names, stack);
    }
    if is_mark(token, Sign::Comma) {
        return Ok(Effect::Goes(ParserState::ScopeComma(names)));
    }
    drop(names);
    Err(SyntaxFault::Syntax)
}

// After the names of a scope.
fn begin_scope(names: ItemList<Name>, stack: &mut ParserStack) -> Result<Effect, SyntaxFault>
    ensures ok { IfOk result (λ o. machine.begin_scope names (forms stack.old)
        ≡ machine.leads o (forms stack.new)) }
    ensures none { result ≡ Err SyntaxFault.Syntax →
        machine.begin_scope names (forms stack.old) ≡ machine.stuck }
{
    stack.push(ParserFrame::Strategy(StrategyFrame::Scope(names)))?;
    Ok(Effect::Goes(ParserState::Strategy))
}

// After an identifier in a pattern.
fn after_named(
    alloc: Global,
    name: Name,
    stack: &mut ParserStack,
    token: &Token,
    place: Place,
) -> Result<Effect, SyntaxFault>
    ensures ok { IfOk result (λ o.
        machine.step (ParserState.Named name) (forms stack.old) token.now
        ≡ machine.leads o (forms stack.new)) }
    ensures none { result ≡ Err SyntaxFault.Syntax →
        machine.step (ParserState.Named name) (forms stack.old) token.now ≡ machine.stuck }
{
    if is_mark(token, Sign::OpenRound) {
        return Ok(Effect::Goes(ParserState::FirstPattern(PatternGroup::Application(name))));
    }
    if is_mark(token, Sign::At) {
        stack.push(ParserFrame::At(name))?;
        return Ok(Effect::Goes(ParserState::Pattern));
    }
    let pattern = Pattern::new(PatternForm::Variable(name)).at(place.previous());
    after_base(alloc, pattern, stack, token)
}
