//! Strategies: what may begin one.

ghost use Rattle.std.specs.Prelude.{◌≡◌, ◌∷◌, [], IfOk, Err, List};
ghost use Rattle.strategy_parse.specs.declared.parser.state.ParserFrame.{ParserFrame};
ghost use Rattle.strategy_syntax.specs.Syntax as syntax;
ghost use Rattle.strategy_parse.specs.inside.Forms.{forms};
ghost use Rattle.strategy_parse.specs.inside.Parser as machine;

use crate::parser::fault::SyntaxFault;
use crate::parser::group::{closing_of, make_group};
use crate::parser::lists::ItemList;
use crate::parser::make::{make_fail, make_id};
use crate::parser::stack::ParserStack;
use crate::parser::state::{
    Effect, Operator, ParserFrame, ParserState, PatternFrame, PatternGroup, StrategyFrame,
    StrategyGroup,
};
use std::alloc::Global;
use strategy_syntax::Place;
use strategy_tokens::{Keyword, Sign, Token, is_mark};

/// A strategy has to begin here.
pub fn begin(stack: &mut ParserStack, token: &Token, place: Place) -> Result<Effect, SyntaxFault>
    ensures ok { IfOk result (λ o. machine.begin (forms stack.old) token.now
        ≡ machine.leads o (forms stack.new)) }
    ensures none { result ≡ Err SyntaxFault.Syntax → machine.begin (forms stack.old) token.now
        ≡ machine.stuck }
{
    match token {
        Token::Sign(sign) => begin_sign(stack, *sign),
        Token::Reserved(word) => begin_word(stack, *word, place),
        Token::Ident(name) => Ok(Effect::Goes(ParserState::Used(name.try_clone()?))),
        Token::Integer(index) => begin_child(*index),
        _ => Err(SyntaxFault::Syntax),
    }
}

fn begin_sign(stack: &mut ParserStack, sign: Sign) -> Result<Effect, SyntaxFault>
    ensures ok { IfOk result (λ o. machine.begin_sign (forms stack.old) sign
        ≡ machine.leads o (forms stack.new)) }
    ensures none { result ≡ Err SyntaxFault.Syntax → machine.begin_sign (forms stack.old) sign
        ≡ machine.stuck }
{
    match sign {
        Sign::Question => {
            stack.push(ParserFrame::Pattern(PatternFrame::Match))?;
            Ok(Effect::Goes(ParserState::Pattern))
        }
        Sign::Exclamation => {
            stack.push(ParserFrame::Pattern(PatternFrame::Build))?;
            Ok(Effect::Goes(ParserState::Pattern))
        }
        Sign::Backslash => {
            stack.push(ParserFrame::Pattern(PatternFrame::Left))?;
            Ok(Effect::Goes(ParserState::Pattern))
        }
        Sign::Less => {
            stack.push(ParserFrame::Strategy(StrategyFrame::Application))?;
            Ok(Effect::Goes(ParserState::Strategy))
        }
        Sign::OpenCurly => Ok(Effect::Goes(ParserState::ScopeOpen)),
        Sign::OpenRound => Ok(Effect::Goes(ParserState::FirstStrategy(StrategyGroup::Round))),
        Sign::OpenSquare => Ok(Effect::Goes(ParserState::FirstStrategy(StrategyGroup::Square))),
        _ => Err(SyntaxFault::Syntax),
    }
}

fn begin_word(stack: &mut ParserStack, word: Keyword, place: Place) -> Result<Effect, SyntaxFault>
    ensures ok { IfOk result (λ o. machine.begin_word (forms stack.old) word
        ≡ machine.leads o (forms stack.new)) }
    ensures none { result ≡ Err SyntaxFault.Syntax → machine.begin_word (forms stack.old) word
        ≡ machine.stuck }
{
    match word {
        Keyword::Id => Ok(Effect::Goes(ParserState::Read(make_id().at(place)))),
        Keyword::Fail => Ok(Effect::Goes(ParserState::Read(make_fail().at(place)))),
        Keyword::All => Ok(Effect::Goes(ParserState::Opening(StrategyFrame::Operator(
            Operator::All,
        )))),
        Keyword::One => Ok(Effect::Goes(ParserState::Opening(StrategyFrame::Operator(
            Operator::One,
        )))),
        Keyword::Some => Ok(Effect::Goes(ParserState::Opening(StrategyFrame::Operator(
            Operator::Some,
        )))),
        Keyword::Not => Ok(Effect::Goes(ParserState::Opening(StrategyFrame::Operator(
            Operator::Not,
        )))),
        Keyword::Where => Ok(Effect::Goes(ParserState::Opening(StrategyFrame::Operator(
            Operator::Where,
        )))),
        Keyword::Test => Ok(Effect::Goes(ParserState::Opening(StrategyFrame::Operator(
            Operator::Test,
        )))),
        Keyword::If => {
            stack.push(ParserFrame::Strategy(StrategyFrame::If))?;
            Ok(Effect::Goes(ParserState::Strategy))
        }
        Keyword::Rec => Ok(Effect::Goes(ParserState::Rec)),
        Keyword::Prim => Ok(Effect::Goes(ParserState::Prim)),
        _ => Err(SyntaxFault::Syntax),
    }
}

// A number before a strategy in brackets: children are counted from 1.
fn begin_child(index: i64) -> Result<Effect, SyntaxFault>
    ensures ok { IfOk result (λ o. (S : List ParserFrame) → machine.begin_child S index
        ≡ machine.leads o S) }
    ensures none { result ≡ Err SyntaxFault.Syntax → (S : List ParserFrame) → machine.begin_child S index
        ≡ machine.stuck }
{
    if index < 1 {
        return Err(SyntaxFault::Syntax);
    }
    Ok(Effect::Goes(ParserState::Opening(StrategyFrame::Child(index as usize))))
}

/// After the opening bracket of a list of strategies: it ends, or a strategy has to begin.
pub fn first_strategy(
    alloc: Global,
    group: StrategyGroup,
    stack: &mut ParserStack,
    token: &Token,
    place: Place,
) -> Result<Effect, SyntaxFault>
    ensures ok { IfOk result (λ o.
        machine.first_strategy group (forms stack.old) token.now
        ≡ machine.leads o (forms stack.new)) }
    ensures none { result ≡ Err SyntaxFault.Syntax →
        machine.first_strategy group (forms stack.old) token.now ≡ machine.stuck }
{
    if is_mark(token, closing_of(&group)) {
        let whole = make_group(alloc, group, ItemList::new(alloc), place);
        return Ok(Effect::Goes(ParserState::Read(whole)));
    }
    if is_mark(token, Sign::Bar) {
        return empty_bar(alloc, group);
    }
    stack.push(ParserFrame::Strategy(StrategyFrame::List(group, ItemList::new(alloc))))?;
    begin(stack, token, place)
}

// A `|` right after an opening bracket.
fn empty_bar(alloc: Global, group: StrategyGroup) -> Result<Effect, SyntaxFault>
    ensures ok { IfOk result (λ o. (S : List ParserFrame) →
        machine.empty_bar group S ≡ machine.leads o S) }
    ensures none { result ≡ Err SyntaxFault.Syntax → (S : List ParserFrame) →
        machine.empty_bar group S ≡ machine.stuck }
{
    match group {
        StrategyGroup::Arguments(name) => {
            let terms = PatternGroup::Terms(name, ItemList::new(alloc));
            Ok(Effect::Goes(ParserState::FirstPattern(terms)))
        }
        _ => Err(SyntaxFault::Syntax),
    }
}
