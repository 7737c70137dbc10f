//! The state of the parser between two tokens: what was read last, and the open forms.

use crate::parser::lists::ItemList;
use strategy_syntax::{Pattern, Strategy};
use term_core::Name;

/// What was read last.
#[derive(Drop)]
pub enum ParserState {
    /// A strategy has to begin.
    Strategy,
    /// After the opening bracket of a list of strategies: one may begin, or the list may end.
    FirstStrategy(StrategyGroup),
    /// A strategy, which may continue.
    Read(Strategy),
    /// An identifier that uses a strategy. Its arguments may come.
    Used(Name),
    /// Words before a round bracket, which is required and opens this form.
    Opening(StrategyFrame),
    /// `rec`
    Rec,
    /// `prim`
    Prim,
    /// `prim (`
    PrimOpen,
    /// `prim (` and the primitive's name
    PrimNamed(Name),
    /// `{`, where the names of a scope or a `:` may come
    ScopeOpen,
    /// `{`, names, and a comma
    ScopeComma(ItemList<Name>),
    /// `{` and names
    ScopeNamed(ItemList<Name>),
    /// A pattern has to begin.
    Pattern,
    /// After the opening bracket of a list of patterns: one may begin, or the list may end.
    FirstPattern(PatternGroup),
    /// An identifier in a pattern. Its arguments or `@` may come.
    Named(Name),
    /// A pattern that may still get annotations.
    Base(Pattern),
    /// A pattern with its annotations.
    Whole(Pattern),
}

/// An open form, with what was read of it.
#[derive(Drop)]
pub enum ParserFrame {
    /// Below all other forms: the strategy is read in the order of the text.
    InText,
    /// A strategy and the operator after it
    Operand(Infix, Strategy),
    /// `x @`
    At(Name),
    /// A form that continues after a whole strategy
    Strategy(StrategyFrame),
    /// A form that continues after a whole pattern
    Pattern(PatternFrame),
}

/// An operator between strategies.
#[derive(Clone, Copy, PartialEq, Eq)]
pub enum Infix {
    /// `;`
    Before,
    /// `<`, or the `<` of a `<+`
    Guarded,
    /// `+` after an `s <`; or the `+` of a `<+`, before which `id` is implied
    Otherwise,
}

/// An open form that needs a strategy, which ends before a token of the form.
#[derive(Drop)]
pub enum StrategyFrame {
    /// A word and `(`
    Operator(Operator),
    /// `rec x (`
    Rec(Name),
    /// `i (`
    Child(usize),
    /// `{ x, .. :`
    Scope(ItemList<Name>),
    /// `<`, before a strategy that is applied to a built pattern
    Application,
    /// `if`
    If,
    /// `if s then`
    Then(Strategy),
    /// `if s then r else`
    Else(Strategy, Strategy),
    /// `\ l -> r where`
    Where(Pattern, Pattern),
    /// A list of strategies
    List(StrategyGroup, ItemList<Strategy>),
    /// `[ s, .. |`
    Tail(ItemList<Strategy>),
}

/// An open form that needs a pattern.
#[derive(Drop)]
pub enum PatternFrame {
    /// `?`
    Match,
    /// `!`
    Build,
    /// `< s >`
    Applied(Strategy),
    /// `s =>`
    Matched(Strategy),
    /// `\`
    Left,
    /// `\ l ->`
    Right(Pattern),
    /// A list of patterns
    List(PatternGroup, ItemList<Pattern>),
    /// `[ p, .. |`
    Tail(ItemList<Pattern>),
}

/// The order in which parts of a form are put together.
#[derive(Clone, Copy)]
pub enum Order {
    /// As they are run
    Run,
    /// As they are written
    Written,
}

/// The words that may come before a single strategy in brackets.
#[derive(Clone, Copy)]
pub enum Operator {
    /// `all`
    All,
    /// `one`
    One,
    /// `some`
    Some,
    /// `not`
    Not,
    /// `where`
    Where,
    /// `test`
    Test,
}

/// What a list of strategies belongs to.
#[derive(Drop)]
pub enum StrategyGroup {
    /// `( s, .. )`
    Round,
    /// `[ s, .. ]`, or `[ s, .. | s ]`
    Square,
    /// `f ( s, .. )`, or `f ( s, .. | p, .. )`
    Arguments(Name),
}

/// What a list of patterns belongs to.
#[derive(Drop)]
pub enum PatternGroup {
    /// `c ( p, .. )`
    Application(Name),
    /// `[ p, .. ]`, or `[ p, .. | p ]`
    List,
    /// `( p, .. )`
    Tuple,
    /// `p { q, .. }`
    Annotations(Pattern),
    /// `f ( s, .. | p, .. )`
    Terms(Name, ItemList<Strategy>),
    /// `prim ( n, p, .. )`
    Prim(Name),
}

/// The effect of a token.
#[derive(Drop)]
pub enum Effect {
    /// It was read, and this was read last.
    Goes(ParserState),
    /// It belongs to no open form: a whole strategy ended before it.
    Ends(Strategy),
}
