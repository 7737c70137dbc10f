//! The places in a module between two tokens: which tokens may come there, and the place after
//! each.

ghost use Rattle.std.specs.Prelude.{◌≡◌, ◌<◌, ◌^◌, true, IfOk};
ghost use Rattle.strategy_parse.specs.declared.modules.sorts.Turn.{Turn};
ghost use Rattle.strategy_parse.specs.inside.ModuleFronts.{sort_step};
ghost use Rattle.strategy_parse.specs.inside.ModulePlaces.{named, item, between, separated, sort_ended, after_header, after_names, first_name, after_part, next_place, open_brackets, CanEnd, Crossed};
ghost use Rattle.strategy_tokens.specs.declared.token.Token.{Token};

use crate::modules::sections::{Context, next_context};
use crate::modules::sorts::{SortState, Turn, sort_step};
use crate::parser::{pass_pattern, pass_strategy};
use std::alloc::Global;
use strategy_tokens::{Keyword, Sign, Token, is_mark, is_word};
use term_core::NoMemory;

/// What a sort is for.
#[derive(Clone, Copy)]
pub enum SortUse {
    /// It is one of a part of sorts.
    Item,
    /// It is the first of a declaration with a name: if no other and no arrow comes, the
    /// constructor's own.
    Constant,
    /// It is an argument: an arrow has to come.
    Argument,
    /// It comes after the arrow.
    Own,
}

/// The parameters of a definition.
#[derive(Clone, Copy)]
pub enum Parameters {
    Strategies,
    Terms,
}

/// A part of a definition that the machine reads.
#[derive(Clone, Copy)]
pub enum BodyPart {
    /// The body, or the condition of a rule
    Strategy,
    /// The left side of a rule
    Left,
    /// The right side of a rule
    Right,
}

/// A place in a module, by what was read last.
#[derive(Clone, Copy)]
pub enum ModulePlace {
    /// Nothing
    Start,
    /// `module`
    Titled,
    /// A title, a word that begins a part, or a whole item
    Between(Context),
    /// The name of a constructor
    Declared,
    /// A part of a sort, with this many open brackets
    Sort(SortUse, SortState, usize),
    /// The name of a definition
    Header,
    /// The sign before the first parameter
    FirstName(Parameters),
    /// A parameter
    Name(Parameters),
    /// A comma after a parameter
    Comma(Parameters),
    /// A header
    Headed,
    /// A part of a definition: where one begins, and after it
    Body(BodyPart),
}

/// The place after the token, if a module goes on with it. A part of a definition is whole.
pub fn next_place(place: ModulePlace, token: &Token) -> Option<ModulePlace>
    requires { open_brackets place < 2 ^ 63 }
    ensures { result ≡ next_place place token.now }
{
    match place {
        ModulePlace::Start => {
            if is_word(token, Keyword::Module) {
                return Some(ModulePlace::Titled);
            }
            between(Context::Outside, token)
        }
        ModulePlace::Titled => named(ModulePlace::Between(Context::Outside), token),
        ModulePlace::Between(context) => between(context, token),
        ModulePlace::Declared => {
            if is_mark(token, Sign::Colon) {
                return Some(ModulePlace::Sort(SortUse::Constant, SortState::Begins, 0));
            }
            None
        }
        ModulePlace::Sort(part, state, depth) => match sort_step(state, depth, token) {
            Turn::Reads(next, open) => Some(ModulePlace::Sort(part, next, open)),
            Turn::Ends => sort_ended(part, token),
            Turn::Stuck => None,
        },
        ModulePlace::Header => {
            if is_mark(token, Sign::OpenRound) {
                return Some(ModulePlace::FirstName(Parameters::Strategies));
            }
            after_header(token)
        }
        ModulePlace::FirstName(parameters) => first_name(parameters, token),
        ModulePlace::Name(parameters) => {
            if is_mark(token, Sign::Comma) {
                return Some(ModulePlace::Comma(parameters));
            }
            after_names(parameters, token)
        }
        ModulePlace::Comma(parameters) => named(ModulePlace::Name(parameters), token),
        ModulePlace::Headed => after_header(token),
        ModulePlace::Body(part) => after_part(part, token),
    }
}

// An identifier has to come, which leads to the place.
fn named(place: ModulePlace, token: &Token) -> Option<ModulePlace>
    ensures { result ≡ named place token.now }
{
    match token {
        Token::Ident(_) => Some(place),
        _ => None,
    }
}

// ---- between items

fn between(context: Context, token: &Token) -> Option<ModulePlace>
    ensures { result ≡ between context token.now }
{
    if let Token::Reserved(word) = token {
        return match next_context(context, *word) {
            Some(next) => Some(ModulePlace::Between(next)),
            None => None,
        };
    }
    item(context, token)
}

fn item(context: Context, token: &Token) -> Option<ModulePlace>
    ensures { result ≡ item context token.now }
{
    match context {
        Context::Outside => None,
        Context::Signature => None,
        Context::Sorts => named(ModulePlace::Sort(SortUse::Item, SortState::Named, 0), token),
        Context::Constructors => {
            if is_mark(token, Sign::Colon) {
                return Some(ModulePlace::Sort(SortUse::Argument, SortState::Begins, 0));
            }
            named(ModulePlace::Declared, token)
        }
        Context::Definitions => named(ModulePlace::Header, token),
    }
}

// ---- sorts

// After a whole sort.
fn sort_ended(part: SortUse, token: &Token) -> Option<ModulePlace>
    ensures { result ≡ sort_ended part token.now }
{
    match part {
        SortUse::Item => between(Context::Sorts, token),
        SortUse::Own => between(Context::Constructors, token),
        SortUse::Constant => separated(token, between(Context::Constructors, token)),
        SortUse::Argument => separated(token, None),
    }
}

// What separates the sorts of a declaration comes next, or else another token.
fn separated(token: &Token, other: Option<ModulePlace>) -> Option<ModulePlace>
    ensures { result ≡ separated token.now other }
{
    if is_mark(token, Sign::Star) {
        return Some(ModulePlace::Sort(SortUse::Argument, SortState::Begins, 0));
    }
    if is_mark(token, Sign::Arrow) {
        return Some(ModulePlace::Sort(SortUse::Own, SortState::Begins, 0));
    }
    other
}

// ---- definitions

fn after_header(token: &Token) -> Option<ModulePlace>
    ensures { result ≡ after_header token.now }
{
    if is_mark(token, Sign::Equals) {
        return Some(ModulePlace::Body(BodyPart::Strategy));
    }
    if is_mark(token, Sign::Colon) {
        return Some(ModulePlace::Body(BodyPart::Left));
    }
    None
}

fn first_name(parameters: Parameters, token: &Token) -> Option<ModulePlace>
    ensures { result ≡ first_name parameters token.now }
{
    match token {
        Token::Ident(_) => Some(ModulePlace::Name(parameters)),
        _ => after_names(parameters, token),
    }
}

fn after_names(parameters: Parameters, token: &Token) -> Option<ModulePlace>
    ensures { result ≡ after_names parameters token.now }
{
    if is_mark(token, Sign::CloseRound) {
        return Some(ModulePlace::Headed);
    }
    if is_mark(token, Sign::Bar) {
        return match parameters {
            Parameters::Strategies => Some(ModulePlace::FirstName(Parameters::Terms)),
            Parameters::Terms => None,
        };
    }
    None
}

// After a whole part of a definition.
fn after_part(part: BodyPart, token: &Token) -> Option<ModulePlace>
    ensures { result ≡ after_part part token.now }
{
    match part {
        BodyPart::Strategy => between(Context::Definitions, token),
        BodyPart::Left => {
            if is_mark(token, Sign::Arrow) {
                return Some(ModulePlace::Body(BodyPart::Right));
            }
            None
        }
        BodyPart::Right => {
            if is_word(token, Keyword::Where) {
                return Some(ModulePlace::Body(BodyPart::Strategy));
            }
            between(Context::Definitions, token)
        }
    }
}

// ---- the ends of items

/// Whether an item is whole before the token, or another has to begin there anyway. A sign with
/// which a strategy would go on belongs to the item.
pub fn ends_before(place: ModulePlace, token: &Token) -> bool
    ensures { result ≡ true → CanEnd place }
{
    match place {
        ModulePlace::Between(_) => true,
        ModulePlace::Sort(SortUse::Item, state, depth) => sort_ends(state, depth, token),
        ModulePlace::Sort(SortUse::Constant, state, depth) => {
            !is_mark(token, Sign::Arrow) && sort_ends(state, depth, token)
        }
        ModulePlace::Sort(SortUse::Own, state, depth) => sort_ends(state, depth, token),
        ModulePlace::Body(BodyPart::Strategy) => true,
        ModulePlace::Body(BodyPart::Right) => !is_word(token, Keyword::Where) && !prolongs(token),
        _ => false,
    }
}

// Whether a sort is whole before the token, and is no argument.
fn sort_ends(state: SortState, depth: usize, token: &Token) -> bool
    ensures { result ≡ true → sort_step state depth Token.Bad ≡ Turn.Ends }
{
    match state {
        SortState::Begins => false,
        SortState::Named => {
            depth == 0 && !is_mark(token, Sign::OpenRound) && !is_mark(token, Sign::Star)
        }
        SortState::Closed => depth == 0 && !is_mark(token, Sign::Star),
    }
}

// Whether a strategy goes on with the token.
fn prolongs(token: &Token) -> bool {
    matches!(
        token,
        Token::Sign(Sign::FatArrow | Sign::Semicolon | Sign::LeftChoice | Sign::Less)
    )
}

// ---- the parts of definitions

/// Passes over a part of a definition, if one begins here: whether it ends before the first token
/// that isn't passed, and the tokens from that one on.
pub fn cross<'a>(
    alloc: Global,
    place: ModulePlace,
    tokens: &'a [Token],
) -> Result<(bool, &'a [Token]), NoMemory>
    ensures { IfOk result (λ r. Crossed place tokens.now r.0 r.1.now) }
{
    match place {
        ModulePlace::Body(BodyPart::Strategy) => pass_strategy(alloc, tokens),
        ModulePlace::Body(_) => pass_pattern(alloc, tokens),
        _ => Ok((true, tokens)),
    }
}
