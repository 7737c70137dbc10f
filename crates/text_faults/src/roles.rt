//! What the tokens of a definition or a strategy are used for.

ghost use Rattle.std.specs.Prelude.{◌≡◌, length, vec_len, IfOk};

use crate::operand::ends_operand;
use std::alloc::Global;
use strategy_tokens::{Keyword, Sign, Token};
use term_core::NoMemory;

/// What a token is used for.
#[derive(Clone, Copy, Debug, PartialEq, Eq)]
pub enum Role {
    /// The name of the definition.
    Definition,
    /// A name in the header, in the list of a scope, or after `rec`.
    Binding,
    /// A part of a strategy.
    Strategy,
    /// A part of a pattern that is matched.
    Matched,
    /// A part of a pattern that is built.
    Built,
}

/// The roles of these tokens, which are a definition.
///
/// Errors: `NoMemory` if memory can't grow.
pub fn roles_in_definition(alloc: Global, tokens: &[Token]) -> Result<Vec<Role>, NoMemory>
    ensures each { IfOk result (λ roles. vec_len roles ≡ length tokens.now) }
{
    roles_from(alloc, tokens, Role::Definition)
}

/// The roles of these tokens, which are a strategy.
///
/// Errors: `NoMemory` if memory can't grow.
pub fn roles_in_strategy(alloc: Global, tokens: &[Token]) -> Result<Vec<Role>, NoMemory>
    ensures each { IfOk result (λ roles. vec_len roles ≡ length tokens.now) }
{
    roles_from(alloc, tokens, Role::Strategy)
}

// An open form: the role after it, and the role after a `|` in it.
#[derive(Clone, Copy)]
struct Form {
    after: Role,
    after_bar: Role,
}

// What was read last.
#[derive(Clone, Copy)]
struct Last {
    // Whether a whole strategy or pattern ended.
    operand: bool,
    // Whether it was `prim`.
    prim: bool,
    // Whether it was `rec`.
    rec: bool,
}

fn roles_from(alloc: Global, tokens: &[Token], first: Role) -> Result<Vec<Role>, NoMemory>
    ensures each { IfOk result (λ roles. vec_len roles ≡ length tokens.now) }
{
    let mut roles = Vec::new(alloc);
    let mut open = Vec::new(alloc);
    let mut role = first;
    let mut last = Last {
        operand: false,
        prim: false,
        rec: false,
    };
    for token in tokens {
        let here = if last.rec { Role::Binding } else { role };
        roles.push(here)?;
        role = match effect_of_token(role, last, token) {
            Effect::Goes(next) => next,
            Effect::Opens(form, inside) => {
                open.push(form)?;
                inside
            }
            Effect::Closes => closed(open.pop(), role),
            Effect::Bar => after_bar(open.last().copied(), role),
        };
        last = Last {
            operand: ends_operand(token, last.operand),
            prim: matches!(token, Token::Reserved(Keyword::Prim)),
            rec: matches!(token, Token::Reserved(Keyword::Rec)),
        };
    }
    Ok(roles)
}

fn closed(form: Option<Form>, role: Role) -> Role {
    match form {
        Some(form) => form.after,
        None => role,
    }
}

fn after_bar(form: Option<Form>, role: Role) -> Role {
    match form {
        Some(form) => form.after_bar,
        None => role,
    }
}

// What a token leads to.
#[derive(Clone, Copy)]
enum Effect {
    Goes(Role),
    Opens(Form, Role),
    Closes,
    Bar,
}

fn effect_of_token(role: Role, last: Last, token: &Token) -> Effect {
    match role {
        Role::Definition | Role::Binding => effect_in_names(role, token),
        _ => match token {
            Token::Sign(sign) => effect_of_sign(role, last, *sign),
            Token::Reserved(Keyword::Where | Keyword::Then | Keyword::Else) => {
                Effect::Goes(Role::Strategy)
            }
            _ => Effect::Goes(role),
        },
    }
}

// In the header of a definition, or in the list of a scope.
fn effect_in_names(role: Role, token: &Token) -> Effect {
    match token {
        Token::Sign(Sign::Equals) => Effect::Goes(Role::Strategy),
        Token::Sign(Sign::Colon) => match role {
            Role::Definition => Effect::Goes(Role::Matched),
            _ => Effect::Goes(Role::Strategy),
        },
        Token::Sign(Sign::OpenRound) => Effect::Opens(
            Form {
                after: Role::Definition,
                after_bar: Role::Binding,
            },
            Role::Binding,
        ),
        Token::Sign(Sign::CloseRound) => Effect::Closes,
        _ => Effect::Goes(role),
    }
}

fn effect_of_sign(role: Role, last: Last, sign: Sign) -> Effect {
    match sign {
        Sign::Question | Sign::FatArrow => Effect::Goes(Role::Matched),
        Sign::Exclamation | Sign::Arrow => Effect::Goes(Role::Built),
        Sign::Semicolon | Sign::LeftChoice | Sign::Plus => Effect::Goes(Role::Strategy),
        Sign::CloseRound | Sign::CloseSquare | Sign::CloseCurly | Sign::Greater => Effect::Closes,
        Sign::Bar => Effect::Bar,
        Sign::Less if last.operand => Effect::Goes(Role::Strategy),
        Sign::Less => opens(Role::Built, Role::Strategy, Role::Strategy),
        Sign::Backslash if last.operand => Effect::Closes,
        Sign::Backslash => opens(Role::Strategy, Role::Matched, Role::Matched),
        Sign::OpenCurly if !last.operand => opens(Role::Strategy, Role::Strategy, Role::Binding),
        Sign::OpenRound if last.prim => opens(role, Role::Built, Role::Built),
        Sign::OpenRound if matches!(role, Role::Strategy) => opens(role, Role::Built, role),
        Sign::OpenRound | Sign::OpenSquare | Sign::OpenCurly => opens(role, role, role),
        _ => Effect::Goes(role),
    }
}

fn opens(after: Role, after_bar: Role, inside: Role) -> Effect {
    Effect::Opens(Form { after, after_bar }, inside)
}
