//! The form that is open where a strategy or a module ends.

ghost use Rattle.std.specs.Prelude.{◌<◌, ℕ, length, IfOk, IfSome, All};

use crate::operand::ends_operand;
use std::alloc::Global;
use strategy_tokens::{Keyword, Sign, Token};
use term_core::NoMemory;

/// A form that is open at the end of a text.
#[derive(Clone, Copy, Debug, PartialEq, Eq)]
pub enum OpenForm {
    /// `(`
    Round,
    /// `[`
    Square,
    /// `{`
    Curly,
    /// The `<` before a strategy that is applied to a built pattern: `>` has to come.
    Application,
    /// The `<` after a strategy: `+` has to come.
    Guard,
    /// The `\` that begins a rule without a name: another one has to come.
    Closure,
    /// `if`, without its `then`.
    If,
    /// `if` with its `then`, without `else` or `end`.
    Then,
    /// `if` with its `then` and `else`, without its `end`.
    Else,
}

/// The token that begins an open form.
#[derive(Clone, Copy, Debug, PartialEq, Eq)]
pub struct OpenToken {
    /// Its number, counted from 0.
    pub token: usize,
    /// What it begins.
    pub form: OpenForm,
}

/// The innermost form that is open after these tokens, if there is one. The tokens begin a strategy
/// or a module.
///
/// Errors: `NoMemory` if memory can't grow.
pub fn innermost_open(alloc: Global, tokens: &[Token]) -> Result<Option<OpenToken>, NoMemory>
    ensures place { IfOk result (λ found. IfSome found (λ form. form.token < length tokens.now)) }
{
    let mut forms = Vec::new(alloc);
    let mut operand = false;
    for (number, token) in tokens.iter().enumerate() {
        match effect_of_token(token, operand) {
            Effect::None => {}
            Effect::Opens(form) => forms.push(OpenToken {
                token: number,
                form,
            })?,
            Effect::Closes => drop(forms.pop()),
            Effect::Turns(form) => turn(&mut forms, form),
        }
        operand = ends_operand(token, operand);
    }
    Ok(forms.pop())
}

// What a token does to the open forms.
#[derive(Clone, Copy)]
enum Effect {
    None,
    Opens(OpenForm),
    Closes,
    // The innermost form goes on as this one.
    Turns(OpenForm),
}

// The effect of a token, which comes after a whole strategy or pattern if `operand`.
fn effect_of_token(token: &Token, operand: bool) -> Effect {
    match token {
        Token::Sign(sign) => effect_of_sign(*sign, operand),
        Token::Reserved(word) => effect_of_word(*word),
        _ => Effect::None,
    }
}

fn effect_of_sign(sign: Sign, operand: bool) -> Effect {
    match sign {
        Sign::OpenRound => Effect::Opens(OpenForm::Round),
        Sign::OpenSquare => Effect::Opens(OpenForm::Square),
        Sign::OpenCurly => Effect::Opens(OpenForm::Curly),
        Sign::CloseRound | Sign::CloseSquare | Sign::CloseCurly => Effect::Closes,
        Sign::Greater | Sign::Plus => Effect::Closes,
        Sign::Less if operand => Effect::Opens(OpenForm::Guard),
        Sign::Less => Effect::Opens(OpenForm::Application),
        Sign::Backslash if operand => Effect::Closes,
        Sign::Backslash => Effect::Opens(OpenForm::Closure),
        _ => Effect::None,
    }
}

fn effect_of_word(word: Keyword) -> Effect {
    match word {
        Keyword::If => Effect::Opens(OpenForm::If),
        Keyword::Then => Effect::Turns(OpenForm::Then),
        Keyword::Else => Effect::Turns(OpenForm::Else),
        Keyword::End => Effect::Closes,
        _ => Effect::None,
    }
}

fn turn(forms: &mut Vec<OpenToken>, form: OpenForm)
    ensures before { (n : ℕ) → All (λ o. o.token < n) forms.old.items
        → All (λ o. o.token < n) forms.new.items }
{
    if let Some(innermost) = forms.last_mut() {
        innermost.form = form;
    }
}
