//! Sorts: those of declarations are kept, and others are passed over.
#![tactic(auto, using(crate::proofs::SortLemmas::sort_rules))]

ghost use Rattle.std.specs.Prelude.{◌≡◌, ◌<◌, ◌^◌, ◌∷◌, [], length, IfOk, IfSome, IfNone, Err, Some, None};
ghost use Rattle.strategy_parse.specs.inside.ModuleFronts.{sort_step, after_sort, sorts_at, sort_at, kept_at, one_kept};

use crate::modules::sort_stack::SortStack;
use crate::parser::SyntaxFault;
use std::alloc::Global;
use strategy_tokens::{Sign, Token, is_mark};
use term_sorts::Sort;

/// What was read last of a sort.
#[derive(Clone, Copy)]
pub enum SortState {
    /// Nothing: an identifier has to come.
    Begins,
    /// An identifier, after which sorts in brackets may come.
    Named,
    /// A closing bracket.
    Closed,
}

/// The effect of a token.
#[derive(Clone, Copy)]
pub enum Turn {
    /// It was read, and this many brackets are open after it.
    Reads(SortState, usize),
    /// A whole sort ended before it.
    Ends,
    /// No sort continues with it.
    Stuck,
}

/// Reads one token, if `depth` brackets are open.
pub fn sort_step(place: SortState, depth: usize, token: &Token) -> Turn
    requires { depth < 2 ^ 63 }
    ensures { result ≡ sort_step place depth token.now }
{
    match place {
        SortState::Begins => match token {
            Token::Ident(_) => Turn::Reads(SortState::Named, depth),
            _ => Turn::Stuck,
        },
        SortState::Named => {
            if is_mark(token, Sign::OpenRound) {
                return Turn::Reads(SortState::Begins, depth + 1);
            }
            after_sort(depth, token)
        }
        SortState::Closed => after_sort(depth, token),
    }
}

// The token after a whole sort, which may be in brackets.
fn after_sort(depth: usize, token: &Token) -> Turn
    ensures { result ≡ after_sort depth token.now }
{
    if depth == 0 {
        return Turn::Ends;
    }
    if is_mark(token, Sign::Comma) {
        return Turn::Reads(SortState::Begins, depth);
    }
    if is_mark(token, Sign::CloseRound) {
        return Turn::Reads(SortState::Closed, depth - 1);
    }
    Turn::Stuck
}

/// The number of sorts at the start of the tokens, at least one, separated by `*`, and the rest.
pub fn skip_sorts<'a>(tokens: &'a [Token]) -> Result<(usize, &'a [Token]), SyntaxFault>
    ensures ok { IfOk result (λ r. sorts_at tokens.now ≡ Some (r.0, r.1.now)) }
    ensures none { result ≡ Err SyntaxFault.Syntax → sorts_at tokens.now ≡ None }
    ensures memory { result ≡ Err SyntaxFault.Memory → ⊥ }
{
    let mut count = 1usize;
    let mut place = SortState::Begins;
    let mut depth = 0usize;
    let mut left = tokens;
    while let Some((token, rest)) = left.split_first() {
        match sort_step(place, depth, token) {
            Turn::Reads(next, open) => {
                place = next;
                depth = open;
            }
            Turn::Ends => {
                if !is_mark(token, Sign::Star) {
                    return Ok((count, left));
                }
                count += 1;
                place = SortState::Begins;
            }
            Turn::Stuck => return Err(SyntaxFault::Syntax),
        }
        left = rest;
    }
    match sort_step(place, depth, &Token::Bad) {
        Turn::Ends => Ok((count, left)),
        _ => Err(SyntaxFault::Syntax),
    }
}

/// The tokens after the sort at the start.
pub fn skip_sort<'a>(tokens: &'a [Token]) -> Result<&'a [Token], SyntaxFault>
    ensures ok { IfOk result (λ rest. sort_at tokens.now ≡ Some rest.now) }
    ensures none { result ≡ Err SyntaxFault.Syntax → sort_at tokens.now ≡ None }
    ensures memory { result ≡ Err SyntaxFault.Memory → ⊥ }
{
    let (count, rest) = skip_sorts(tokens)?;
    if count != 1 {
        return Err(SyntaxFault::Syntax);
    }
    Ok(rest)
}

/// The sorts at the start of the tokens, at least one, separated by `*`, and the rest.
#[tactic(auto, using(crate::proofs::SortLemmas::kept_rules))]
pub fn read_sorts<'a>(
    alloc: Global,
    tokens: &'a [Token],
) -> Result<(Vec<Sort>, &'a [Token]), SyntaxFault>
    ensures ok { IfOk result (λ r. kept_at tokens.now ≡ Some (r.0.items, r.1.now)) }
    ensures none { result ≡ Err SyntaxFault.Syntax → kept_at tokens.now ≡ None }
{
    let mut stack = SortStack::new(alloc);
    let mut place = SortState::Begins;
    let mut depth = 0usize;
    let mut left = tokens;
    while let Some((token, rest)) = left.split_first() {
        match sort_step(place, depth, token) {
            Turn::Reads(next, open) => {
                stack.take(alloc, token, rest)?;
                place = next;
                depth = open;
            }
            Turn::Ends => {
                if !is_mark(token, Sign::Star) {
                    return Ok((stack.into_sorts(), left));
                }
                place = SortState::Begins;
            }
            Turn::Stuck => return Err(SyntaxFault::Syntax),
        }
        left = rest;
    }
    match sort_step(place, depth, &Token::Bad) {
        Turn::Ends => Ok((stack.into_sorts(), left)),
        _ => Err(SyntaxFault::Syntax),
    }
}

/// The sort at the start of the tokens, and the rest.
#[tactic(auto, using(crate::proofs::SortLemmas::kept_rules))]
pub fn read_sort<'a>(alloc: Global, tokens: &'a [Token]) -> Result<(Sort, &'a [Token]), SyntaxFault>
    ensures ok { IfOk result (λ r. one_kept (kept_at tokens.now) ≡ Some (r.0, r.1.now)) }
    ensures none { result ≡ Err SyntaxFault.Syntax → one_kept (kept_at tokens.now) ≡ None }
{
    let (sorts, rest) = read_sorts(alloc, tokens)?;
    match only(sorts) {
        Some(sort) => Ok((sort, rest)),
        None => Err(SyntaxFault::Syntax),
    }
}

/// The sort, if it is only one.
pub fn only(mut sorts: Vec<Sort>) -> Option<Sort>
    ensures some { IfSome result (λ sort. sorts.items ≡ sort ∷ []) }
    ensures none { IfNone result (length sorts.items ≡ 1 → ⊥) }
{
    if sorts.len() > 1 {
        return None;
    }
    sorts.pop()
}
