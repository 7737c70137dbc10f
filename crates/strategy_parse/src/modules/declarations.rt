//! Declarations of constructors and of injections.

ghost use Rattle.std.specs.Prelude.{◌≡◌, IfOk, Err, Some, None};
ghost use Rattle.strategy_parse.specs.Core.{injected_sort};
ghost use Rattle.strategy_parse.specs.inside.ModuleFronts.{kept_at, after_arguments, declaration_at};

use crate::modules::sorts::{only, read_sort, read_sorts};
use crate::modules::tokens::{after_mark, expect_mark};
use crate::parser::SyntaxFault;
use std::alloc::Global;
use strategy_tokens::{Sign, Token};
use term_core::{Name, NoMemory};
use term_sorts::{Declaration, Injection, Sort};

/// What a declaration declares.
#[derive(Drop)]
pub enum Declared {
    Constructor(Declaration),
    Injection(Injection),
}

/// What is declared at the start of the tokens, and the rest of the tokens.
pub fn read_declaration<'a>(
    alloc: Global,
    tokens: &'a [Token],
) -> Result<(Declared, &'a [Token]), SyntaxFault>
    ensures ok { IfOk result (λ r. declaration_at tokens.now ≡ Some (r.0, r.1.now)) }
    ensures none { result ≡ Err SyntaxFault.Syntax → declaration_at tokens.now ≡ None }
{
    match tokens.split_first() {
        Some((Token::Ident(name), left)) => {
            let rest = expect_mark(left, Sign::Colon)?;
            read_named(alloc, name, rest)
        }
        _ => {
            let rest = expect_mark(tokens, Sign::Colon)?;
            read_nameless(alloc, rest)
        }
    }
}

// The sorts of a constructor of this name: those of its arguments and an arrow, or none, followed
// by its own.
fn read_named<'a>(
    alloc: Global,
    name: &Name,
    tokens: &'a [Token],
) -> Result<(Declared, &'a [Token]), SyntaxFault>
    ensures ok { IfOk result (λ r.
        after_arguments (Some name.now) (kept_at tokens.now) ≡ Some (r.0, r.1.now)) }
    ensures none { result ≡ Err SyntaxFault.Syntax →
        after_arguments (Some name.now) (kept_at tokens.now) ≡ None }
{
    let (sorts, left) = read_sorts(alloc, tokens)?;
    if let Some(rest) = after_mark(left, Sign::Arrow) {
        let (given, after) = read_sort(alloc, rest)?;
        let declaration = Declaration::new(name.try_clone()?, sorts, given);
        return Ok((Declared::Constructor(declaration), after));
    }
    let Some(given) = only(sorts) else {
        return Err(SyntaxFault::Syntax);
    };
    let declaration = Declaration::new(name.try_clone()?, Vec::new(alloc), given);
    Ok((Declared::Constructor(declaration), left))
}

// The sorts of a declaration without a name, which has an arrow.
fn read_nameless<'a>(
    alloc: Global,
    tokens: &'a [Token],
) -> Result<(Declared, &'a [Token]), SyntaxFault>
    ensures ok { IfOk result (λ r.
        after_arguments None (kept_at tokens.now) ≡ Some (r.0, r.1.now)) }
    ensures none { result ≡ Err SyntaxFault.Syntax → after_arguments None (kept_at tokens.now) ≡ None }
{
    let (sorts, left) = read_sorts(alloc, tokens)?;
    let rest = expect_mark(left, Sign::Arrow)?;
    let (to, after) = read_sort(alloc, rest)?;
    let from = injected_sort(alloc, sorts)?;
    Ok((Declared::Injection(Injection::new(from, to)), after))
}

// The sort whose terms are injected: the only one, or that of the tuples of several.
fn injected_sort(alloc: Global, mut sorts: Vec<Sort>) -> Result<Sort, NoMemory>
    ensures { IfOk result (λ sort. sort ≡ injected_sort sorts.items) }
{
    if sorts.len() == 1
        && let Some(only) = sorts.pop()
    {
        return Ok(only);
    }
    Sort::tuple(alloc, sorts)
}
