//! The headers of definitions.
#![tactic(auto, using(crate::proofs::HeaderLemmas::header_rules))]

ghost use Rattle.std.specs.Prelude.{◌≡◌, [], ◌∷◌, IfOk, Err, Some, None};
ghost use Rattle.strategy_parse.specs.inside.ModuleFronts.{names_at, more_names, make_header, parameters_at, header_at};

use crate::modules::tokens::{after_mark, expect_mark};
use crate::parser::{ItemList, SyntaxFault};
use std::alloc::Global;
use strategy_tokens::{Sign, Token, is_mark};
use term_core::Name;

/// The name of a definition and its parameters: strategies, then terms.
#[derive(Drop)]
pub struct Header {
    pub name: Name,
    /// The names of the strategy parameters.
    pub strategies: ItemList<Name>,
    /// The names of the term parameters.
    pub terms: ItemList<Name>,
}

/// The header at the start of the tokens, and the rest.
pub fn read_header<'a>(
    alloc: Global,
    tokens: &'a [Token],
) -> Result<(Header, &'a [Token]), SyntaxFault>
    ensures ok { IfOk result (λ r. header_at tokens.now ≡ Some
        (make_header r.0.name r.0.strategies r.0.terms, r.1.now)) }
    ensures none { result ≡ Err SyntaxFault.Syntax → header_at tokens.now ≡ None }
{
    let Some((Token::Ident(name), left)) = tokens.split_first() else {
        return Err(SyntaxFault::Syntax);
    };
    let name = name.try_clone()?;
    match after_mark(left, Sign::OpenRound) {
        Some(inside) => read_parameters(alloc, name, inside),
        None => {
            let strategies = ItemList::new(alloc);
            let terms = ItemList::new(alloc);
            Ok((
                Header {
                    name,
                    strategies,
                    terms,
                },
                left,
            ))
        }
    }
}

// The parameters after their opening bracket.
fn read_parameters<'a>(
    alloc: Global,
    name: Name,
    tokens: &'a [Token],
) -> Result<(Header, &'a [Token]), SyntaxFault>
    ensures ok { IfOk result (λ r. parameters_at name tokens.now ≡ Some
        (make_header r.0.name r.0.strategies r.0.terms, r.1.now)) }
    ensures none { result ≡ Err SyntaxFault.Syntax → parameters_at name tokens.now ≡ None }
{
    let (strategies, left) = read_names(alloc, tokens)?;
    if let Some(rest) = after_mark(left, Sign::CloseRound) {
        let terms = ItemList::new(alloc);
        return Ok((
            Header {
                name,
                strategies,
                terms,
            },
            rest,
        ));
    }
    let rest = expect_mark(left, Sign::Bar)?;
    let (terms, left) = read_names(alloc, rest)?;
    let rest = expect_mark(left, Sign::CloseRound)?;
    Ok((
        Header {
            name,
            strategies,
            terms,
        },
        rest,
    ))
}

// The identifiers at the start, separated by commas, and the rest of the tokens.
fn read_names<'a>(
    alloc: Global,
    tokens: &'a [Token],
) -> Result<(ItemList<Name>, &'a [Token]), SyntaxFault>
    ensures ok { IfOk result (λ r. names_at tokens.now ≡ Some (r.0, r.1.now)) }
    ensures none { result ≡ Err SyntaxFault.Syntax → names_at tokens.now ≡ None }
{
    let names = ItemList::new(alloc);
    match tokens.split_first() {
        Some((Token::Ident(name), left)) => read_more_names(names.with(name.try_clone()?)?, left),
        _ => Ok((names, tokens)),
    }
}

// Further identifiers, each after a comma.
fn read_more_names<'a>(
    first: ItemList<Name>,
    tokens: &'a [Token],
) -> Result<(ItemList<Name>, &'a [Token]), SyntaxFault>
    ensures ok { IfOk result (λ r. more_names first tokens.now ≡ Some (r.0, r.1.now)) }
    ensures none { result ≡ Err SyntaxFault.Syntax → more_names first tokens.now ≡ None }
{
    let mut names = first;
    let mut left = tokens;
    while let Some(rest) = after_mark(left, Sign::Comma) {
        let Some((Token::Ident(name), after)) = rest.split_first() else {
            return Err(SyntaxFault::Syntax);
        };
        names = names.with(name.try_clone()?)?;
        left = after;
    }
    Ok((names, left))
}
