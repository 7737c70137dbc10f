//! Rules, which are definitions whose body is a scope of their variables.

ghost use Rattle.std.specs.Prelude.{◌≡◌, ◌-◌, List, [], length, take, IfOk, Err};
ghost use Rattle.strategy_parse.specs.Core.{closed, core, core_definition, defined, rewrite_where};
ghost use Rattle.strategy_parse.specs.Grammar.{ReadsChoice};
ghost use Rattle.strategy_parse.specs.declared.parser.state.Order.TheVariants.{Written};
ghost use Rattle.strategy_names.specs.Free.{free_variables};
ghost use Rattle.strategy_parse.specs.inside.Definitions.{DefinitionEnds, header_of, ReadsRule, RuleGives};
ghost use Rattle.strategy_parse.specs.inside.ModuleFronts.{make_header};
ghost use Rattle.strategy_parse.specs.Written.{Choice, Defined};
ghost use Rattle.strategy_tokens.specs.declared.token.Token.{Token};

use crate::modules::headers::Header;
use crate::modules::tokens::{after_word, expect_mark};
use crate::parser::{
    ItemList, Order, SyntaxFault, make_rewrite, make_rewrite_where, make_scope, read_in_text,
    read_pattern, read_strategy,
};
use std::alloc::Global;
use strategy_names::{free_names, rule_names};
use strategy_syntax::{Definition, Pattern, Strategy};
use strategy_tokens::{Keyword, Sign, Token};
use term_core::{Name, NoMemory};

/// The rule with this header, whose patterns are at the start of the tokens, and the rest.
pub fn read_rule<'a>(
    alloc: Global,
    header: Header,
    tokens: &'a [Token],
) -> Result<(Definition, &'a [Token]), SyntaxFault>
    ensures given { IfOk result (λ r. RuleGives
        (make_header header.name header.strategies header.terms) tokens.now r.0 r.1.now) }
    ensures only { IfOk result (λ r. (w : Defined) (y : List Token)
        → header_of w ≡ make_header header.name header.strategies header.terms → ReadsRule w tokens.now y
        → DefinitionEnds y → (core_definition w ≡ r.0) × (y ≡ r.1.now)) }
    ensures none { result ≡ Err SyntaxFault.Syntax → (w : Defined) (y : List Token)
        → ReadsRule w tokens.now y → DefinitionEnds y → ⊥ }
{
    match read_body(alloc, &header, tokens) {
        Ok((body, later)) => Ok((make_definition(header, body), later)),
        Err(fault) => {
            drop(header);
            Err(fault)
        }
    }
}

// The body of a rule with this header.
fn read_body<'a>(
    alloc: Global,
    header: &Header,
    tokens: &'a [Token],
) -> Result<(Strategy, &'a [Token]), SyntaxFault>
    ensures given { IfOk result (λ r. RuleGives
        (make_header header.now.name header.now.strategies header.now.terms) tokens.now
        (defined (make_header header.now.name header.now.strategies header.now.terms) r.0)
        r.1.now) }
    ensures only { IfOk result (λ r. (w : Defined) (y : List Token)
        → header_of w ≡ make_header header.now.name header.now.strategies header.now.terms
        → ReadsRule w tokens.now y → DefinitionEnds y
        → (core_definition w
        ≡ defined (make_header header.now.name header.now.strategies header.now.terms) r.0)
        × (y ≡ r.1.now)) }
    ensures none { result ≡ Err SyntaxFault.Syntax → (w : Defined) (y : List Token)
        → ReadsRule w tokens.now y → DefinitionEnds y → ⊥ }
{
    let (before, left) = read_pattern(alloc, tokens)?;
    let rest = expect_mark(left, Sign::Arrow)?;
    let (after, left) = read_pattern(alloc, rest)?;
    let Some(rest) = after_word(left, Keyword::Where) else {
        let action = make_rewrite(alloc, before, after)?;
        let body = close(alloc, header, action)?;
        return Ok((body, left));
    };
    let (condition, later) = read_strategy(alloc, rest)?;
    let names = names_in_text(alloc, header, &before, &after, before_rest(rest, later))?;
    let action = make_rewrite_where(alloc, Order::Run, before, after, condition)?;
    let body = make_scope(alloc, ItemList::from_vec(names), action)?;
    Ok((body, later))
}

// The tokens before `rest`, which are the last of them.
fn before_rest<'a>(tokens: &'a [Token], rest: &[Token]) -> &'a [Token]
    ensures { result.now ≡ take (length tokens.now - length rest.now) tokens.now }
{
    let count = tokens.len().saturating_sub(rest.len());
    &tokens[..count]
}

// The variables of a rule in the order in which they first stand free in the text, except for the
// term parameters. The core form of the condition may have another order, so its tokens are read
// once more.
fn names_in_text(
    alloc: Global,
    header: &Header,
    left: &Pattern,
    right: &Pattern,
    condition: &[Token],
) -> Result<Vec<Name>, SyntaxFault>
    ensures only { IfOk result (λ names. (u : Choice) → ReadsChoice u condition.now []
        → names.items ≡ free_variables header.now.terms
        (rewrite_where Written left.now right.now (core Written u))) }
    ensures none { result ≡ Err SyntaxFault.Syntax → (u : Choice) → ReadsChoice u condition.now []
        → ⊥ }
{
    let strategy = read_in_text(alloc, condition)?;
    let names = rule_names(alloc, header.terms.as_slice(), left, right, &strategy)?;
    Ok(names)
}

// The action of a rule without a condition in a scope of its free variables, except for the term
// parameters.
fn close(alloc: Global, header: &Header, action: Strategy) -> Result<Strategy, NoMemory>
    ensures { IfOk result (λ made. made ≡ closed header.now.terms (λ o. action)) }
{
    match free_names(alloc, header.terms.as_slice(), &action) {
        Ok(names) => make_scope(alloc, ItemList::from_vec(names), action),
        Err(error) => {
            drop(action);
            Err(error)
        }
    }
}

/// The definition with this header and this body.
pub fn make_definition(header: Header, body: Strategy) -> Definition
    ensures { result ≡ defined (make_header header.name header.strategies header.terms) body }
{
    let Header {
        name,
        strategies,
        terms,
    } = header;
    Definition::new(name, strategies.into_vec(), terms.into_vec(), body)
}
