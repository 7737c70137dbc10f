//! What stands at a place of a text. The places that forms carry are hints: here their tokens are
//! read again, and what they give is compared.

ghost use Rattle.std.specs.Prelude.{◌≡◌, ◌↔◌, ◌≤◌, ◌<◌, ◌-◌, ◌∷◌, [], true, false, take, drop, length, slice_get, option_map, IfOk, IfSome, Some, Err};
ghost use Rattle.strategy_syntax.specs.Syntax as syntax;
ghost use Rattle.strategy_parse.specs.Gives.{GivesStrategy, GivesPattern, GivesDefinition, GivesDeclaration};
ghost use Rattle.strategy_parse.specs.inside.ModuleFronts.{module_with};
ghost use Rattle.strategy_tokens.specs.Places.{places};
ghost use Rattle.strategy_tokens.specs.Items.{module_tokens};
ghost use Rattle.strategy_tokens.specs.Tokens.{tokens};
ghost use Rattle.strategy_tokens.specs.declared.token.Token.{Token};

use crate::modules::{Declared, read_declaration, read_definition};
use crate::parser::{SyntaxFault, read_pattern, read_strategy};
use std::alloc::Global;
use strategy_syntax::{Constructor, Definition, Pattern, Strategy};
use strategy_tokens::{
    MODULE_TOKENS, Token, TokenPlace, TokensFault, read_module_tokens, token_place,
};
use term_core::NoMemory;

/// Whether the tokens of the text from the number `first` up to before `end`, counted from 0, are
/// the strategy.
///
/// Errors: `Deep` if no module may have so many tokens, which is tested first; `Memory` if memory
/// can't grow.
pub fn stands_at(
    alloc: Global,
    text: &[u8],
    first: usize,
    end: usize,
    strategy: &Strategy,
) -> Result<bool, TokensFault>
    ensures deep { (result ≡ Err TokensFault.Deep)
        ↔ (module_tokens MODULE_TOKENS (tokens text.now) < length (tokens text.now)) }
    ensures there { IfOk result (λ stands. stands ≡ true → end ≤ length (tokens text.now)) }
    ensures stands { IfOk result (λ stands. stands ≡ true
        → GivesStrategy (take (end - first) (drop first (tokens text.now))) strategy.now) }
    ensures other { IfOk result (λ stands. stands ≡ false → first ≤ end
        → end ≤ length (tokens text.now)
        → GivesStrategy (take (end - first) (drop first (tokens text.now))) strategy.now → ⊥) }
{
    let tokens = read_module_tokens(alloc, text, MODULE_TOKENS)?;
    if end < first || tokens.len() < end {
        return Ok(false);
    }
    match is_strategy(alloc, &tokens[first..end], strategy) {
        Ok(stands) => Ok(stands),
        Err(NoMemory) => Err(TokensFault::Memory),
    }
}

// Whether the tokens are the strategy.
fn is_strategy(alloc: Global, tokens: &[Token], strategy: &Strategy) -> Result<bool, NoMemory>
    ensures yes { IfOk result (λ is. is ≡ true → GivesStrategy tokens.now strategy.now) }
    ensures no { IfOk result (λ is. is ≡ false → GivesStrategy tokens.now strategy.now → ⊥) }
{
    match read_strategy(alloc, tokens) {
        Ok((found, left)) => Ok(left.is_empty() && found.equals(strategy)),
        Err(SyntaxFault::Syntax) => Ok(false),
        Err(SyntaxFault::Memory) => Err(NoMemory),
    }
}

/// The same for a pattern.
pub fn pattern_stands_at(
    alloc: Global,
    text: &[u8],
    first: usize,
    end: usize,
    pattern: &Pattern,
) -> Result<bool, TokensFault>
    ensures deep { (result ≡ Err TokensFault.Deep)
        ↔ (module_tokens MODULE_TOKENS (tokens text.now) < length (tokens text.now)) }
    ensures there { IfOk result (λ stands. stands ≡ true → end ≤ length (tokens text.now)) }
    ensures stands { IfOk result (λ stands. stands ≡ true
        → GivesPattern (take (end - first) (drop first (tokens text.now))) pattern.now) }
    ensures other { IfOk result (λ stands. stands ≡ false → first ≤ end
        → end ≤ length (tokens text.now)
        → GivesPattern (take (end - first) (drop first (tokens text.now))) pattern.now → ⊥) }
{
    let tokens = read_module_tokens(alloc, text, MODULE_TOKENS)?;
    if end < first || tokens.len() < end {
        return Ok(false);
    }
    match is_pattern(alloc, &tokens[first..end], pattern) {
        Ok(stands) => Ok(stands),
        Err(NoMemory) => Err(TokensFault::Memory),
    }
}

// Whether the tokens are a pattern.
fn is_pattern(alloc: Global, tokens: &[Token], pattern: &Pattern) -> Result<bool, NoMemory>
    ensures yes { IfOk result (λ is. is ≡ true → GivesPattern tokens.now pattern.now) }
    ensures no { IfOk result (λ is. is ≡ false → GivesPattern tokens.now pattern.now → ⊥) }
{
    match read_pattern(alloc, tokens) {
        Ok((found, left)) => Ok(left.is_empty() && found.equals(pattern)),
        Err(SyntaxFault::Syntax) => Ok(false),
        Err(SyntaxFault::Memory) => Err(NoMemory),
    }
}

/// The same for a definition.
pub fn definition_stands_at(
    alloc: Global,
    text: &[u8],
    first: usize,
    end: usize,
    definition: &Definition,
) -> Result<bool, TokensFault>
    ensures deep { (result ≡ Err TokensFault.Deep)
        ↔ (module_tokens MODULE_TOKENS (tokens text.now) < length (tokens text.now)) }
    ensures there { IfOk result (λ stands. stands ≡ true → end ≤ length (tokens text.now)) }
    ensures stands { IfOk result (λ stands. stands ≡ true
        → GivesDefinition (take (end - first) (drop first (tokens text.now))) definition.now) }
    ensures other { IfOk result (λ stands. stands ≡ false → first ≤ end
        → end ≤ length (tokens text.now)
        → GivesDefinition (take (end - first) (drop first (tokens text.now))) definition.now → ⊥) }
{
    let tokens = read_module_tokens(alloc, text, MODULE_TOKENS)?;
    if end < first || tokens.len() < end {
        return Ok(false);
    }
    match is_definition(alloc, &tokens[first..end], definition) {
        Ok(stands) => Ok(stands),
        Err(NoMemory) => Err(TokensFault::Memory),
    }
}

// Whether the tokens are a definition.
fn is_definition(alloc: Global, tokens: &[Token], definition: &Definition) -> Result<bool, NoMemory>
    ensures yes { IfOk result (λ is. is ≡ true → GivesDefinition tokens.now definition.now) }
    ensures no { IfOk result (λ is. is ≡ false → GivesDefinition tokens.now definition.now → ⊥) }
{
    match read_definition(alloc, tokens) {
        Ok((found, left)) => Ok(left.is_empty() && found.equals(definition)),
        Err(SyntaxFault::Syntax) => Ok(false),
        Err(SyntaxFault::Memory) => Err(NoMemory),
    }
}

/// The same for a declaration of a constructor.
pub fn declaration_stands_at(
    alloc: Global,
    text: &[u8],
    first: usize,
    end: usize,
    constructor: &Constructor,
) -> Result<bool, TokensFault>
    ensures deep { (result ≡ Err TokensFault.Deep)
        ↔ (module_tokens MODULE_TOKENS (tokens text.now) < length (tokens text.now)) }
    ensures there { IfOk result (λ stands. stands ≡ true → end ≤ length (tokens text.now)) }
    ensures stands { IfOk result (λ stands. stands ≡ true
        → GivesDeclaration (take (end - first) (drop first (tokens text.now))) constructor.now) }
    ensures other { IfOk result (λ stands. stands ≡ false → first ≤ end
        → end ≤ length (tokens text.now)
        → GivesDeclaration (take (end - first) (drop first (tokens text.now))) constructor.now → ⊥) }
{
    let tokens = read_module_tokens(alloc, text, MODULE_TOKENS)?;
    if end < first || tokens.len() < end {
        return Ok(false);
    }
    match is_declaration(alloc, &tokens[first..end], constructor) {
        Ok(stands) => Ok(stands),
        Err(NoMemory) => Err(TokensFault::Memory),
    }
}

// Whether the tokens are a declaration of a constructor.
fn is_declaration(
    alloc: Global,
    tokens: &[Token],
    constructor: &Constructor,
) -> Result<bool, NoMemory>
    ensures yes { IfOk result (λ is. is ≡ true → GivesDeclaration tokens.now constructor.now) }
    ensures no { IfOk result (λ is. is ≡ false → GivesDeclaration tokens.now constructor.now → ⊥) }
{
    match read_declaration(alloc, tokens) {
        Ok((declared, left)) => Ok(is_all(declared, left, constructor)),
        Err(SyntaxFault::Syntax) => Ok(false),
        Err(SyntaxFault::Memory) => Err(NoMemory),
    }
}

// Whether this constructor was declared, and no token is left.
fn is_all(declared: Declared, left: &[Token], constructor: &Constructor) -> bool
    ensures yes { result ≡ true → ((module_with declared).constructors ≡ constructor.now ∷ []) × (left.now ≡ []) }
    ensures no { result ≡ false → (module_with declared).constructors ≡ constructor.now ∷ [] → left.now ≡ [] → ⊥ }
{
    match declared {
        Declared::Constructor(found) => {
            left.is_empty()
                && found.arguments().len() == constructor.arity()
                && found.name().equals(constructor.name())
        }
        Declared::Injection(_) => false,
    }
}

/// The bytes of the text from its token `first` up to the one before `end`, counted from 0; `None`
/// if there are no such tokens. It takes no memory.
pub fn bytes_of(text: &[u8], first: usize, end: usize) -> Option<TokenPlace>
    ensures start { IfSome result (λ bytes. option_map (λ p. p.start)
        (slice_get (places text.now) first) ≡ Some bytes.start) }
    ensures end { IfSome result (λ bytes. option_map (λ p. p.end)
        (slice_get (places text.now) (end - 1)) ≡ Some bytes.end) }
    ensures order { IfSome result (λ bytes. bytes.start < bytes.end) }
    ensures within { IfSome result (λ bytes. bytes.end ≤ length text.now) }
{
    let start = token_place(text, first)?.start;
    let end = token_place(text, end.checked_sub(1)?)?.end;
    if end <= start || text.len() < end {
        return None;
    }
    Some(TokenPlace { start, end })
}
