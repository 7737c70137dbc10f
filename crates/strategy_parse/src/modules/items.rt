//! Where the definitions of a module are.

ghost use Rattle.std.specs.Prelude.{◌≡◌, ◌↔◌, ◌<◌, length, Err};
ghost use Rattle.strategy_tokens.specs.Items.{module_tokens};
ghost use Rattle.strategy_tokens.specs.Tokens.{tokens};

use crate::modules::parse::after_title;
use crate::modules::sections::{Built, Context, read_next};
use crate::parser::SyntaxFault;
use std::alloc::Global;
use strategy_tokens::{MODULE_TOKENS, Token, TokensFault, read_module_tokens};
use term_core::NoMemory;

/// The tokens of a definition, by their numbers, counted from 0.
#[derive(Clone, Copy, Debug, PartialEq, Eq)]
pub struct DefinitionTokens {
    /// The number of its first token, which is its name.
    pub first: usize,
    /// The number of the token after its last one.
    pub end: usize,
}

/// The tokens of each definition of a module, in the order of the text. If the text is no module,
/// these are the definitions before the item that can't go on.
///
/// Errors: `Deep` if no module may have so many tokens, which is tested first; `Memory` if memory
/// can't grow.
pub fn definition_tokens(alloc: Global, text: &[u8]) -> Result<Vec<DefinitionTokens>, TokensFault>
    ensures deep { (result ≡ Err TokensFault.Deep)
        ↔ (module_tokens MODULE_TOKENS (tokens text.now) < length (tokens text.now)) }
{
    let tokens = read_module_tokens(alloc, text, MODULE_TOKENS)?;
    match find_definitions(alloc, &tokens) {
        Ok(found) => Ok(found),
        Err(NoMemory) => Err(TokensFault::Memory),
    }
}

fn find_definitions(alloc: Global, tokens: &[Token]) -> Result<Vec<DefinitionTokens>, NoMemory> {
    let mut found = Vec::new(alloc);
    let mut built = Built::new(alloc);
    let mut context = Context::Outside;
    let mut left = after_title(tokens).unwrap_or(&[]);
    while let Some((token, rest)) = left.split_first() {
        let before = built.definitions.len();
        match read_next(alloc, context, token, left, rest, &mut built) {
            Ok((next, after)) => {
                if built.definitions.len() > before {
                    found.push(DefinitionTokens {
                        first: tokens.len().saturating_sub(left.len()),
                        end: tokens.len().saturating_sub(after.len()),
                    })?;
                }
                context = next;
                left = after;
            }
            Err(SyntaxFault::Syntax) => return Ok(found),
            Err(SyntaxFault::Memory) => return Err(NoMemory),
        }
    }
    Ok(found)
}
