//! Parsing a whole module.

ghost use Rattle.std.specs.Prelude.{◌≡◌, ◌↔◌, ◌<◌, length, IfOk, Err};
ghost use Rattle.strategy_syntax.specs.Modules as syntax;
ghost use Rattle.strategy_parse.specs.Gives.{GivesModule};
ghost use Rattle.strategy_parse.specs.inside.Sections.{Left};
ghost use Rattle.strategy_tokens.specs.Items.{module_tokens};
ghost use Rattle.strategy_tokens.specs.Tokens.{tokens};

use crate::ParseFault;
use crate::modules::sections::{Context, read_sections};
use crate::modules::tokens::{after_ident, after_word};
use crate::parser::SyntaxFault;
use std::alloc::Global;
use strategy_syntax::Module;
use strategy_tokens::{Keyword, Token, read_module_tokens};

/// The module that a text is, with its rules and strategies in their core forms. The name after
/// `module` isn't used. The empty text is an empty module. It may have `most` tokens, which counts
/// as 4,000 where it is less, and as 65,535 where it is more; none of its items may have more than
/// 4,000.
///
/// Errors: `Deep` if the text has more tokens, which is tested first; `Syntax` if it is no module;
/// `Memory` if memory can't grow.
pub fn parse_module(alloc: Global, text: &[u8], most: u64) -> Result<Module, ParseFault>
    ensures deep { (result ≡ Err ParseFault.Deep)
        ↔ (module_tokens most (tokens text.now) < length (tokens text.now)) }
    ensures given { IfOk result (λ m. GivesModule (tokens text.now) m) }
    ensures only { IfOk result (λ m. (r : syntax.Module) → GivesModule (tokens text.now) r
        → r ≡ m) }
    ensures no_module { result ≡ Err ParseFault.Syntax → (r : syntax.Module)
        → GivesModule (tokens text.now) r → ⊥ }
{
    let tokens = read_module_tokens(alloc, text, most)?;
    let sections = after_title(&tokens)?;
    let module = read_sections(alloc, sections)?;
    Ok(module)
}

/// The tokens after the word `module` and a name, if they begin with these.
pub fn after_title<'a>(tokens: &'a [Token]) -> Result<&'a [Token], SyntaxFault>
    ensures back { IfOk result (λ rest. (m : syntax.Module) → Left Context.Outside rest.now m
        → GivesModule tokens.now m) }
    ensures forth { IfOk result (λ rest. (m : syntax.Module) → GivesModule tokens.now m
        → Left Context.Outside rest.now m) }
    ensures none { result ≡ Err SyntaxFault.Syntax → (m : syntax.Module) → GivesModule tokens.now m → ⊥ }
    ensures memory { result ≡ Err SyntaxFault.Memory → ⊥ }
{
    let Some(rest) = after_word(tokens, Keyword::Module) else {
        return Ok(tokens);
    };
    match after_ident(rest) {
        Some(left) => Ok(left),
        None => Err(SyntaxFault::Syntax),
    }
}
