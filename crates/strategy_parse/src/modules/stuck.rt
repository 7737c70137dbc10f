//! Where a text stops being the beginning of a module.

ghost use Rattle.std.specs.Prelude.{◌≡◌, ◌↔◌, ◌<◌, ◌⊎◌, length, IfOk, IfSome, IfNone, Err, true, false};
ghost use Rattle.strategy_parse.specs.StuckModules.{GiveModule, GiveNone, ModuleStuckAt};
ghost use Rattle.strategy_parse.specs.inside.ModulePlaces.{CanEnd};
ghost use Rattle.strategy_tokens.specs.Items.{module_tokens};
ghost use Rattle.strategy_tokens.specs.Tokens.{tokens};

use crate::modules::parse::after_title;
use crate::modules::place::{ModulePlace, cross, ends_before, next_place};
use crate::modules::sections::read_sections;
use crate::parser::SyntaxFault;
use std::alloc::Global;
use strategy_tokens::{MODULE_TOKENS, Token, TokensFault, read_module_tokens};
use term_core::NoMemory;

/// Where a text stops being the beginning of a module. Tokens are counted from 0.
#[derive(Clone, Copy, Debug, PartialEq, Eq)]
pub struct StuckModule {
    /// The number of the token that begins the item: a sort, a declaration, a definition, or the
    /// word of a section. The tokens before it are a module.
    pub item: usize,
    /// The number of the token with which the item can't go on, whatever tokens follow. It is the
    /// number of all tokens if the text ends too early.
    pub token: usize,
}

/// Where the text stops being the beginning of a module; `None` if it is a module.
///
/// Errors: `Deep` if no module may have so many tokens, which is tested first; `Memory` if memory
/// can't grow.
pub fn stuck_module(alloc: Global, text: &[u8]) -> Result<Option<StuckModule>, TokensFault>
    ensures deep { (result ≡ Err TokensFault.Deep)
        ↔ (module_tokens MODULE_TOKENS (tokens text.now) < length (tokens text.now)) }
    ensures none { IfOk result (λ found. IfNone found (GiveModule (tokens text.now))) }
    ensures some { IfOk result (λ found. IfSome found (λ s. GiveNone (tokens text.now))) }
    ensures stuck { IfOk result (λ found. IfSome found (λ s.
        ModuleStuckAt (tokens text.now) s.item s.token)) }
{
    let tokens = read_module_tokens(alloc, text, MODULE_TOKENS)?;
    match first_stuck_item(alloc, &tokens) {
        Ok(found) => Ok(found),
        Err(NoMemory) => Err(TokensFault::Memory),
    }
}

// Where the tokens stop being the beginning of a module, if they are none.
fn first_stuck_item(alloc: Global, tokens: &[Token]) -> Result<Option<StuckModule>, NoMemory>
    ensures none { IfOk result (λ found. IfNone found (GiveModule tokens.now)) }
    ensures some { IfOk result (λ found. IfSome found (λ s. GiveNone tokens.now)) }
    ensures stuck { IfOk result (λ found. IfSome found (λ s. ModuleStuckAt tokens.now s.item s.token)) }
{
    if is_module(alloc, tokens)? {
        return Ok(None);
    }
    Ok(Some(follow(alloc, tokens)?))
}

// Whether the tokens are a module.
#[tactic(auto, using(crate::proofs::StuckModules::module_rules))]
fn is_module(alloc: Global, tokens: &[Token]) -> Result<bool, NoMemory>
    ensures yes { IfOk result (λ is. is ≡ true → GiveModule tokens.now) }
    ensures no { IfOk result (λ is. is ≡ false → GiveNone tokens.now) }
{
    let sections = match after_title(tokens) {
        Ok(sections) => sections,
        Err(SyntaxFault::Syntax) => return Ok(false),
        Err(SyntaxFault::Memory) => return Err(NoMemory),
    };
    match read_sections(alloc, sections) {
        Ok(module) => {
            drop(module);
            Ok(true)
        }
        Err(SyntaxFault::Syntax) => Ok(false),
        Err(SyntaxFault::Memory) => Err(NoMemory),
    }
}

// Follows the tokens from place to place, up to the first one with which no module goes on.
fn follow(alloc: Global, tokens: &[Token]) -> Result<StuckModule, NoMemory>
    ensures { IfOk result (λ s. ModuleStuckAt tokens.now s.item s.token) }
{
    let mut place = ModulePlace::Start;
    let mut item = 0usize;
    let mut left = tokens;
    while let Some((token, rest)) = left.split_first() {
        item = item_before(place, token, item, tokens.len() - left.len());
        let Some(next) = next_place(place, token) else {
            return Ok(StuckModule {
                item,
                token: tokens.len() - left.len(),
            });
        };
        let (goes_on, after) = cross(alloc, next, rest)?;
        if !goes_on {
            return Ok(StuckModule {
                item,
                token: tokens.len() - after.len(),
            });
        }
        place = next;
        left = after;
    }
    Ok(StuckModule {
        item,
        token: tokens.len(),
    })
}

// The number of the token if an item may begin with it; else that of the item before.
fn item_before(place: ModulePlace, token: &Token, item: usize, number: usize) -> usize
    ensures { (result ≡ item) ⊎ ((result ≡ number) × CanEnd place) }
{
    if ends_before(place, token) {
        number
    } else {
        item
    }
}
