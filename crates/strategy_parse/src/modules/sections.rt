//! The sections of a module.

ghost use Rattle.std.specs.Prelude.{◌≡◌, ◌<◌, ◌∷◌, length, IfOk, OnOk, Err};
ghost use Rattle.strategy_syntax.specs.Modules as syntax;
ghost use Rattle.strategy_parse.specs.inside.ModuleFronts.{module_with};
ghost use Rattle.strategy_parse.specs.inside.Sections.{IsItem, Left, SectionStands, built_module, in_signature, joined, next_context, nothing};

use crate::modules::declarations::{Declared, read_declaration};
use crate::modules::definitions::read_definition;
use crate::modules::sorts::skip_sort;
use crate::parser::SyntaxFault;
use std::alloc::Global;
use strategy_syntax::{Constructor, Definition, Module, Place, Placed};
use strategy_tokens::{Keyword, Token};
use term_core::NoMemory;
use term_sorts::{Declaration, Injection};

/// What may come next in a module, besides another section.
#[derive(Clone, Copy)]
pub enum Context {
    /// Before the first section: nothing.
    Outside,
    /// In a signature: its parts.
    Signature,
    /// In a part of a signature: sorts.
    Sorts,
    /// In a part of a signature: declarations.
    Constructors,
    /// In a section of rules or strategies: definitions.
    Definitions,
}

/// What was read so far of a module.
#[derive(Drop)]
pub struct Built {
    pub constructors: Vec<Placed<Constructor>>,
    pub declarations: Vec<Declaration>,
    pub injections: Vec<Injection>,
    pub definitions: Vec<Definition>,
}

impl Built {
    /// Nothing.
    pub fn new(alloc: Global) -> Built
        ensures { built_module result ≡ nothing }
    {
        Built {
            constructors: Vec::new(alloc),
            declarations: Vec::new(alloc),
            injections: Vec::new(alloc),
            definitions: Vec::new(alloc),
        }
    }

    // Adds what a declaration at this place declares.
    fn add(&mut self, declared: Declared, place: Place) -> Result<(), NoMemory>
        ensures { OnOk result (built_module self.new ≡ joined (built_module self.old) (module_with declared)) }
    {
        match declared {
            Declared::Constructor(declaration) => {
                let name = declaration.name().try_clone()?;
                let constructor = Constructor::new(name, declaration.arguments().len());
                self.constructors.push(Placed::new(constructor, place))?;
                self.declarations.push(declaration)?;
            }
            Declared::Injection(injection) => self.injections.push(injection)?,
        }
        Ok(())
    }

    /// The module of all that was read.
    fn into_module(self) -> Module
        ensures { result ≡ built_module self }
    {
        let Built {
            constructors,
            declarations,
            injections,
            definitions,
        } = self;
        Module::new(constructors, declarations, injections, definitions)
    }
}

/// The module whose sections are these tokens.
pub fn read_sections(alloc: Global, tokens: &[Token]) -> Result<Module, SyntaxFault>
    ensures given { IfOk result (λ m. Left Context.Outside tokens.now m) }
    ensures only { IfOk result (λ m. (r : syntax.Module) → Left Context.Outside tokens.now r → r ≡ m) }
    ensures none { result ≡ Err SyntaxFault.Syntax → (r : syntax.Module)
        → Left Context.Outside tokens.now r → ⊥ }
{
    let mut built = Built::new(alloc);
    let mut context = Context::Outside;
    let mut left = tokens;
    while let Some((token, rest)) = left.split_first() {
        let (next, after) = read_next(alloc, context, token, left, rest, &mut built)?;
        context = next;
        left = after;
    }
    Ok(built.into_module())
}

/// Reads a word that begins a part of the module, or else an item of the context, from the
/// start of the tokens. Returns the context and the rest.
pub fn read_next<'a>(
    alloc: Global,
    context: Context,
    token: &Token,
    tokens: &'a [Token],
    rest: &'a [Token],
    built: &mut Built,
) -> Result<(Context, &'a [Token]), SyntaxFault>
    requires { tokens.now ≡ token.now ∷ rest.now }
    ensures forth { IfOk result (λ r. (m : syntax.Module)
        → SectionStands context (built_module built.old) tokens.now m
        → SectionStands r.0 (built_module built.new) r.1.now m) }
    ensures back { IfOk result (λ r. (m : syntax.Module)
        → SectionStands r.0 (built_module built.new) r.1.now m
        → SectionStands context (built_module built.old) tokens.now m) }
    ensures none { result ≡ Err SyntaxFault.Syntax → (m : syntax.Module)
        → SectionStands context (built_module built.old) tokens.now m → ⊥ }
    ensures shorter { IfOk result (λ r. length r.1.now < length tokens.now) }
{
    if let Token::Reserved(word) = token {
        return match next_context(context, *word) {
            Some(next) => Ok((next, rest)),
            None => Err(SyntaxFault::Syntax),
        };
    }
    let after = read_item(alloc, context, tokens, built)?;
    Ok((context, after))
}

/// The context after a reserved word that begins a part of a module, if it may come here.
pub fn next_context(context: Context, word: Keyword) -> Option<Context>
    ensures { result ≡ next_context context word }
{
    match word {
        Keyword::Signature => Some(Context::Signature),
        Keyword::Rules => Some(Context::Definitions),
        Keyword::Strategies => Some(Context::Definitions),
        Keyword::Sorts => in_signature(context, Context::Sorts),
        Keyword::Constructors => in_signature(context, Context::Constructors),
        _ => None,
    }
}

// The context in a part of a signature, if it may come here.
fn in_signature(context: Context, next: Context) -> Option<Context>
    ensures { result ≡ in_signature context next }
{
    match context {
        Context::Outside => None,
        Context::Definitions => None,
        _ => Some(next),
    }
}

// Reads a sort, a declaration or a definition, as the context has them, from the
// start of the tokens. Returns the rest.
fn read_item<'a>(
    alloc: Global,
    context: Context,
    tokens: &'a [Token],
    built: &mut Built,
) -> Result<&'a [Token], SyntaxFault>
    requires { IsItem tokens.now }
    ensures forth { IfOk result (λ rest. (m : syntax.Module)
        → SectionStands context (built_module built.old) tokens.now m
        → SectionStands context (built_module built.new) rest.now m) }
    ensures back { IfOk result (λ rest. (m : syntax.Module)
        → SectionStands context (built_module built.new) rest.now m
        → SectionStands context (built_module built.old) tokens.now m) }
    ensures none { result ≡ Err SyntaxFault.Syntax → (m : syntax.Module)
        → SectionStands context (built_module built.old) tokens.now m → ⊥ }
    ensures shorter { IfOk result (λ rest. length rest.now < length tokens.now) }
{
    match context {
        Context::Sorts => skip_sort(tokens),
        Context::Constructors => add_declaration(alloc, tokens, built),
        Context::Definitions => add_definition(alloc, tokens, built),
        _ => Err(SyntaxFault::Syntax),
    }
}

// Reads a declaration.
fn add_declaration<'a>(
    alloc: Global,
    tokens: &'a [Token],
    built: &mut Built,
) -> Result<&'a [Token], SyntaxFault>
    requires { IsItem tokens.now }
    ensures forth { IfOk result (λ rest. (m : syntax.Module)
        → SectionStands Context.Constructors (built_module built.old)
        tokens.now m
        → SectionStands Context.Constructors (built_module built.new)
        rest.now m) }
    ensures back { IfOk result (λ rest. (m : syntax.Module)
        → SectionStands Context.Constructors (built_module built.new)
        rest.now m
        → SectionStands Context.Constructors (built_module built.old)
        tokens.now m) }
    ensures none { result ≡ Err SyntaxFault.Syntax → (m : syntax.Module)
        → SectionStands Context.Constructors (built_module built.old)
        tokens.now m → ⊥ }
    ensures shorter { IfOk result (λ rest. length rest.now < length tokens.now) }
{
    let (declared, rest) = read_declaration(alloc, tokens)?;
    built.add(declared, Place::new(tokens.len(), rest.len()))?;
    Ok(rest)
}

// Reads a definition.
fn add_definition<'a>(
    alloc: Global,
    tokens: &'a [Token],
    built: &mut Built,
) -> Result<&'a [Token], SyntaxFault>
    requires { IsItem tokens.now }
    ensures forth { IfOk result (λ rest. (m : syntax.Module)
        → SectionStands Context.Definitions (built_module built.old)
        tokens.now m
        → SectionStands Context.Definitions (built_module built.new)
        rest.now m) }
    ensures back { IfOk result (λ rest. (m : syntax.Module)
        → SectionStands Context.Definitions (built_module built.new)
        rest.now m
        → SectionStands Context.Definitions (built_module built.old)
        tokens.now m) }
    ensures none { result ≡ Err SyntaxFault.Syntax → (m : syntax.Module)
        → SectionStands Context.Definitions (built_module built.old)
        tokens.now m → ⊥ }
    ensures shorter { IfOk result (λ rest. length rest.now < length tokens.now) }
{
    let (definition, rest) = read_definition(alloc, tokens)?;
    let place = Place::new(tokens.len(), rest.len());
    built.definitions.push(definition.at(place))?;
    Ok(rest)
}
