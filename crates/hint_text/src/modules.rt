//! The modules as they are once a command is obeyed. The session keeps what it has read, and only what
//! it doesn't keep is read here.

use crate::command::CommandParts;
use crate::ground::Ground;
use prim_core::Meaning;
use script_text::Keyword;
use session_history::{CheckedTexts, ReadModule, Refusal, Timeline, read_module};
use std::alloc::Global;
use strategy_check::NamedModule;
use strategy_parse::{ParseFault, bytes_of, parse_module};
use strategy_syntax::{Constructor, Definition, Module, Place};
use strategy_tokens::{
    MODULE_TOKENS, Sign, Token, TokenPlace, TokensFault, is_mark, read_module_tokens, token_count,
    token_place,
};
use term_core::{Label, Name, NoMemory};

/// A module with its text.
#[derive(Clone, Copy)]
pub struct KnownModule<'a> {
    pub module: &'a NamedModule,
    pub text: &'a [u8],
    /// Whether it is the one that the command loads.
    pub is_new: bool,
}

impl<'a> KnownModule<'a> {
    /// Its name.
    pub fn name(&self) -> &'a [u8] {
        self.module.name().bytes()
    }

    /// Its definitions.
    pub fn definitions(&self) -> &'a [Definition] {
        self.module.module().definitions()
    }
}

/// The modules as they are once a command is obeyed: the first of those that the session keeps, those
/// that were read here, and the last of those that it keeps, in the order of their names. Together they
/// are all modules.
#[derive(Drop)]
pub struct ModuleTexts<'a> {
    before: &'a [NamedModule],
    read: Vec<NamedModule>,
    texts: Vec<&'a [u8]>,
    after: &'a [NamedModule],
    kept: Option<&'a CheckedTexts>,
}

impl<'a> ModuleTexts<'a> {
    /// Those of the history as they would be if the command, which was refused, had been obeyed. A
    /// text that is no module is left out.
    ///
    /// Errors: `NoMemory` if memory can't grow.
    pub fn read<M: Meaning>(
        alloc: Global,
        ground: &Ground<'a, M>,
        parts: &CommandParts<'a>,
    ) -> Result<ModuleTexts<'a>, NoMemory> {
        let wanted = wanted_texts(alloc, ground.history, parts)?;
        let mut texts = ModuleTexts {
            before: &[],
            read: Vec::new(alloc),
            texts: Vec::new(alloc),
            after: &[],
            kept: ground.kept,
        };
        texts.take(&wanted)?;
        Ok(texts)
    }

    /// The modules that the session keeps and that come before those that were read.
    pub fn before(&self) -> &'a [NamedModule] {
        self.before
    }

    /// The modules that were read.
    pub fn new_ones(&self) -> &[NamedModule] {
        &self.read
    }

    /// The modules that the session keeps and that come after those that were read.
    pub fn after(&self) -> &'a [NamedModule] {
        self.after
    }

    /// All of them with their texts.
    pub fn all<'s>(
        &'s self,
        alloc: Global,
        parts: &CommandParts<'s>,
    ) -> Result<Vec<KnownModule<'s>>, NoMemory> {
        let mut known = Vec::new(alloc);
        self.push_kept(&mut known, self.before, 0, parts)?;
        for (module, text) in self.read.iter().zip(&self.texts) {
            push(&mut known, module, text, parts)?;
        }
        if let Some(kept) = self.kept {
            let first = kept.modules().len().saturating_sub(self.after.len());
            self.push_kept(&mut known, self.after, first, parts)?;
        }
        Ok(known)
    }

    fn push_kept<'s>(
        &'s self,
        known: &mut Vec<KnownModule<'s>>,
        modules: &'s [NamedModule],
        first: usize,
        parts: &CommandParts<'s>,
    ) -> Result<(), NoMemory> {
        for (number, module) in modules.iter().enumerate() {
            if let Some(kept) = self.kept
                && let Some(text) = kept.text(first.saturating_add(number))
            {
                push(known, module, text, parts)?;
            }
        }
        Ok(())
    }

    // Takes those that the session keeps at both ends, and reads those between them.
    fn take(&mut self, wanted: &[WantedText<'a>]) -> Result<(), NoMemory> {
        let mut front = 0;
        let mut end = wanted.len();
        if let Some(kept) = self.kept {
            let modules = kept.modules();
            front = same_front(kept, wanted);
            let back = same_back(kept, wanted, front);
            end = end.saturating_sub(back);
            self.before = modules.get(..front).unwrap_or(&[]);
            let after = modules.len().saturating_sub(back);
            self.after = modules.get(after..).unwrap_or(&[]);
        }
        for it in wanted.get(front..end).unwrap_or(&[]) {
            self.push_read(it)?;
        }
        Ok(())
    }

    fn push_read(&mut self, wanted: &WantedText<'a>) -> Result<(), NoMemory> {
        let alloc = *self.texts.allocator();
        match parse_module(alloc, wanted.text, MODULE_TOKENS) {
            Ok(module) => {
                let module = NamedModule::new(alloc, wanted.name.try_clone()?, module)?;
                self.read.push(module)?;
                Ok(self.texts.push(wanted.text)?)
            }
            Err(ParseFault::Memory) => Err(NoMemory),
            Err(_) => Ok(()),
        }
    }
}

// The name of a module, and its text.
#[derive(Drop)]
struct WantedText<'a> {
    name: Label,
    text: &'a [u8],
}

// The texts of the modules if the command is obeyed, in the order of their names.
fn wanted_texts<'a>(
    alloc: Global,
    history: &'a Timeline,
    parts: &CommandParts<'a>,
) -> Result<Vec<WantedText<'a>>, NoMemory> {
    let changes = matches!(parts.command, Keyword::Module | Keyword::Unload);
    let mut wanted = Vec::new(alloc);
    for name in history.module_names()?.iter() {
        if let Some(text) = history.module_text(name)
            && !(changes && name.bytes() == parts.name)
        {
            let name = name.try_clone()?;
            wanted.push(WantedText { name, text })?;
        }
    }
    if parts.is_module()
        && let Ok(name) = Label::read(alloc, parts.name)
    {
        let is_after = |it: &WantedText<'_>| parts.name < it.name.bytes();
        let at = wanted.iter().position(is_after).unwrap_or(wanted.len());
        wanted.insert(
            at,
            WantedText {
                name,
                text: parts.text,
            },
        )?;
    }
    Ok(wanted)
}

// How many of the first modules are the first that are kept.
fn same_front(kept: &CheckedTexts, wanted: &[WantedText<'_>]) -> usize {
    for (number, it) in wanted.iter().enumerate() {
        if !is_kept_at(kept, number, it) {
            return number;
        }
    }
    wanted.len()
}

// How many of the last modules are the last that are kept. The first ones, so many, don't count.
fn same_back(kept: &CheckedTexts, wanted: &[WantedText<'_>], front: usize) -> usize {
    let count = kept.modules().len();
    let most = count.min(wanted.len()).saturating_sub(front);
    for (back, it) in wanted.iter().rev().take(most).enumerate() {
        let last = count.saturating_sub(back).saturating_sub(1);
        if !is_kept_at(kept, last, it) {
            return back;
        }
    }
    most
}

// Whether the module that is kept at this index is this one.
fn is_kept_at(kept: &CheckedTexts, index: usize, wanted: &WantedText<'_>) -> bool {
    match (kept.modules().get(index), kept.text(index)) {
        (Some(module), Some(text)) => {
            module.name().bytes() == wanted.name.bytes() && text == wanted.text
        }
        _ => false,
    }
}

/// The modules of the history that the session doesn't keep, read from their texts.
///
/// Errors: `NoMemory` if memory can't grow.
pub fn missing_modules<M: Meaning>(
    alloc: Global,
    ground: &Ground<'_, M>,
) -> Result<Vec<ReadModule>, NoMemory> {
    let mut missing = Vec::new(alloc);
    for name in ground.history.module_names()?.iter() {
        if let Some(text) = ground.history.module_text(name)
            && kept_module(ground, &[], name, text).is_none()
        {
            match read_module(alloc, name, text, MODULE_TOKENS) {
                Ok(read) => missing.push(read)?,
                Err(refusal) => {
                    if let Refusal::Memory = refusal {
                        return Err(NoMemory);
                    }
                }
            }
        }
    }
    Ok(missing)
}

/// The modules of the history after the command, which was accepted: those that the session keeps, and
/// these, which it doesn't.
///
/// Errors: `NoMemory` if memory can't grow.
pub fn known_modules<'a, M: Meaning>(
    alloc: Global,
    ground: &Ground<'a, M>,
    missing: &'a [ReadModule],
    parts: &CommandParts<'a>,
) -> Result<Vec<KnownModule<'a>>, NoMemory> {
    let mut known = Vec::new(alloc);
    for name in ground.history.module_names()?.iter() {
        if let Some(text) = ground.history.module_text(name)
            && let Some(module) = kept_module(ground, missing, name, text)
        {
            push(&mut known, module, text, parts)?;
        }
    }
    Ok(known)
}

// The module of this name that was read from this text, if the session keeps it, or it is one of these.
fn kept_module<'a, M: Meaning>(
    ground: &Ground<'a, M>,
    missing: &'a [ReadModule],
    name: &Label,
    text: &[u8],
) -> Option<&'a NamedModule> {
    if let Some(kept) = ground.kept
        && let Some(index) = index_of(kept.modules(), name)
        && kept.text(index) == Some(text)
    {
        return kept.modules().get(index);
    }
    for read in ground.waiting.iter().chain(missing) {
        if read.is(name, text) {
            return Some(read.named());
        }
    }
    None
}

// The index of the module of this name; the modules are in the order of their names.
fn index_of(modules: &[NamedModule], name: &Label) -> Option<usize> {
    let by_name = |it: &NamedModule| it.name().bytes().cmp(name.bytes());
    modules.binary_search_by(by_name).ok()
}

fn push<'s>(
    known: &mut Vec<KnownModule<'s>>,
    module: &'s NamedModule,
    text: &'s [u8],
    parts: &CommandParts<'s>,
) -> Result<(), NoMemory> {
    // The text of a file is kept with other blanks, in which the same tokens stand.
    let is_new = parts.is_module() && module.name().bytes() == parts.name;
    Ok(known.push(KnownModule {
        module,
        text: if is_new { parts.text } else { text },
        is_new,
    })?)
}

/// The first of the modules that declares a constructor of this name with so many arguments.
pub fn declaring<'a>(
    modules: &[KnownModule<'a>],
    name: &Name,
    arity: u64,
) -> Option<KnownModule<'a>> {
    for module in modules {
        for placed in module.module.module().constructors() {
            let constructor: &Constructor = placed.item();
            if constructor.arity() as u64 == arity && constructor.name().equals(name) {
                return Some(*module);
            }
        }
    }
    None
}

/// The module that the text is; an empty one if it is none.
pub fn module_of(alloc: Global, text: &[u8]) -> Result<Module, NoMemory> {
    match parse_module(alloc, text, MODULE_TOKENS) {
        Ok(module) => Ok(module),
        Err(ParseFault::Memory) => Err(NoMemory),
        Err(_) => Ok(Module::new(
            Vec::new(alloc),
            Vec::new(alloc),
            Vec::new(alloc),
            Vec::new(alloc),
        )),
    }
}

/// The tokens of a text; none if it has more than any module.
pub fn tokens_of(alloc: Global, text: &[u8]) -> Result<Vec<Token>, NoMemory> {
    match read_module_tokens(alloc, text, MODULE_TOKENS) {
        Ok(tokens) => Ok(tokens),
        Err(TokensFault::Deep) => Ok(Vec::new(alloc)),
        Err(TokensFault::Memory) => Err(NoMemory),
    }
}

/// The numbers of strategies and of terms that a definition takes.
pub fn arity_of(definition: &Definition) -> (u64, u64) {
    let strategies = definition.strategy_parameters().len() as u64;
    (strategies, definition.term_parameters().len() as u64)
}

/// The bytes of a token of a text, and the number of bytes before it.
pub fn token_of(text: &[u8], number: usize) -> (&[u8], usize) {
    match token_place(text, number) {
        Some(place) => (text.get(place.start..place.end).unwrap_or(&[]), place.start),
        None => (&[], 0),
    }
}

/// Whether the token of this number is this sign.
pub fn is_sign(tokens: &[Token], number: usize, sign: Sign) -> bool {
    tokens.get(number).is_some_and(|token| is_mark(token, sign))
}

/// The bytes of a text in which something stands that knows its place; `None` if it stands in no text
/// or in another one.
pub fn bytes_at(text: &[u8], place: Place) -> Option<TokenPlace> {
    let range = place.tokens(token_count(text) as usize)?;
    bytes_of(text, range.first, range.end)
}
