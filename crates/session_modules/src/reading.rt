//! Module texts, and what they are read as.
#![tactic(auto, using(crate::proofs::ReadingLemmas::reading))]

ghost use Rattle.std.specs.Prelude.{◌≡◌, ◌⊎◌, ◌++◌, ◌∷◌, [], true, Ok, Err, IfOk, IfErr, IfSome, OnOk, option_copied};
ghost use Rattle.std.specs.FinMap as finmap;
ghost use Rattle.term_changes.specs.Slots.{contents};
ghost use Rattle.session_modules.specs.Modules.{ReadsAsModule, ReadsAsModuleOf};

use crate::Refusal;
use change_log::{Store, Text};
use std::alloc::Global;
use std::marker::Model;
use strategy_check::NamedModule;
use strategy_parse::parse_module;
use strategy_syntax::Module;
use term_core::{Label, NoMemory};

/// A module text, and the module that it is read as, with its name.
#[derive(Drop)]
pub struct ReadModule {
    text: Text,
    named: NamedModule,
}

impl Model for ReadModule {
    ghost use Rattle.std.specs.Prelude.{ℕ, List, Ok};
    ghost use Rattle.std.specs.Coded.{coded×};
    ghost use Rattle.strategy_syntax.specs.Modules.{Module};
    ghost use Rattle.strategy_check.specs.inside.CheckedCodes.{named_code};
    ghost use Rattle.term_changes.specs.inside.Codes.{text_code};
    ghost use Rattle.session_modules.specs.Modules.{ReadsAsModule, ReadsAsModuleOf};

    ghost Value = { List ℕ × (List ℕ × Module) };

    ghost coded = { coded× text_code named_code };

    ghost view = { λ r. (r.text, r.named) };

    ghost invariant = { λ r. ReadsAsModule r.text (Ok r.named.1) };
}

impl ReadModule {
    /// Whether it is a module of this name, read from this text.
    pub fn is(&self, name: &Label, text: &[u8]) -> bool
        ensures { result ≡ true → self.now.0 ≡ text.now × self.now.1.0 ≡ name.now }
    {
        self.named.name().bytes() == name.bytes() && self.text.bytes() == text
    }

    /// The named module.
    pub fn named(&self) -> &NamedModule
        ensures value { result.now ≡ self.now.1 }
        ensures reads { ReadsAsModule self.now.0 (Ok result.now.1) }
    {
        &self.named
    }

    /// The text, and the named module.
    pub(crate) fn into_parts(self) -> (Text, NamedModule)
        ensures value { result ≡ self }
        ensures reads { ReadsAsModule result.0 (Ok result.1.1) }
    {
        (self.text, self.named)
    }
}

/// Reads the text of the module of this name. It may have `most` tokens, as `parse_module` has it.
pub fn read_module(
    alloc: Global,
    name: &Label,
    text: &[u8],
    most: u64,
) -> Result<ReadModule, Refusal>
    ensures text { IfOk result (λ read. read.0 ≡ text.now) }
    ensures named { IfOk result (λ read. read.1.0 ≡ name.now) }
    ensures reads { IfOk result (λ read. ReadsAsModuleOf most text.now (Ok read.1.1)) }
    ensures refused { IfErr result (λ refusal. (refusal ≡ Refusal.Memory)
        ⊎ ReadsAsModuleOf most text.now (Err refusal)) }
{
    match parse_module(alloc, text, most) {
        Ok(module) => Ok(with_name(alloc, name, text, module)?),
        Err(fault) => Err(Refusal::from(fault)),
    }
}

// The module that this text is read as, with a name.
fn with_name(
    alloc: Global,
    name: &Label,
    text: &[u8],
    module: Module,
) -> Result<ReadModule, NoMemory>
    requires { ReadsAsModule text.now (Ok «module») }
    ensures { IfOk result (λ read. read ≡ (text.now, (name.now, «module»))) }
{
    let text = Text::new(Vec::from_slice(alloc, text)?);
    let named = NamedModule::new(alloc, name.try_clone()?, module)?;
    Ok(ReadModule { text, named })
}

/// The text of the module of this name, or `None` if there is none.
pub fn module_text<'a>(store: &'a Store, name: &Label) -> Option<&'a [u8]>
    ensures { option_copied result ≡ finmap.get (contents store.now).modules name.now }
{
    let slot = store.find_module(name)?;
    store.module(slot)
}

/// Modules that were read, with their texts in the same order. Each text gets a number that none
/// before it had.
#[derive(Drop)]
pub(crate) struct NewModules {
    pub(crate) modules: Vec<NamedModule>,
    pub(crate) texts: Vec<Text>,
    // The greatest number that a text was given.
    pub(crate) last: u32,
}

impl NewModules {
    /// No modules; the texts of others have numbers up to `last`.
    pub(crate) fn new(alloc: Global, last: u32) -> NewModules
        ensures modules { result.modules.items ≡ [] }
        ensures texts { result.texts.items ≡ [] }
    {
        NewModules {
            modules: Vec::new(alloc),
            texts: Vec::new(alloc),
            last,
        }
    }

    pub(crate) fn push(&mut self, read: ReadModule) -> Result<(), NoMemory>
        ensures modules { OnOk result (self.new.modules.items ≡ self.old.modules.items ++ read.1 ∷ []) }
        ensures texts { OnOk result (self.new.texts.items ≡ self.old.texts.items ++ read.0 ∷ []) }
        ensures reads { ReadsAsModule read.0 (Ok read.1.1) }
    {
        let (text, named) = read.into_parts();
        self.texts.push(text)?;
        self.last = self.last.saturating_add(1);
        self.modules.push(named.in_text(self.last))?;
        Ok(())
    }
}

/// Takes out a module of this name that was read from this text.
pub(crate) fn take_read(read: &mut Vec<ReadModule>, name: &Label, text: &[u8]) -> Option<ReadModule>
    ensures text { IfSome result (λ read. read.0 ≡ text.now) }
    ensures named { IfSome result (λ read. read.1.0 ≡ name.now) }
{
    for at in 0..read.len() {
        if read[at].is(name, text) {
            return Some(read.swap_remove(at));
        }
    }
    None
}
