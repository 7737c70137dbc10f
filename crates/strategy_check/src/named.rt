//! Modules with their names, and what the checker keeps beside them.
#![tactic(auto)]

ghost use Rattle.std.specs.Prelude.{◌≡◌, IfOk};
ghost use Rattle.strategy_check.specs.inside.Changing.{mentioned, own_table};

use crate::mentions::mentions;
use crate::table::Table;
use std::alloc::Global;
use std::marker::Model;
use strategy_syntax::Module;
use term_core::{Label, NoMemory};

/// A module with its name, and what it defines and mentions.
pub struct NamedModule {
    name: Label,
    module: Module,
    // The keys of its definitions, and its constructors.
    defines: Table,
    // What its bodies mention.
    mentions: Table,
    // The number of its text. Contracts don't see it.
    text: u32,
}

impl Model for NamedModule {
    ghost use Rattle.std.specs.Prelude.{◌≡◌, ℕ, List, [], ◌∷◌};
    ghost use Rattle.strategy_syntax.specs.Modules.{Module};
    ghost use Rattle.strategy_check.specs.inside.Changing.{mentioned, own_table};
    ghost use Rattle.strategy_check.specs.inside.CheckedCodes.{named_code};

    ghost Value = { List ℕ × Module };

    ghost coded = { named_code };

    ghost view = { λ m. (m.name, m.module) };

    ghost invariant = { λ m. (m.defines ≡ own_table (m.name, m.module))
        × (m.mentions ≡ mentioned m.module) };
}

// By hand: a derived drop is proved anew in each crate that drops it.
impl Drop for NamedModule {
    fn drop(self) {
        let NamedModule {
            name: _,
            module: _,
            defines: _,
            mentions: _,
            text: _,
        } = self;
    }
}

impl NamedModule {
    /// The module with this name, whose text has no number.
    pub fn new(alloc: Global, name: Label, module: Module) -> Result<NamedModule, NoMemory>
        ensures { IfOk result (λ named. named ≡ (name, «module»)) }
    {
        let mut defines = Table::empty(alloc);
        defines.add(&module)?;
        let mentions = mentions(alloc, &module)?;
        Ok(NamedModule {
            name,
            module,
            defines,
            mentions,
            text: 0,
        })
    }

    /// The same module, whose text has this number.
    pub fn in_text(mut self, text: u32) -> NamedModule
        ensures { result ≡ self }
    {
        self.text = text;
        self
    }

    /// The number of its text, which its resolved definitions have, too. It stays when other
    /// modules are replaced. Whoever keeps modules gives each text a number of its own, from 1 on.
    pub fn text(&self) -> u32 {
        self.text
    }

    /// Its name.
    pub fn name(&self) -> &Label
        ensures { result.now ≡ self.now.0 }
    {
        &self.name
    }

    /// The module.
    pub fn module(&self) -> &Module
        ensures { result.now ≡ self.now.1 }
    {
        &self.module
    }

    /// The keys of its definitions, and its constructors.
    pub(crate) fn defines(&self) -> &Table
        ensures { result.now ≡ own_table self.now }
    {
        &self.defines
    }

    /// What its bodies mention.
    pub(crate) fn mentions(&self) -> &Table
        ensures { result.now ≡ mentioned self.now.1 }
    {
        &self.mentions
    }
}
