//! The keys of definitions.
#![tactic(auto)]

ghost use Rattle.std.specs.Prelude.{◌≡◌, IfOk};

use std::marker::Model;
use term_core::{Name, NoMemory};

/// A definition's name and its numbers of strategies and terms, as a key.
#[derive(PartialEq, Eq, Hash)]
pub struct DefinitionKey {
    name: Name,
    strategies: usize,
    terms: usize,
}

impl Model for DefinitionKey {
    ghost use Rattle.strategy_check.specs.Tables.{DefinitionKey};
    ghost use Rattle.strategy_check.specs.inside.TableCodes.{key_code};

    ghost Value = { DefinitionKey };

    ghost coded = { key_code };

    ghost view = { λ s. record { name = s.name; strategies = s.strategies; terms = s.terms } };

    ghost inverse = { λ s. record { name = s.name; strategies = s.strategies; terms = s.terms } };
}

// By hand: a derived drop is proved anew in each crate that drops it.
impl Drop for DefinitionKey {
    fn drop(self) {
        let DefinitionKey {
            name: _,
            strategies: _,
            terms: _,
        } = self;
    }
}

impl DefinitionKey {
    /// The key of a definition with this name and these numbers of strategies and terms.
    pub fn new(name: &Name, strategies: usize, terms: usize) -> Result<DefinitionKey, NoMemory>
        ensures { IfOk result (λ key. key
            ≡ record { name = name.now; strategies = strategies; terms = terms }) }
    {
        let name = name.try_clone()?;
        Ok(DefinitionKey {
            name,
            strategies,
            terms,
        })
    }
}
