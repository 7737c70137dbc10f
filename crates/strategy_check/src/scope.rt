//! The scope of a part of a strategy during resolution.
#![tactic(auto)]

ghost use Rattle.std.specs.Prelude.{◌≡◌, OnOk};
ghost use Rattle.strategy_names.specs.Binders.{binder_number};
ghost use Rattle.strategy_check.specs.Resolving.{variable_number, with_variables, with_name};
ghost use Rattle.strategy_check.specs.inside.Closing.{without_variables, without_name};

use std::marker::Model;
use strategy_names::Binders;
use term_core::{Name, NoMemory};

/// The binders of variables, the number of variables so far, and the binders of strategy names.
#[derive(Drop)]
pub struct Scope {
    variables: Binders,
    count: usize,
    names: Binders,
    // The number of the text that is resolved. Contracts don't see it.
    text: u32,
}

impl Model for Scope {
    ghost use Rattle.strategy_check.specs.Resolving.{Scope};

    ghost Value = { Scope };

    ghost view = { λ s. record { variables = s.variables; count = s.count; names = s.names } };
}

impl Scope {
    /// The scope of these variables and strategy names, in the text of a command; further variables
    /// are numbered from `count` on.
    pub fn new(variables: Binders, count: usize, names: Binders) -> Scope
        ensures { result ≡ record { variables = variables; count = count; names = names } }
    {
        Scope {
            variables,
            count,
            names,
            text: 0,
        }
    }

    /// The same scope, in the text of this number.
    pub fn in_text(self, text: u32) -> Scope
        ensures { result ≡ self }
    {
        Scope { text, ..self }
    }

    /// The number of the text that is resolved.
    pub fn text(&self) -> u32 {
        self.text
    }

    /// The number of a variable; 0 if it has no binder.
    pub fn variable(&self, name: &Name) -> usize
        ensures { result ≡ variable_number self.now.variables name.now }
    {
        self.variables.number(name).unwrap_or(0)
    }

    /// The number of a strategy name, or `None` if it has no binder.
    pub fn strategy(&self, name: &Name) -> Option<usize>
        ensures { result ≡ binder_number name.now self.now.names }
    {
        self.names.number(name)
    }

    /// Opens new variables.
    pub fn open_variables(&mut self, names: &[Name]) -> Result<(), NoMemory>
        ensures { OnOk result (self.new ≡ with_variables self.old names.now) }
    {
        self.count = self.variables.open_all(names, self.count)?;
        Ok(())
    }

    /// Closes the innermost variables, this many.
    pub fn close_variables(&mut self, count: usize) -> Result<(), NoMemory>
        ensures { OnOk result (self.new ≡ without_variables self.old count) }
    {
        self.variables.close_all(count)?;
        self.count = self.count.saturating_sub(count);
        Ok(())
    }

    /// Opens a new strategy name.
    pub fn open_name(&mut self, name: &Name) -> Result<(), NoMemory>
        ensures { OnOk result (self.new ≡ with_name self.old name.now) }
    {
        let number = self.names.len();
        self.names.open(name, number)
    }

    /// Closes the innermost strategy name.
    pub fn close_name(&mut self) -> Result<(), NoMemory>
        ensures { OnOk result (self.new ≡ without_name self.old) }
    {
        self.names.close()
    }
}
