//! The definitions and declarations of all modules together.
#![tactic(auto)]

ghost use Rattle.std.specs.Prelude.{◌≡◌, ◌++◌, [], IfOk, OnOk};
ghost use Rattle.strategy_syntax.specs.Lists.{with_new};
ghost use Rattle.strategy_check.specs.Tables.{definition_number, is_declared, same_key, same_constructor, keys_of, table_of};
ghost use Rattle.strategy_check.specs.inside.Changing.{with_module, with_all};

use crate::key::DefinitionKey;
use crate::named::NamedModule;
use indexmap::IndexSet;
use std::alloc::Global;
use std::marker::Model;
use strategy_syntax::{Constructor, Definition, Module, Placed};
use term_core::{Name, NoMemory};

/// The keys of the definitions, whose indices are the numbers of these, and the constructors.
pub struct Table {
    pub definitions: IndexSet<DefinitionKey>,
    pub constructors: IndexSet<Constructor>,
}

impl Model for Table {
    ghost use Rattle.strategy_check.specs.Tables.{Table};

    ghost Value = { Table };

    ghost view = { λ t. record {
      definitions = t.definitions.keys;
      constructors = t.constructors.keys;
    } };
}

// By hand: a derived drop is proved anew in each crate that drops it.
impl Drop for Table {
    fn drop(self) {
        let Table {
            definitions: _,
            constructors: _,
        } = self;
    }
}

impl Table {
    /// The table of no modules. It takes no memory.
    pub fn empty(alloc: Global) -> Table
        ensures { result ≡ record { definitions = []; constructors = [] } }
    {
        Table {
            definitions: IndexSet::new(alloc),
            constructors: IndexSet::new(alloc),
        }
    }

    /// The table of the modules, in order.
    pub fn new(alloc: Global, modules: &[NamedModule]) -> Result<Table, NoMemory>
        ensures { IfOk result (λ table. table ≡ table_of modules.now) }
    {
        let mut table = Table::empty(alloc);
        table.add_all(modules)?;
        Ok(table)
    }

    /// The table of the modules in three parts, which come one after another.
    pub fn of_parts(
        alloc: Global,
        first: &[NamedModule],
        second: &[NamedModule],
        third: &[NamedModule],
    ) -> Result<Table, NoMemory>
        ensures { IfOk result (λ table. table ≡ table_of (first.now ++ (second.now ++ third.now))) }
    {
        let mut table = Table::new(alloc, first)?;
        table.add_all(second)?;
        table.add_all(third)?;
        Ok(table)
    }

    /// Adds what further modules define and declare, in order.
    pub fn add_all(&mut self, modules: &[NamedModule]) -> Result<(), NoMemory>
        ensures { OnOk result (self.new ≡ with_all self.old modules.now) }
    {
        for named in modules {
            self.add(named.module())?;
        }
        Ok(())
    }

    /// Adds what a further module defines and declares.
    pub fn add(&mut self, module: &Module) -> Result<(), NoMemory>
        ensures { OnOk result (self.new ≡ with_module self.old «module».now) }
    {
        add_definitions(&mut self.definitions, module.definitions())?;
        add_constructors(&mut self.constructors, module.constructors())
    }

    /// The number of the definition of this name with these numbers of strategies and terms.
    pub fn definition(
        &self,
        name: &Name,
        strategies: usize,
        terms: usize,
    ) -> Result<Option<usize>, NoMemory>
        ensures { IfOk result (λ found. found
            ≡ definition_number self.now name.now strategies terms) }
    {
        let key = DefinitionKey::new(name, strategies, terms)?;
        Ok(self.definitions.get_index_of(&key))
    }

    /// Whether the constructor with this name and number of arguments is declared.
    pub fn declares(&self, name: &Name, arity: usize) -> Result<bool, NoMemory>
        ensures { IfOk result (λ found. found ≡ is_declared self.now name.now arity) }
    {
        let constructor = constructor_of(name, arity)?;
        Ok(self.constructors.contains(&constructor))
    }
}

/// Adds the keys of the definitions, each once.
pub fn add_definitions(
    defined: &mut IndexSet<DefinitionKey>,
    definitions: &[Definition],
) -> Result<(), NoMemory>
    ensures { OnOk result (defined.new.keys
        ≡ with_new same_key defined.old.keys (keys_of definitions.now)) }
{
    for definition in definitions {
        let strategies = definition.strategy_parameters().len();
        let terms = definition.term_parameters().len();
        defined.insert(DefinitionKey::new(definition.name(), strategies, terms)?)?;
    }
    Ok(())
}

fn add_constructors(
    declared: &mut IndexSet<Constructor>,
    constructors: &[Placed<Constructor>],
) -> Result<(), NoMemory>
    ensures { OnOk result (declared.new.keys
        ≡ with_new same_constructor declared.old.keys constructors.now) }
{
    for constructor in constructors {
        let declaration = constructor.item();
        declared.insert(constructor_of(declaration.name(), declaration.arity())?)?;
    }
    Ok(())
}

fn constructor_of(name: &Name, arity: usize) -> Result<Constructor, NoMemory>
    ensures { IfOk result (λ constructor. constructor
        ≡ record { name = name.now; arity = arity }) }
{
    Ok(Constructor::new(name.try_clone()?, arity))
}
