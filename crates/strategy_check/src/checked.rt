//! Modules without a fault, with their program, of which some can be replaced.
#![tactic(auto)]

ghost use Rattle.std.specs.Prelude.{◌≡◌, ◌⊎◌, ◌≤◌, ◌+◌, ◌++◌, true, length, take, drop, IfOk, OnOk, IfErr};
ghost use Rattle.strategy_check.specs.Tables.{table_of};
ghost use Rattle.strategy_check.specs.Faults.{faults, first, IsTold};
ghost use Rattle.strategy_check.specs.Checking.{IsChecked, with_modules};
ghost use Rattle.strategy_check.specs.inside.Staying as staying;
ghost use Rattle.strategy_check.specs.inside.Staying.{StaysFaultless, own_count};

use crate::CheckFault;
use crate::changes::{defines_again, has_clash, misses_constructor, misses_definition};
use crate::modules::refuse_modules;
use crate::named::NamedModule;
use crate::program::{Program, check};
use crate::table::Table;
use prim_core::{Meaning, Primitives};
use std::alloc::Global;
use std::marker::Model;
use term_core::NoMemory;

/// Modules that have no fault, in the order of their names, and their program.
#[derive(Drop)]
pub struct Checked {
    modules: Vec<NamedModule>,
    program: Program,
}

impl Model for Checked {
    ghost use Rattle.strategy_check.specs.Checking.{Checked};
    ghost use Rattle.strategy_check.specs.inside.CheckedCodes.{checked_code};

    ghost Value = { Checked };

    ghost coded = { checked_code };

    ghost view = { λ c. record { modules = c.modules.items; program = c.program } };
}

impl Checked {
    /// The modules with their program, if they have no fault, else the first fault.
    pub fn new<M: Meaning>(
        alloc: Global,
        modules: Vec<NamedModule>,
        primitives: &Primitives<M>,
    ) -> Result<Checked, CheckFault>
        ensures modules { IfOk result (λ checked. checked.modules ≡ modules.items) }
        ensures checked { IfOk result (IsChecked primitives.now) }
        ensures fault { IfErr result (λ told. IsTold told (first (faults modules.items primitives.now))) }
    {
        let program = check(alloc, &modules, primitives)?;
        Ok(Checked { modules, program })
    }

    /// The modules, in the order of their names.
    pub fn modules(&self) -> &[NamedModule]
        ensures { result.now ≡ self.now.modules }
    {
        self.modules.as_slice()
    }

    /// Their program.
    pub fn program(&self) -> &Program
        ensures { result.now ≡ self.now.program }
    {
        &self.program
    }

    /// Puts the new modules in the places of `gone` modules, from index `at` on, if then no module
    /// has a fault; else the error is the first fault, and the modules stay. The primitives are
    /// those of the check before.
    ///
    /// After `Memory` the modules and the program needn't fit any more: drop them.
    // If no module that stays notices the change, only the new ones are checked, and the others
    // keep their resolved bodies.
    pub fn replace<M: Meaning>(
        &mut self,
        alloc: Global,
        primitives: &Primitives<M>,
        at: usize,
        gone: usize,
        new: Vec<NamedModule>,
    ) -> Result<(), CheckFault>
        requires checked { IsChecked primitives.now self.old }
        requires within { at + gone ≤ length self.old.modules }
        ensures checked { OnOk result (IsChecked primitives.now self.new) }
        ensures modules { OnOk result (self.new.modules
            ≡ with_modules at gone new.items self.old.modules) }
        ensures fault { IfErr result (λ told. IsTold told
            (first (faults (with_modules at gone new.items self.old.modules) primitives.now))) }
        ensures err { IfErr result (λ told. (told ≡ CheckFault.Memory) ⊎ (self.new ≡ self.old)) }
    {
        let after = split_off(&mut self.modules, at + gone)?;
        let old = split_off(&mut self.modules, at)?;
        let table = Table::of_parts(alloc, &self.modules, &new, &after)?;
        if stays_faultless(
            alloc,
            primitives,
            self.program.table(),
            &table,
            &self.modules,
            &old,
            &new,
            &after,
        )? {
            self.exchange(alloc, primitives, table, old, new, after)?;
            return Ok(());
        }
        self.check_again(alloc, primitives, old, new, after)
    }

    // The quick way: only the bodies of the new modules are resolved.
    fn exchange<M: Meaning>(
        &mut self,
        alloc: Global,
        primitives: &Primitives<M>,
        table: Table,
        old: Vec<NamedModule>,
        new: Vec<NamedModule>,
        after: Vec<NamedModule>,
    ) -> Result<(), NoMemory>
        requires checked { IsChecked primitives.now (record {
          modules = self.old.modules ++ (old.items ++ after.items);
          program = self.old.program;
        }) }
        requires table { table ≡ table_of (self.old.modules ++ (new.items ++ after.items)) }
        requires stays { StaysFaultless primitives.now self.old.program.table table
            self.old.modules old.items new.items after.items }
        ensures checked { OnOk result (IsChecked primitives.now self.new) }
        ensures modules { OnOk result (self.new.modules
            ≡ self.old.modules ++ (new.items ++ after.items)) }
    {
        let first = count_definitions(&self.modules)?;
        let gone = count_definitions(&old)?;
        self.program
            .replace_bodies(alloc, primitives, table, first, gone, &new)?;
        self.put_back(new, after)
    }

    // The slow way: all modules are checked.
    fn check_again<M: Meaning>(
        &mut self,
        alloc: Global,
        primitives: &Primitives<M>,
        old: Vec<NamedModule>,
        new: Vec<NamedModule>,
        after: Vec<NamedModule>,
    ) -> Result<(), CheckFault>
        ensures checked { OnOk result (IsChecked primitives.now self.new) }
        ensures modules { OnOk result (self.new.modules
            ≡ self.old.modules ++ (new.items ++ after.items)) }
        ensures fault { IfErr result (λ told. IsTold told
            (first (faults (self.old.modules ++ (new.items ++ after.items)) primitives.now))) }
        ensures err { IfErr result (λ told. (told ≡ CheckFault.Memory)
            ⊎ ((self.new.modules ≡ self.old.modules ++ (old.items ++ after.items))
            × (self.new.program ≡ self.old.program))) }
    {
        let before = self.modules.len();
        let end = before + new.len();
        self.put_back(new, after)?;
        match check(alloc, &self.modules, primitives) {
            Ok(program) => {
                self.program = program;
                Ok(())
            }
            Err(fault) => {
                let after = split_off(&mut self.modules, end)?;
                self.modules.truncate(before);
                self.put_back(old, after)?;
                Err(fault)
            }
        }
    }

    // Appends modules.
    fn put_back(
        &mut self,
        mut modules: Vec<NamedModule>,
        mut after: Vec<NamedModule>,
    ) -> Result<(), NoMemory>
        ensures modules { OnOk result (self.new.modules
            ≡ self.old.modules ++ (modules.items ++ after.items)) }
        ensures program { self.new.program ≡ self.old.program }
    {
        self.modules.append(&mut modules)?;
        self.modules.append(&mut after)?;
        Ok(())
    }
}

fn split_off(modules: &mut Vec<NamedModule>, at: usize) -> Result<Vec<NamedModule>, NoMemory>
    requires { at ≤ length modules.old.items }
    ensures kept { OnOk result (modules.new.items ≡ take at modules.old.items) }
    ensures rest { IfOk result (λ rest. rest.items ≡ drop at modules.old.items) }
{
    Ok(modules.split_off(at)?)
}

// Whether no module has a fault, as far as that is seen without a look into the modules that stay.
fn stays_faultless<M: Meaning>(
    alloc: Global,
    primitives: &Primitives<M>,
    before: &Table,
    after: &Table,
    first: &[NamedModule],
    old: &[NamedModule],
    new: &[NamedModule],
    last: &[NamedModule],
) -> Result<bool, NoMemory>
    ensures { IfOk result (λ stays. stays ≡ true → StaysFaultless primitives.now before.now after.now
        first.now old.now new.now last.now) }
{
    if defines_again(before, old, new) {
        return Ok(false);
    }
    if has_clash(after, new)? {
        return Ok(false);
    }
    if is_noticed(before, after, first, old, new) {
        return Ok(false);
    }
    if is_noticed(before, after, last, old, new) {
        return Ok(false);
    }
    match refuse_modules(alloc, after, primitives, new) {
        Ok(()) => Ok(true),
        Err(CheckFault::Memory) => Err(NoMemory),
        Err(_) => Ok(false),
    }
}

// Whether modules that stay mention a definition or a constructor that comes or goes.
fn is_noticed(
    before: &Table,
    after: &Table,
    kept: &[NamedModule],
    old: &[NamedModule],
    new: &[NamedModule],
) -> bool
    ensures { result ≡ staying.is_noticed before.now after.now kept.now old.now new.now }
{
    misses_definition(after, kept, old)
        || misses_constructor(after, kept, old)
        || misses_definition(before, kept, new)
}

// The number of definitions of each module, added up.
fn count_definitions(modules: &[NamedModule]) -> Result<usize, NoMemory>
    ensures { IfOk result (λ count. count ≡ own_count modules.now) }
{
    let mut count: usize = 0;
    for named in modules {
        let more = named.defines().definitions.len();
        count = count.checked_add(more).ok_or(NoMemory)?;
    }
    Ok(count)
}
