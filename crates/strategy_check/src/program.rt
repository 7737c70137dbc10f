//! Checked programs.
#![tactic(auto)]

ghost use Rattle.std.specs.Prelude.{◌≡◌, ◌≤◌, ◌+◌, ◌++◌, ℕ, true, [], length, map, take, drop, IfOk, OnOk, IfErr};
ghost use Rattle.strategy_check.specs.Faults.{faults, first, IsTold};
ghost use Rattle.strategy_check.specs.Programs.{program, faults_of, resolved};
ghost use Rattle.strategy_check.specs.Ranges.{IsInRange, BodiesInRange};
ghost use Rattle.strategy_syntax.specs.Renumbering.{new_number};
ghost use Rattle.strategy_check.specs.inside.Replacing.{renumbered_definition};
ghost use Rattle.strategy_check.specs.inside.Staying.{joined_bodies, with_bodies};

use crate::CheckFault;
use crate::bodies::resolve_strategy;
use crate::changes::new_numbers;
use crate::groups::{group_definitions, join_groups};
use crate::modules::refuse_modules;
use crate::named::NamedModule;
use crate::scope::Scope;
use crate::strategies::refuse_strategy;
use crate::table::Table;
use prim_core::{Meaning, Primitives};
use std::alloc::Global;
use std::marker::Model;
use strategy_names::{Binders, free_variables};
use strategy_syntax::{Resolved, Strategy};
use term_core::NoMemory;

/// The definitions and declarations of checked modules, with each definition resolved.
#[derive(Drop)]
pub struct Program {
    table: Table,
    bodies: Vec<Resolved>,
}

impl Model for Program {
    ghost use Rattle.strategy_check.specs.Programs.{Program};
    ghost use Rattle.strategy_check.specs.inside.ProgramCodes.{program_code};

    ghost Value = { Program };

    ghost coded = { program_code };

    ghost view = { λ p. record { table = p.table; bodies = p.bodies.items } };
}

impl Program {
    /// The resolved definitions. The number of a call is the index of its definition.
    pub fn definitions(&self) -> &[Resolved]
        ensures { result.now ≡ self.now.bodies }
    {
        self.bodies.as_slice()
    }

    /// The definitions and declarations.
    pub(crate) fn table(&self) -> &Table
        ensures { result.now ≡ self.now.table }
    {
        &self.table
    }

    /// Changes the table, and puts the bodies of new modules in the places of `gone` bodies, from
    /// index `first` on. The other bodies get the new numbers of the definitions that they call.
    pub(crate) fn replace_bodies<M: Meaning>(
        &mut self,
        alloc: Global,
        primitives: &Primitives<M>,
        table: Table,
        first: usize,
        gone: usize,
        new: &[NamedModule],
    ) -> Result<(), NoMemory>
        requires { first + gone ≤ length self.old.bodies }
        ensures { OnOk result (self.new
            ≡ with_bodies table primitives.now first gone new.now self.old) }
    {
        let changed = self.change_bodies(alloc, primitives, &table, first, gone, new);
        self.table = table;
        changed
    }

    // The bodies for a new table. It is borrowed, since its owner drops it on each way out.
    fn change_bodies<M: Meaning>(
        &mut self,
        alloc: Global,
        primitives: &Primitives<M>,
        table: &Table,
        first: usize,
        gone: usize,
        new: &[NamedModule],
    ) -> Result<(), NoMemory>
        requires { first + gone ≤ length self.old.bodies }
        ensures { OnOk result (self.new.bodies
            ≡ (with_bodies table.now primitives.now first gone new.now self.old).bodies) }
    {
        let numbers = new_numbers(alloc, &self.table, table)?;
        let mut joined = join_modules(alloc, table, primitives, new)?;
        put_bodies(
            &mut self.bodies,
            first,
            gone,
            &mut joined,
            numbers.as_slice(),
        )
    }
}

// Puts new bodies in the places of `gone` ones, and gives the others their new numbers.
fn put_bodies(
    bodies: &mut Vec<Resolved>,
    first: usize,
    gone: usize,
    new: &mut Vec<Resolved>,
    numbers: &[usize],
) -> Result<(), NoMemory>
    requires { first + gone ≤ length bodies.old.items }
    ensures { OnOk result (bodies.new.items
        ≡ map (renumbered_definition numbers.now) (take first bodies.old.items)
        ++ (new.old.items ++ map (renumbered_definition numbers.now) (drop (first + gone) bodies.old.items))) }
{
    let mut last = bodies.split_off(first + gone)?;
    bodies.truncate(first);
    renumber_bodies(bodies, numbers);
    renumber_bodies(&mut last, numbers);
    append_both(bodies, new, &mut last)
}

fn append_both(
    bodies: &mut Vec<Resolved>,
    new: &mut Vec<Resolved>,
    last: &mut Vec<Resolved>,
) -> Result<(), NoMemory>
    ensures { OnOk result (bodies.new.items ≡ bodies.old.items ++ (new.old.items ++ last.old.items)) }
{
    bodies.append(new)?;
    bodies.append(last)?;
    Ok(())
}

fn renumber_bodies(bodies: &mut Vec<Resolved>, numbers: &[usize])
    ensures { bodies.new.items ≡ map (renumbered_definition numbers.now) bodies.old.items }
{
    if keep_numbers(numbers) {
        return;
    }
    renumber_each(bodies, numbers);
}

// Whether each number stays.
fn keep_numbers(numbers: &[usize]) -> bool
    ensures { result ≡ true → (k : ℕ) → new_number numbers.now k ≡ k }
{
    for i in 0..numbers.len() {
        if numbers[i] != i {
            return false;
        }
    }
    true
}

fn renumber_each(bodies: &mut Vec<Resolved>, numbers: &[usize])
    ensures { bodies.new.items ≡ map (renumbered_definition numbers.now) bodies.old.items }
{
    for i in 0..bodies.len() {
        bodies[i].strategy.renumber(numbers);
    }
}

// The bodies of the definitions of modules, in a table that has more.
fn join_modules<M: Meaning>(
    alloc: Global,
    table: &Table,
    primitives: &Primitives<M>,
    modules: &[NamedModule],
) -> Result<Vec<Resolved>, NoMemory>
    ensures { IfOk result (λ bodies. bodies.items
        ≡ joined_bodies table.now primitives.now modules.now) }
{
    let own = Table::new(alloc, modules)?;
    let groups = group_definitions(alloc, &own, modules)?;
    join_groups(alloc, table, primitives, groups.as_slice())
}

/// The program of the modules, if they have no fault, else the first fault. The modules are in the
/// order of their names, which faults follow.
pub fn check<M: Meaning>(
    alloc: Global,
    modules: &[NamedModule],
    primitives: &Primitives<M>,
) -> Result<Program, CheckFault>
    ensures faultless { IfOk result (λ _. faults modules.now primitives.now ≡ []) }
    ensures program { IfOk result (λ checked. checked ≡ program modules.now primitives.now) }
    ensures fault { IfErr result (λ told. IsTold told (first (faults modules.now primitives.now))) }
    ensures in_range { IfOk result (λ checked. BodiesInRange checked primitives.now) }
{
    let table = Table::new(alloc, modules)?;
    refuse_modules(alloc, &table, primitives, modules)?;
    let groups = group_definitions(alloc, &table, modules)?;
    let bodies = join_groups(alloc, &table, primitives, groups.as_slice())?;
    Ok(Program { table, bodies })
}

/// Resolves the strategy in the program, if it has no fault there, else returns the first fault.
/// The primitives are those that the program was checked against.
pub fn resolve<M: Meaning>(
    alloc: Global,
    program: &Program,
    primitives: &Primitives<M>,
    strategy: &Strategy,
) -> Result<Resolved, CheckFault>
    ensures faultless { IfOk result (λ _.
        faults_of program.now primitives.now strategy.now ≡ []) }
    ensures resolved { IfOk result (λ whole. whole
        ≡ resolved program.now primitives.now strategy.now) }
    ensures fault { IfErr result (λ told. IsTold told
        (first (faults_of program.now primitives.now strategy.now))) }
    ensures in_range { IfOk result (λ whole. IsInRange program.now primitives.now 0 0 whole) }
{
    refuse_strategy(alloc, &program.table, primitives, strategy)?;
    let whole = resolve_checked(alloc, &program.table, primitives, strategy)?;
    Ok(whole)
}

fn resolve_checked<M: Meaning>(
    alloc: Global,
    table: &Table,
    primitives: &Primitives<M>,
    strategy: &Strategy,
) -> Result<Resolved, NoMemory>
    ensures { IfOk result (λ whole. whole
        ≡ resolved (record { table = table.now; bodies = [] }) primitives.now strategy.now) }
{
    let variables = free_variables(alloc, &[], 0, strategy)?;
    let count = variables.len();
    let mut scope = Scope::new(variables, count, Binders::new(alloc));
    let strategy = resolve_strategy(alloc, table, primitives, &mut scope, strategy)?;
    Ok(Resolved {
        variables: count,
        strategy,
    })
}
