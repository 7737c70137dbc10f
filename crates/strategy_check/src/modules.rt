//! The faults in modules.
#![tactic(auto, using(crate::proofs::FaultLemmas::added))]

ghost use Rattle.std.specs.Prelude.{◌≡◌, [], flat_map, take, IfErr, IfOk, OnOk};
ghost use Rattle.strategy_syntax.specs.Lists.{with_new};
ghost use Rattle.strategy_check.specs.Tables.{definitions_of, keys_of, same_key};
ghost use Rattle.strategy_check.specs.Faults.{IsTold, definition_faults, faults_from, first};
ghost use Rattle.strategy_check.specs.inside.FaultLists.{with_faults};

use crate::CheckFault;
use crate::headers::check_header;
use crate::key::DefinitionKey;
use crate::list::FaultList;
use crate::named::NamedModule;
use crate::strategies::check_strategy;
use crate::table::{Table, add_definitions};
use indexmap::IndexSet;
use prim_core::{Meaning, Primitives};
use std::alloc::Global;
use strategy_names::Binders;
use strategy_syntax::Definition;
use term_core::NoMemory;

/// Adds the faults of modules, in order, and the keys of their definitions to those of earlier
/// modules. The index of the first one is `start`.
pub fn check_modules<M: Meaning>(
    alloc: Global,
    table: &Table,
    primitives: &Primitives<M>,
    earlier: &mut IndexSet<DefinitionKey>,
    modules: &[NamedModule],
    start: usize,
    faults: &mut FaultList,
) -> Result<(), NoMemory>
    ensures faults { OnOk result (faults.new ≡ with_faults faults.old
        (faults_from table.now primitives.now earlier.old.keys modules.now)) }
    ensures earlier { OnOk result (earlier.new.keys
        ≡ with_new same_key earlier.old.keys (keys_of (definitions_of modules.now))) }
{
    for (index, named) in modules.iter().enumerate() {
        let definitions = named.module().definitions();
        let number = start.saturating_add(index);
        check_definitions(
            alloc,
            table,
            primitives,
            earlier,
            definitions,
            number,
            faults,
        )?;
        add_definitions(earlier, definitions)?;
    }
    Ok(())
}

fn check_definitions<M: Meaning>(
    alloc: Global,
    table: &Table,
    primitives: &Primitives<M>,
    earlier: &IndexSet<DefinitionKey>,
    definitions: &[Definition],
    module: usize,
    faults: &mut FaultList,
) -> Result<(), NoMemory>
    ensures { OnOk result (faults.new ≡ with_faults faults.old
        (flat_map (definition_faults table.now primitives.now earlier.now.keys) definitions.now)) }
{
    for (index, definition) in definitions.iter().enumerate() {
        faults.enter(module, index);
        check_definition(alloc, table, primitives, earlier, definition, faults)?;
    }
    Ok(())
}

fn check_definition<M: Meaning>(
    alloc: Global,
    table: &Table,
    primitives: &Primitives<M>,
    earlier: &IndexSet<DefinitionKey>,
    definition: &Definition,
    faults: &mut FaultList,
) -> Result<(), NoMemory>
    ensures { OnOk result (faults.new ≡ with_faults faults.old
        (definition_faults table.now primitives.now earlier.now.keys definition.now)) }
{
    if faults.is_full() {
        return Ok(());
    }
    check_header(alloc, table, earlier, definition, faults)?;
    let mut names = Binders::new(alloc);
    names.open_all(definition.strategy_parameters(), 0)?;
    check_strategy(
        alloc,
        table,
        primitives,
        &mut names,
        definition.body(),
        faults,
    )
}

/// The first faults of these modules, `most` at most, in a table that may have more.
pub fn find_in_modules<M: Meaning>(
    alloc: Global,
    table: &Table,
    primitives: &Primitives<M>,
    modules: &[NamedModule],
    most: usize,
) -> Result<FaultList, NoMemory>
    ensures { IfOk result (λ found. found.items
        ≡ take most (faults_from table.now primitives.now [] modules.now)) }
{
    let mut earlier = IndexSet::new(alloc);
    let mut faults = FaultList::new(alloc, most);
    check_modules(
        alloc,
        table,
        primitives,
        &mut earlier,
        modules,
        0,
        &mut faults,
    )?;
    Ok(faults)
}

/// The first fault of these modules as a refusal, if they have one.
pub fn refuse_modules<M: Meaning>(
    alloc: Global,
    table: &Table,
    primitives: &Primitives<M>,
    modules: &[NamedModule],
) -> Result<(), CheckFault>
    ensures none { OnOk result (faults_from table.now primitives.now [] modules.now ≡ []) }
    ensures first { IfErr result (λ told. IsTold told
        (first (faults_from table.now primitives.now [] modules.now))) }
{
    let faults = find_in_modules(alloc, table, primitives, modules, 1)?;
    faults.into_first()
}
