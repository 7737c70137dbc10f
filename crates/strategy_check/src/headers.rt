//! The faults in a list of names and in the header of a definition.
#![tactic(auto, using(crate::proofs::FaultLemmas::added))]

ghost use Rattle.std.specs.Prelude.{◌≡◌, ◌++◌, [], OnOk};
ghost use Rattle.indexmap.specs.IndexSet.{insert_key};
ghost use Rattle.term_core.specs.Tree.{same_name};
ghost use Rattle.strategy_syntax.specs.Lists.{is_among, with_new};
ghost use Rattle.strategy_check.specs.Faults.{fault_if, repeated_names, header_faults};
ghost use Rattle.strategy_check.specs.inside.FaultLists.{with_faults, repeated_faults, twice_faults, clash_faults};

use crate::FaultKind;
use crate::binders::Binding;
use crate::key::DefinitionKey;
use crate::list::FaultList;
use crate::table::Table;
use indexmap::IndexSet;
use std::alloc::Global;
use strategy_syntax::Definition;
use term_core::{Name, NoMemory};

/// Adds the faults of the variables of a scope: each that is repeated.
pub fn check_names(
    alloc: Global,
    names: &[Name],
    binding: &Binding<'_>,
    faults: &mut FaultList,
) -> Result<(), NoMemory>
    ensures { OnOk result (faults.new ≡ with_faults faults.old (repeated_names names.now)) }
{
    let mut seen = IndexSet::new(alloc);
    check_distinct(&mut seen, names, binding, faults)
}

// Adds the parameters of a definition that are repeated.
fn check_parameters(
    alloc: Global,
    definition: &Definition,
    faults: &mut FaultList,
) -> Result<(), NoMemory>
    ensures { OnOk result (faults.new ≡ with_faults faults.old (repeated_names
        (definition.now.strategy_parameters ++ definition.now.term_parameters))) }
{
    let mut seen = IndexSet::new(alloc);
    let strategies = Binding::Strategies(definition);
    check_distinct(
        &mut seen,
        definition.strategy_parameters(),
        &strategies,
        faults,
    )?;
    let terms = Binding::Terms(definition);
    check_distinct(&mut seen, definition.term_parameters(), &terms, faults)
}

// Adds each name that was seen before, or is repeated.
fn check_distinct(
    seen: &mut IndexSet<Name>,
    names: &[Name],
    binding: &Binding<'_>,
    faults: &mut FaultList,
) -> Result<(), NoMemory>
    ensures faults { OnOk result (faults.new
        ≡ with_faults faults.old (repeated_faults seen.old.keys names.now)) }
    ensures seen { OnOk result (seen.new.keys ≡ with_new same_name seen.old.keys names.now) }
{
    for (index, name) in names.iter().enumerate() {
        check_new(seen, name, binding, index, faults)?;
    }
    Ok(())
}

fn check_new(
    seen: &mut IndexSet<Name>,
    name: &Name,
    binding: &Binding<'_>,
    index: usize,
    faults: &mut FaultList,
) -> Result<(), NoMemory>
    ensures faults { OnOk result (faults.new ≡ with_faults faults.old
        (fault_if (is_among same_name name.now seen.old.keys) FaultKind.Parameter name.now 0 0)) }
    ensures seen { OnOk result (seen.new.keys ≡ insert_key same_name seen.old.keys name.now) }
{
    if seen.contains(name) {
        return faults.add(FaultKind::Parameter, name, 0, 0, binding.place(index));
    }
    add_name(seen, name.try_clone()?)?;
    Ok(())
}

fn add_name(seen: &mut IndexSet<Name>, name: Name) -> Result<bool, NoMemory>
    ensures { OnOk result (seen.new.keys ≡ insert_key same_name seen.old.keys name) }
{
    Ok(seen.insert(name)?)
}

/// Adds the faults in the header of a definition, given those of earlier modules.
pub fn check_header(
    alloc: Global,
    table: &Table,
    earlier: &IndexSet<DefinitionKey>,
    definition: &Definition,
    faults: &mut FaultList,
) -> Result<(), NoMemory>
    ensures { OnOk result (faults.new
        ≡ with_faults faults.old (header_faults table.now earlier.now.keys definition.now)) }
{
    check_parameters(alloc, definition, faults)?;
    check_twice(earlier, definition, faults)?;
    check_clash(table, definition, faults)
}

// Adds the fault of a definition that an earlier module has, too.
fn check_twice(
    earlier: &IndexSet<DefinitionKey>,
    definition: &Definition,
    faults: &mut FaultList,
) -> Result<(), NoMemory>
    ensures { OnOk result (faults.new
        ≡ with_faults faults.old (twice_faults earlier.now.keys definition.now)) }
{
    let strategies = definition.strategy_parameters().len();
    let terms = definition.term_parameters().len();
    let name = definition.name();
    if earlier.contains(&DefinitionKey::new(name, strategies, terms)?) {
        let place = definition.place().token(0);
        return faults.add(FaultKind::Twice, name, strategies, terms, place);
    }
    Ok(())
}

// Adds the fault of a definition whose name is a constructor, too.
fn check_clash(
    table: &Table,
    definition: &Definition,
    faults: &mut FaultList,
) -> Result<(), NoMemory>
    ensures { OnOk result (faults.new
        ≡ with_faults faults.old (clash_faults table.now definition.now)) }
{
    let strategies = definition.strategy_parameters().len();
    let name = definition.name();
    if definition.term_parameters().is_empty() && table.declares(name, strategies)? {
        let place = definition.place().token(0);
        return faults.add(FaultKind::Clash, name, strategies, 0, place);
    }
    Ok(())
}
