//! All faults of modules and of strategies.
#![tactic(auto)]

ghost use Rattle.std.specs.Prelude.{◌≡◌, ◌++◌, take, IfOk};
ghost use Rattle.strategy_check.specs.Faults.{faults};
ghost use Rattle.strategy_check.specs.Programs.{faults_of};

use crate::found::FoundFault;
use crate::list::FaultList;
use crate::modules::check_modules;
use crate::named::NamedModule;
use crate::program::Program;
use crate::strategies::find_in_strategy;
use crate::table::Table;
use indexmap::IndexSet;
use prim_core::{Meaning, Primitives};
use std::alloc::Global;
use strategy_syntax::Strategy;
use term_core::NoMemory;

/// The first faults of the modules, `most` at most, in the order in which they count. The first one
/// is that with which `check` refuses the modules.
///
/// The modules are given in three parts, so that new ones can be lent among others that are kept:
/// those before the new ones, the new ones, and those after them. Together they are in the order of
/// their names.
///
/// Errors: `NoMemory` if memory can't grow.
pub fn all_faults<M: Meaning>(
    alloc: Global,
    before: &[NamedModule],
    new: &[NamedModule],
    after: &[NamedModule],
    primitives: &Primitives<M>,
    most: usize,
) -> Result<Vec<FoundFault>, NoMemory>
    ensures { IfOk result (λ found. found.items
        ≡ take most (faults (before.now ++ (new.now ++ after.now)) primitives.now)) }
{
    let table = Table::of_parts(alloc, before, new, after)?;
    let mut earlier = IndexSet::new(alloc);
    let mut faults = FaultList::new(alloc, most);
    let second = before.len();
    let third = second.saturating_add(new.len());
    check_modules(
        alloc,
        &table,
        primitives,
        &mut earlier,
        before,
        0,
        &mut faults,
    )?;
    check_modules(
        alloc,
        &table,
        primitives,
        &mut earlier,
        new,
        second,
        &mut faults,
    )?;
    check_modules(
        alloc,
        &table,
        primitives,
        &mut earlier,
        after,
        third,
        &mut faults,
    )?;
    Ok(faults.into_found())
}

/// The first faults of the strategy in the program, `most` at most, in the order in which they
/// count. The first one is that with which `resolve` refuses the strategy.
///
/// Errors: `NoMemory` if memory can't grow.
pub fn all_strategy_faults<M: Meaning>(
    alloc: Global,
    program: &Program,
    primitives: &Primitives<M>,
    strategy: &Strategy,
    most: usize,
) -> Result<Vec<FoundFault>, NoMemory>
    ensures { IfOk result (λ found. found.items
        ≡ take most (faults_of program.now primitives.now strategy.now)) }
{
    let faults = find_in_strategy(alloc, program.table(), primitives, strategy, most)?;
    Ok(faults.into_found())
}
