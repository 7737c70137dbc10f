//! The faults in a pattern.
#![tactic(auto, using(crate::proofs::FaultLemmas::added))]

ghost use Rattle.std.specs.Prelude.{◌≡◌, OnOk};
ghost use Rattle.strategy_syntax.specs.Syntax.{patterns_of};
ghost use Rattle.strategy_syntax.specs.Heads.{head_of};
ghost use Rattle.strategy_check.specs.Faults.{fault_if, head_faults, pattern_faults, faults_of_patterns, underscore};
ghost use Rattle.strategy_check.specs.inside.FaultLists.{with_faults};
ghost use Rattle.strategy_check.specs.inside.PatternUses.{is_built};

use crate::FaultKind;
use crate::list::FaultList;
use crate::table::Table;
use std::alloc::Global;
use strategy_syntax::{Head, Pattern, PatternForm, Place};
use term_core::{Name, NoMemory};

/// What a pattern is for.
#[derive(Clone, Copy)]
pub enum PatternUse {
    Match,
    Build,
}

/// Adds the faults of a pattern.
#[cycle(pattern)]
pub fn check_pattern(
    alloc: Global,
    table: &Table,
    used: PatternUse,
    pattern: &Pattern,
    faults: &mut FaultList,
) -> Result<(), NoMemory>
    ensures { OnOk result (faults.new
        ≡ with_faults faults.old (pattern_faults table.now (is_built used) pattern.now)) }
{
    match pattern.form() {
        PatternForm::Variable(_) | PatternForm::Integer(_) => Ok(()),
        PatternForm::Wildcard => check_wildcard(alloc, used, pattern.place(), faults),
        PatternForm::At(name, inner) => {
            let is_built = matches!(used, PatternUse::Build);
            faults.add_if(is_built, FaultKind::Wild, name, 0, 0, pattern.place())?;
            check_pattern(alloc, table, used, inner, faults)
        }
        PatternForm::Compound(head, patterns) => {
            check_pattern_head(table, head, patterns.len(), pattern.place(), faults)?;
            check_patterns(alloc, table, used, patterns, faults)
        }
        PatternForm::WithTail(patterns, tail) => {
            check_patterns(alloc, table, used, patterns, faults)?;
            check_pattern(alloc, table, used, tail, faults)
        }
        PatternForm::Annotated(base, annotations) => {
            check_pattern(alloc, table, used, base, faults)?;
            check_patterns(alloc, table, used, annotations, faults)
        }
    }
}

/// Adds the faults of patterns, from left to right.
#[cycle(pattern)]
pub fn check_patterns(
    alloc: Global,
    table: &Table,
    used: PatternUse,
    patterns: &[Pattern],
    faults: &mut FaultList,
) -> Result<(), NoMemory>
    ensures { OnOk result (faults.new ≡ with_faults faults.old
        (faults_of_patterns table.now (is_built used) (patterns_of patterns.now))) }
{
    for pattern in patterns {
        check_pattern(alloc, table, used, pattern, faults)?;
    }
    Ok(())
}

fn check_wildcard(
    alloc: Global,
    used: PatternUse,
    place: Place,
    faults: &mut FaultList,
) -> Result<(), NoMemory>
    ensures { OnOk result (faults.new ≡ with_faults faults.old
        (fault_if (is_built used) FaultKind.Wild underscore 0 0)) }
{
    if matches!(used, PatternUse::Match) {
        return Ok(());
    }
    match Name::word(alloc, b"_") {
        Ok(Some(name)) => faults.add(FaultKind::Wild, &name, 0, 0, place),
        _ => Err(NoMemory),
    }
}

// Strings, lists and tuples need no declaration.
fn check_pattern_head(
    table: &Table,
    head: &Head,
    count: usize,
    place: Place,
    faults: &mut FaultList,
) -> Result<(), NoMemory>
    ensures { OnOk result (faults.new
        ≡ with_faults faults.old (head_faults table.now (head_of head.now) count)) }
{
    let Head::Application(name) = head else {
        return Ok(());
    };
    if name.is_quoted() || table.declares(name, count)? {
        return Ok(());
    }
    faults.add(FaultKind::Undeclared, name, count, 0, place)
}
