//! Scopes of calls. What variables and names stand for in nested ones is shown by the tables in
//! `rows/strategies` at the top of the repository.

use std::alloc::Global;
use std::test::Fail;
use strategy_machine::Scopes;
use strategy_syntax::{ResolvedForm, ResolvedStrategy};
use term_core::NoMemory;

// Whether a call that passes all names on has the scope of its caller, and others have their own.
fn is_handed_on<'t>(
    scopes: &mut Scopes<'t>,
    others: &'t [ResolvedStrategy],
    names: &'t [ResolvedStrategy],
) -> Result<bool, NoMemory> {
    let whole = scopes.add_variables(None, 0, 0)?;
    let body = scopes.add_call(whole, others, 0, 0)?;
    let count = scopes.count();
    let same = scopes.add_call(body, names, 0, 0)?;
    let flat = scopes.count() == count;
    let with_variable = scopes.add_call(body, names, 0, 1)?;
    let with_others = scopes.add_call(body, others, 0, 0)?;
    Ok(same == body && flat && with_variable != body && with_others != body)
}

fn are_handed_on(alloc: Global, strategies: &[ResolvedStrategy]) -> Result<bool, NoMemory> {
    if strategies.len() < 2 {
        return Ok(false);
    }
    let mut scopes = Scopes::new(alloc);
    is_handed_on(&mut scopes, &strategies[2..], &strategies[..2])
}

fn new_scopes_are_handed_on(alloc: Global) -> Result<bool, NoMemory> {
    let strategies = vec![in alloc;
        ResolvedStrategy::new(ResolvedForm::Param(0)),
        ResolvedStrategy::new(ResolvedForm::Param(1)),
        ResolvedStrategy::new(ResolvedForm::Id),
        ResolvedStrategy::new(ResolvedForm::Fail),
    ]?;
    are_handed_on(alloc, &strategies)
}

#[test]
fn a_call_that_hands_all_names_on_has_the_same_scope(rt: HostRuntime) -> Result<(), Fail> {
    assert!(rt; new_scopes_are_handed_on(rt.alloc())?);
    Ok(())
}
