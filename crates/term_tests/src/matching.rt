//! Matching and building with owned terms. What patterns match and build is shown by the tables in
//! `rows/strategies` at the top of the repository.

use std::alloc::Global;
use std::test::Fail;
use strategy_syntax::{ResolvedPattern, ResolvedPatternForm};
use term_core::{MAX_SIZE, NoMemory, Term};
use term_match::{BuiltTerm, Cells, InSlice};

// The cell of x.
const CELLS: [usize; 1] = [0];

// [|x]: a list without elements in front, as no text spells one. It is in a box, which is dropped
// by a call: the drop of a pattern itself is proved anew on each way out.
fn rest(alloc: Global) -> Result<Box<ResolvedPattern>, NoMemory> {
    let x = ResolvedPattern::new(ResolvedPatternForm::Variable(0));
    let form = ResolvedPatternForm::WithTail(Vec::new(alloc), Box::new(alloc, x)?);
    Ok(Box::new(alloc, ResolvedPattern::new(form))?)
}

// [1]{2}
fn annotated_list(alloc: Global) -> Result<Term, NoMemory> {
    let list = Term::list(alloc, vec![in alloc; Term::integer(alloc, 1)]?);
    Ok(list.with_annotations(vec![in alloc; Term::integer(alloc, 2)]?))
}

// [1]
fn is_bare(built: BuiltTerm) -> bool {
    match built {
        BuiltTerm::Term(list) => list.child_count() == 1 && list.annotations().is_empty(),
        _ => false,
    }
}

// The rest of a list is the list without annotations.
fn is_rest<'t>(
    alloc: Global,
    cells: &mut Cells<'t>,
    pattern: &'t ResolvedPattern,
    list: &'t Term,
) -> Result<bool, NoMemory> {
    let variables = InSlice { cells: &CELLS };
    cells.open_cells(1)?;
    let is_list = cells.matches_term(alloc, &variables, pattern, list)?;
    let built = cells.build_term(alloc, &variables, pattern, 0, MAX_SIZE)?;
    cells.close_cells(1);
    Ok(is_list && is_bare(built) && cells.count() == 0)
}

fn is_rest_in_new_cells(
    alloc: Global,
    pattern: &ResolvedPattern,
    list: &Term,
) -> Result<bool, NoMemory> {
    let mut cells = Cells::new(alloc);
    is_rest(alloc, &mut cells, pattern, list)
}

fn rests_are_built(alloc: Global) -> Result<bool, NoMemory> {
    let pattern = rest(alloc)?;
    let list = annotated_list(alloc)?;
    is_rest_in_new_cells(alloc, &pattern, &list)
}

// A variable matches any term, and then that one alone; it builds it.
fn is_bound<'t>(
    alloc: Global,
    cells: &mut Cells<'t>,
    x: &'t ResolvedPattern,
    one: &'t Term,
    two: &'t Term,
) -> Result<bool, NoMemory> {
    let variables = InSlice { cells: &CELLS };
    cells.open_cells(1)?;
    let is_first = cells.matches_term(alloc, &variables, x, one)?;
    let is_second = cells.matches_term(alloc, &variables, x, two)?;
    let built = cells.build_term(alloc, &variables, x, 0, MAX_SIZE)?;
    let is_built = matches!(&built, BuiltTerm::Term(term) if term.equals(one));
    Ok(is_first && !is_second && is_built)
}

fn variables_are_bound(alloc: Global) -> Result<bool, NoMemory> {
    let x = ResolvedPattern::new(ResolvedPatternForm::Variable(0));
    let x = Box::new(alloc, x)?;
    let one = Term::integer(alloc, 1);
    let two = Term::integer(alloc, 2);
    let mut cells = Cells::new(alloc);
    is_bound(alloc, &mut cells, &x, &one, &two)
}

#[test]
fn bound_variables_match_their_term_alone(rt: HostRuntime) -> Result<(), Fail> {
    assert!(rt; variables_are_bound(rt.alloc())?);
    Ok(())
}

#[test]
fn owned_terms_match_and_are_built(rt: HostRuntime) -> Result<(), Fail> {
    assert!(rt; rests_are_built(rt.alloc())?);
    Ok(())
}
