//! Signatures, and which terms are of their sorts.

use std::alloc::Global;
use std::test::Fail;
use term_core::{Name, Term};
use term_sorts::{Declaration, Injection, Signature, Sort, Wanted};

fn word(alloc: Global, text: &[u8]) -> Result<Name, Fail> {
    Ok(Name::word(alloc, text)?.ok_or("no word")?)
}

fn sort(alloc: Global, text: &[u8]) -> Result<Sort, Fail> {
    Ok(Sort::new(alloc, word(alloc, text)?, Vec::new(alloc))?)
}

// `List(e)`
fn lists(alloc: Global) -> Result<Sort, Fail> {
    let arguments = vec![in alloc; sort(alloc, b"e")?]?;
    Ok(Sort::new(alloc, word(alloc, b"List")?, arguments)?)
}

// `L : List(e) -> e` and `: string -> e`
fn small(alloc: Global) -> Result<Signature, Fail> {
    let arguments = vec![in alloc; lists(alloc)?]?;
    let declaration = Declaration::new(word(alloc, b"L")?, arguments, sort(alloc, b"e")?);
    let signature = Signature::new(alloc)?;
    let signature = signature.with_constructor(&declaration)?.ok_or("clash")?;
    let injection = Injection::new(sort(alloc, b"string")?, sort(alloc, b"e")?);
    Ok(signature.with_injection(alloc, &injection)?.ok_or("clash")?)
}

// `L(["a",L([])])`, where the inner list has this term instead
fn nested(alloc: Global, inner: Vec<Term>) -> Result<Term, Fail> {
    let name = word(alloc, b"L")?;
    let empty = vec![in alloc; Term::list(alloc, inner)]?;
    let text = Term::application(alloc, Name::quoted(alloc, b"a")?, Vec::new(alloc));
    let elements = vec![in alloc; text, Term::application(alloc, name, empty)]?;
    let outer = vec![in alloc; Term::list(alloc, elements)]?;
    Ok(Term::application(alloc, word(alloc, b"L")?, outer))
}

fn terms_conform(alloc: Global) -> Result<bool, Fail> {
    let signature = small(alloc)?;
    let good = nested(alloc, Vec::new(alloc))?;
    let bad = nested(alloc, vec![in alloc; Term::integer(alloc, 1)]?)?;
    Ok(signature.is_well_sorted(&good) && !signature.is_well_sorted(&bad))
}

// The list wants elements of the sort `e`, and no integers.
fn places_want(alloc: Global) -> Result<bool, Fail> {
    let signature = small(alloc)?;
    let term = nested(alloc, Vec::new(alloc))?;
    let wanted = signature.wanted_inside(Wanted::anything(), &term, 0);
    let list = term.child(0).ok_or("no list")?;
    let element = signature.wanted_inside(wanted, list, 1);
    let first = list.child(0).ok_or("no element")?;
    Ok(signature.conforms(first, element) && !signature.conforms(&Term::integer(alloc, 1), element))
}

// With `: list -> e` beside `: List(e) -> e` a place would want two sorts.
fn clashes(alloc: Global) -> Result<bool, Fail> {
    let signature = small(alloc)?;
    let injection = Injection::new(lists(alloc)?, sort(alloc, b"e")?);
    let signature = signature.with_injection(alloc, &injection)?.ok_or("clash")?;
    let other = Injection::new(sort(alloc, b"list")?, sort(alloc, b"e")?);
    Ok(signature.with_injection(alloc, &other)?.is_none())
}

#[test]
fn terms_are_of_sorts(rt: HostRuntime) -> Result<(), Fail> {
    assert!(rt; terms_conform(rt.alloc())?);
    assert!(rt; places_want(rt.alloc())?);
    assert!(rt; clashes(rt.alloc())?);
    Ok(())
}
