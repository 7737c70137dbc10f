//! The room that names and terms take, and children that are swapped.

use std::alloc::Global;
use std::mem::size_of;
use std::test::Fail;
use term_core::{Kind, Name, NoMemory, Term};

// Whether the child of a list is swapped with 7.
fn is_swapped(alloc: Global) -> Result<bool, NoMemory> {
    let mut list = Term::list(alloc, vec![in alloc; Term::integer(alloc, 1)]?);
    let mut other = Term::integer(alloc, 7);
    let is_beside = list.swap_child(1, &mut other);
    let is_child = list.swap_child(0, &mut other);
    let is_there = list
        .child(0)
        .is_some_and(|child| matches!(child.kind(), Kind::Integer(7)));
    Ok(!is_beside && is_child && is_there && matches!(other.kind(), Kind::Integer(1)))
}

#[test]
fn names_and_terms(rt: HostRuntime) -> Result<(), Fail> {
    assert!(rt; is_swapped(rt.alloc())?);
    assert!(rt; size_of::<Name>() == 16 && size_of::<Term>() == 72);
    Ok(())
}
