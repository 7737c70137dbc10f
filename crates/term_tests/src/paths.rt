//! Paths that are built and compared, and the subterms that they lead to.

use std::alloc::Global;
use std::test::Fail;
use term_core::{Kind, Term};
use term_paths::{
    Path, at, at_mut, at_parts, at_parts_mut, change_at, change_at_parts, parts_lie_within,
    swap_annotations_at, swap_annotations_at_parts, swap_at, swap_at_parts,
};

fn path(alloc: Global, parts: &[usize]) -> Result<Path, Fail> {
    Ok(Path::from_parts(Vec::from_slice(alloc, parts)?))
}

fn integers(alloc: Global, values: &[i64]) -> Result<Vec<Term>, Fail> {
    let mut terms = Vec::new(alloc);
    for value in values {
        terms.push(Term::integer(alloc, *value))?;
    }
    Ok(terms)
}

// (1,[2,3]{4})
fn tree(alloc: Global) -> Result<Term, Fail> {
    let list = Term::list(alloc, integers(alloc, &[2, 3])?);
    let list = list.with_annotations(integers(alloc, &[4])?);
    Ok(Term::tuple(alloc, vec![in alloc; Term::integer(alloc, 1), list]?))
}

fn is_integer(term: Option<&Term>, value: i64) -> bool {
    term.is_some_and(|term| matches!(term.kind(), Kind::Integer(found) if found == value))
}

// From the root to 3/0 and back up.
fn goes_down_and_up(alloc: Global) -> Result<bool, Fail> {
    let mut path = Path::root(alloc);
    let was_root = path.is_root() && path.len() == 0 && path.up().is_none();
    path.down(3)?;
    path.down(0)?;
    let copy = path.try_clone()?;
    let is_down = path.len() == 2 && path.part(1) == Some(0) && path.part(2).is_none();
    let was_same = path.equals(&copy);
    let is_up = path.up() == Some(0) && !path.equals(&copy);
    let lie = copy.lies_within(&path) && !path.lies_within(&copy);
    let parts_lie = parts_lie_within(&[3, 0], &[]) && !parts_lie_within(&[3, 1], &[3, 0]);
    let are_parts = path.into_parts().as_slice() == [3].as_slice();
    Ok(was_root && is_down && was_same && is_up && lie && parts_lie && are_parts)
}

// What some paths find in the tree.
fn are_found(tree: &mut Term, deep: &Path, beside: &Path) -> bool {
    is_integer(at(tree, deep), 3)
        && is_integer(at_parts(tree, &[0]), 1)
        && at(tree, beside).is_none()
        && at_mut(tree, deep).is_some()
        && at_mut(tree, beside).is_none()
        && at_parts_mut(tree, &[1]).is_some()
}

// The other term, which is 5, is swapped with a subterm and then with the tree.
fn are_swapped(tree: &mut Term, other: &mut Term, deep: &Path, beside: &Path) -> bool {
    !swap_at(tree, beside, other)
        && is_integer(Some(other), 5)
        && swap_at(tree, deep, other)
        && is_integer(Some(other), 3)
        && is_integer(at(tree, deep), 5)
        && is_integer(at_parts(tree, &[1, 0]), 2)
        && swap_at_parts(tree, &[], other)
        && is_integer(Some(tree), 3)
        && is_integer(at(other, deep), 5)
}

fn are_subterms(alloc: Global) -> Result<bool, Fail> {
    let deep = path(alloc, &[1, 1])?;
    let beside = path(alloc, &[1, 1, 0])?;
    let mut tree = tree(alloc)?;
    let mut other = Term::integer(alloc, 5);
    Ok(are_found(&mut tree, &deep, &beside) && are_swapped(&mut tree, &mut other, &deep, &beside))
}

// The annotations are 6 and 7.
fn are_annotated(tree: &mut Term, root: &Path, annotations: &mut Vec<Term>) -> bool {
    swap_annotations_at(tree, root, annotations)
        && annotations.is_empty()
        && tree.annotations().len() == 2
        && swap_annotations_at_parts(tree, &[1], annotations)
        && is_integer(annotations.first(), 4)
        && !swap_annotations_at_parts(tree, &[1, 2], annotations)
        && change_at(
            tree,
            root,
            |here: &mut Term| here.swap_annotations(annotations),
        )
        && annotations.len() == 2
        && change_at_parts(
            tree,
            &[0],
            |here: &mut Term| here.swap_annotations(annotations),
        )
        && annotations.is_empty()
        && at_parts(tree, &[0]).is_some_and(|here| here.annotations().len() == 2)
}

fn annotations_are_swapped(alloc: Global) -> Result<bool, Fail> {
    let root = Path::root(alloc);
    let mut annotations = integers(alloc, &[6, 7])?;
    let mut tree = tree(alloc)?;
    Ok(are_annotated(&mut tree, &root, &mut annotations))
}

#[test]
fn paths_lead_to_subterms(rt: HostRuntime) -> Result<(), Fail> {
    let alloc = rt.alloc();
    assert!(rt;
        goes_down_and_up(alloc)? && are_subterms(alloc)? && annotations_are_swapped(alloc)?
    );
    Ok(())
}
