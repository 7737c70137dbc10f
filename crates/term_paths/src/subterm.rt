//! Subterms at paths: reading them and changing them in place. The work of each call is linear in
//! the length of the path, and none takes memory.

ghost use Rattle.std.specs.Prelude.{◌≡◌, Some, option_copied};
ghost use Rattle.std.specs.Option.{option_copied_mut};
ghost use Rattle.std.specs.Bool.{OnTrue, OnFalse};
ghost use Rattle.std.specs.Fn.{FnOnceReturnsAtMut};
ghost use Rattle.term_paths.specs.Paths.{at, leads, annotations_at, set_at, set_annotations_at, ChangesAt};

use crate::Path;
use std::mem;
use term_core::Term;

/// The subterm at the path, or `None` if there is none.
pub fn at<'a>(term: &'a Term, path: &Path) -> Option<&'a Term>
    ensures { option_copied result ≡ at term.now path.now }
{
    at_parts(term, path.parts())
}

/// [`at`], by the parts of the path.
pub fn at_parts<'a>(term: &'a Term, parts: &[usize]) -> Option<&'a Term>
    ensures { option_copied result ≡ at term.now parts.now }
{
    let mut here = term;
    for part in parts {
        here = here.child(*part)?;
    }
    Some(here)
}

/// The subterm at the path, for writing, or `None` if there is none. The contracts of [`change_at`]
/// and [`swap_at`] say more about the term afterwards.
pub fn at_mut<'a>(term: &'a mut Term, path: &Path) -> Option<&'a mut Term>
    ensures { option_copied_mut result ≡ at term.old path.now }
{
    at_parts_mut(term, path.parts())
}

/// [`at_mut`], by the parts of the path.
pub fn at_parts_mut<'a>(term: &'a mut Term, parts: &[usize]) -> Option<&'a mut Term>
    ensures { option_copied_mut result ≡ at term.old parts.now }
{
    let mut here = term;
    for part in parts {
        here = here.child_mut(*part)?;
    }
    Some(here)
}

/// Applies the closure once to the subterm at the path, and changes nothing else; `false`, and no
/// change, if there is no subterm. The contract doesn't say what becomes of the closure's captures:
/// a caller that needs to know uses `swap_at`.
pub fn change_at<F: FnOnce(&mut Term) + Drop>(term: &mut Term, path: &Path, change: F) -> bool
    requires { F.IsAlwaysCallable change }
    ensures there { result ≡ leads term.old path.now }
    ensures changed { OnTrue result (ChangesAt (λ old new.
        FnOnceReturnsAtMut F.FnOnce change old tt new) term.old path.now term.new) }
    ensures outside { OnFalse result (term.new ≡ term.old) }
{
    change_at_parts(term, path.parts(), change)
}

/// [`change_at`], by the parts of the path.
pub fn change_at_parts<F: FnOnce(&mut Term) + Drop>(
    term: &mut Term,
    parts: &[usize],
    change: F,
) -> bool
    requires { F.IsAlwaysCallable change }
    ensures there { result ≡ leads term.old parts.now }
    ensures changed { OnTrue result (ChangesAt (λ old new.
        FnOnceReturnsAtMut F.FnOnce change old tt new) term.old parts.now term.new) }
    ensures outside { OnFalse result (term.new ≡ term.old) }
{
    let Some((first, rest)) = parts.split_first() else {
        change(term);
        return true;
    };
    if *first >= term.child_count() {
        return false;
    }
    change_at_parts(&mut term.children_mut()[*first], rest, change)
}

/// Swaps the subterm at the path with the other term; `false`, and no change, if there is no
/// subterm.
pub fn swap_at(term: &mut Term, path: &Path, other: &mut Term) -> bool
    ensures there { result ≡ leads term.old path.now }
    ensures term { OnTrue result (term.new ≡ set_at term.old path.now other.old) }
    ensures old { OnTrue result (at term.old path.now ≡ Some other.new) }
    ensures outside { OnFalse result ((term.new ≡ term.old) × (other.new ≡ other.old)) }
{
    swap_at_parts(term, path.parts(), other)
}

/// [`swap_at`], by the parts of the path.
pub fn swap_at_parts(term: &mut Term, parts: &[usize], other: &mut Term) -> bool
    ensures there { result ≡ leads term.old parts.now }
    ensures term { OnTrue result (term.new ≡ set_at term.old parts.now other.old) }
    ensures old { OnTrue result (at term.old parts.now ≡ Some other.new) }
    ensures outside { OnFalse result ((term.new ≡ term.old) × (other.new ≡ other.old)) }
{
    let Some((first, rest)) = parts.split_first() else {
        mem::swap(term, other);
        return true;
    };
    if *first >= term.child_count() {
        return false;
    }
    swap_at_parts(&mut term.children_mut()[*first], rest, other)
}

/// Swaps the annotations of the subterm at the path with those in the vector; `false`, and no
/// change, if there is no subterm.
pub fn swap_annotations_at(term: &mut Term, path: &Path, other: &mut Vec<Term>) -> bool
    ensures there { result ≡ leads term.old path.now }
    ensures term { OnTrue result
        (term.new ≡ set_annotations_at term.old path.now other.old.items) }
    ensures old { OnTrue result (annotations_at term.old path.now ≡ Some other.new.items) }
    ensures outside { OnFalse result
        ((term.new ≡ term.old) × (other.new.items ≡ other.old.items)) }
{
    swap_annotations_at_parts(term, path.parts(), other)
}

/// [`swap_annotations_at`], by the parts of the path.
pub fn swap_annotations_at_parts(term: &mut Term, parts: &[usize], other: &mut Vec<Term>) -> bool
    ensures there { result ≡ leads term.old parts.now }
    ensures term { OnTrue result
        (term.new ≡ set_annotations_at term.old parts.now other.old.items) }
    ensures old { OnTrue result (annotations_at term.old parts.now ≡ Some other.new.items) }
    ensures outside { OnFalse result
        ((term.new ≡ term.old) × (other.new.items ≡ other.old.items)) }
{
    let Some((first, rest)) = parts.split_first() else {
        term.swap_annotations(other);
        return true;
    };
    if *first >= term.child_count() {
        return false;
    }
    swap_annotations_at_parts(&mut term.children_mut()[*first], rest, other)
}
