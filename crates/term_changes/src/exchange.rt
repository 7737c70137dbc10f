//! The walk that exchanges the terms of a patch with what stands at its places.

ghost use Rattle.std.specs.Prelude.{◌≡◌, ◌≤◌, ◌<◌, ◌++◌, List, [], ◌∷◌, length, take, drop, reverse};
ghost use Rattle.term_changes.specs.Change.{changed, changed_all};
ghost use Rattle.term_changes.specs.Exchange.{taken};
ghost use Rattle.term_changes.specs.Items.{Item, items_changes, first_item};
ghost use Rattle.term_changes.specs.inside.ItemCodes.{taken_items};
ghost use Rattle.term_changes.specs.inside.Marks.{read, count, AreWhole};
ghost use Rattle.term_changes.specs.inside.Walked.{Walked};

use crate::draft::PlaceMark;
use std::mem;
use term_core::Term;

// How many of the marks and of the terms are left. Both are read from the end.
#[derive(Clone, Copy)]
pub(crate) struct Left {
    marks: usize,
    terms: usize,
}

/// Exchanges at the last of these places, which is in this tree.
#[cycle(exchange)]
#[inline(always)]
pub(crate) fn exchange_item(marks: &[PlaceMark], terms: &mut [Term], tree: &mut Term) -> Left
    requires some { 0 < length marks.now }
    requires whole { AreWhole (reverse marks.now) (length terms.old) }
    ensures tree { tree.new ≡ changed (first_item (read (reverse marks.now) (reverse terms.old))).1 tree.old }
    ensures walked { Walked marks.now terms.old terms.new result.marks result.terms
        (first_item (read (reverse marks.now) (reverse terms.old)) ∷ [])
        ((
          (first_item (read (reverse marks.now) (reverse terms.old))).0,
          taken (first_item (read (reverse marks.now) (reverse terms.old))).1 tree.old,
        ) ∷ []) }
{
    let last = marks.len() - 1;
    let mark = marks[last];
    if mark.kids > 0 {
        return exchange_kids(&marks[..last], mark.kids, terms, tree.children_mut());
    }
    let t = terms.len() - 1;
    mem::swap(&mut terms[t], tree);
    Left {
        marks: last,
        terms: t,
    }
}

// Passes over the last of these places, which isn't there.
#[cycle(exchange)]
fn pass_item(marks: &[PlaceMark], terms: &mut [Term]) -> Left
    requires some { 0 < length marks.now }
    requires whole { AreWhole (reverse marks.now) (length terms.old) }
    ensures walked { Walked marks.now terms.old terms.new result.marks result.terms
        (first_item (read (reverse marks.now) (reverse terms.old)) ∷ [])
        (first_item (read (reverse marks.now) (reverse terms.old)) ∷ []) }
{
    let last = marks.len() - 1;
    let mark = marks[last];
    if mark.kids > 0 {
        return exchange_kids(&marks[..last], mark.kids, terms, &mut []);
    }
    Left {
        marks: last,
        terms: terms.len() - 1,
    }
}

// Exchanges at the last so many of these places, which are below these children.
#[cycle(exchange)]
#[inline(never)]
fn exchange_kids(
    marks: &[PlaceMark],
    kids: usize,
    terms: &mut [Term],
    children: &mut [Term],
) -> Left
    requires some { kids ≤ count (reverse marks.now) }
    requires whole { AreWhole (reverse marks.now) (length terms.old) }
    ensures children { children.new
        ≡ changed_all (items_changes (take kids (read (reverse marks.now) (reverse terms.old)))) children.old }
    ensures walked { Walked marks.now terms.old terms.new result.marks result.terms
        (take kids (read (reverse marks.now) (reverse terms.old)))
        (taken_items (take kids (read (reverse marks.now) (reverse terms.old))) children.old) }
{
    let mut left = Left {
        marks: marks.len(),
        terms: terms.len(),
    };
    let mut at = 0;
    for _k in 0..kids {
        left = exchange_kid(
            &marks[..left.marks],
            &mut terms[..left.terms],
            children,
            &mut at,
        );
    }
    left
}

// Exchanges at the last of these places, which is below a child from number `at` on. That is then
// the child after it.
#[cycle(exchange)]
#[inline(always)]
fn exchange_kid(
    marks: &[PlaceMark],
    terms: &mut [Term],
    children: &mut [Term],
    at: &mut usize,
) -> Left
    requires some { 0 < length marks.now }
    requires whole { AreWhole (reverse marks.now) (length terms.old) }
    requires within { at.old ≤ length children.old }
    ensures within { at.new ≤ length children.new }
    ensures children { (xs : List Item) → take at.new children.new ++ changed_all (items_changes xs) (drop at.new children.new)
        ≡ take at.old children.old
        ++ changed_all (items_changes (first_item (read (reverse marks.now) (reverse terms.old)) ∷ xs)) (drop at.old children.old) }
    ensures taken { (xs : List Item) → taken_items (first_item (read (reverse marks.now) (reverse terms.old)) ∷ xs) (drop at.old children.old)
        ≡ taken_items (first_item (read (reverse marks.now) (reverse terms.old)) ∷ []) (drop at.old children.old)
        ++ taken_items xs (drop at.new children.new) }
    ensures walked { Walked marks.now terms.old terms.new result.marks result.terms
        (first_item (read (reverse marks.now) (reverse terms.old)) ∷ [])
        (taken_items (first_item (read (reverse marks.now) (reverse terms.old)) ∷ []) (drop at.old children.old)) }
{
    let skipped = marks[marks.len() - 1].skipped;
    if skipped >= children.len() - *at {
        *at = children.len();
        return pass_item(marks, terms);
    }
    *at += skipped;
    let left = exchange_item(marks, terms, &mut children[*at]);
    *at += 1;
    left
}
