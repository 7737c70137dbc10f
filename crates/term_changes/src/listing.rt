//! The walk that takes the terms out of a patch, each with the path of its place.

ghost use Rattle.std.specs.Prelude.{◌≡◌, ◌≤◌, ◌<◌, ◌++◌, List, ◌∷◌, [], length, take, reverse, IfOk};
ghost use Rattle.term_paths.specs.Edits.{prefixed};
ghost use Rattle.term_changes.specs.Change.{places, places_from};
ghost use Rattle.term_changes.specs.Items.{Item, items_changes, first_item};
ghost use Rattle.term_changes.specs.PatchLaws.{patch_entries};
ghost use Rattle.term_changes.specs.Putting.{entries_at};
ghost use Rattle.term_changes.specs.inside.Marks.{read, count, AreWhole};
ghost use Rattle.term_changes.specs.inside.Walked.{Listed};

use crate::draft::PlaceMark;
use crate::entry::Entry;
use crate::{Patch, Plan};
use std::alloc::Global;
use term_core::{NoMemory, Term};

impl Patch {
    /// The places as entries of a plan, in the subterm that the path leads to in the slot's tree,
    /// from left to right.
    ///
    /// Errors: only want of memory; the patch is dropped then.
    pub fn into_plan(self, alloc: Global, slot: usize, path: &[usize]) -> Result<Plan, NoMemory>
        ensures { IfOk result (λ plan. plan ≡ patch_entries slot path.now self) }
    {
        let mut plan = Plan::new(alloc);
        let mut here = Vec::from_slice(alloc, path)?;
        let Patch { marks, mut terms } = self;
        plan.reserve(terms.len())?;
        if marks.len() > 0 {
            let _left = list_item(marks.as_slice(), &mut terms, slot, &mut here, &mut plan)?;
        }
        Ok(plan)
    }
}

// Adds the last of these places, which is at the path, to the plan. Returns how many marks are
// left.
#[cycle(list)]
fn list_item(
    marks: &[PlaceMark],
    terms: &mut Vec<Term>,
    slot: usize,
    path: &mut Vec<usize>,
    plan: &mut Plan,
) -> Result<usize, NoMemory>
    requires some { 0 < length marks.now }
    requires whole { AreWhole (reverse marks.now) (length terms.old.items) }
    ensures path { IfOk result (λ _. path.new.items ≡ path.old.items) }
    ensures plan { IfOk result (λ _. plan.new ≡ plan.old ++ entries_at slot (prefixed path.old.items
        (places (first_item (read (reverse marks.now) (reverse terms.old.items))).1))) }
    ensures listed { IfOk result (λ left. Listed marks.now terms.old.items terms.new.items left
        (first_item (read (reverse marks.now) (reverse terms.old.items)) ∷ [])) }
{
    let last = marks.len() - 1;
    let mark = marks[last];
    if mark.kids > 0 {
        return list_kids(&marks[..last], mark.kids, terms, slot, path, plan);
    }
    let Some(term) = terms.pop() else {
        unreachable!()
    };
    plan.add(Entry::subterm(slot, path, term))?;
    Ok(last)
}

// Adds the last so many of these places, which are below the children of the node at the path.
#[cycle(list)]
fn list_kids(
    marks: &[PlaceMark],
    kids: usize,
    terms: &mut Vec<Term>,
    slot: usize,
    path: &mut Vec<usize>,
    plan: &mut Plan,
) -> Result<usize, NoMemory>
    requires some { kids ≤ count (reverse marks.now) }
    requires whole { AreWhole (reverse marks.now) (length terms.old.items) }
    ensures path { IfOk result (λ _. path.new.items ≡ path.old.items) }
    ensures plan { IfOk result (λ _. plan.new ≡ plan.old ++ entries_at slot (prefixed path.old.items
        (places_from 0 (items_changes (take kids (read (reverse marks.now) (reverse terms.old.items))))))) }
    ensures listed { IfOk result (λ left. Listed marks.now terms.old.items terms.new.items left
        (take kids (read (reverse marks.now) (reverse terms.old.items)))) }
{
    let mut left = marks.len();
    let mut at = 0;
    for _k in 0..kids {
        left = list_kid(&marks[..left], terms, slot, path, &mut at, plan)?;
    }
    Ok(left)
}

// Adds the last of these places, which is below a child of the node at the path, from number `at`
// on. That is then the child after it.
#[cycle(list)]
fn list_kid(
    marks: &[PlaceMark],
    terms: &mut Vec<Term>,
    slot: usize,
    path: &mut Vec<usize>,
    at: &mut usize,
    plan: &mut Plan,
) -> Result<usize, NoMemory>
    requires some { 0 < length marks.now }
    requires whole { AreWhole (reverse marks.now) (length terms.old.items) }
    ensures path { IfOk result (λ _. path.new.items ≡ path.old.items) }
    ensures plan { IfOk result (λ _. (xs : List Item)
        → plan.new ++ entries_at slot (prefixed path.old.items (places_from at.new (items_changes xs)))
        ≡ plan.old ++ entries_at slot (prefixed path.old.items (places_from at.old
        (items_changes (first_item (read (reverse marks.now) (reverse terms.old.items)) ∷ xs))))) }
    ensures listed { IfOk result (λ left. Listed marks.now terms.old.items terms.new.items left
        (first_item (read (reverse marks.now) (reverse terms.old.items)) ∷ [])) }
{
    let skipped = marks[marks.len() - 1].skipped;
    let Some(child) = at.checked_add(skipped) else {
        return Err(NoMemory);
    };
    let Some(next) = child.checked_add(1) else {
        return Err(NoMemory);
    };
    path.push(child)?;
    let left = list_item(marks, terms, slot, path, plan)?;
    let _child = path.pop();
    *at = next;
    Ok(left)
}
