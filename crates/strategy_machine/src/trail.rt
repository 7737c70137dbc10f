//! The edits of a run: their count and, on request, the edits themselves.

ghost use Rattle.std.specs.Prelude.{◌≡◌, ◌++◌, ◌∷◌, [], length, reverse, IfOk, OnOk};
ghost use Rattle.term_paths.specs.Edits.{Edits, prefixed};
ghost use Rattle.term_changes.specs.Putting.{entry_at, entries_at};
ghost use Rattle.strategy_machine.specs.Trails.{Shows, path_of};

use crate::stack::Frames;
use std::alloc::Global;
use std::marker::Model;
use term_changes::{Entry, Plan};
use term_core::NoMemory;
use term_values::Value;

/// A replaced place, by its path in the term of the run, and its new value.
#[derive(Drop)]
pub struct Edit<'t> {
    pub path: Vec<usize>,
    pub value: Value<'t>,
}

impl<'t> Model for Edit<'t> {
    ghost use Rattle.term_paths.specs.Edits.{Edit};
    ghost use Rattle.term_changes.specs.inside.ChangeCode.{edit_code};

    ghost Value = { Edit };

    ghost coded = { edit_code };

    ghost view = { λ a. record { path = a.path.items; new = a.value } };
}

impl<'t> Edit<'t> {
    // Adds the edit to the plan, with `path` in front of its own, as an owned term.
    fn add_to(
        &self,
        alloc: Global,
        slot: usize,
        path: &[usize],
        plan: &mut Plan,
    ) -> Result<(), NoMemory>
        ensures { OnOk result (plan.new ≡ plan.old ++ entry_at slot (record { path = path.now ++ self.now.path; new = self.now.new }) ∷ []) }
    {
        let mut whole = Vec::from_slice(alloc, path)?;
        whole.extend_from_slice(&self.path)?;
        plan.add(Entry::subterm(slot, &whole, self.value.to_term(alloc)?))
    }
}

/// The edits so far, the first one first.
#[derive(Drop)]
pub struct Trail<'t> {
    pub count: usize,
    pub made: Option<Vec<Edit<'t>>>,
}

impl<'t> Trail<'t> {
    /// No edits; only their count will be kept.
    pub fn counted() -> Trail<'t>
        ensures { Shows result [] }
    {
        Trail {
            count: 0,
            made: None,
        }
    }

    /// No edits; they will be kept.
    pub fn listed(alloc: Global) -> Trail<'t>
        ensures { Shows result [] }
    {
        Trail {
            count: 0,
            made: Some(Vec::new(alloc)),
        }
    }

    /// Forgets all edits but the first `count`.
    #[inline(always)]
    pub(crate) fn cut(&mut self, count: usize)
        ensures { (T D : Edits) → count ≡ length T → Shows self.old (T ++ D) → Shows self.new T }
    {
        self.count = count;
        if let Some(made) = &mut self.made {
            made.truncate(count);
        }
    }

    /// Adds an edit at the place that the frames lead to.
    #[inline(always)]
    pub(crate) fn push(
        &mut self,
        alloc: Global,
        frames: &Frames<'t>,
        value: &Value<'t>,
    ) -> Result<(), NoMemory>
        ensures { OnOk result ((T : Edits) → Shows self.old T
            → Shows self.new (T ++ record { path = path_of (reverse frames.now); new = value.now } ∷ [])) }
    {
        let Some(count) = self.count.checked_add(1) else {
            return Err(NoMemory);
        };
        if let Some(made) = &mut self.made {
            keep(alloc, made, frames, value)?;
        }
        self.count = count;
        Ok(())
    }

    /// The edits in the tree of a slot as owned terms, in order, with `path` in front of their own.
    /// A trail that keeps only the count answers `NoMemory`.
    pub fn replacements(&self, alloc: Global, slot: usize, path: &[usize]) -> Result<Plan, NoMemory>
        ensures { IfOk result (λ plan. (T : Edits) → Shows self.now T → plan ≡ entries_at slot (prefixed path.now T)) }
    {
        let Some(made) = &self.made else {
            return Err(NoMemory);
        };
        let mut plan = Plan::new(alloc);
        for edit in made {
            edit.add_to(alloc, slot, path, &mut plan)?;
        }
        Ok(plan)
    }
}

// Adds an edit.
#[inline(never)]
fn keep<'t>(
    alloc: Global,
    made: &mut Vec<Edit<'t>>,
    frames: &Frames<'t>,
    value: &Value<'t>,
) -> Result<(), NoMemory>
    ensures { OnOk result (made.new.items ≡ made.old.items ++ record { path = path_of (reverse frames.now); new = value.now } ∷ []) }
{
    let path = frames.path(alloc)?;
    made.push(Edit {
        path,
        value: value.try_clone()?,
    })?;
    Ok(())
}
