//! The frames of a machine, as slots of at most 48 bytes. What is large stands beside them, on a
//! stack for each sort, in the order of the slots that use it.
//!
//! Functions that take a frame off are small and hold it alone: each value that a function may hold
//! is cleared where it starts.

ghost use Rattle.std.specs.Prelude.{◌≡◌, ◌<◌, ◌+◌, List, [], ◌∷◌, ◌++◌, length, reverse, true, IfOk, OnOk, MatchOption};
ghost use Rattle.strategy_machine.specs.Trails.{path_of};
ghost use Rattle.strategy_machine.specs.inside.Slots.{EndsWith, EndsIn, has_walk, has_start, has_front, has_first, is_alone, alone, with_walk, with_start, with_front, with_first};
ghost use Rattle.strategy_machine.specs.inside.Walks.{LastGoesOn, LastStepsOver, StaysSame};
ghost use Rattle.strategy_machine.specs.declared.frames.Acts.{Acts};
ghost use Rattle.strategy_machine.specs.declared.stack.Slot.{Slot};
ghost use Rattle.strategy_machine.specs.declared.stack.Slot.TheVariants.{Each};

use crate::children::first_act;
use crate::fail::pass;
use crate::frames::{Acts, Walk, drop_changed, drop_part, drop_parts, drop_walk};
use crate::give::to_next;
use std::alloc::Global;
use std::marker::Model;
use strategy_syntax::ResolvedStrategy;
use term_core::NoMemory;
use term_match::Mark;
use term_values::Part;

/// A frame without what is large.
#[derive(Clone, Copy)]
pub(crate) enum Slot<'t> {
    Then {
        strategy: &'t ResolvedStrategy,
        scope: usize,
    },
    Choose {
        then: &'t ResolvedStrategy,
        otherwise: &'t ResolvedStrategy,
        scope: usize,
        mark: Mark,
    },
    Restore,
    Each {
        acts: Acts<'t>,
        scope: usize,
    },
    Leftmost {
        strategy: &'t ResolvedStrategy,
        scope: usize,
        mark: Mark,
    },
    Those {
        strategy: &'t ResolvedStrategy,
        scope: usize,
        mark: Mark,
        any: bool,
    },
    Tail {
        tail: &'t ResolvedStrategy,
        scope: usize,
        count: usize,
    },
    Rest {
        count: usize,
        edits: usize,
    },
    Head {
        tail: &'t ResolvedStrategy,
        scope: usize,
    },
    After {
        edits: usize,
    },
    Leave {
        scopes: usize,
    },
    Cut {
        cells: usize,
        scopes: usize,
    },
}

/// The focus that a choice or a test started with, and how many edits there were.
#[derive(Drop)]
pub(crate) struct Start<'t> {
    pub part: Part<'t>,
    pub edits: usize,
}

/// A list whose rest is the focus, with the parts in the places of its first elements.
#[derive(Drop)]
pub(crate) struct Front<'t> {
    pub node: Part<'t>,
    pub parts: Vec<Part<'t>>,
}

/// A list whose rest is the focus, with the part in the place of its first element if that has
/// changed.
#[derive(Drop)]
pub(crate) struct First<'t> {
    pub node: Part<'t>,
    pub part: Option<Part<'t>>,
}

/// Frames, the outermost first.
#[derive(Drop)]
pub struct Frames<'t> {
    pub(crate) slots: Vec<Slot<'t>>,
    pub(crate) walks: Vec<Walk<'t>>,
    starts: Vec<Start<'t>>,
    pub(crate) fronts: Vec<Front<'t>>,
    pub(crate) firsts: Vec<First<'t>>,
}

impl<'t> Model for Frames<'t> {
    ghost use Rattle.std.specs.Prelude.{List};
    ghost use Rattle.strategy_machine.specs.declared.frames.Frame.{Frame};
    ghost use Rattle.std.specs.Coded.{codes};
    ghost use Rattle.strategy_syntax.specs.inside.ResolvedCodes.{resolved_code};
    ghost use Rattle.term_changes.specs.inside.StandingCodes.{standing_code};

    ghost Value = { List Frame };

    ghost coded = { Prim.hlevel (codes, resolved_code, standing_code) };

    ghost use Rattle.strategy_machine.specs.inside.Slots.{frames_of, Fits};

    ghost view = { λ a. frames_of a.slots.items a.walks.items a.starts.items a.fronts.items a.firsts.items };

    ghost invariant = { λ a. Fits a.slots.items a.walks.items a.starts.items a.fronts.items a.firsts.items };
}

impl<'t> Frames<'t> {
    /// No frames. It takes no memory.
    pub(crate) fn new(alloc: Global) -> Frames<'t>
        ensures { result ≡ [] }
    {
        Frames {
            slots: Vec::new(alloc),
            walks: Vec::new(alloc),
            starts: Vec::new(alloc),
            fronts: Vec::new(alloc),
            firsts: Vec::new(alloc),
        }
    }

    /// How many there are.
    pub fn len(&self) -> usize
        ensures { result ≡ length self.now }
    {
        self.slots.len()
    }

    /// Adds an innermost frame, which needs nothing but its slot.
    #[inline(always)]
    pub(crate) fn wait(&mut self, slot: Slot<'t>) -> Result<(), NoMemory>
        requires { is_alone slot ≡ true }
        ensures items { OnOk result (self.new ≡ self.old ++ alone slot.entry) }
        ensures len { OnOk result (length self.new ≡ length self.old + 1) }
    {
        self.slots.reserve(1)?;
        self.slots.push_reserved(slot);
        Ok(())
    }

    /// Adds an innermost frame with a walk. Each stack grows before either is written, so a refused
    /// growth changes nothing; so too in the functions below.
    #[inline(always)]
    pub(crate) fn wait_with_walk(&mut self, slot: Slot<'t>, walk: Walk<'t>) -> Result<(), NoMemory>
        requires { has_walk slot ≡ true }
        ensures items { OnOk result (self.new ≡ self.old ++ with_walk slot.entry walk.entry) }
        ensures len { OnOk result (length self.new ≡ length self.old + 1) }
    {
        if self.slots.reserve(1).is_ok() && self.walks.reserve(1).is_ok() {
            self.slots.push_reserved(slot);
            self.walks.push_reserved(walk);
            return Ok(());
        }
        drop_walk(walk);
        Err(NoMemory)
    }

    /// Adds an innermost frame with a start.
    #[inline(always)]
    pub(crate) fn wait_with_start(
        &mut self,
        slot: Slot<'t>,
        start: Start<'t>,
    ) -> Result<(), NoMemory>
        requires { has_start slot ≡ true }
        ensures items { OnOk result (self.new ≡ self.old ++ with_start slot.entry start.entry) }
        ensures len { OnOk result (length self.new ≡ length self.old + 1) }
    {
        if self.slots.reserve(1).is_ok() && self.starts.reserve(1).is_ok() {
            self.slots.push_reserved(slot);
            self.starts.push_reserved(start);
            return Ok(());
        }
        drop_part(start.part);
        Err(NoMemory)
    }

    /// Adds an innermost frame with the front of a list.
    #[inline(always)]
    pub(crate) fn wait_with_front(
        &mut self,
        slot: Slot<'t>,
        front: Front<'t>,
    ) -> Result<(), NoMemory>
        requires { has_front slot ≡ true }
        ensures items { OnOk result (self.new ≡ self.old ++ with_front slot.entry front.entry) }
        ensures len { OnOk result (length self.new ≡ length self.old + 1) }
    {
        if self.slots.reserve(1).is_ok() && self.fronts.reserve(1).is_ok() {
            self.slots.push_reserved(slot);
            self.fronts.push_reserved(front);
            return Ok(());
        }
        let Front { node, parts } = front;
        drop_parts(parts);
        drop_part(node);
        Err(NoMemory)
    }

    /// Adds an innermost frame with the first element of a list.
    #[inline(always)]
    pub(crate) fn wait_with_first(
        &mut self,
        slot: Slot<'t>,
        first: First<'t>,
    ) -> Result<(), NoMemory>
        requires { has_first slot ≡ true }
        ensures items { OnOk result (self.new ≡ self.old ++ with_first slot.entry first.entry) }
        ensures len { OnOk result (length self.new ≡ length self.old + 1) }
    {
        if self.slots.reserve(1).is_ok() && self.firsts.reserve(1).is_ok() {
            self.slots.push_reserved(slot);
            self.firsts.push_reserved(first);
            return Ok(());
        }
        let First { node, part } = first;
        drop_changed(part);
        drop_part(node);
        Err(NoMemory)
    }

    /// The slot of the innermost frame.
    #[inline(always)]
    pub(crate) fn last(&self) -> Option<Slot<'t>>
        ensures { MatchOption result (self.now ≡ []) (λ x. EndsWith x self.now) }
    {
        self.slots.last().copied()
    }

    /// Takes off the innermost frame, which has only a slot.
    #[inline(always)]
    pub(crate) fn pop(&mut self)
        requires { EndsIn is_alone self.old }
        ensures items { (x : Slot) → EndsWith x self.old → self.old ≡ self.new ++ alone x }
        ensures len { length self.new + 1 ≡ length self.old }
    {
        let _ = self.slots.take_last();
    }

    /// Takes off the innermost frame, which has a walk.
    #[inline(always)]
    pub(crate) fn pop_walk(&mut self) -> Walk<'t>
        requires { EndsIn has_walk self.old }
        ensures items { (x : Slot) → EndsWith x self.old → self.old ≡ self.new ++ with_walk x result }
        ensures len { length self.new + 1 ≡ length self.old }
    {
        let _ = self.slots.take_last();
        self.walks.take_last()
    }

    /// Takes off the innermost frame, which has a start.
    #[inline(always)]
    pub(crate) fn pop_start(&mut self) -> Start<'t>
        requires { EndsIn has_start self.old }
        ensures items { (x : Slot) → EndsWith x self.old → self.old ≡ self.new ++ with_start x result }
        ensures len { length self.new + 1 ≡ length self.old }
    {
        let _ = self.slots.take_last();
        self.starts.take_last()
    }

    /// Takes off the innermost frame, which has a start, and drops that.
    #[inline(always)]
    pub(crate) fn drop_start(&mut self)
        requires { EndsIn has_start self.old }
        ensures items { (x : Slot) → EndsWith x self.old → (p : Start) × (self.old ≡ self.new ++ with_start x p) }
        ensures len { length self.new + 1 ≡ length self.old }
    {
        drop_part(self.pop_start().part);
    }

    /// Takes off the innermost frame, which has the front of a list.
    #[inline(always)]
    pub(crate) fn pop_front(&mut self) -> Front<'t>
        requires { EndsIn has_front self.old }
        ensures items { (x : Slot) → EndsWith x self.old → self.old ≡ self.new ++ with_front x result }
        ensures len { length self.new + 1 ≡ length self.old }
    {
        let _ = self.slots.take_last();
        self.fronts.take_last()
    }

    /// Takes off the innermost frame, which has the first element of a list.
    #[inline(always)]
    pub(crate) fn pop_first(&mut self) -> First<'t>
        requires { EndsIn has_first self.old }
        ensures items { (x : Slot) → EndsWith x self.old → self.old ≡ self.new ++ with_first x result }
        ensures len { length self.new + 1 ≡ length self.old }
    {
        let _ = self.slots.take_last();
        self.firsts.take_last()
    }

    /// If the innermost frame has a strategy for a next child, that child becomes the focus in
    /// place of the finished one; else nothing changes.
    #[inline(always)]
    pub(crate) fn walk_on(
        &mut self,
        part: &mut Part<'t>,
        spares: &mut Vec<Vec<Part<'t>>>,
        edits: usize,
    ) -> Result<Option<(&'t ResolvedStrategy, usize)>, NoMemory>
        ensures { IfOk result (λ next. MatchOption next ((self.new ≡ self.old) × (part.new ≡ part.old)) (λ x. LastGoesOn self.old part.old edits x.0 x.1 self.new part.new)) }
    {
        let Some(Slot::Each { acts, scope }) = self.last() else {
            return Ok(None);
        };
        let Some((strategy, others)) = first_act(acts) else {
            return Ok(None);
        };
        let walk = self.walks.len() - 1;
        if !to_next(&mut self.walks[walk], part, spares, edits)? {
            return Ok(None);
        }
        put_others(&mut self.slots, others, scope);
        Ok(Some((strategy, scope)))
    }

    /// After a failure of its child, the walk of the innermost frame moves on to the next one,
    /// which becomes the focus, and the count of edits is the one to go back to; without a next
    /// child, nothing changes.
    #[inline(always)]
    pub(crate) fn pass_child(&mut self, part: &mut Part<'t>) -> Result<Option<usize>, NoMemory>
        requires { EndsIn has_walk self.old }
        ensures items { IfOk result (λ found. (x : Slot) → EndsWith x self.old → LastStepsOver x self.old part.old found self.new part.new) }
        ensures len { IfOk result (λ found. length self.new ≡ length self.old) }
    {
        let walk = self.walks.len() - 1;
        pass(&mut self.walks[walk], part)
    }

    /// The path that the frames lead to, the outermost frame first.
    pub(crate) fn path(&self, alloc: Global) -> Result<Vec<usize>, NoMemory>
        ensures { IfOk result (λ path. path.items ≡ path_of (reverse self.now)) }
    {
        let mut path = Vec::with_capacity(alloc, self.walks.len())?;
        for walk in &self.walks {
            path.push(walk.index)?;
        }
        Ok(path)
    }
}

// Puts the strategies for the children after the next one into the last slot, which has those from
// the next one on. A strategy for all children is there already.
#[inline(always)]
fn put_others<'t>(slots: &mut Vec<Slot<'t>>, others: Acts<'t>, scope: usize)
    requires { 0 < length slots.old.items }
    ensures { (front : List Slot) (acts : Acts) → slots.old.items ≡ front ++ Each acts scope ∷ [] → StaysSame acts others.entry
        → slots.new.items ≡ front ++ Each others.entry scope ∷ [] }
{
    if let Acts::List(_) = others {
        let last = slots.len() - 1;
        slots[last] = Slot::Each {
            acts: others,
            scope,
        };
    }
}
