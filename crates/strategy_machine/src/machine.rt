//! The state of a run.

ghost use Rattle.std.specs.Prelude.{◌≡◌, ◌≤◌, ◌+◌, ◌*◌, [], length};
ghost use Rattle.strategy_meaning.specs.Scopes.{cells_in};
ghost use Rattle.strategy_machine.specs.Table.{scopes as scopes_of, scope_at};
ghost use Rattle.strategy_meaning.specs.Answer.{Answer};
ghost use Rattle.strategy_meaning.specs.Meaning.{World};
ghost use Rattle.term_changes.specs.Standing.{Standing};
ghost use Rattle.strategy_machine.specs.Hands.{Begin, Done, Failed, in_hand};
ghost use Rattle.strategy_machine.specs.Turns.{Holds, After, load};
ghost use Rattle.strategy_machine.specs.inside.Turning.{with_next};

use crate::frames::{Next, Turned};
use crate::scopes::Scopes;
use crate::stack::Frames;
use crate::trail::Trail;
use prim_core::{Meaning, Primitives};
use std::alloc::Global;
use strategy_syntax::{Resolved, ResolvedForm as Form, ResolvedStrategy};
use term_core::Term;
use term_match::{Cells, VariableCells};
use term_values::{Part, Value};

/// What the numbers of definitions and primitives stand for, and the room for a built term: the
/// greatest size that fits.
#[derive(Drop)]
pub struct Host<'t, M: Meaning> {
    pub definitions: &'t [Resolved],
    pub primitives: &'t Primitives<M>,
    pub room: u32,
}

/// The focus and what to do next with it; the frames; what variables and names stand for; the
/// edits; the level of the focus; and the steps left. All parts of a run reuse the vectors.
#[derive(Drop)]
pub struct Machine<'t> {
    pub next: Next<'t>,
    pub part: Part<'t>,
    /// Parts in the places of the first children of the focus, up to the last changed one. They
    /// count if its children are visited next.
    pub parts: Vec<Part<'t>>,
    /// Vectors without elements, whose memory serves further nodes.
    pub spares: Vec<Vec<Part<'t>>>,
    pub frames: Frames<'t>,
    pub cells: Cells<'t>,
    pub scopes: Scopes<'t>,
    pub trail: Trail<'t>,
    /// The term arguments of the current call.
    pub arguments: Vec<Value<'t>>,
    pub level: u64,
    pub steps: u64,
}

impl<'t> Machine<'t> {
    /// A machine whose focus is a term, without frames.
    pub fn new(
        alloc: Global,
        trail: Trail<'t>,
        term: &'t Term,
        level: u64,
        steps: u64,
    ) -> Machine<'t>
        ensures frames { result.frames ≡ [] }
        ensures cells { result.cells.bindings ≡ [] }
        ensures scopes { scopes_of result.scopes ≡ [] }
        ensures trail { result.trail ≡ trail.entry }
        ensures level { result.level ≡ level }
        ensures steps { result.steps ≡ steps }
    {
        Machine {
            next: Next::Done,
            part: Part::original(term),
            parts: Vec::new(alloc),
            spares: Vec::new(alloc),
            frames: Frames::new(alloc),
            cells: Cells::new(alloc),
            scopes: Scopes::new(alloc),
            trail,
            arguments: Vec::new(alloc),
            level,
            steps,
        }
    }

    /// The focus goes to the innermost frame next, as a success.
    #[inline(always)]
    pub(crate) fn gives(&mut self) -> Turned
        ensures keeps { (W : World) (sub : Standing) (whole : Answer) → Holds W sub whole self.old (Done self.old.part) → After W sub whole self.new result }
        ensures on { result ≡ Turned.On }
        ensures next { self.new ≡ with_next self.old Next.Done }
    {
        self.next = Next::Done;
        Turned::On
    }

    /// A failure goes to the innermost frame next.
    #[inline(always)]
    pub(crate) fn fails(&mut self) -> Turned
        ensures keeps { (W : World) (sub : Standing) (whole : Answer) → Holds W sub whole self.old Failed → After W sub whole self.new result }
        ensures on { result ≡ Turned.On }
        ensures next { self.new ≡ with_next self.old Next.Failed }
    {
        self.next = Next::Failed;
        Turned::On
    }

    /// This strategy starts next.
    #[inline(always)]
    pub(crate) fn begins(&mut self, strategy: &'t ResolvedStrategy, scope: usize) -> Turned
        ensures keeps { (W : World) (sub : Standing) (whole : Answer)
            → Holds W sub whole self.old (Begin strategy.entry scope self.old.part) → After W sub whole self.new result }
        ensures on { result ≡ Turned.On }
        ensures next { self.new ≡ with_next self.old (Next.Begin strategy.entry scope) }
    {
        self.next = Next::Begin(strategy, scope);
        Turned::On
    }

    /// This strategy starts next. If it is `id` and a step is left, the step is charged and the
    /// focus is given at once.
    #[inline(always)]
    pub(crate) fn goes_on(&mut self, strategy: &'t ResolvedStrategy, scope: usize) -> Turned
        ensures keeps { (W : World) (sub : Standing) (whole : Answer)
            → Holds W sub whole self.old (Begin strategy.entry scope self.old.part) → After W sub whole self.new result }
        ensures on { result ≡ Turned.On }
        ensures less { load self.new (in_hand self.new) ≤ 7 * self.old.steps + 2 * length self.old.frames }
    {
        if let Form::Id = strategy.form() {
            if self.steps > 0 {
                self.steps -= 1;
                return self.gives();
            }
        }
        self.begins(strategy, scope)
    }
}

/// A scope of the table, with the cells of its variables.
#[derive(Clone, Copy)]
pub(crate) struct InTable<'s, 't> {
    pub scopes: &'s Scopes<'t>,
    pub scope: usize,
}

impl<'s, 't> VariableCells for InTable<'s, 't> {
    ghost cells = { λ s. cells_in (scope_at (scopes_of s.scopes.now) s.scope) };

    fn cell(&self, variable: usize) -> Option<usize> {
        self.scopes.cell(self.scope, variable)
    }
}
