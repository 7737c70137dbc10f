//! Where a run stood: the open calls, the focus, and what was bound.

use crate::about::StrategyPlace;
use crate::finding::Part;
use crate::matching::{Known, Miss, compare, matched};
use crate::record::{Begun, RunRecord};
use diagnostic::DEEPEST;
use strategy_machine::{Machine, Spot};
use strategy_syntax::{
    Pattern, PatternForm, ResolvedForm as Form, ResolvedPattern, ResolvedPatternForm,
    ResolvedStrategy, StrategyForm as Named,
};
use term_core::{Name, NoMemory, Term};

// The most variables whose terms are kept.
const BOUND: usize = 16;

/// A call that is open: the definition, by its number, and the strategy that calls it.
#[derive(Clone, Copy)]
pub struct Called<'t> {
    pub definition: usize,
    pub from: &'t ResolvedStrategy,
    /// How often it was called in its own place.
    pub times: u64,
    /// The number of frames below it.
    pub depth: usize,
}

/// A variable with the term that it is bound to.
#[derive(Drop)]
pub struct Bound<'t> {
    pub name: &'t Name,
    pub term: Term,
}

/// Where a run stood: the strategy that was begun last, with its place, the open calls, the
/// outermost first, where the focus was, and the focus.
pub struct Stand<'t> {
    pub strategy: &'t ResolvedStrategy,
    pub place: Option<StrategyPlace<'t>>,
    pub calls: Vec<Called<'t>>,
    pub spot: Spot,
    pub focus: Term,
    /// Where what it matches first differs from the focus.
    pub miss: Option<Miss<'t>>,
    /// The variables of what was built, from left to right, that were bound.
    pub bound: Vec<Bound<'t>>,
    /// Whether the strategy succeeded with the focus, which is no list, for the rest of one.
    pub is_rest: bool,
}

// By hand, so that a drop is a call: a derived one is proved anew wherever a scope ends.
impl Drop for Stand<'_> {
    fn drop(self) {
        let Stand {
            strategy: _,
            place: _,
            calls: _,
            spot: _,
            focus: _,
            miss: _,
            bound: _,
            is_rest: _,
        } = self;
    }
}

impl<'t> RunRecord<'t> {
    /// Keeps where the machine stands after it has begun this. Returns the size of the focus.
    pub fn keep_stand(
        &mut self,
        machine: &Machine<'t>,
        begun: Begun<'t>,
        is_rest: bool,
    ) -> Result<u64, NoMemory> {
        let calls = Vec::from_slice(self.about.alloc, &self.calls)?;
        let mut stand = self.stand(machine, begun.strategy, calls, is_rest)?;
        if let Some(
            StrategyPlace {
                node: Some(node),
                ..
            },
        ) = stand.place
        {
            if let Some(left) = matched(node.part) {
                let scope = begun.scope;
                let known = Some(Known { machine, scope });
                let value = machine.part.value()?;
                stand.miss = compare(self.about.alloc, left.resolved, &value, known)?.miss;
            }
            add_bound(&mut stand.bound, machine, begun.scope, node.part)?;
        }
        let size = stand.focus.size();
        self.stand = Some(stand);
        Ok(size)
    }

    /// Where the machine stands with this strategy, within these calls.
    pub fn stand(
        &self,
        machine: &Machine<'t>,
        strategy: &'t ResolvedStrategy,
        calls: Vec<Called<'t>>,
        is_rest: bool,
    ) -> Result<Stand<'t>, NoMemory> {
        let alloc = self.about.alloc;
        Ok(Stand {
            strategy,
            place: self.about.find(&calls, strategy),
            calls,
            spot: machine.frames.spot(alloc)?,
            focus: machine.part.value()?.to_term(alloc)?,
            miss: None,
            bound: Vec::new(alloc),
            is_rest,
        })
    }
}

// Adds the variables of what the strategy builds or hands to a primitive, where they are
// bound in the scope.
fn add_bound<'t>(
    bound: &mut Vec<Bound<'t>>,
    machine: &Machine<'_>,
    scope: usize,
    part: Part<'t>,
) -> Result<(), NoMemory> {
    match (part.resolved.form(), part.named.form()) {
        (Form::Build(resolved), Named::Build(pattern)) => {
            add_variables(bound, machine, scope, resolved, pattern, DEEPEST)?;
        }
        (Form::Prim(_, resolved_patterns), Named::Prim(_, patterns)) => {
            for (resolved, pattern) in resolved_patterns.iter().zip(patterns) {
                add_variables(bound, machine, scope, resolved, pattern, DEEPEST)?;
            }
        }
        _ => {}
    }
    Ok(())
}

fn add_variables<'t>(
    bound: &mut Vec<Bound<'t>>,
    machine: &Machine<'_>,
    scope: usize,
    resolved: &ResolvedPattern,
    pattern: &'t Pattern,
    deep: usize,
) -> Result<(), NoMemory> {
    let Some(deep) = deep.checked_sub(1) else {
        return Ok(());
    };
    if let ResolvedPatternForm::Variable(variable)
    | ResolvedPatternForm::At(variable, _) = resolved.form()
        && let PatternForm::Variable(name) | PatternForm::At(name, _) = pattern.form()
        && bound.len() < BOUND
        && let Some(cell) = machine.scopes.cell(scope, *variable)
        && let Some(value) = machine.cells.get(cell)
    {
        let term = value.to_term(*bound.allocator())?;
        bound.push(Bound { name, term })?;
    }
    match (resolved.form(), pattern.form()) {
        (ResolvedPatternForm::At(_, resolved), PatternForm::At(_, inner))
        | (ResolvedPatternForm::Annotated(resolved, _), PatternForm::Annotated(inner, _)) => {
            add_variables(bound, machine, scope, resolved, inner, deep)?;
        }
        (ResolvedPatternForm::Compound(_, resolved_parts), PatternForm::Compound(_, parts))
        | (ResolvedPatternForm::WithTail(resolved_parts, _), PatternForm::WithTail(parts, _)) => {
            for (resolved, part) in resolved_parts.iter().zip(parts) {
                add_variables(bound, machine, scope, resolved, part, deep)?;
            }
        }
        _ => {}
    }
    Ok(())
}
