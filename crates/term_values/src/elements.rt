//! Walks over children and annotations. They take no memory and make no holders.
#![tactic(auto, using(crate::proofs::KindLemmas::node_parts))]

ghost use Rattle.std.specs.Prelude.{◌≡◌, [], ◌∷◌, ◌++◌, ◌≤◌, ◌<◌, ◌↔◌, IsTrue, length, drop, map, IfOk, IfSome, MatchOption, slice_get, Some, None};
ghost use Rattle.std.specs.Bool.{OnFalse};
ghost use Rattle.term_core.specs.Tree.{children, annotations};
ghost use Rattle.term_core.specs.Kind.{made_of};
ghost use Rattle.term_changes.specs.Standing.{after, standing_tree};
ghost use Rattle.term_values.specs.inside.ValueView.{items_list, front_list, annotation_list};
ghost use Rattle.term_values.specs.inside.Bounded.{Bounded};
ghost use Rattle.term_values.specs.Seen.{seen_tree};
ghost use Rattle.term_values.specs.inside.Walk.{run_list};

use crate::bounds::Bounds;
use crate::part::{Changed, Part, PartForm};
use crate::value::{Annotations, Form, Front, Items, Joined, Value};
use std::marker::Model;
use term_core::{Kind, NoMemory, Term};

/// A tree that a walk visits, without a holder of its own.
#[derive(Clone, Copy)]
pub enum Seen<'a, 't> {
    Term(&'t Term),
    Value(&'a Value<'t>),
    Part(&'a Part<'t>),
}

/// A slice of trees.
#[derive(Clone, Copy)]
pub(crate) enum Run<'a, 't> {
    Empty,
    Terms(&'t [Term]),
    Values(&'a [Value<'t>]),
    Parts(&'a [Part<'t>]),
}

/// The trees of a run, followed by the children of the value after it. An empty run has no value
/// after it.
#[derive(Drop)]
pub struct Elements<'a, 't> {
    run: Run<'a, 't>,
    after: Option<&'a Value<'t>>,
}

impl<'a, 't> Model for Elements<'a, 't> {
    ghost use Rattle.std.specs.Prelude.{List};
    ghost use Rattle.std.specs.Coded.{coded_list};
    ghost use Rattle.term_core.specs.Tree.{Tree};
    ghost use Rattle.term_core.specs.inside.TreeCode.{tree_code};

    ghost Value = { List Tree };

    ghost coded = { coded_list tree_code };

    ghost use Rattle.term_values.specs.inside.Walk.{elements_list, NoGap};

    ghost view = { elements_list };

    ghost invariant = { NoGap };
}

impl<'a, 't> Seen<'a, 't> {
    /// What its root is.
    #[inline(always)]
    pub fn kind(self) -> Kind<'a>
        ensures { seen_tree self.entry
            ≡ made_of result (children (seen_tree self.entry)) (annotations (seen_tree self.entry)) }
    {
        match self {
            Seen::Term(term) => term.kind(),
            Seen::Value(value) => value.kind(),
            Seen::Part(part) => part.kind(),
        }
    }

    /// Its children.
    #[inline(always)]
    pub fn elements(self) -> Elements<'a, 't>
        ensures { result ≡ children (seen_tree self.entry) }
    {
        let terms = match self {
            Seen::Term(term) => terms_of(term),
            Seen::Value(value) => return value.elements(),
            Seen::Part(part) => return part.elements(),
        };
        Elements::alone(terms)
    }

    /// Its annotations.
    pub fn annotations(self) -> Elements<'a, 't>
        ensures { result ≡ annotations (seen_tree self.entry) }
    {
        Elements::alone(self.annotation_run())
    }

    /// Child `i`, counted from 0, or `None` if there is none.
    #[inline(always)]
    pub fn child(self, i: usize) -> Option<Seen<'a, 't>>
        ensures { MatchOption result (slice_get (children (seen_tree self.entry)) i ≡ None)
            (λ seen. slice_get (children (seen_tree self.entry)) i ≡ Some (seen_tree seen)) }
    {
        self.elements().nth(i)
    }

    /// A holder of the tree. It takes no memory.
    pub fn share(self) -> Result<Value<'t>, NoMemory>
        ensures { IfOk result (λ value. value ≡ seen_tree self.entry) }
    {
        self.value(Bounds::unknown())
    }

    /// Whether it has annotations.
    #[inline(always)]
    pub fn is_annotated(self) -> bool
        ensures { OnFalse result (annotations (seen_tree self.entry) ≡ []) }
    {
        !self.annotation_run().is_empty()
    }

    /// The annotations as a run.
    pub(crate) fn annotation_run(self) -> Run<'a, 't>
        ensures { run_list result ≡ annotations (seen_tree self.entry) }
    {
        match self {
            Seen::Term(term) => Run::Terms(term.annotations()),
            Seen::Value(value) => value.annotations(),
            Seen::Part(part) => part.annotations(),
        }
    }

    /// The term, if it is a subterm of the borrowed term.
    pub fn term(self) -> Option<&'t Term>
        ensures { IfSome result (λ term. term.now ≡ seen_tree self.entry) }
    {
        match self {
            Seen::Term(term) => Some(term),
            Seen::Value(value) => match &value.form {
                Form::Original(term) => Some(*term),
                _ => None,
            },
            Seen::Part(_) => None,
        }
    }

    /// The bounds stored with the reference.
    pub(crate) fn bounds(self) -> Bounds
        ensures { Bounded (seen_tree self.entry) result }
    {
        match self {
            Seen::Term(_) => Bounds::unknown(),
            Seen::Value(value) => value.bounds,
            Seen::Part(part) => part.bounds(),
        }
    }

    /// A holder of the tree, which is within these bounds.
    pub(crate) fn value(self, within: Bounds) -> Result<Value<'t>, NoMemory>
        requires { Bounded (seen_tree self) within }
        ensures { IfOk result (λ value. value ≡ seen_tree self.entry) }
    {
        match self {
            Seen::Term(term) => Ok(Value::original_bounded(term, within)),
            Seen::Value(value) => value.try_clone(),
            Seen::Part(part) => part.value(),
        }
    }
}

impl<'t> Part<'t> {
    /// The tree, to be visited.
    #[inline(always)]
    pub fn seen(&self) -> Seen<'_, 't>
        ensures { seen_tree result ≡ standing_tree self.now }
    {
        Seen::Part(self)
    }

    fn elements(&self) -> Elements<'_, 't>
        ensures { result ≡ children (standing_tree self.now) }
    {
        let run = match &self.form {
            PartForm::Same(term, _) => terms_of(*term),
            PartForm::Inside(changed, _) => changed.run(),
            PartForm::New(value) => return value.elements(),
        };
        Elements::alone(run)
    }

    pub(crate) fn annotations(&self) -> Run<'_, 't>
        ensures { run_list result ≡ annotations (standing_tree self.now) }
    {
        match &self.form {
            PartForm::Same(term, _) => {
                let term: &'t Term = *term;
                Run::Terms(term.annotations())
            }
            PartForm::Inside(changed, _) => Run::Terms(changed.annotations()),
            PartForm::New(value) => value.annotations(),
        }
    }

    /// Bounds of the tree.
    pub(crate) fn bounds(&self) -> Bounds
        ensures { Bounded (standing_tree self.now) result }
    {
        match &self.form {
            PartForm::Same(_, bounds) => *bounds,
            PartForm::Inside(_, bounds) => *bounds,
            PartForm::New(value) => value.bounds,
        }
    }
}

impl<'a, 't> Run<'a, 't> {
    /// The first tree and the rest.
    fn split_first(self) -> Option<(Seen<'a, 't>, Run<'a, 't>)>
        ensures { MatchOption result (run_list self.entry ≡ [])
            (λ p. run_list self.entry ≡ seen_tree p.0 ∷ run_list p.1) }
    {
        match self {
            Run::Empty => None,
            Run::Terms(terms) => {
                let (first, others) = terms.split_first()?;
                Some((Seen::Term(first), Run::Terms(others)))
            }
            Run::Values(values) => {
                let (first, others) = values.split_first()?;
                Some((Seen::Value(first), Run::Values(others)))
            }
            Run::Parts(parts) => {
                let (first, others) = parts.split_first()?;
                Some((Seen::Part(first), Run::Parts(others)))
            }
        }
    }

    /// The number of trees.
    pub(crate) fn len(self) -> usize
        ensures { result ≡ length (run_list self.entry) }
    {
        match self {
            Run::Empty => 0,
            Run::Terms(terms) => terms.len(),
            Run::Values(values) => values.len(),
            Run::Parts(parts) => parts.len(),
        }
    }

    /// Tree `i`, counted from 0.
    fn get(self, i: usize) -> Option<Seen<'a, 't>>
        ensures { MatchOption result (slice_get (run_list self.entry) i ≡ None)
            (λ seen. slice_get (run_list self.entry) i ≡ Some (seen_tree seen)) }
    {
        match self {
            Run::Empty => None,
            Run::Terms(terms) => Some(Seen::Term(terms.get(i)?)),
            Run::Values(values) => Some(Seen::Value(values.get(i)?)),
            Run::Parts(parts) => Some(Seen::Part(parts.get(i)?)),
        }
    }

    pub(crate) fn is_empty(self) -> bool
        ensures { IsTrue result ↔ (run_list self.entry ≡ []) }
    {
        match self {
            Run::Empty => true,
            Run::Terms(terms) => terms.is_empty(),
            Run::Values(values) => values.is_empty(),
            Run::Parts(parts) => parts.is_empty(),
        }
    }
}

impl<'a, 't> Elements<'a, 't> {
    pub(crate) fn alone(run: Run<'a, 't>) -> Elements<'a, 't>
        ensures { result ≡ run_list run.entry }
    {
        Elements { run, after: None }
    }

    /// The number of trees in the first run.
    pub(crate) fn first_run_len(&self) -> usize {
        self.run.len()
    }

    /// Tree `i`, counted from 0.
    pub fn nth(self, i: usize) -> Option<Seen<'a, 't>>
        ensures { MatchOption result (slice_get self.entry i ≡ None)
            (λ seen. slice_get self.entry i ≡ Some (seen_tree seen)) }
    {
        let mut left = self;
        let mut at = i;
        loop {
            let count = left.run.len();
            if at < count {
                return left.run.get(at);
            }
            match left.after {
                None => return None,
                Some(after) => {
                    at -= count;
                    left = after.elements();
                }
            }
        }
    }

    /// The next tree.
    pub fn next(&mut self) -> Option<Seen<'a, 't>>
        ensures { MatchOption result ((self.old ≡ []) × (self.new ≡ []))
            (λ seen. self.old ≡ seen_tree seen ∷ self.new) }
    {
        let (first, others) = self.run.split_first()?;
        if !others.is_empty() {
            self.run = others;
            return Some(first);
        }
        match self.after {
            None => self.run = others,
            Some(after) => *self = after.elements(),
        }
        Some(first)
    }
}

impl<'t> Items<'t> {
    pub(crate) fn as_slice(&self) -> &[Value<'t>]
        ensures { result.now ≡ items_list self.now }
    {
        match self {
            Items::One(single) => &single.items,
            Items::Two(pair) => &pair.items,
            Items::Many(all) => all,
        }
    }
}

impl<'t> Front<'t> {
    pub(crate) fn as_slice(&self) -> &[Value<'t>]
        ensures { result.now ≡ front_list self.now }
    {
        match self {
            Front::One(single) => &single.items,
            Front::Chunk(all) => all,
        }
    }
}

impl<'t> Annotations<'t> {
    fn run(&self) -> Run<'_, 't>
        ensures { run_list result ≡ annotation_list self.now }
    {
        match self {
            Annotations::Of(term) => {
                let term: &'t Term = *term;
                Run::Terms(term.annotations())
            }
            Annotations::Own(all) => Run::Values(all),
        }
    }
}

impl<'t> Changed<'t> {
    /// The parts that took the places of the children.
    pub(crate) fn run(&self) -> Run<'_, 't>
        ensures { run_list result ≡ children (after self.now) }
    {
        Run::Parts(self.parts.as_slice())
    }

    pub(crate) fn annotations(&self) -> &'t [Term]
        ensures { result.now ≡ annotations (after self.now) }
    {
        let of: &'t Term = self.of;
        of.annotations()
    }
}

impl<'t> Value<'t> {
    /// The tree, to be visited.
    #[inline(always)]
    pub fn seen(&self) -> Seen<'_, 't>
        ensures { seen_tree result ≡ self.now }
    {
        Seen::Value(self)
    }

    /// The children.
    pub(crate) fn elements(&self) -> Elements<'_, 't>
        ensures { result ≡ children self.now }
    {
        let run = match &self.form {
            Form::Leaf(_) => Run::Empty,
            Form::Original(term) => terms_of(*term),
            Form::Bare(term) => terms_of(*term),
            Form::Rest(term, skipped) => Run::Terms(terms_after(*term, *skipped)),
            Form::Built(made) => Run::Values(made.items.as_slice()),
            Form::Kept(changed) => changed.run(),
            Form::BareKept(changed) => changed.run(),
            Form::Joined(joined) => return joined_elements(joined),
            Form::Annotated(annotated) => return annotated.node.elements(),
        };
        Elements::alone(run)
    }

    /// The annotations.
    pub(crate) fn annotations(&self) -> Run<'_, 't>
        ensures { run_list result ≡ annotations self.now }
    {
        match &self.form {
            Form::Original(term) => {
                let term: &'t Term = *term;
                Run::Terms(term.annotations())
            }
            Form::Kept(changed) => Run::Terms(changed.annotations()),
            Form::Annotated(annotated) => annotated.annotations.run(),
            _ => Run::Empty,
        }
    }
}

fn joined_elements<'a, 't>(joined: &'a Joined<'t>) -> Elements<'a, 't>
    requires { 0 < length (front_list joined.now.front) }
    ensures { result ≡ front_list joined.now.front ++ children joined.now.after }
{
    Elements {
        run: Run::Values(joined.front.as_slice()),
        after: Some(&joined.after),
    }
}

fn terms_of<'a, 't>(term: &'t Term) -> Run<'a, 't>
    ensures { run_list result ≡ children term.now }
{
    Run::Terms(term.children())
}

/// The children after the first `skipped`.
pub(crate) fn terms_after<'t>(term: &'t Term, skipped: usize) -> &'t [Term]
    requires { skipped ≤ length (children term.now) }
    ensures { result.now ≡ drop skipped (children term.now) }
{
    let all = term.children();
    &all[skipped..]
}
