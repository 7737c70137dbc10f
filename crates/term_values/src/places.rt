//! The parts in the places of children.
#![tactic(auto, using(crate::proofs::KindLemmas::node_parts))]

ghost use Rattle.std.specs.Prelude.{◌≡◌, IfOk, map, slice_get, slice_set};
ghost use Rattle.term_core.specs.Tree.{children, annotations, with_children};
ghost use Rattle.term_changes.specs.Standing.{after, standing_tree, standing_children, unchanged, altered, fresh, SuitAll, CanHold, with_standing};
ghost use Rattle.term_values.specs.inside.Bounded.{Bounded, AllBounded, AllWithin};

use crate::bounds::Bounds;
use crate::build::put_at;
use crate::children::original_at;
use crate::part::{Changed, Part, PartForm, Parts};
use crate::value::{Items, Pair, Single, Value, bounds_of};
use std::alloc::Global;
use std::rc::Rc;
use term_core::{NoMemory, Term};

impl<'t> Part<'t> {
    /// What took the place of child `i`, counted from 0, or `None` if there is none. It takes no
    /// memory.
    #[inline(always)]
    pub fn child(&self, i: usize) -> Result<Option<Part<'t>>, NoMemory>
        ensures { IfOk result (λ child. child ≡ slice_get (standing_children self.now) i) }
    {
        match &self.form {
            PartForm::Same(term, bounds) => {
                let term: &'t Term = *term;
                Ok(same_at(term.children(), i, child_bounds(term, *bounds)))
            }
            PartForm::New(value) => match value.child(i)? {
                Some(child) => Ok(Some(Part::new(child))),
                None => Ok(None),
            },
            _ => {
                // the result of a call lies in memory: it is moved, so that the child above needn't
                let child = self.other_child(i)?;
                Ok(child)
            }
        }
    }

    // `child` for the forms that it doesn't treat itself.
    #[inline(never)]
    fn other_child(&self, i: usize) -> Result<Option<Part<'t>>, NoMemory>
        ensures { IfOk result (λ child. child ≡ slice_get (standing_children self.now) i) }
    {
        match &self.form {
            PartForm::Same(term, bounds) => {
                let term: &'t Term = *term;
                Ok(same_at(term.children(), i, child_bounds(term, *bounds)))
            }
            PartForm::Inside(changed, _) => changed.part(i),
            PartForm::New(value) => match value.child(i)? {
                Some(child) => Ok(Some(Part::new(child))),
                None => Ok(None),
            },
        }
    }

    /// Child `i` of the tree, counted from 0, or `None` if there is none. It takes no memory.
    #[inline(always)]
    pub fn child_tree(&self, i: usize) -> Result<Option<Value<'t>>, NoMemory>
        ensures { IfOk result (λ child. child ≡ slice_get (children (standing_tree self.now)) i) }
    {
        match &self.form {
            PartForm::Same(term, bounds) => {
                let term: &'t Term = *term;
                Ok(original_at(term.children(), i, child_bounds(term, *bounds)))
            }
            PartForm::Inside(changed, _) => changed.child(i),
            PartForm::New(value) => value.child(i),
        }
    }

    /// What took the places of the children, the first child first.
    pub fn parts(&self, alloc: Global) -> Result<Vec<Part<'t>>, NoMemory>
        ensures { IfOk result (λ all. all.items ≡ standing_children self.now) }
    {
        match &self.form {
            PartForm::Same(term, bounds) => {
                let term: &'t Term = *term;
                same_parts(alloc, term.children(), child_bounds(term, *bounds))
            }
            PartForm::Inside(changed, _) => changed.all_parts(alloc),
            PartForm::New(value) => {
                let children = value.share_children(alloc)?;
                new_parts(alloc, &children)
            }
        }
    }

    /// This part's root over these parts.
    #[inline(always)]
    pub fn with_parts(&self, alloc: Global, parts: Vec<Part<'t>>) -> Result<Part<'t>, NoMemory>
        requires { CanHold self.now parts.items }
        ensures { IfOk result (λ whole. whole ≡ with_standing self.now parts.entry.items) }
    {
        let mut left = parts;
        self.over_parts(alloc, &mut left)
    }

    /// This part's root over these parts. What is left in the vector isn't said: it is lent so that
    /// a caller can use its memory again.
    #[inline(always)]
    pub fn over_parts(&self, alloc: Global, parts: &mut Vec<Part<'t>>) -> Result<Part<'t>, NoMemory>
        requires { CanHold self.now parts.old.items }
        ensures { IfOk result (λ whole. whole ≡ with_standing self.now parts.old.items) }
    {
        match &self.form {
            PartForm::Same(term, _) => changed_part(alloc, *term, parts),
            PartForm::Inside(changed, _) => changed_part(alloc, changed.before(), parts),
            PartForm::New(value) => Ok(Part::new(value_over(alloc, value, parts)?)),
        }
    }

    /// This part with another one in the place of child `i`, counted from 0, if there is one.
    pub fn with_part(&self, alloc: Global, i: usize, part: Part<'t>) -> Result<Part<'t>, NoMemory>
        requires { CanHold self.now (slice_set (standing_children self.now) i part) }
        ensures { IfOk result (λ whole. whole ≡ with_standing self.now (slice_set (standing_children self.now) i part.entry)) }
    {
        if let PartForm::New(value) = &self.form {
            return Ok(Part::new(value.with_child(alloc, i, part.into_value())?));
        }
        let mut all = self.parts(alloc)?;
        put_at(&mut all, i, part);
        self.with_parts(alloc, all)
    }
}

// The value's root over the trees of these parts.
fn value_over<'t>(
    alloc: Global,
    value: &Value<'t>,
    parts: &mut Vec<Part<'t>>,
) -> Result<Value<'t>, NoMemory>
    ensures { IfOk result (λ whole. whole ≡ with_children value.now (map standing_tree parts.old.items)) }
{
    if parts.len() == 1 {
        let only = parts.take_last().into_value();
        return value.with_items(alloc, Items::One(Single { items: [only] }));
    }
    if parts.len() == 2 {
        let second = parts.take_last().into_value();
        let first = parts.take_last().into_value();
        return value.with_items(
            alloc,
            Items::Two(Pair {
                items: [first, second],
            }),
        );
    }
    let children = part_values(alloc, parts.as_slice())?;
    parts.clear();
    value.with_children(alloc, children)
}

// The original subterm at index `i`, if there is one.
fn same_at<'t>(terms: &'t [Term], i: usize, within: Bounds) -> Option<Part<'t>>
    requires { AllWithin terms.now within }
    ensures { result ≡ slice_get (map (λ t. unchanged t) terms.now) i }
{
    if i >= terms.len() {
        return None;
    }
    Some(same(&terms[i], within))
}

fn same_parts<'t>(
    alloc: Global,
    terms: &'t [Term],
    within: Bounds,
) -> Result<Vec<Part<'t>>, NoMemory>
    requires { AllWithin terms.now within }
    ensures { IfOk result (λ all. all.items ≡ map (λ t. unchanged t) terms.now) }
{
    let mut all = Vec::with_capacity(alloc, terms.len())?;
    for term in terms {
        all.push(same(term, within))?;
    }
    Ok(all)
}

fn same<'t>(term: &'t Term, within: Bounds) -> Part<'t>
    requires { Bounded term.now within }
    ensures { result ≡ unchanged term.now }
{
    Part {
        form: PartForm::Same(term, bounds_of(term, within)),
    }
}

impl<'t> Changed<'t> {
    fn before(&self) -> &'t Term
        ensures { result.now ≡ self.now.before }
    {
        self.of
    }

    fn part(&self, i: usize) -> Result<Option<Part<'t>>, NoMemory>
        ensures { IfOk result (λ part. part ≡ slice_get (standing_children (altered self.now)) i) }
    {
        part_at(self.parts.as_slice(), i)
    }

    /// Child `i` of the tree, counted from 0, or `None` if there is none.
    pub(crate) fn child(&self, i: usize) -> Result<Option<Value<'t>>, NoMemory>
        ensures { IfOk result (λ child. child ≡ slice_get (children (after self.now)) i) }
    {
        tree_at(self.parts.as_slice(), i)
    }

    fn all_parts(&self, alloc: Global) -> Result<Vec<Part<'t>>, NoMemory>
        ensures { IfOk result (λ all. all.items ≡ standing_children (altered self.now)) }
    {
        share_parts(alloc, self.parts.as_slice())
    }
}

// A subterm with these parts in the places of its children.
#[inline(always)]
fn changed_part<'t>(
    alloc: Global,
    of: &'t Term,
    parts: &mut Vec<Part<'t>>,
) -> Result<Part<'t>, NoMemory>
    requires { SuitAll (children of.now) parts.old.items }
    ensures { IfOk result (λ part. part ≡ with_standing (unchanged of.now) parts.old.items) }
{
    let bounds = parts_bounds(parts.as_slice())
        .and(annotation_bounds(of))
        .over();
    let changed = Rc::new(
        alloc,
        Changed {
            of,
            parts: Parts::taken(alloc, parts),
        },
    )?;
    Ok(Part {
        form: PartForm::Inside(changed, bounds),
    })
}

// Bounds that hold for each child of a subterm. Of an unchanged one no size is known.
fn child_bounds(_term: &Term, bounds: Bounds) -> Bounds
    requires { Bounded _term.now bounds }
    ensures { AllWithin (children _term.now) result }
{
    bounds.lower()
}

// Bounds of the trees of these parts together.
#[inline(always)]
fn parts_bounds(parts: &[Part<'_>]) -> Bounds
    ensures { AllBounded (map standing_tree parts.now) result }
{
    if parts.len() == 2 {
        let first = Bounds::of_none().and(parts[0].bounds());
        return first.and(parts[1].bounds());
    }
    many_bounds(parts)
}

// The same for any number of parts.
#[inline(never)]
fn many_bounds(parts: &[Part<'_>]) -> Bounds
    ensures { AllBounded (map standing_tree parts.now) result }
{
    let mut all = Bounds::of_none();
    for part in parts {
        all = all.and(part.bounds());
    }
    all
}

// Bounds of the annotations of a subterm: unknown if it has any.
fn annotation_bounds(of: &Term) -> Bounds
    ensures { AllBounded (annotations of.now) result }
{
    if of.annotations().is_empty() {
        Bounds::of_none()
    } else {
        Bounds::unknown()
    }
}

fn part_at<'t>(parts: &[Part<'t>], i: usize) -> Result<Option<Part<'t>>, NoMemory>
    ensures { IfOk result (λ part. part ≡ slice_get parts.now i) }
{
    if i >= parts.len() {
        return Ok(None);
    }
    Ok(Some(parts[i].try_clone()?))
}

// The tree of part `i`, if there is one.
#[inline(always)]
fn tree_at<'t>(parts: &[Part<'t>], i: usize) -> Result<Option<Value<'t>>, NoMemory>
    ensures { IfOk result (λ tree. tree ≡ slice_get (map standing_tree parts.now) i) }
{
    if i >= parts.len() {
        return Ok(None);
    }
    Ok(Some(parts[i].value()?))
}

fn share_parts<'t>(alloc: Global, parts: &[Part<'t>]) -> Result<Vec<Part<'t>>, NoMemory>
    ensures { IfOk result (λ all. all.items ≡ parts.now) }
{
    let mut all = Vec::with_capacity(alloc, parts.len())?;
    for part in parts {
        all.push(part.try_clone()?)?;
    }
    Ok(all)
}

fn new_parts<'t>(alloc: Global, values: &[Value<'t>]) -> Result<Vec<Part<'t>>, NoMemory>
    ensures { IfOk result (λ all. all.items ≡ map (λ t. fresh t) values.now) }
{
    let mut all = Vec::with_capacity(alloc, values.len())?;
    for value in values {
        all.push(Part::new(value.try_clone()?))?;
    }
    Ok(all)
}

fn part_values<'t>(alloc: Global, parts: &[Part<'t>]) -> Result<Vec<Value<'t>>, NoMemory>
    ensures { IfOk result (λ all. all.items ≡ map standing_tree parts.now) }
{
    let mut all = Vec::with_capacity(alloc, parts.len())?;
    for part in parts {
        all.push(part.value()?)?;
    }
    Ok(all)
}
