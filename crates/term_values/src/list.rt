//! Suffixes of lists, and lists with elements put in front.
//!
//! A long list that is built lies in shared chunks. Taking a suffix, or putting elements in front,
//! copies no more than one of them.
#![tactic(auto, using(crate::proofs::KindLemmas::node_parts))]

ghost use Rattle.std.specs.Prelude.{◌≡◌, ◌≤◌, ◌<◌, ◌+◌, ◌^◌, ◌++◌, ◌∷◌, drop, length, IfOk, OnOk, IsTrue};
ghost use Rattle.term_core.specs.Tree.{bare, children, annotations, list_term};
ghost use Rattle.term_values.specs.inside.Shape.{JoinedShape};
ghost use Rattle.term_values.specs.inside.ValueView.{front_list};

use crate::build::all_bounds;
use crate::elements::terms_after;
use crate::value::{Form, Front, Joined, Single, Value};
use std::alloc::Global;
use std::rc::Rc;
use term_core::{Kind, NoMemory, Term};

/// The greatest number of elements in a chunk.
pub(crate) const CHUNK: usize = 64;

/// The number of single elements in a row after which they are gathered into a chunk.
const RUN: usize = 63;

/// The greatest size of an element that is measured when it is put in front of a list.
const SMALL: u64 = 32;

impl<'t> Value<'t> {
    /// The list of the children without the first `skipped`, and without annotations.
    #[inline(always)]
    pub fn rest(&self, alloc: Global, skipped: usize) -> Result<Value<'t>, NoMemory>
        requires { skipped ≤ length (children self.now) }
        ensures { IfOk result (λ value. value ≡ list_term (drop skipped (children self.now))) }
    {
        if let Form::Rest(term, before) = &self.form {
            if 0 < skipped && skipped < terms_after(*term, *before).len() {
                return Ok(self.rest_after(*term, *before, skipped));
            }
        }
        self.other_rest(alloc, skipped)
    }

    // `rest`, whatever the form.
    fn other_rest(&self, alloc: Global, skipped: usize) -> Result<Value<'t>, NoMemory>
        requires { skipped ≤ length (children self.now) }
        ensures { IfOk result (λ value. value ≡ list_term (drop skipped (children self.now))) }
    {
        if skipped == 0 && self.is_list() {
            return self.bare();
        }
        if skipped == self.child_count() {
            return Ok(Value::leaf(Kind::List));
        }
        match &self.form {
            Form::Original(term) => Ok(self.rest_of(*term, skipped)),
            Form::Bare(term) => Ok(self.rest_of(*term, skipped)),
            Form::Rest(term, before) => Ok(self.rest_after(*term, *before, skipped)),
            Form::Joined(joined) => {
                let list: &Joined<'t> = joined.as_ref();
                let count = list.front.as_slice().len();
                if skipped < count {
                    let rest = joined_rest(alloc, list, skipped)?;
                    Ok(self.bounded_rest(rest, skipped))
                } else {
                    let rest = list.after.other_rest(alloc, skipped - count)?;
                    Ok(self.bounded_rest(rest, skipped))
                }
            }
            Form::Annotated(annotated) => annotated.node.other_rest(alloc, skipped),
            _ => {
                let all = self.share_children(alloc)?;
                chunked(alloc, all, skipped, Value::leaf(Kind::List))
            }
        }
    }

    /// The list of an element in front of the children of another value.
    pub fn cons(alloc: Global, first: Value<'t>, after: &Value<'t>) -> Result<Value<'t>, NoMemory>
        requires { length (children after.now) + 1 < 2 ^ 64 }
        ensures { IfOk result (λ value. value ≡ list_term (first.entry ∷ children after.now)) }
    {
        put_before(alloc, first, after.as_list(alloc)?)
    }

    /// The list of an element in front of the children of another value, which is consumed.
    pub fn cons_owned(
        alloc: Global,
        first: Value<'t>,
        after: Value<'t>,
    ) -> Result<Value<'t>, NoMemory>
        requires { length (children after) + 1 < 2 ^ 64 }
        ensures { IfOk result (λ value. value ≡ list_term (first.entry ∷ children after.entry)) }
    {
        if let Form::Joined(_) = &after.form {
            return put_before(alloc, first, after);
        }
        put_before(alloc, first, after.as_list(alloc)?)
    }

    // The list of the children without annotations.
    fn as_list(&self, alloc: Global) -> Result<Value<'t>, NoMemory>
        ensures { IfOk result (λ value. value ≡ list_term (children self.now)) }
    {
        if let Form::Joined(_) = &self.form {
            return self.try_clone();
        }
        self.rest(alloc, 0)
    }

    /// The list of these elements in front of the children of another value.
    pub fn join(
        alloc: Global,
        front: Vec<Value<'t>>,
        after: &Value<'t>,
    ) -> Result<Value<'t>, NoMemory>
        requires { length front.items + length (children after.now) < 2 ^ 64 }
        ensures { IfOk result (λ value. value ≡ list_term (front.entry.items ++ children after.now)) }
    {
        if front.len() == 1 {
            return join_one(alloc, front, after);
        }
        let list = after.as_list(alloc)?;
        if front.is_empty() {
            return Ok(list);
        }
        if front.len() > CHUNK {
            return chunked(alloc, front, 0, list);
        }
        gathered(alloc, front, &list)
    }

    fn is_list(&self) -> bool
        ensures { IsTrue result → bare self.now ≡ list_term (children self.now) }
    {
        match self.kind() {
            Kind::List => true,
            _ => false,
        }
    }

    // The number of single elements in a row at the front.
    fn run(&self) -> usize {
        match &self.form {
            Form::Joined(joined) => joined.run,
            _ => 0,
        }
    }

    // The children after the first `skipped` of the term, whose children are those of this value.
    fn rest_of(&self, term: &'t Term, skipped: usize) -> Value<'t>
        requires same { children term.now ≡ children self.now }
        requires within { skipped ≤ length (children self.now) }
        ensures { result ≡ list_term (drop skipped (children self.now)) }
    {
        Value {
            form: Form::Rest(term, skipped),
            bounds: self.bounds.less(skipped, 0),
        }
    }

    // The rest after the first `skipped` children, which is smaller than the whole by these at
    // least.
    fn bounded_rest(&self, rest: Value<'t>, skipped: usize) -> Value<'t>
        requires rest { rest ≡ list_term (drop skipped (children self.now)) }
        requires within { skipped ≤ length (children self.now) }
        ensures { result ≡ rest.entry }
    {
        rest.within(self.bounds.less(skipped, 0))
    }

    // The children after the first `skipped` of this value, which is the term's after `before`.
    fn rest_after(&self, term: &'t Term, before: usize, skipped: usize) -> Value<'t>
        requires rest { self.now ≡ list_term (drop before (children term.now)) }
        requires before { before ≤ length (children term.now) }
        requires within { skipped ≤ length (children self.now) }
        ensures { result ≡ list_term (drop skipped (children self.now)) }
    {
        let _count = term.child_count();
        Value {
            form: Form::Rest(term, before + skipped),
            bounds: self.bounds.less(skipped, 0),
        }
    }
}

// The list of an element in front of those of a list without annotations.
#[inline(always)]
fn put_before<'t>(alloc: Global, first: Value<'t>, list: Value<'t>) -> Result<Value<'t>, NoMemory>
    requires list { list ≡ list_term (children list) }
    requires room { length (children list) + 1 < 2 ^ 64 }
    ensures { IfOk result (λ value. value ≡ list_term (first.entry ∷ children list.entry)) }
{
    if list.run() < RUN {
        return link(alloc, first, list);
    }
    let mut front = Vec::with_capacity(alloc, RUN + 1)?;
    front.push(first)?;
    gathered(alloc, front, &list)
}

// The elements of a joined list after the first `skipped`, one by one, so that each later suffix is
// a node already.
fn joined_rest<'t>(alloc: Global, list: &Joined<'t>, skipped: usize) -> Result<Value<'t>, NoMemory>
    requires within { skipped < length (front_list list.now.front) }
    requires shape { JoinedShape (front_list list.now.front) list.now.after list.now.count }
    ensures { IfOk result (λ value.
        value ≡ list_term (drop skipped (front_list list.now.front ++ children list.now.after))) }
{
    let _count = list.count;
    let front = list.front.as_slice();
    let mut at = front.len();
    let mut rest = list.after.try_clone()?;
    while at > skipped {
        at -= 1;
        rest = link(alloc, front[at].try_clone()?, rest)?;
    }
    Ok(rest)
}

// The list of the single element of this vector in front of the children of another value.
fn join_one<'t>(
    alloc: Global,
    front: Vec<Value<'t>>,
    after: &Value<'t>,
) -> Result<Value<'t>, NoMemory>
    requires one { length front.items ≡ 1 }
    requires room { length (children after.now) + 1 < 2 ^ 64 }
    ensures { IfOk result (λ value. value ≡ list_term (front.entry.items ++ children after.now)) }
{
    let mut left = front;
    match left.pop() {
        None => after.as_list(alloc),
        Some(first) => Value::cons(alloc, first, after),
    }
}

// The list of the values after the first `skipped` in front of another list, in chunks.
pub(crate) fn chunked<'t>(
    alloc: Global,
    values: Vec<Value<'t>>,
    skipped: usize,
    after: Value<'t>,
) -> Result<Value<'t>, NoMemory>
    requires within { skipped ≤ length values.items }
    requires list { after ≡ list_term (children after) }
    requires room { length values.items + length (children after) < 2 ^ 64 }
    ensures { IfOk result (λ value. value ≡ list_term (drop skipped values.entry.items ++ children after.entry)) }
{
    let mut left = values;
    let mut list = after;
    while left.len() > skipped {
        let from = left.len().saturating_sub(CHUNK).max(skipped);
        let front = left.split_off(from)?;
        list = joined(alloc, Front::Chunk(front), list, 0)?;
    }
    Ok(list)
}

// The elements and the short chunks after them, as one chunk.
fn gathered<'t>(
    alloc: Global,
    front: Vec<Value<'t>>,
    list: &Value<'t>,
) -> Result<Value<'t>, NoMemory>
    requires some { 0 < length front.items }
    requires list { list.now ≡ list_term (children list.now) }
    requires room { length front.items + length (children list.now) < 2 ^ 64 }
    ensures { IfOk result (λ value. value ≡ list_term (front.entry.items ++ children list.now)) }
{
    let mut all = front;
    let mut after = list;
    'chunks: while let Form::Joined(next) = &after.form {
        let next: &Joined<'t> = next.as_ref();
        let chunk = next.front.as_slice();
        if all.len() + chunk.len() > CHUNK {
            break;
        }
        add_all(&mut all, chunk)?;
        after = &next.after;
    }
    joined(alloc, Front::Chunk(all), after.try_clone()?, 0)
}

// Appends holders of the values.
fn add_all<'t>(all: &mut Vec<Value<'t>>, values: &[Value<'t>]) -> Result<(), NoMemory>
    ensures { OnOk result (all.new.items ≡ all.old.items ++ values.now) }
{
    for value in values {
        all.reserve(1)?;
        all.push_reserved(value.try_clone()?);
    }
    Ok(())
}

// The element, whose size is known afterwards if it is small and that of the list is known: so a
// list that is made element by element is never walked to measure it.
#[inline(always)]
fn measured_before<'t>(element: Value<'t>, list: &Value<'t>) -> Value<'t>
    ensures { result ≡ element.entry }
{
    if element.bounds.exact || !list.bounds.exact {
        return element;
    }
    let mut element = element;
    let _small = element.measure(SMALL);
    element
}

// The list of one element in front of another list.
#[inline(always)]
fn link<'t>(alloc: Global, first: Value<'t>, list: Value<'t>) -> Result<Value<'t>, NoMemory>
    requires list { list ≡ list_term (children list) }
    requires room { length (children list) + 1 < 2 ^ 64 }
    ensures { IfOk result (λ value. value ≡ list_term (first.entry ∷ children list.entry)) }
{
    let run = list.run().saturating_add(1);
    let element = measured_before(first, &list);
    let bounds = element.bounds.before(list.bounds);
    let count = list.child_count() + 1;
    let joined = Rc::new(
        alloc,
        Joined {
            front: Front::One(Single { items: [element] }),
            after: list,
            count,
            run,
        },
    )?;
    Ok(Value {
        form: Form::Joined(joined),
        bounds,
    })
}

// The list of these elements in front of those of another list.
fn joined<'t>(
    alloc: Global,
    front: Front<'t>,
    after: Value<'t>,
    run: usize,
) -> Result<Value<'t>, NoMemory>
    requires some { 0 < length (front_list front) }
    requires list { after ≡ list_term (children after) }
    requires room { length (front_list front) + length (children after) < 2 ^ 64 }
    ensures { IfOk result (λ value. value ≡ list_term (front_list front.entry ++ children after.entry)) }
{
    let bounds = all_bounds(front.as_slice()).before(after.bounds);
    let count = front.as_slice().len() + after.child_count();
    let joined = Rc::new(
        alloc,
        Joined {
            front,
            after,
            count,
            run,
        },
    )?;
    Ok(Value {
        form: Form::Joined(joined),
        bounds,
    })
}
