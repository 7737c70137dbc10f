//! New nodes.
#![tactic(auto, using(crate::proofs::KindLemmas::node_parts))]

ghost use Rattle.std.specs.Prelude.{◌≡◌, [], ◌∷◌, length, slice_set, IfOk};
ghost use Rattle.term_core.specs.Kind.{made_of};
ghost use Rattle.term_core.specs.Tree.{list_term, children, annotations, with_children};
ghost use Rattle.term_values.specs.inside.Bounded.{AllBounded};
ghost use Rattle.term_values.specs.inside.ValueView.{items_list, top_tree, top_shape};

use crate::bounds::Bounds;
use crate::list::{CHUNK, chunked};
use crate::value::{Form, Items, Made, Pair, Single, Top, Value};
use std::alloc::Global;
use std::rc::Rc;
use term_core::{Kind, NoMemory, Term};

impl<'t> Value<'t> {
    /// A node with one child. An integer has none.
    pub fn one(alloc: Global, kind: Kind<'t>, child: Value<'t>) -> Result<Value<'t>, NoMemory>
        ensures { IfOk result (λ value. value ≡ made_of kind.entry (child.entry ∷ []) []) }
    {
        match kind {
            Kind::Integer(_) => Ok(Value::leaf(kind)),
            _ => Value::made(
                alloc,
                Top::Borrowed(kind),
                Items::One(Single { items: [child] }),
            ),
        }
    }

    /// A node with two children. An integer has none.
    #[inline(always)]
    pub fn two(
        alloc: Global,
        kind: Kind<'t>,
        first: Value<'t>,
        second: Value<'t>,
    ) -> Result<Value<'t>, NoMemory>
        ensures { IfOk result (λ value. value ≡ made_of kind.entry (first.entry ∷ second.entry ∷ []) []) }
    {
        match kind {
            Kind::Integer(_) => Ok(Value::leaf(kind)),
            _ => Value::made(
                alloc,
                Top::Borrowed(kind),
                Items::Two(Pair {
                    items: [first, second],
                }),
            ),
        }
    }

    /// A node with these children. An integer has none. A long list is cut into chunks, so that its
    /// suffixes needn't be copied.
    pub fn build(
        alloc: Global,
        kind: Kind<'t>,
        children: Vec<Value<'t>>,
    ) -> Result<Value<'t>, NoMemory>
        ensures { IfOk result (λ value. value ≡ made_of kind.entry children.entry.items []) }
    {
        if children.is_empty() {
            return Ok(Value::leaf(kind));
        }
        match kind {
            Kind::Integer(_) => Ok(Value::leaf(kind)),
            Kind::List => Value::list(alloc, children),
            _ => Value::made(alloc, Top::Borrowed(kind), Items::Many(children)),
        }
    }

    fn list(alloc: Global, elements: Vec<Value<'t>>) -> Result<Value<'t>, NoMemory>
        ensures { IfOk result (λ value. value ≡ list_term elements.entry.items) }
    {
        if elements.len() > CHUNK {
            return chunked(alloc, elements, 0, Value::leaf(Kind::List));
        }
        Value::made(alloc, Top::Borrowed(Kind::List), Items::Many(elements))
    }

    /// This value's root over these children. An integer has none.
    pub fn with_children(
        &self,
        alloc: Global,
        children: Vec<Value<'t>>,
    ) -> Result<Value<'t>, NoMemory>
        ensures { IfOk result (λ value. value ≡ with_children self.now children.entry.items) }
    {
        let top = self.top()?;
        let node = Value::topped(alloc, top, children)?;
        node.with_annotations_of(alloc, self)
    }

    /// This value's root over these children. An integer has none.
    pub(crate) fn with_items(&self, alloc: Global, items: Items<'t>) -> Result<Value<'t>, NoMemory>
        ensures { IfOk result (λ value. value ≡ with_children self.now (items_list items.entry)) }
    {
        let node = match self.top()? {
            Top::Borrowed(Kind::Integer(number)) => Value::leaf(Kind::Integer(number)),
            top => Value::made(alloc, top, items)?,
        };
        if self.annotation_count() == 0 {
            return Ok(node);
        }
        node.with_annotations_of(alloc, self)
    }

    /// This value with another child in the place of child `i`, counted from 0, if there is one. An
    /// integer has none.
    pub(crate) fn with_child(
        &self,
        alloc: Global,
        i: usize,
        child: Value<'t>,
    ) -> Result<Value<'t>, NoMemory>
        ensures { IfOk result (λ value. value ≡ with_children self.now (slice_set (children self.now) i child.entry)) }
    {
        if let Form::Built(made) = &self.form {
            let all = made.items.as_slice();
            if all.len() == 1 {
                return self.with_items(alloc, one_with(all, i, child)?);
            }
            if all.len() == 2 {
                return self.with_items(alloc, two_with(all, i, child)?);
            }
        }
        self.with_one_of_many(alloc, i, child)
    }

    // `with_child`, whatever the form.
    fn with_one_of_many(
        &self,
        alloc: Global,
        i: usize,
        child: Value<'t>,
    ) -> Result<Value<'t>, NoMemory>
        ensures { IfOk result (λ value. value ≡ with_children self.now (slice_set (children self.now) i child.entry)) }
    {
        let mut all = self.share_children(alloc)?;
        put_at(&mut all, i, child);
        self.with_children(alloc, all)
    }

    /// Another holder of the root.
    fn top(&self) -> Result<Top<'t>, NoMemory>
        ensures { IfOk result (λ top. self.now ≡ top_tree top (children self.now) (annotations self.now)) }
    {
        match &self.form {
            Form::Leaf(kind) => Ok(Top::Borrowed(*kind)),
            Form::Original(term) => Ok(top_of(*term)),
            Form::Bare(term) => Ok(top_of(*term)),
            Form::Rest(_, _) => Ok(Top::Borrowed(Kind::List)),
            Form::Built(made) => made.top.try_clone(),
            Form::Kept(changed) => Ok(Top::Borrowed(changed.kind())),
            Form::BareKept(changed) => Ok(Top::Borrowed(changed.kind())),
            Form::Joined(_) => Ok(Top::Borrowed(Kind::List)),
            Form::Annotated(annotated) => annotated.node.top(),
        }
    }

    /// A node with this root and these children. An integer has none.
    pub(crate) fn topped(
        alloc: Global,
        top: Top<'t>,
        children: Vec<Value<'t>>,
    ) -> Result<Value<'t>, NoMemory>
        ensures { IfOk result (λ value. value ≡ top_tree top.entry children.entry.items []) }
    {
        match top {
            Top::Borrowed(kind) => Value::build(alloc, kind, children),
            Top::Owned(name) => Value::made(alloc, Top::Owned(name), Items::Many(children)),
        }
    }

    // A node whose kind is known to take children, or which has none.
    #[inline(always)]
    fn made(alloc: Global, top: Top<'t>, items: Items<'t>) -> Result<Value<'t>, NoMemory>
        requires { top_shape top (items_list items) }
        ensures { IfOk result (λ value. value ≡ top_tree top.entry (items_list items.entry) []) }
    {
        let bounds = all_bounds(items.as_slice()).over();
        let made = Rc::new(alloc, Made { top, items })?;
        Ok(Value {
            form: Form::Built(made),
            bounds,
        })
    }
}

/// The item takes the place of item `i`, counted from 0, if there is one.
pub(crate) fn put_at<T: Drop>(all: &mut Vec<T>, i: usize, item: T)
    ensures { all.new.items ≡ slice_set all.old.items i item }
{
    if i < all.len() {
        all[i] = item;
    }
}

// The one value, or this one in its place if `i` is 0.
fn one_with<'t>(all: &[Value<'t>], i: usize, value: Value<'t>) -> Result<Items<'t>, NoMemory>
    requires { length all.now ≡ 1 }
    ensures { IfOk result (λ items. items_list items ≡ slice_set all.now i value.entry) }
{
    if i == 0 {
        return Ok(Items::One(Single { items: [value] }));
    }
    let items = [all[0].try_clone()?];
    Ok(Items::One(Single { items }))
}

// The two values, with this one in the place of value `i`, counted from 0, if there is one.
fn two_with<'t>(all: &[Value<'t>], i: usize, value: Value<'t>) -> Result<Items<'t>, NoMemory>
    requires { length all.now ≡ 2 }
    ensures { IfOk result (λ items. items_list items ≡ slice_set all.now i value.entry) }
{
    if i == 0 {
        let items = [value, all[1].try_clone()?];
        return Ok(Items::Two(Pair { items }));
    }
    if i == 1 {
        let items = [all[0].try_clone()?, value];
        return Ok(Items::Two(Pair { items }));
    }
    let items = [all[0].try_clone()?, all[1].try_clone()?];
    Ok(Items::Two(Pair { items }))
}

fn top_of<'t>(term: &'t Term) -> Top<'t>
    ensures { term.now ≡ top_tree result (children term.now) (annotations term.now) }
{
    Top::Borrowed(term.kind())
}

/// Bounds of all these values together.
pub(crate) fn all_bounds(values: &[Value<'_>]) -> Bounds
    ensures { AllBounded values.now result }
{
    let mut all = Bounds::of_none();
    for value in values {
        let value: &Value<'_> = value;
        all = all.and(value.bounds);
    }
    all
}
