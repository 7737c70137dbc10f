//! Trees made of subterms of a borrowed term and of new shared nodes.

#![tactic(auto, using(crate::proofs::KindLemmas::node_parts))]

ghost use Rattle.std.specs.Prelude.{◌≡◌, ◌≤◌, List, [], length, IfOk};
ghost use Rattle.term_core.specs.Tree.{Tree, children, annotations};
ghost use Rattle.term_core.specs.Kind.{made_of};
ghost use Rattle.term_core.specs.Size.{height as height_of};
ghost use Rattle.term_values.specs.inside.Bounded.{Bounded};
ghost use Rattle.term_values.specs.inside.ValueView.{top_tree, form_tree, form_shape};

use crate::bounds::Bounds;
use crate::elements::terms_after;
use crate::part::Changed;
use std::marker::Model;
use std::rc::Rc;
use term_core::{Kind, Name, NoMemory, Term};

/// A tree: a subterm of the borrowed term, such a subterm with places replaced, or a node made
/// since.
#[derive(Drop)]
#[cycle(value)]
pub struct Value<'t> {
    pub(crate) form: Form<'t>,
    pub(crate) bounds: Bounds,
}

#[derive(Drop)]
#[cycle(value)]
pub(crate) enum Form<'t> {
    // a node without children and annotations
    Leaf(Kind<'t>),
    Original(&'t Term),
    // a term without its annotations
    Bare(&'t Term),
    // the list of the children of a term from this index on
    Rest(&'t Term, usize),
    // a node without annotations
    Built(Rc<Made<'t>>),
    Kept(Rc<Changed<'t>>),
    // a changed subterm without its annotations
    BareKept(Rc<Changed<'t>>),
    // a list without annotations: elements in front of those of another list
    Joined(Rc<Joined<'t>>),
    // a node without annotations, given some
    Annotated(Rc<Annotated<'t>>),
}

#[derive(Drop)]
#[cycle(value)]
pub(crate) struct Made<'t> {
    pub(crate) top: Top<'t>,
    pub(crate) items: Items<'t>,
}

/// The root of a node.
#[derive(Drop)]
pub(crate) enum Top<'t> {
    Borrowed(Kind<'t>),
    // a name that isn't in the borrowed term, applied to the children
    Owned(Rc<Name>),
}

#[derive(Drop)]
#[cycle(value)]
pub(crate) struct Annotated<'t> {
    pub(crate) node: Value<'t>,
    pub(crate) annotations: Annotations<'t>,
}

#[derive(Drop)]
#[cycle(value)]
pub(crate) enum Annotations<'t> {
    // that of a term
    Of(&'t Term),
    Own(Vec<Value<'t>>),
}

/// One value, as an array: a type may not lead back to itself through an array of its own.
#[derive(Drop)]
pub(crate) struct Single<T> {
    pub(crate) items: [T; 1],
}

/// Two values, as an array.
#[derive(Drop)]
pub(crate) struct Pair<T> {
    pub(crate) items: [T; 2],
}

/// Values; one or two are stored in the node itself.
#[derive(Drop)]
#[cycle(value)]
pub(crate) enum Items<'t> {
    One(Single<Value<'t>>),
    Two(Pair<Value<'t>>),
    Many(Vec<Value<'t>>),
}

/// Elements in front of a list; a single one is stored in the node itself.
#[derive(Drop)]
#[cycle(value)]
pub(crate) enum Front<'t> {
    One(Single<Value<'t>>),
    Chunk(Vec<Value<'t>>),
}

#[derive(Drop)]
#[cycle(value)]
pub(crate) struct Joined<'t> {
    pub(crate) front: Front<'t>,
    pub(crate) after: Value<'t>,
    // the number of elements in all
    pub(crate) count: usize,
    // the number of single elements in a row from here on
    pub(crate) run: usize,
}

impl<'t> Model for Value<'t> {
    ghost use Rattle.term_core.specs.Tree.{Tree};
    ghost use Rattle.term_core.specs.inside.TreeCode.{tree_code};

    ghost Value = { Tree };

    ghost coded = { tree_code };

    ghost use Rattle.term_values.specs.inside.ValueView.{view_of, HasShape, value_size};

    ghost view = { view_of };

    ghost invariant = { HasShape };

    ghost size = { value_size };

    ghost use Rattle.term_values.specs.inside.ValueFalls.{above_form};

    ghost size_decreases = { λ a h. above_form a.form h.shape };
}

impl<'t> Value<'t> {
    /// A subterm of the borrowed term.
    pub fn original(term: &'t Term) -> Value<'t>
        ensures { result ≡ term.now }
    {
        Value::original_bounded(term, Bounds::unknown())
    }

    /// A subterm whose height is known to be at most `height`.
    pub fn original_within(term: &'t Term, height: u64) -> Value<'t>
        requires { height_of term.now ≤ height }
        ensures { result ≡ term.now }
    {
        Value {
            form: Form::Original(term),
            bounds: Bounds::of_height(height),
        }
    }

    /// A subterm that is within these bounds.
    #[inline(always)]
    pub(crate) fn original_bounded(term: &'t Term, within: Bounds) -> Value<'t>
        requires { Bounded term.now within }
        ensures { result ≡ term.now }
    {
        Value {
            form: Form::Original(term),
            bounds: bounds_of(term, within),
        }
    }

    /// A node without children and annotations. It takes no memory.
    pub fn leaf(kind: Kind<'t>) -> Value<'t>
        ensures { result ≡ made_of kind.entry [] [] }
    {
        Value {
            form: Form::Leaf(kind),
            bounds: Bounds::of_leaf(),
        }
    }

    /// Another holder of the same tree. It takes no memory.
    pub fn try_clone(&self) -> Result<Value<'t>, NoMemory>
        ensures { IfOk result (λ value. value ≡ self.now) }
    {
        Ok(Value {
            form: self.form.try_clone()?,
            bounds: self.bounds,
        })
    }

    /// This tree, which is known to be within these bounds, too.
    pub(crate) fn within(self, bounds: Bounds) -> Value<'t>
        requires { Bounded self bounds }
        ensures { result ≡ self.entry }
    {
        Value {
            form: self.form,
            bounds: self.bounds.both(bounds),
        }
    }

    /// The root.
    #[inline(always)]
    pub fn kind(&self) -> Kind<'_>
        ensures { self.now ≡ made_of result (children self.now) (annotations self.now) }
    {
        match &self.form {
            Form::Original(term) => {
                let term: &'t Term = *term;
                term.kind()
            }
            Form::Rest(_, _) => Kind::List,
            Form::Joined(_) => Kind::List,
            _ => self.any_kind(),
        }
    }

    // `kind`, whatever the form.
    fn any_kind(&self) -> Kind<'_>
        ensures { self.now ≡ made_of result (children self.now) (annotations self.now) }
    {
        match &self.form {
            Form::Leaf(kind) => *kind,
            Form::Original(term) => {
                let term: &'t Term = *term;
                term.kind()
            }
            Form::Bare(term) => {
                let term: &'t Term = *term;
                term.kind()
            }
            Form::Rest(_, _) => Kind::List,
            Form::Built(made) => made.top.kind(),
            Form::Kept(changed) => changed.kind(),
            Form::BareKept(changed) => changed.kind(),
            Form::Joined(_) => Kind::List,
            Form::Annotated(annotated) => annotated.node.any_kind(),
        }
    }

    /// The number of children.
    pub fn child_count(&self) -> usize
        ensures { result ≡ length (children self.now) }
    {
        match &self.form {
            Form::Leaf(_) => 0,
            Form::Original(term) => term.child_count(),
            Form::Bare(term) => term.child_count(),
            Form::Rest(term, skipped) => terms_after(*term, *skipped).len(),
            Form::Built(made) => made.items.as_slice().len(),
            Form::Kept(changed) => changed.child_count(),
            Form::BareKept(changed) => changed.child_count(),
            Form::Joined(joined) => joined.count,
            Form::Annotated(annotated) => annotated.node.child_count(),
        }
    }
}

/// The bounds of a term that is known to be within these. A term without parts has exact ones.
#[inline(always)]
pub(crate) fn bounds_of(term: &Term, within: Bounds) -> Bounds
    requires { Bounded term.now within }
    ensures { Bounded term.now result }
{
    if !term.children().is_empty() {
        return within;
    }
    if !term.annotations().is_empty() {
        return within;
    }
    Bounds::of_leaf()
}

impl<'t> Top<'t> {
    pub(crate) fn kind(&self) -> Kind<'_>
        ensures { (us ns : List Tree) → top_tree self.now us ns ≡ made_of result us ns }
    {
        match self {
            Top::Borrowed(kind) => *kind,
            Top::Owned(name) => Kind::Application(name),
        }
    }

    /// Another holder of the same root. It takes no memory.
    pub(crate) fn try_clone(&self) -> Result<Top<'t>, NoMemory>
        ensures { IfOk result (λ top. (us ns : List Tree) → top_tree top us ns ≡ top_tree self.now us ns) }
    {
        match self {
            Top::Borrowed(kind) => Ok(Top::Borrowed(*kind)),
            Top::Owned(name) => Ok(Top::Owned(name.clone()?)),
        }
    }
}

impl<'t> Form<'t> {
    fn try_clone(&self) -> Result<Form<'t>, NoMemory>
        ensures tree { IfOk result (λ form. form_tree form ≡ form_tree self.now) }
        ensures shape { IfOk result (λ form. form_shape self.now → form_shape form) }
    {
        match self {
            Form::Leaf(kind) => Ok(Form::Leaf(*kind)),
            Form::Original(term) => Ok(Form::Original(*term)),
            Form::Bare(term) => Ok(Form::Bare(*term)),
            Form::Rest(term, skipped) => Ok(Form::Rest(*term, *skipped)),
            Form::Built(made) => Ok(Form::Built(made.clone()?)),
            Form::Kept(changed) => Ok(Form::Kept(changed.clone()?)),
            Form::BareKept(changed) => Ok(Form::BareKept(changed.clone()?)),
            Form::Joined(joined) => Ok(Form::Joined(joined.clone()?)),
            Form::Annotated(annotated) => Ok(Form::Annotated(annotated.clone()?)),
        }
    }
}
