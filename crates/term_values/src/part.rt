//! Parts: what became of a subterm of the borrowed term.

ghost use Rattle.std.specs.Prelude.{◌≡◌, ◌≤◌, drop, length, IfOk};
ghost use Rattle.term_core.specs.Tree.{children, annotations, list_term};
ghost use Rattle.term_core.specs.Kind.{made_of};
ghost use Rattle.term_core.specs.Size.{height as height_of};
ghost use Rattle.term_changes.specs.Standing.{after, standing_tree, unchanged, fresh};
ghost use Rattle.term_values.specs.inside.ValueView.{parts_list};

use crate::bounds::Bounds;
use crate::value::{Form, Pair, Single, Value};
use std::alloc::Global;
use std::marker::Model;
use std::mem;
use std::rc::Rc;
use term_core::{Kind, NoMemory, Term};

/// The state of a subterm of the borrowed term in a run: unchanged, changed below, or replaced.
#[derive(Drop)]
#[cycle(value)]
pub struct Part<'t> {
    pub(crate) form: PartForm<'t>,
}

#[derive(Drop)]
#[cycle(value)]
pub(crate) enum PartForm<'t> {
    Same(&'t Term, Bounds),
    Inside(Rc<Changed<'t>>, Bounds),
    New(Value<'t>),
}

/// A subterm of the borrowed term, and what took the places of its children.
#[derive(Drop)]
#[cycle(value)]
pub(crate) struct Changed<'t> {
    pub(crate) of: &'t Term,
    pub(crate) parts: Parts<'t>,
}

/// Parts; one or two are stored in the node itself.
#[derive(Drop)]
#[cycle(value)]
pub(crate) enum Parts<'t> {
    One(Single<Part<'t>>),
    Two(Pair<Part<'t>>),
    Many(Vec<Part<'t>>),
}

impl<'t> Model for Changed<'t> {
    ghost use Rattle.term_changes.specs.Standing.{Altered};
    ghost use Rattle.term_changes.specs.inside.StandingCodes.{altered_code};

    ghost Value = { Altered };

    ghost coded = { altered_code };

    ghost use Rattle.term_values.specs.inside.ValueView.{altered_of, PartsSuit, altered_size};

    ghost view = { altered_of };

    ghost invariant = { PartsSuit };

    ghost size = { altered_size };

    ghost use Rattle.term_values.specs.inside.ValueFalls.{above_parts};

    ghost size_decreases = { λ a h. above_parts a h };
}

impl<'t> Model for Part<'t> {
    ghost use Rattle.term_changes.specs.Standing.{Standing};
    ghost use Rattle.term_changes.specs.inside.StandingCodes.{standing_code};

    ghost Value = { Standing };

    ghost coded = { standing_code };

    ghost use Rattle.term_values.specs.inside.ValueView.{standing_of, PartHasShape, standing_size};

    ghost view = { standing_of };

    ghost invariant = { PartHasShape };

    ghost size = { standing_size };

    ghost use Rattle.term_values.specs.inside.ValueFalls.{above_part};

    ghost size_decreases = { λ a h. above_part a.form };
}

impl<'t> Changed<'t> {
    pub(crate) fn kind(&self) -> Kind<'t>
        ensures { after self.now ≡ made_of result (children (after self.now)) (annotations (after self.now)) }
    {
        let of: &'t Term = self.of;
        of.kind()
    }

    pub(crate) fn child_count(&self) -> usize
        ensures { result ≡ length (children (after self.now)) }
    {
        self.parts.as_slice().len()
    }
}

impl<'t> Parts<'t> {
    /// Takes the parts out of the vector, which keeps its memory if there are one or two.
    pub(crate) fn taken(alloc: Global, all: &mut Vec<Part<'t>>) -> Parts<'t>
        ensures { parts_list result ≡ all.old.items }
    {
        if all.len() == 1 {
            let only = all.take_last();
            return Parts::One(Single { items: [only] });
        }
        if all.len() == 2 {
            let second = all.take_last();
            let first = all.take_last();
            return Parts::Two(Pair {
                items: [first, second],
            });
        }
        Parts::Many(mem::replace(all, Vec::new(alloc)))
    }

    pub(crate) fn as_slice(&self) -> &[Part<'t>]
        ensures { result.now ≡ parts_list self.now }
    {
        match self {
            Parts::One(single) => &single.items,
            Parts::Two(pair) => &pair.items,
            Parts::Many(all) => all,
        }
    }
}

impl<'t> Part<'t> {
    /// The subterm itself.
    pub fn original(term: &'t Term) -> Part<'t>
        ensures { result ≡ unchanged term.now }
    {
        Part {
            form: PartForm::Same(term, Bounds::unknown()),
        }
    }

    /// The subterm itself, whose height is known to be at most `height`.
    pub fn original_within(term: &'t Term, height: u64) -> Part<'t>
        requires { height_of term.now ≤ height }
        ensures { result ≡ unchanged term.now }
    {
        Part {
            form: PartForm::Same(term, Bounds::of_height(height)),
        }
    }

    /// Another value.
    pub fn new(value: Value<'t>) -> Part<'t>
        ensures { result ≡ fresh value.entry }
    {
        Part {
            form: PartForm::New(value),
        }
    }

    /// Another holder of the same part. It takes no memory.
    #[inline(always)]
    pub fn try_clone(&self) -> Result<Part<'t>, NoMemory>
        ensures { IfOk result (λ part. part ≡ self.now) }
    {
        match &self.form {
            PartForm::Same(term, bounds) => Ok(Part {
                form: PartForm::Same(*term, *bounds),
            }),
            PartForm::Inside(changed, bounds) => Ok(Part {
                form: PartForm::Inside(changed.clone()?, *bounds),
            }),
            PartForm::New(value) => Ok(Part::new(value.try_clone()?)),
        }
    }

    /// Whether it is the subterm itself.
    pub(crate) fn is_same(&self) -> bool {
        matches!(self.form, PartForm::Same(_, _))
    }

    /// The root of the tree.
    #[inline(always)]
    pub fn kind(&self) -> Kind<'_>
        ensures { standing_tree self.now
            ≡ made_of result (children (standing_tree self.now)) (annotations (standing_tree self.now)) }
    {
        match &self.form {
            PartForm::Same(term, _) => {
                let term: &'t Term = *term;
                term.kind()
            }
            PartForm::Inside(changed, _) => changed.kind(),
            PartForm::New(value) => value.kind(),
        }
    }

    /// The number of children of the tree.
    #[inline(always)]
    pub fn child_count(&self) -> usize
        ensures { result ≡ length (children (standing_tree self.now)) }
    {
        match &self.form {
            PartForm::Same(term, _) => term.child_count(),
            PartForm::Inside(changed, _) => changed.child_count(),
            PartForm::New(value) => value.child_count(),
        }
    }

    /// The number of annotations of the tree.
    pub fn annotation_count(&self) -> usize
        ensures { result ≡ length (annotations (standing_tree self.now)) }
    {
        self.annotations().len()
    }

    /// The list of the children without the first `skipped`, and without annotations.
    pub fn rest(&self, alloc: Global, skipped: usize) -> Result<Value<'t>, NoMemory>
        requires { skipped ≤ length (children (standing_tree self.now)) }
        ensures { IfOk result (λ value. value ≡ list_term (drop skipped (children (standing_tree self.now)))) }
    {
        match &self.form {
            PartForm::New(value) => value.rest(alloc, skipped),
            _ => self.value()?.rest(alloc, skipped),
        }
    }

    /// The tree, consuming the part. It makes no new holder.
    pub fn into_value(self) -> Value<'t>
        ensures { result ≡ standing_tree self.entry }
    {
        match self.form {
            PartForm::Same(term, bounds) => Value {
                form: Form::Original(term),
                bounds,
            },
            PartForm::Inside(changed, bounds) => Value {
                form: Form::Kept(changed),
                bounds,
            },
            PartForm::New(value) => value,
        }
    }

    /// The tree. Nothing is copied, and it takes no memory.
    #[inline(always)]
    pub fn value(&self) -> Result<Value<'t>, NoMemory>
        ensures { IfOk result (λ value. value ≡ standing_tree self.now) }
    {
        match &self.form {
            PartForm::Same(term, bounds) => Ok(Value {
                form: Form::Original(*term),
                bounds: *bounds,
            }),
            PartForm::Inside(changed, bounds) => Ok(Value {
                form: Form::Kept(changed.clone()?),
                bounds: *bounds,
            }),
            PartForm::New(value) => value.try_clone(),
        }
    }
}
