//! Children and annotations as values.
#![tactic(auto, using(crate::proofs::KindLemmas::node_parts))]

ghost use Rattle.std.specs.Prelude.{◌≡◌, IfOk, length, slice_get};
ghost use Rattle.term_core.specs.Tree.{children, annotations};
ghost use Rattle.term_values.specs.inside.Bounded.{AllWithin};

use crate::bounds::Bounds;
use crate::elements::{Elements, terms_after};
use crate::value::{Form, Value};
use std::alloc::Global;
use term_core::{NoMemory, Term};

/// The greatest number of children for each of which the bound of all together is a bound worth
/// keeping.
const FEW: usize = 8;

impl<'t> Value<'t> {
    /// Child `i`, counted from 0, or `None` if there is none. It takes no memory.
    #[inline(always)]
    pub fn child(&self, i: usize) -> Result<Option<Value<'t>>, NoMemory>
        ensures { IfOk result (λ child. child ≡ slice_get (children self.now) i) }
    {
        match &self.form {
            Form::Original(term) => {
                let term: &'t Term = *term;
                Ok(original_at(term.children(), i, self.bounds_below(term.child_count())))
            }
            Form::Rest(term, skipped) => {
                let left = terms_after(*term, *skipped);
                Ok(original_at(left, i, self.bounds_below(left.len())))
            }
            Form::Built(made) => shared_at(made.items.as_slice(), i),
            _ => self.other_child(i),
        }
    }

    // `child` for the forms that it doesn't treat itself.
    fn other_child(&self, i: usize) -> Result<Option<Value<'t>>, NoMemory>
        ensures { IfOk result (λ child. child ≡ slice_get (children self.now) i) }
    {
        if let Form::Kept(changed) = &self.form {
            return changed.child(i);
        }
        self.any_child(i)
    }

    // `child`, whatever the form.
    #[inline(never)]
    fn any_child(&self, i: usize) -> Result<Option<Value<'t>>, NoMemory>
        ensures { IfOk result (λ child. child ≡ slice_get (children self.now) i) }
    {
        let within = self.child_bounds();
        self.elements().value_at(i, within)
    }

    /// New holders of the children.
    pub fn share_children(&self, alloc: Global) -> Result<Vec<Value<'t>>, NoMemory>
        ensures { IfOk result (λ all. all.items ≡ children self.now) }
    {
        let within = self.child_bounds();
        self.elements().values(alloc, within)
    }

    /// The number of annotations.
    pub fn annotation_count(&self) -> usize
        ensures { result ≡ length (annotations self.now) }
    {
        self.annotations().len()
    }

    /// New holders of the annotations.
    pub fn share_annotations(&self, alloc: Global) -> Result<Vec<Value<'t>>, NoMemory>
        ensures { IfOk result (λ all. all.items ≡ annotations self.now) }
    {
        let within = self.bounds.less(self.annotation_count(), 1);
        Elements::alone(self.annotations()).values(alloc, within)
    }

    // Bounds that hold for each child.
    #[inline(always)]
    fn child_bounds(&self) -> Bounds
        ensures { AllWithin (children self.now) result }
    {
        self.bounds_below(self.child_count())
    }

    // Bounds that hold for each child, where there are so many.
    fn bounds_below(&self, count: usize) -> Bounds
        requires { count ≡ length (children self.now) }
        ensures { AllWithin (children self.now) result }
    {
        if count > FEW {
            self.bounds.lower()
        } else {
            self.bounds.less(count, 1)
        }
    }
}

/// Term `i`, counted from 0, of terms that are within these bounds.
#[inline(always)]
pub(crate) fn original_at<'t>(terms: &'t [Term], i: usize, within: Bounds) -> Option<Value<'t>>
    requires { AllWithin terms.now within }
    ensures { result ≡ slice_get terms.now i }
{
    if i >= terms.len() {
        return None;
    }
    Some(Value::original_bounded(&terms[i], within))
}

// Another holder of value `i`.
#[inline(always)]
fn shared_at<'t>(values: &[Value<'t>], i: usize) -> Result<Option<Value<'t>>, NoMemory>
    ensures { IfOk result (λ value. value ≡ slice_get values.now i) }
{
    if i >= values.len() {
        return Ok(None);
    }
    Ok(Some(values[i].try_clone()?))
}

impl<'a, 't> Elements<'a, 't> {
    fn value_at(self, i: usize, within: Bounds) -> Result<Option<Value<'t>>, NoMemory>
        requires { AllWithin self within }
        ensures { IfOk result (λ value. value ≡ slice_get self.entry i) }
    {
        match self.nth(i) {
            None => Ok(None),
            Some(seen) => Ok(Some(seen.value(within)?)),
        }
    }

    /// New holders of the trees, which are within these bounds.
    pub(crate) fn values(self, alloc: Global, within: Bounds) -> Result<Vec<Value<'t>>, NoMemory>
        requires { AllWithin self within }
        ensures { IfOk result (λ all. all.items ≡ self.entry) }
    {
        let mut left = self;
        let mut all = Vec::with_capacity(alloc, left.first_run_len())?;
        while let Some(seen) = left.next() {
            all.push(seen.value(within)?)?;
        }
        Ok(all)
    }
}
