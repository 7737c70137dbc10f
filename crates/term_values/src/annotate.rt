//! Values with their annotations dropped or replaced.
#![tactic(auto, using(crate::proofs::KindLemmas::node_parts))]

ghost use Rattle.std.specs.Prelude.{◌≡◌, IfOk};
ghost use Rattle.term_core.specs.Tree.{annotations, with_annotations, bare as bare_of};
ghost use Rattle.term_changes.specs.Standing.{after};
ghost use Rattle.term_values.specs.inside.Bounded.{AllBounded};
ghost use Rattle.term_values.specs.inside.Shape.{AnnotatedShape};
ghost use Rattle.term_values.specs.inside.ValueView.{annotation_list};

use crate::bounds::Bounds;
use crate::build::all_bounds;
use crate::part::Changed;
use crate::value::{Annotated, Annotations, Form, Value};
use std::alloc::Global;
use std::rc::Rc;
use term_core::{NoMemory, Term};

impl<'t> Value<'t> {
    /// This value without annotations. It takes no memory.
    pub fn bare(&self) -> Result<Value<'t>, NoMemory>
        ensures { IfOk result (λ value. value ≡ bare_of self.now) }
    {
        if self.annotation_count() == 0 {
            return self.try_clone();
        }
        match &self.form {
            Form::Original(term) => Ok(Value {
                form: Form::Bare(*term),
                bounds: self.bounds.less(1, 0),
            }),
            Form::Kept(changed) => Ok(Value {
                form: Form::BareKept(changed.clone()?),
                bounds: self.bounds.less(1, 0),
            }),
            Form::Annotated(annotated) => annotated.node.try_clone(),
            _ => self.try_clone(),
        }
    }

    /// This value with these annotations in place of its own.
    pub fn with_annotations(
        &self,
        alloc: Global,
        all: Vec<Value<'t>>,
    ) -> Result<Value<'t>, NoMemory>
        ensures { IfOk result (λ value. value ≡ with_annotations self.now all.entry.items) }
    {
        let node = self.bare()?;
        if all.is_empty() {
            return Ok(node);
        }
        let within = all_bounds(&all);
        annotated(alloc, node, Annotations::Own(all), within)
    }

    /// This value with the annotations of another in place of its own. If that is part of the
    /// borrowed term, they aren't copied.
    pub fn with_annotations_of(&self, alloc: Global, of: &Value<'t>) -> Result<Value<'t>, NoMemory>
        ensures { IfOk result (λ value. value ≡ with_annotations self.now (annotations of.now)) }
    {
        let node = self.bare()?;
        if of.annotation_count() == 0 {
            return Ok(node);
        }
        let annotations = of.share_own_annotations(alloc)?;
        annotated(alloc, node, annotations, of.annotation_bounds())
    }

    // Another holder of the annotations.
    fn share_own_annotations(&self, alloc: Global) -> Result<Annotations<'t>, NoMemory>
        ensures { IfOk result (λ shared. annotation_list shared ≡ annotations self.now) }
    {
        match &self.form {
            Form::Original(term) => Ok(Annotations::Of(*term)),
            Form::Kept(changed) => Ok(Annotations::Of(changed.subterm())),
            _ => Ok(Annotations::Own(self.share_annotations(alloc)?)),
        }
    }

    // Bounds of all annotations together.
    fn annotation_bounds(&self) -> Bounds
        ensures { AllBounded (annotations self.now) result }
    {
        self.bounds.less(1, 1)
    }
}

impl<'t> Changed<'t> {
    // The subterm that has the annotations.
    fn subterm(&self) -> &'t Term
        ensures { annotations result.now ≡ annotations (after self.now) }
    {
        self.of
    }
}

// Gives annotations to a node that has none.
fn annotated<'t>(
    alloc: Global,
    node: Value<'t>,
    annotations: Annotations<'t>,
    within: Bounds,
) -> Result<Value<'t>, NoMemory>
    requires shape { AnnotatedShape node (annotation_list annotations) }
    requires bounds { AllBounded (annotation_list annotations) within }
    ensures { IfOk result (λ value. value ≡ with_annotations node.entry (annotation_list annotations.entry)) }
{
    let bounds = within.before(node.bounds);
    let annotated = Rc::new(alloc, Annotated { node, annotations })?;
    Ok(Value {
        form: Form::Annotated(annotated),
        bounds,
    })
}
