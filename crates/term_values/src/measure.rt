//! Whether values fit. The bounds stored with each reference mostly decide it without a walk.
#![tactic(auto, using(crate::proofs::KindLemmas::node_parts))]

ghost use Rattle.std.specs.Prelude.{◌≡◌, ◌≤◌, ◌<◌, ◌+◌, ◌↔◌, IsTrue, IfSome, IfNone};
ghost use Rattle.term_core.specs.Tree.{of_list};
ghost use Rattle.term_core.specs.Size.{size as size_of, sizes, fits};
ghost use Rattle.term_core.specs.declared.TheConstants.{MAX_ROOM};
ghost use Rattle.term_values.specs.inside.Bounded.{Measures, MeasuresAll};
ghost use Rattle.term_values.specs.Seen.{seen_tree};

use crate::bounds::Bounds;
use crate::elements::{Elements, Seen};
use crate::value::Value;
use term_core::Term;

impl<'t> Value<'t> {
    /// Whether the known bounds show that the value fits at the level, in this room. It looks at
    /// nothing else, so the answer may be false for a value that fits.
    pub fn surely_fits(&self, level: u64, room: u32) -> bool
        requires { room ≤ MAX_ROOM }
        ensures { IsTrue result → IsTrue (fits room level self.now) }
    {
        self.bounds.fit(level, room)
    }

    /// Whether the size is at most `limit`. If so, size and height are stored with this reference.
    /// It visits at most `limit` nodes, and none below a reference that knows its size.
    pub fn measure(&mut self, limit: u64) -> bool
        ensures stays { self.new ≡ self.old }
        ensures result { IsTrue result ↔ (size_of self.old ≤ limit) }
    {
        match self.measured(limit) {
            None => false,
            Some(bounds) => {
                self.bounds = bounds;
                true
            }
        }
    }

    /// Whether the value fits at the level, in this room. It visits nodes only if the bounds don't
    /// decide it.
    pub fn fits(&mut self, level: u64, room: u32) -> bool
        requires { room ≤ MAX_ROOM }
        ensures stays { self.new ≡ self.old }
        ensures result { result ≡ fits room level self.old }
    {
        if self.surely_fits(level, room) {
            return true;
        }
        match self.measured(u64::from(room)) {
            None => false,
            Some(bounds) => {
                self.bounds = bounds;
                bounds.fit(level, room)
            }
        }
    }

    // Size and height, if the size is at most `limit`.
    fn measured(&self, limit: u64) -> Option<Bounds>
        ensures some { IfSome result (λ bounds. Measures self.now bounds × (size_of self.now ≤ limit)) }
        ensures none { IfNone result (limit < size_of self.now) }
    {
        let mut left = limit;
        measured_within(Seen::Value(self), &mut left)
    }
}

// Size and height of a tree whose size is at most `left`, which goes down by it; `None` for any
// other tree.
#[cycle(measured)]
fn measured_within(seen: Seen<'_, '_>, left: &mut u64) -> Option<Bounds>
    ensures some { IfSome result (λ bounds. Measures (seen_tree seen.entry) bounds
        × (left.new + size_of (seen_tree seen.entry) ≡ left.old)) }
    ensures none { IfNone result (left.old < size_of (seen_tree seen.entry)) }
{
    let known = seen.bounds();
    if known.exact && known.size < u32::MAX {
        let size = u64::from(known.size);
        if size > *left {
            return None;
        }
        *left -= size;
        return Some(known);
    }
    if let Some(term) = seen.term() {
        return term_measured(term, left);
    }
    if *left == 0 {
        return None;
    }
    *left -= 1;
    let children = all_measured(seen.elements(), left)?;
    let annotations = all_measured(seen.annotations(), left)?;
    Some(children.and(annotations).over())
}

#[cycle(measured)]
fn all_measured(elements: Elements<'_, '_>, left: &mut u64) -> Option<Bounds>
    ensures some { IfSome result (λ bounds. MeasuresAll elements.entry bounds
        × (left.new + sizes (of_list elements.entry) ≡ left.old)) }
    ensures none { IfNone result (left.old < sizes (of_list elements.entry)) }
{
    let mut rest = elements;
    let mut all = Bounds::of_none();
    while let Some(seen) = rest.next() {
        let Some(bounds) = measured_within(seen, left) else {
            return None;
        };
        all = all.and(bounds);
    }
    Some(all)
}

// `measured_within` for a term.
#[cycle(term_measured)]
fn term_measured(term: &Term, left: &mut u64) -> Option<Bounds>
    ensures some { IfSome result (λ bounds. Measures term.now bounds
        × (left.new + size_of term.now ≡ left.old)) }
    ensures none { IfNone result (left.old < size_of term.now) }
{
    if *left == 0 {
        return None;
    }
    *left -= 1;
    let children = terms_measured(term.children(), left)?;
    let annotations = term.annotations();
    if annotations.is_empty() {
        return Some(children.over());
    }
    let annotations = terms_measured(annotations, left)?;
    Some(children.and(annotations).over())
}

#[cycle(term_measured)]
fn terms_measured(terms: &[Term], left: &mut u64) -> Option<Bounds>
    ensures some { IfSome result (λ bounds. MeasuresAll terms.now bounds
        × (left.new + sizes (of_list terms.now) ≡ left.old)) }
    ensures none { IfNone result (left.old < sizes (of_list terms.now)) }
{
    let mut all = Bounds::of_none();
    for i in 0..terms.len() {
        let Some(bounds) = term_measured(&terms[i], left) else {
            return None;
        };
        all = all.and(bounds);
    }
    Some(all)
}
