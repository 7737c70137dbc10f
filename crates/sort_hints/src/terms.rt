//! Terms that aren't of the sort that their place wants.

use crate::known::Known;
use crate::signature::Signature;
use crate::sorts::Sort;
use std::alloc::Global;
use std::mem;
use term_core::{Kind, NoMemory, Term};

// How deep terms are followed. Those of a session are no higher.
const DEEPEST: usize = 1_001;

/// A subterm of a term, by its path, that isn't of the sort that its place wants.
#[derive(Drop)]
pub struct TermFault {
    pub path: Vec<usize>,
    pub wanted: Sort,
}

/// The first subterm that a change of a term, of which this is known, put at a place that wants another
/// sort; none where what was there before was no better. Annotations aren't looked at.
///
/// Errors: `NoMemory` if memory can't grow.
pub fn new_fault(
    alloc: Global,
    signature: &Signature,
    old: &Term,
    new: &Term,
    known: Known,
) -> Result<Option<TermFault>, NoMemory> {
    let mut walk = Walk {
        signature,
        path: Vec::new(alloc),
    };
    let Some(wanted) = walk.changed(old, new, known, DEEPEST)? else {
        return Ok(None);
    };
    let mut path = Vec::new(alloc);
    mem::swap(&mut path, &mut walk.path);
    drop(walk);
    Ok(Some(TermFault { path, wanted }))
}

// Where the walk is. Where a fault was found, it stays there.
#[derive(Drop)]
struct Walk<'s> {
    signature: &'s Signature,
    path: Vec<usize>,
}

impl Walk<'_> {
    // The sort that is wanted where the first fault is that is in the new term and wasn't in the old
    // one. Where the roots are the same, their children are compared.
    fn changed(
        &mut self,
        old: &Term,
        new: &Term,
        known: Known,
        deep: usize,
    ) -> Result<Option<Sort>, NoMemory> {
        let Some(deep) = deep.checked_sub(1) else {
            return Ok(None);
        };
        if !same_root(old, new) {
            return self.replaced(old, new, known);
        }
        let pairs = old.children().iter().zip(new.children());
        for (index, (before, after)) in pairs.enumerate() {
            let known = self.signature.child_of(known, new, index);
            self.path.push(index)?;
            let found = self.changed(before, after, known, deep)?;
            if found.is_some() {
                return Ok(found);
            }
            let _ = self.path.pop();
        }
        Ok(None)
    }

    // The same where the new term took the place of the old one.
    fn replaced(&mut self, old: &Term, new: &Term, known: Known) -> Result<Option<Sort>, NoMemory> {
        let depth = self.path.len();
        if self.fault(old, known, DEEPEST)?.is_some() {
            self.path.truncate(depth);
            return Ok(None);
        }
        self.fault(new, known, DEEPEST)
    }

    // The sort that is wanted where the first fault of a term is.
    fn fault(&mut self, term: &Term, known: Known, deep: usize) -> Result<Option<Sort>, NoMemory> {
        let Some(deep) = deep.checked_sub(1) else {
            return Ok(None);
        };
        if let Known::Sort(wanted) = known
            && !self.signature.has_root_of(wanted, term)
        {
            return Ok(Some(wanted));
        }
        for (index, child) in term.children().iter().enumerate() {
            let known = self.signature.child_of(known, term, index);
            self.path.push(index)?;
            let found = self.fault(child, known, deep)?;
            if found.is_some() {
                return Ok(found);
            }
            let _ = self.path.pop();
        }
        Ok(None)
    }
}

impl Signature {
    /// What is known of the subterm that a path leads to.
    pub fn known_at(&self, term: &Term, path: &[usize]) -> Known {
        let mut known = Known::Any;
        let mut here = term;
        for index in path {
            let Some(child) = here.child(*index) else {
                return Known::Any;
            };
            known = self.child_of(known, here, *index);
            here = child;
        }
        known
    }

    // Whether a term of the sort may have the root of this one.
    fn has_root_of(&self, sort: Sort, term: &Term) -> bool {
        let sorts = &self.sorts;
        match self.known_of_root(term) {
            Known::Sort(other) => sorts.takes(sort, other),
            known => self.may_be(known, sort),
        }
    }

    /// What is known of the terms with the root of this one.
    pub fn known_of_root(&self, term: &Term) -> Known {
        let count = term.child_count();
        match term.kind() {
            Kind::Integer(_) => Known::Sort(self.sorts.integers()),
            Kind::List => Known::List,
            Kind::Tuple => Known::Tuple(count),
            Kind::Application(name) if name.is_quoted() && count == 0 => {
                Known::Sort(self.sorts.strings())
            }
            Kind::Application(name) => match self.constructor(name, count) {
                Some(declared) => Known::Sort(declared.result),
                None => Known::Any,
            },
        }
    }
}

// Whether two terms have the same root, with as many children.
fn same_root(term: &Term, other: &Term) -> bool {
    let is_same = match (term.kind(), other.kind()) {
        (Kind::Integer(value), Kind::Integer(same)) => value == same,
        (Kind::Application(name), Kind::Application(same)) => name.equals(same),
        (Kind::List, Kind::List) | (Kind::Tuple, Kind::Tuple) => true,
        _ => false,
    };
    is_same && term.child_count() == other.child_count()
}
