//! What is known of the terms that may stand at a place.

use crate::signature::Signature;
use crate::sorts::{DEEPEST, Parts, Sort, Sorts};
use strategy_syntax::{Head, Pattern, PatternForm};
use term_core::{Kind, Name, Term};

/// What is known of the terms that may stand at a place.
#[derive(Clone, Copy, PartialEq)]
pub enum Known {
    /// Nothing.
    Any,
    /// They are of this sort.
    Sort(Sort),
    /// They are lists.
    List,
    /// They are tuples of so many terms.
    Tuple(usize),
}

impl Known {
    /// What is known where one of both holds.
    pub fn or(self, other: Known) -> Known {
        if self == other { self } else { Known::Any }
    }

    /// What is known where both hold: this, if it is anything.
    pub fn and(self, other: Known) -> Known {
        match self {
            Known::Any => other,
            known => known,
        }
    }
}

impl Signature {
    /// Whether terms of which this is known may be of a sort.
    pub fn may_be(&self, known: Known, sort: Sort) -> bool {
        let sorts = &self.sorts;
        match known {
            Known::Any => true,
            Known::Sort(other) => sorts.meet(other, sort, DEEPEST),
            Known::List => !matches!(sorts.elements(sort), Parts::Refused),
            Known::Tuple(count) => !matches!(sorts.parts(sort, count), Parts::Refused),
        }
    }

    /// What is known of the elements of a list of which this is known; `None` if there is none.
    pub fn elements_of(&self, known: Known) -> Option<Known> {
        match known {
            Known::Sort(sort) => match self.sorts.elements(sort) {
                Parts::Refused => None,
                Parts::Any => Some(Known::Any),
                Parts::Of(sorts) => Some(first_known(sorts, 0)),
            },
            _ => Some(Known::Any),
        }
    }

    /// What is known of the rest of a list of which this is known.
    pub fn rest_of(&self, known: Known) -> Known {
        match known {
            Known::Sort(_) => known,
            _ => Known::Sort(self.sorts.lists()),
        }
    }

    /// What is known of what a primitive gives.
    pub fn known_of_primitive(&self, name: &Name) -> Known {
        const INTEGERS: [&[u8]; 7] = [
            b"addi",
            b"subti",
            b"muli",
            b"divi",
            b"modi",
            b"strlen",
            b"string-to-int",
        ];
        const STRINGS: [&[u8]; 3] = [b"strcat", b"int-to-string", b"implode-string"];
        if INTEGERS.iter().any(|it| *it == name.bytes()) {
            Known::Sort(self.sorts.integers())
        } else if STRINGS.iter().any(|it| *it == name.bytes()) {
            Known::Sort(self.sorts.strings())
        } else {
            Known::Any
        }
    }

    /// What is known of the part of this number of a tuple of so many of which this is known; `None`
    /// if there is none.
    pub fn part_of(&self, known: Known, count: usize, index: usize) -> Option<Known> {
        match known {
            Known::Sort(sort) => match self.sorts.parts(sort, count) {
                Parts::Refused => None,
                Parts::Any => Some(Known::Any),
                Parts::Of(sorts) => Some(first_known(sorts, index)),
            },
            _ => Some(Known::Any),
        }
    }

    /// What is known of the child of this number of a term of which this is known.
    pub fn child_of(&self, known: Known, term: &Term, index: usize) -> Known {
        let count = term.child_count();
        match term.kind() {
            Kind::Integer(_) => Known::Any,
            Kind::Application(name) => match self.constructor(name, count) {
                Some(declared) => first_known(&declared.arguments, index),
                None => Known::Any,
            },
            Kind::List => self.elements_of(known).unwrap_or(Known::Any),
            Kind::Tuple => self.part_of(known, count, index).unwrap_or(Known::Any),
        }
    }

    /// What is known of the terms that have the root of a pattern. Of a variable nothing is.
    pub fn known_of(&self, pattern: &Pattern) -> Known {
        let mut inside = pattern;
        while let PatternForm::At(_, next) | PatternForm::Annotated(next, _) = inside.form() {
            inside = next;
        }
        match inside.form() {
            PatternForm::Integer(_) => Known::Sort(self.sorts.integers()),
            PatternForm::WithTail(_, _) => Known::List,
            PatternForm::Compound(head, parts) => self.known_of_head(head, parts.len()),
            _ => Known::Any,
        }
    }

    /// What is known of the terms with a head and so many parts.
    pub fn known_of_head(&self, head: &Head, count: usize) -> Known {
        match head {
            Head::List => Known::List,
            Head::Tuple => Known::Tuple(count),
            Head::Application(name) if name.is_quoted() && count == 0 => {
                Known::Sort(self.sorts.strings())
            }
            Head::Application(name) => match self.constructor(name, count) {
                Some(declared) => Known::Sort(declared.result),
                None => Known::Any,
            },
        }
    }
}

/// What is known of a term that is to be of the sort of this number.
pub fn first_known(sorts: &[Sort], index: usize) -> Known {
    match sorts.get(index) {
        Some(sort) => Known::Sort(*sort),
        None => Known::Any,
    }
}

impl Sorts {
    // Whether a term may be of both sorts.
    #[cycle(meet)]
    fn meet(&self, sort: Sort, other: Sort, deep: usize) -> bool {
        let Some(deep) = deep.checked_sub(1) else {
            return true;
        };
        if self.is_open(sort) || self.is_open(other) {
            return true;
        }
        for one in self.taken(sort) {
            for another in self.taken(other) {
                if one == another || self.parts_meet(*one, *another, deep) {
                    return true;
                }
            }
        }
        false
    }

    // Whether a term may be of both sorts, which aren't the same, without an injection.
    #[cycle(meet)]
    fn parts_meet(&self, sort: Sort, other: Sort, deep: usize) -> bool {
        let name = self.name(sort);
        let (parts, others) = (self.arguments(sort), self.arguments(other));
        if name != self.name(other) {
            return false;
        }
        if name == b"list".as_slice() && (parts.len() != 1 || others.len() != 1) {
            return true;
        }
        if name != b"list".as_slice() && name != b"tuple".as_slice() {
            return false;
        }
        if parts.len() != others.len() {
            return false;
        }
        for (part, other) in parts.iter().zip(others) {
            if !self.meet(*part, *other, deep) {
                return false;
            }
        }
        true
    }
}
