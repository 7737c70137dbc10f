//! Patterns that are matched or built where something is known of the term.

use crate::check::{Checker, DEEPEST, Found};
use crate::known::{Known, first_known};
use strategy_syntax::{Head, Pattern, PatternForm};
use term_core::{Name, NoMemory};

// Where a pattern stands.
#[derive(Clone, Copy)]
struct Spot {
    // What is known of the term there.
    known: Known,
    // Whether the pattern is built; else it is matched.
    is_built: bool,
}

impl<'a> Checker<'a> {
    /// A pattern is matched with a term of which this is known.
    pub(crate) fn matched(&mut self, pattern: &'a Pattern, known: Known) -> Result<(), NoMemory> {
        let spot = Spot {
            known,
            is_built: false,
        };
        self.pattern(pattern, spot, DEEPEST)
    }

    /// A pattern is built.
    pub(crate) fn built(&mut self, pattern: &'a Pattern) -> Result<(), NoMemory> {
        let spot = Spot {
            known: Known::Any,
            is_built: true,
        };
        self.pattern(pattern, spot, DEEPEST)
    }

    /// Patterns are built, as terms that are handed to a call.
    pub(crate) fn built_all(&mut self, patterns: &'a [Pattern]) -> Result<(), NoMemory> {
        for pattern in patterns {
            self.built(pattern)?;
        }
        Ok(())
    }

    /// What is known of the terms that are built from a pattern.
    pub(crate) fn known_of_built(&self, pattern: &Pattern) -> Known {
        if let PatternForm::Variable(name) = pattern.form()
            && let Some(variable) = self.variable(name)
        {
            return variable.known.unwrap_or(Known::Any);
        }
        self.signature.known_of(pattern)
    }

    #[cycle(pattern)]
    fn pattern(&mut self, pattern: &'a Pattern, spot: Spot, deep: usize) -> Result<(), NoMemory> {
        let Some(deep) = deep.checked_sub(1) else {
            return Ok(());
        };
        match pattern.form() {
            PatternForm::Wildcard => Ok(()),
            PatternForm::Variable(name) => self.name(name, pattern, spot),
            PatternForm::At(name, inside) => {
                let known = self.signature.known_of(inside).and(spot.known);
                self.bind(name, known, pattern.place().token(0));
                self.pattern(inside, spot, deep)
            }
            PatternForm::Integer(_) => self.want_form(pattern, spot),
            PatternForm::Compound(head, parts) => {
                self.want_form(pattern, spot)?;
                self.parts(head, parts, spot, deep)
            }
            PatternForm::WithTail(parts, tail) => {
                self.want_form(pattern, spot)?;
                self.parts(&Head::List, parts, spot, deep)?;
                let known = self.signature.rest_of(spot.known);
                self.pattern(tail, Spot { known, ..spot }, deep)
            }
            PatternForm::Annotated(inside, annotations) => {
                self.pattern(inside, spot, deep)?;
                for annotation in annotations {
                    let known = Known::Any;
                    self.pattern(annotation, Spot { known, ..spot }, deep)?;
                }
                Ok(())
            }
        }
    }

    // A variable is bound, or built.
    fn name(&mut self, name: &Name, pattern: &Pattern, spot: Spot) -> Result<(), NoMemory> {
        let place = pattern.place();
        if !spot.is_built {
            self.bind(name, spot.known, place);
            return Ok(());
        }
        match self.variable(name) {
            Some(variable) => {
                let known = variable.known.unwrap_or(Known::Any);
                self.want(place, Found::Bound(known, variable.place), spot.known)
            }
            None => Ok(()),
        }
    }

    // Notes a fault, if the form of the pattern can't stand there. What is built is of its sort and of
    // no narrower one.
    fn want_form(&mut self, pattern: &Pattern, spot: Spot) -> Result<(), NoMemory> {
        let known = self.signature.known_of(pattern);
        if let (Known::Sort(sort), Known::Sort(wanted)) = (known, spot.known)
            && !self.signature.sorts.takes(wanted, sort)
        {
            return self.add_fault(pattern.place(), wanted, Found::Given(known));
        }
        self.want(pattern.place(), Found::Given(known), spot.known)
    }

    #[cycle(pattern)]
    fn parts(
        &mut self,
        head: &Head,
        parts: &'a [Pattern],
        spot: Spot,
        deep: usize,
    ) -> Result<(), NoMemory> {
        for (index, part) in parts.iter().enumerate() {
            let known = self.known_of_part(head, parts.len(), spot.known, index);
            self.pattern(part, Spot { known, ..spot }, deep)?;
        }
        Ok(())
    }

    // What is known of the part of this number of a term with a head and so many parts.
    fn known_of_part(&self, head: &Head, count: usize, known: Known, index: usize) -> Known {
        let signature = self.signature;
        match head {
            Head::Application(name) => match signature.constructor(name, count) {
                Some(declared) => first_known(&declared.arguments, index),
                None => Known::Any,
            },
            Head::List => signature.elements_of(known).unwrap_or(Known::Any),
            Head::Tuple => signature.part_of(known, count, index).unwrap_or(Known::Any),
        }
    }
}
