//! Definitions, by what is known of the terms that their strategies are run on. No call is followed: of
//! what it leaves nothing is known.

use crate::known::{Known, first_known};
use crate::signature::Signature;
use crate::sorts::Sort;
use std::alloc::Global;
use std::mem;
use strategy_names::free_names;
use strategy_syntax::{Definition, Head, Place, Strategy, StrategyForm};
use term_core::{Name, NoMemory};

// How deep strategies and patterns are followed. A text has no more tokens.
pub(crate) const DEEPEST: usize = 4_000;

/// Something that is of another sort than its place in a definition wants.
#[derive(Clone, Copy)]
pub struct SortFault {
    pub place: Place,
    pub wanted: Sort,
    pub found: Found,
}

/// What stands there.
#[derive(Clone, Copy)]
pub enum Found {
    /// A pattern of terms of which this is known.
    Given(Known),
    /// A strategy that leaves terms of which this is known.
    Left(Known),
    /// A variable of which this is known, and where it was bound.
    Bound(Known, Place),
}

/// What is of a wrong sort in a definition, in the order of its form.
///
/// Errors: `NoMemory` if memory can't grow.
pub fn sort_faults(
    alloc: Global,
    signature: &Signature,
    definition: &Definition,
) -> Result<Vec<SortFault>, NoMemory> {
    let names = free_names(alloc, definition.term_parameters(), definition.body())?;
    let found = faults_among(alloc, signature, definition, &names);
    drop(names);
    found
}

// The same, where the definition has these variables in no scope of its own.
fn faults_among<'a>(
    alloc: Global,
    signature: &'a Signature,
    definition: &'a Definition,
    names: &'a [Name],
) -> Result<Vec<SortFault>, NoMemory> {
    let mut checker = Checker {
        signature,
        variables: Vec::new(alloc),
        faults: Vec::new(alloc),
    };
    let parameters = definition.term_parameters();
    let body = definition.body();
    checker.open(parameters, Some(Known::Any))?;
    checker.open(names, None)?;
    let _ = checker.strategy(body, Known::Any, DEEPEST)?;
    let mut found = Vec::new(alloc);
    mem::swap(&mut found, &mut checker.faults);
    drop(checker);
    Ok(found)
}

/// A variable, and what is known of its term.
#[derive(Clone, Copy)]
pub(crate) struct Variable<'a> {
    name: &'a Name,
    /// `None` if it isn't bound yet.
    pub(crate) known: Option<Known>,
    // Whether it is bound on each way that leads here.
    is_sure: bool,
    /// Where it was bound.
    pub(crate) place: Place,
}

impl<'a> Variable<'a> {
    // What is known where one of two ways leads here.
    fn or(self, other: Variable<'a>) -> Variable<'a> {
        match (self.known, other.known) {
            (Some(known), Some(another)) => Variable {
                known: Some(known.or(another)),
                is_sure: self.is_sure && other.is_sure,
                ..self
            },
            (Some(_), None) => Variable {
                is_sure: false,
                ..self
            },
            (None, _) => Variable {
                is_sure: false,
                ..other
            },
        }
    }
}

/// What is known in a definition.
#[derive(Drop)]
pub(crate) struct Checker<'a> {
    pub(crate) signature: &'a Signature,
    // Those in scope, the innermost last.
    variables: Vec<Variable<'a>>,
    faults: Vec<SortFault>,
}

impl<'a> Checker<'a> {
    // Adds variables of which this is known.
    fn open(&mut self, names: &'a [Name], known: Option<Known>) -> Result<(), NoMemory> {
        for name in names {
            self.variables.push(Variable {
                name,
                known,
                is_sure: true,
                place: Place::nowhere(),
            })?;
        }
        Ok(())
    }

    /// Notes a fault, if terms of which this is known can't stand where those of a sort are wanted.
    pub(crate) fn want(
        &mut self,
        place: Place,
        found: Found,
        wanted: Known,
    ) -> Result<(), NoMemory> {
        let Known::Sort(wanted) = wanted else {
            return Ok(());
        };
        let is_well = match found {
            Found::Given(known) | Found::Left(known) | Found::Bound(known, _) => self
                .signature
                .may_be(known, wanted),
        };
        if is_well {
            return Ok(());
        }
        self.add_fault(place, wanted, found)
    }

    /// Notes a fault.
    pub(crate) fn add_fault(
        &mut self,
        place: Place,
        wanted: Sort,
        found: Found,
    ) -> Result<(), NoMemory> {
        Ok(
            self.faults.push(SortFault {
                place,
                wanted,
                found,
            })?,
        )
    }

    /// The variable of this name.
    pub(crate) fn variable(&self, name: &Name) -> Option<Variable<'a>> {
        let mut variables = self.variables.iter().rev();
        variables.find(|it| it.name.equals(name)).copied()
    }

    /// Notes that this is known of the term that a variable is bound to at a place.
    pub(crate) fn bind(&mut self, name: &Name, known: Known, place: Place) {
        for variable in self.variables.iter_mut().rev() {
            if variable.name.equals(name) {
                variable.known = match variable.known {
                    None | Some(Known::Any) => Some(known),
                    Some(before) if variable.is_sure => Some(before),
                    Some(before) => Some(before.or(known)),
                };
                variable.is_sure = true;
                if variable.place.is_nowhere() {
                    variable.place = place;
                }
                return;
            }
        }
    }

    // What is known of the term that a strategy leaves of one of which this is known; `None` if it
    // fails for sure.
    #[cycle(strategy)]
    fn strategy(
        &mut self,
        strategy: &'a Strategy,
        known: Known,
        deep: usize,
    ) -> Result<Option<Known>, NoMemory> {
        let Some(deep) = deep.checked_sub(1) else {
            return Ok(Some(Known::Any));
        };
        match strategy.form() {
            StrategyForm::Id => Ok(Some(known)),
            StrategyForm::Fail => Ok(None),
            StrategyForm::Match(pattern) => {
                self.matched(pattern, known)?;
                Ok(Some(self.signature.known_of(pattern).and(known)))
            }
            StrategyForm::Build(pattern) => {
                self.built(pattern)?;
                Ok(Some(self.known_of_built(pattern)))
            }
            StrategyForm::Seq(parts) => match self.strategy(&parts.0, known, deep)? {
                Some(next) => self.strategy(&parts.1, next, deep),
                None => Ok(None),
            },
            StrategyForm::Guard(parts) => self.guard(parts, known, deep),
            StrategyForm::Test(inside) => {
                let left = self.strategy(inside, known, deep)?;
                Ok(if left.is_some() { Some(known) } else { None })
            }
            StrategyForm::Scope(names, inside) => {
                let before = self.variables.len();
                self.open(names, None)?;
                let left = self.strategy(inside, known, deep)?;
                self.variables.truncate(before);
                Ok(left)
            }
            StrategyForm::Use(name, strategies, patterns) => {
                self.built_all(patterns)?;
                self.call(name, strategies, deep)
            }
            StrategyForm::Congruence(head, strategies) => {
                self.congruence(head, strategies, known, deep)
            }
            StrategyForm::TailCongruence(strategies, tail) => {
                if !self.elements(strategies, known, deep)? {
                    return Ok(None);
                }
                let rest = self.signature.rest_of(known);
                let is_done = self.part(tail, rest, deep)?;
                Ok(if is_done {
                    Some(known.and(Known::List))
                } else {
                    None
                })
            }
            StrategyForm::All(inside)
            | StrategyForm::One(inside)
            | StrategyForm::Some(inside)
            | StrategyForm::Child(_, inside) => {
                self.apart(inside, deep)?;
                Ok(Some(known))
            }
            StrategyForm::Rec(_, inside) => {
                self.apart(inside, deep)?;
                Ok(Some(Known::Any))
            }
            StrategyForm::Prim(name, patterns) => {
                self.built_all(patterns)?;
                Ok(Some(self.signature.known_of_primitive(name)))
            }
        }
    }

    // `s1 < s2 + s3`: what is known after one of the two ways.
    #[cycle(strategy)]
    fn guard(
        &mut self,
        parts: &'a (Strategy, Strategy, Strategy),
        known: Known,
        deep: usize,
    ) -> Result<Option<Known>, NoMemory> {
        let mut others = Vec::from_slice(*self.variables.allocator(), &self.variables)?;
        let first = match self.strategy(&parts.0, known, deep)? {
            Some(next) => self.strategy(&parts.1, next, deep)?,
            None => None,
        };
        mem::swap(&mut others, &mut self.variables);
        let second = self.strategy(&parts.2, known, deep)?;
        let left = match (first, second) {
            (Some(one), Some(another)) => {
                self.join(&others);
                Some(one.or(another))
            }
            (Some(one), None) => {
                mem::swap(&mut others, &mut self.variables);
                Some(one)
            }
            (None, left) => left,
        };
        drop(others);
        Ok(left)
    }

    // A strategy that may be run any number of times, on any terms.
    #[cycle(strategy)]
    fn apart(&mut self, strategy: &'a Strategy, deep: usize) -> Result<(), NoMemory> {
        let before = Vec::from_slice(*self.variables.allocator(), &self.variables)?;
        let _ = self.strategy(strategy, Known::Any, deep)?;
        self.join(&before);
        drop(before);
        Ok(())
    }

    // What is known where another way leads here, on which this was known.
    fn join(&mut self, others: &[Variable<'a>]) {
        for (variable, other) in self.variables.iter_mut().zip(others) {
            *variable = variable.or(*other);
        }
    }

    // A strategy on a part of a term, which has to stay of its sort. Returns whether it may succeed.
    #[cycle(strategy)]
    fn part(
        &mut self,
        strategy: &'a Strategy,
        known: Known,
        deep: usize,
    ) -> Result<bool, NoMemory> {
        match self.strategy(strategy, known, deep)? {
            Some(left) => {
                self.want(strategy.place(), Found::Left(left), known)?;
                Ok(true)
            }
            None => Ok(false),
        }
    }

    // A call, or a congruence with the name of a constructor.
    #[cycle(strategy)]
    fn call(
        &mut self,
        name: &'a Name,
        strategies: &'a [Strategy],
        deep: usize,
    ) -> Result<Option<Known>, NoMemory> {
        let signature = self.signature;
        if !strategies.is_empty()
            && let Some(declared) = signature.constructor(name, strategies.len())
        {
            for (index, strategy) in strategies.iter().enumerate() {
                let known = first_known(&declared.arguments, index);
                if !self.part(strategy, known, deep)? {
                    return Ok(None);
                }
            }
            return Ok(Some(Known::Sort(declared.result)));
        }
        for strategy in strategies {
            self.apart(strategy, deep)?;
        }
        Ok(Some(Known::Any))
    }

    // A congruence of a string, a list or a tuple.
    #[cycle(strategy)]
    fn congruence(
        &mut self,
        head: &'a Head,
        strategies: &'a [Strategy],
        known: Known,
        deep: usize,
    ) -> Result<Option<Known>, NoMemory> {
        let signature = self.signature;
        let count = strategies.len();
        let is_done = match head {
            Head::Application(_) => true,
            Head::List => self.elements(strategies, known, deep)?,
            Head::Tuple => {
                let mut is_done = true;
                for (index, strategy) in strategies.iter().enumerate() {
                    let part = signature.part_of(known, count, index);
                    is_done &= self.part(strategy, part.unwrap_or(Known::Any), deep)?;
                }
                is_done
            }
        };
        if !is_done {
            return Ok(None);
        }
        Ok(Some(known.and(signature.known_of_head(head, count))))
    }

    // Strategies on the elements of a list. Returns whether they may succeed.
    #[cycle(strategy)]
    fn elements(
        &mut self,
        strategies: &'a [Strategy],
        known: Known,
        deep: usize,
    ) -> Result<bool, NoMemory> {
        let element = self.signature.elements_of(known).unwrap_or(Known::Any);
        for strategy in strategies {
            if !self.part(strategy, element, deep)? {
                return Ok(false);
            }
        }
        Ok(true)
    }
}
