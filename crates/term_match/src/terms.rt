//! Matching and building over terms.

ghost use Rattle.std.specs.Prelude.{◌≡◌, ◌≤◌, cond, false, IfOk, OnErr, Some, None};
ghost use Rattle.term_core.specs.declared.TheConstants.{MAX_ROOM};
ghost use Rattle.strategy_meaning.specs.Matching.{match_pattern, build_pattern};
ghost use Rattle.term_match.specs.Marks.{mark_of, Before, Stays};
ghost use Rattle.term_match.specs.Building.{BuildsTerm};

use crate::building::Built;
use crate::cells::Cells;
use crate::variables::VariableCells;
use std::alloc::Global;
use strategy_syntax::ResolvedPattern;
use term_core::{NoMemory, Term};
use term_values::Value;

/// The result of a build, with an owned term.
#[derive(Drop)]
pub enum BuiltTerm {
    /// The instance.
    Term(Term),
    /// There is no instance.
    Nothing,
    /// The instance doesn't fit.
    Big,
}

impl<'t> Cells<'t> {
    /// `matches` for a term.
    pub fn matches_term<P: VariableCells>(
        &mut self,
        alloc: Global,
        variables: &P,
        pattern: &ResolvedPattern,
        term: &'t Term,
    ) -> Result<bool, NoMemory>
        ensures ok { IfOk result (λ yes. match_pattern pattern.now term.now (P.cells variables.now) self.old.bindings
            ≡ cond yes (Some self.new.bindings) None) }
        ensures no { IfOk result (λ yes. yes ≡ false → self.new ≡ self.old) }
        ensures err { OnErr result (self.new ≡ self.old) }
        ensures later { Before (mark_of self.old) (mark_of self.new) }
        ensures stays { Stays (mark_of self.old) self.old self.new }
    {
        let value = Value::original(term);
        let matched = self.matches(alloc, variables, pattern, &value);
        drop(value);
        matched
    }

    /// `build` with an owned term.
    pub fn build_term<P: VariableCells>(
        &mut self,
        alloc: Global,
        variables: &P,
        pattern: &'t ResolvedPattern,
        level: u64,
        room: u32,
    ) -> Result<BuiltTerm, NoMemory>
        requires { room ≤ MAX_ROOM }
        ensures same { self.new ≡ self.old }
        ensures ok { IfOk result (λ built. BuildsTerm (build_pattern pattern.now (P.cells variables.now) self.old.bindings) room level built) }
    {
        match self.build(alloc, variables, pattern, level, room)? {
            Built::Value(value) => {
                let term = value.to_term(alloc);
                drop(value);
                Ok(BuiltTerm::Term(term?))
            }
            Built::Nothing => Ok(BuiltTerm::Nothing),
            Built::Big => Ok(BuiltTerm::Big),
        }
    }
}
