//! Matching a pattern against a tree.

ghost use Rattle.std.specs.Prelude.{◌≡◌, ◌≤◌, length, take, drop, cond, true, false, IfOk, OnErr, Some, None};
ghost use Rattle.term_core.specs.Tree.{children, annotations, bare, list_term};
ghost use Rattle.strategy_syntax.specs.Resolved.{resolved_patterns_of};
ghost use Rattle.strategy_meaning.specs.Matching.{match_pattern, match_patterns, bind, elements, is_integer, is_headed};
ghost use Rattle.term_match.specs.inside.Binding.{Says};
ghost use Rattle.term_changes.specs.Standing.{standing_tree};
ghost use Rattle.term_match.specs.Marks.{mark_of, Before, Stays};
ghost use Rattle.term_match.specs.Heads.{SharesHead};
ghost use Rattle.term_match.specs.inside.Growing.{Grows};

use crate::cells::Cells;
use crate::variables::VariableCells;
use std::alloc::Global;
use strategy_syntax::{Head, ResolvedPattern, ResolvedPatternForm};
use term_core::{Kind, NoMemory};
use term_values::{Part, Value};

// The state of a variable's cell, compared with a term.
enum Said {
    // The cell is empty; this is its number.
    Empty(usize),
    // The cell is filled: whether with the same term.
    Same(bool),
}

impl<'t> Cells<'t> {
    /// Whether the pattern matches the value. If it does, unbound variables are bound; if it
    /// doesn't, or memory can't grow, the cells are unchanged. Terms are bound without a copy.
    #[inline(always)]
    pub fn matches<P: VariableCells>(
        &mut self,
        alloc: Global,
        variables: &P,
        pattern: &ResolvedPattern,
        value: &Value<'t>,
    ) -> Result<bool, NoMemory>
        ensures ok { IfOk result (λ yes. match_pattern pattern.now value.now (P.cells variables.now) self.old.bindings
            ≡ cond yes (Some self.new.bindings) None) }
        ensures no { IfOk result (λ yes. yes ≡ false → self.new ≡ self.old) }
        ensures err { OnErr result (self.new ≡ self.old) }
        ensures later { Before (mark_of self.old) (mark_of self.new) }
        ensures stays { Stays (mark_of self.old) self.old self.new }
    {
        let mark = self.mark();
        match self.match_part(alloc, variables, pattern, value) {
            Ok(true) => Ok(true),
            Ok(false) => {
                self.back_to(mark);
                Ok(false)
            }
            Err(refused) => {
                self.back_to(mark);
                Err(refused)
            }
        }
    }

    /// `matches` for the tree of a part. If the pattern is a head over parts, the tree has to have
    /// that head, which isn't compared again.
    #[inline(always)]
    pub fn matches_below<P: VariableCells>(
        &mut self,
        alloc: Global,
        variables: &P,
        pattern: &ResolvedPattern,
        part: &Part<'t>,
    ) -> Result<bool, NoMemory>
        requires { SharesHead pattern.now (standing_tree part.now) }
        ensures ok { IfOk result (λ yes. match_pattern pattern.now (standing_tree part.now) (P.cells variables.now) self.old.bindings
            ≡ cond yes (Some self.new.bindings) None) }
        ensures no { IfOk result (λ yes. yes ≡ false → self.new ≡ self.old) }
        ensures err { OnErr result (self.new ≡ self.old) }
        ensures later { Before (mark_of self.old) (mark_of self.new) }
        ensures stays { Stays (mark_of self.old) self.old self.new }
    {
        let mark = self.mark();
        match self.match_below(alloc, variables, pattern, part) {
            Ok(true) => Ok(true),
            Ok(false) => {
                self.back_to(mark);
                Ok(false)
            }
            Err(refused) => {
                self.back_to(mark);
                Err(refused)
            }
        }
    }

    // The same, but without a match some variables may have been bound.
    #[inline(never)]
    fn match_below<P: VariableCells>(
        &mut self,
        alloc: Global,
        variables: &P,
        pattern: &ResolvedPattern,
        part: &Part<'t>,
    ) -> Result<bool, NoMemory>
        requires { SharesHead pattern.now (standing_tree part.now) }
        ensures ok { IfOk result (λ yes. match_pattern pattern.now (standing_tree part.now) (P.cells variables.now) self.old.bindings
            ≡ cond yes (Some self.new.bindings) None) }
        ensures grows { Grows self.old self.new }
    {
        if let ResolvedPatternForm::Compound(_head, parts) = pattern.form() {
            if part.child_count() != parts.len() {
                return Ok(false);
            }
            return self.match_parts(alloc, variables, parts, part);
        }
        let value = part.value()?;
        let matched = self.match_part(alloc, variables, pattern, &value);
        drop(value);
        matched
    }

    // Matches the first children of a part's tree, each with a pattern.
    #[inline(always)]
    fn match_parts<P: VariableCells>(
        &mut self,
        alloc: Global,
        variables: &P,
        patterns: &[ResolvedPattern],
        part: &Part<'t>,
    ) -> Result<bool, NoMemory>
        ensures ok { IfOk result (λ yes. match_patterns (resolved_patterns_of patterns.now)
            (take (length patterns.now) (children (standing_tree part.now))) (P.cells variables.now) self.old.bindings
            ≡ cond yes (Some self.new.bindings) None) }
        ensures grows { Grows self.old self.new }
    {
        for i in 0..patterns.len() {
            let Some(child) = part.child_tree(i)? else {
                return Ok(false);
            };
            if !self.match_child(alloc, variables, &patterns[i], child)? {
                return Ok(false);
            }
        }
        Ok(true)
    }

    // Matches the value. Without a match some variables may have been bound.
    #[cycle(match_part)]
    fn match_part<P: VariableCells>(
        &mut self,
        alloc: Global,
        variables: &P,
        pattern: &ResolvedPattern,
        value: &Value<'t>,
    ) -> Result<bool, NoMemory>
        ensures ok { IfOk result (λ yes. match_pattern pattern.now value.now (P.cells variables.now) self.old.bindings
            ≡ cond yes (Some self.new.bindings) None) }
        ensures grows { Grows self.old self.new }
    {
        match pattern.form() {
            ResolvedPatternForm::Wildcard => Ok(true),
            ResolvedPatternForm::Variable(x) => self.bind(variables, *x, value),
            ResolvedPatternForm::At(x, inner) => {
                if !self.bind(variables, *x, value)? {
                    return Ok(false);
                }
                self.match_part(alloc, variables, inner, value)
            }
            ResolvedPatternForm::Integer(number) => Ok(is_integer(*number, value)),
            ResolvedPatternForm::Compound(head, parts) => {
                if !head.is_head_of(value.kind()) {
                    return Ok(false);
                }
                if value.child_count() != parts.len() {
                    return Ok(false);
                }
                self.match_children(alloc, variables, parts, value)
            }
            ResolvedPatternForm::WithTail(parts, tail) => {
                if !is_list(value) {
                    return Ok(false);
                }
                if value.child_count() < parts.len() {
                    return Ok(false);
                }
                if !self.match_children(alloc, variables, parts, value)? {
                    return Ok(false);
                }
                self.match_rest(alloc, variables, tail, value, parts.len())
            }
            ResolvedPatternForm::Annotated(inner, annotations) => {
                if !self.match_bare(alloc, variables, inner, value)? {
                    return Ok(false);
                }
                self.match_annotations(alloc, variables, annotations, value)
            }
        }
    }

    // Matches the value without its annotations.
    #[cycle(match_part)]
    #[inline(always)]
    fn match_bare<P: VariableCells>(
        &mut self,
        alloc: Global,
        variables: &P,
        pattern: &ResolvedPattern,
        value: &Value<'t>,
    ) -> Result<bool, NoMemory>
        ensures ok { IfOk result (λ yes. match_pattern pattern.now (bare value.now) (P.cells variables.now) self.old.bindings
            ≡ cond yes (Some self.new.bindings) None) }
        ensures grows { Grows self.old self.new }
    {
        let bare = value.bare()?;
        let matched = self.match_part(alloc, variables, pattern, &bare);
        drop(bare);
        matched
    }

    // Matches the list of the children after the first ones, without annotations.
    #[cycle(match_part)]
    fn match_rest<P: VariableCells>(
        &mut self,
        alloc: Global,
        variables: &P,
        pattern: &ResolvedPattern,
        value: &Value<'t>,
        skipped: usize,
    ) -> Result<bool, NoMemory>
        requires { skipped ≤ length (children value.now) }
        ensures ok { IfOk result (λ yes. match_pattern pattern.now (list_term (drop skipped (children value.now)))
            (P.cells variables.now) self.old.bindings ≡ cond yes (Some self.new.bindings) None) }
        ensures grows { Grows self.old self.new }
    {
        let rest = value.rest(alloc, skipped)?;
        let matched = self.match_part(alloc, variables, pattern, &rest);
        drop(rest);
        matched
    }

    // Matches the first children, each with a pattern.
    #[cycle(match_part)]
    #[inline(always)]
    fn match_children<P: VariableCells>(
        &mut self,
        alloc: Global,
        variables: &P,
        patterns: &[ResolvedPattern],
        value: &Value<'t>,
    ) -> Result<bool, NoMemory>
        ensures ok { IfOk result (λ yes. match_patterns (resolved_patterns_of patterns.now) (take (length patterns.now) (children value.now))
            (P.cells variables.now) self.old.bindings ≡ cond yes (Some self.new.bindings) None) }
        ensures grows { Grows self.old self.new }
    {
        for i in 0..patterns.len() {
            let Some(child) = value.child(i)? else {
                return Ok(false);
            };
            if !self.match_child(alloc, variables, &patterns[i], child)? {
                return Ok(false);
            }
        }
        Ok(true)
    }

    // `match_part`, consuming the value.
    #[cycle(match_part)]
    #[inline(always)]
    fn match_child<P: VariableCells>(
        &mut self,
        alloc: Global,
        variables: &P,
        pattern: &ResolvedPattern,
        value: Value<'t>,
    ) -> Result<bool, NoMemory>
        ensures ok { IfOk result (λ yes. match_pattern pattern.now value.entry (P.cells variables.now) self.old.bindings
            ≡ cond yes (Some self.new.bindings) None) }
        ensures grows { Grows self.old self.new }
    {
        match pattern.form() {
            ResolvedPatternForm::Wildcard => {
                drop(value);
                Ok(true)
            }
            ResolvedPatternForm::Variable(x) => self.bind_owned(variables, *x, value),
            _ => {
                let matched = self.match_part(alloc, variables, pattern, &value);
                drop(value);
                matched
            }
        }
    }

    // Matches all annotations, each with a pattern.
    #[cycle(match_part)]
    fn match_annotations<P: VariableCells>(
        &mut self,
        alloc: Global,
        variables: &P,
        patterns: &[ResolvedPattern],
        value: &Value<'t>,
    ) -> Result<bool, NoMemory>
        ensures ok { IfOk result (λ yes. match_patterns (resolved_patterns_of patterns.now) (annotations value.now)
            (P.cells variables.now) self.old.bindings ≡ cond yes (Some self.new.bindings) None) }
        ensures grows { Grows self.old self.new }
    {
        if value.annotation_count() != patterns.len() {
            return Ok(false);
        }
        let annotations = value.share_annotations(alloc)?;
        for i in 0..patterns.len() {
            if !self.match_part(alloc, variables, &patterns[i], &annotations[i])? {
                return Ok(false);
            }
        }
        Ok(true)
    }

    // Binds a variable to the term, or compares the term it is bound to.
    #[inline(always)]
    fn bind<P: VariableCells>(
        &mut self,
        variables: &P,
        variable: usize,
        value: &Value<'t>,
    ) -> Result<bool, NoMemory>
        ensures ok { IfOk result (λ yes. bind (P.cells variables.now) variable value.now self.old.bindings
            ≡ cond yes (Some self.new.bindings) None) }
        ensures grows { Grows self.old self.new }
    {
        match self.look(variables, variable, value) {
            Said::Same(same) => Ok(same),
            Said::Empty(i) => {
                self.fill(i, value.try_clone()?)?;
                Ok(true)
            }
        }
    }

    // `bind`, consuming the value.
    #[inline(always)]
    fn bind_owned<P: VariableCells>(
        &mut self,
        variables: &P,
        variable: usize,
        value: Value<'t>,
    ) -> Result<bool, NoMemory>
        ensures ok { IfOk result (λ yes. bind (P.cells variables.now) variable value.entry self.old.bindings
            ≡ cond yes (Some self.new.bindings) None) }
        ensures grows { Grows self.old self.new }
    {
        match self.look(variables, variable, &value) {
            Said::Same(same) => {
                drop(value);
                Ok(same)
            }
            Said::Empty(i) => {
                self.fill(i, value)?;
                Ok(true)
            }
        }
    }

    // Compares the cell of a variable with a term.
    #[inline(always)]
    fn look<P: VariableCells>(&self, variables: &P, variable: usize, value: &Value<'t>) -> Said
        ensures { Says (P.cells variables.now) variable value.now self.now.bindings result }
    {
        let Some(i) = variables.cell(variable) else {
            return Said::Same(false);
        };
        if i >= self.cells.len() {
            return Said::Same(false);
        }
        match self.get(i) {
            None => Said::Empty(i),
            Some(bound) => Said::Same(bound.equals(value)),
        }
    }
}

// Whether the value is this integer, whatever its annotations.
fn is_integer(number: i64, value: &Value<'_>) -> bool
    ensures { result ≡ is_integer number value.now }
{
    match value.kind() {
        Kind::Integer(same) => same == number,
        _ => false,
    }
}

/// Whether the value is a list, whatever its annotations.
pub fn is_list(value: &Value<'_>) -> bool
    ensures { elements value.now ≡ cond result (Some (children value.now)) None }
{
    match value.kind() {
        Kind::List => true,
        _ => false,
    }
}
