//! Before an instance is built: whether there is one, and measuring the terms of its variables.

ghost use Rattle.std.specs.Prelude.{◌≡◌, is_some, option_and_then};
ghost use Rattle.strategy_syntax.specs.Resolved.{resolved_patterns_of};
ghost use Rattle.strategy_meaning.specs.Matching.{build_pattern, build_patterns, elements};

use crate::cells::Cells;
use crate::matching::is_list;
use crate::variables::VariableCells;
use strategy_syntax::{Head, ResolvedPattern, ResolvedPatternForm};

impl<'t> Cells<'t> {
    // Whether there is an instance.
    #[cycle(has_instance)]
    pub(crate) fn has_instance<P: VariableCells>(
        &self,
        variables: &P,
        pattern: &ResolvedPattern,
    ) -> bool
        ensures { result ≡ is_some (build_pattern pattern.now (P.cells variables.now) self.now.bindings) }
    {
        match pattern.form() {
            ResolvedPatternForm::Wildcard => false,
            ResolvedPatternForm::Variable(x) => self.bound(variables, *x).is_some(),
            ResolvedPatternForm::At(_, _) => false,
            ResolvedPatternForm::Integer(_) => true,
            ResolvedPatternForm::Compound(_, parts) => self.have_instances(variables, parts),
            ResolvedPatternForm::WithTail(parts, tail) => {
                self.have_instances(variables, parts) && self.has_list(variables, tail)
            }
            ResolvedPatternForm::Annotated(inner, annotations) => {
                self.has_instance(variables, inner) && self.have_instances(variables, annotations)
            }
        }
    }

    // Whether there is an instance that is a list.
    #[cycle(has_instance)]
    fn has_list<P: VariableCells>(&self, variables: &P, pattern: &ResolvedPattern) -> bool
        ensures { result ≡ is_some (option_and_then elements (build_pattern pattern.now (P.cells variables.now) self.now.bindings)) }
    {
        match pattern.form() {
            ResolvedPatternForm::Wildcard => false,
            ResolvedPatternForm::Variable(x) => match self.bound(variables, *x) {
                None => false,
                Some(value) => is_list(value),
            },
            ResolvedPatternForm::At(_, _) => false,
            ResolvedPatternForm::Integer(_) => false,
            ResolvedPatternForm::Compound(head, parts) => {
                matches!(head, Head::List) && self.have_instances(variables, parts)
            }
            ResolvedPatternForm::WithTail(parts, tail) => {
                self.have_instances(variables, parts) && self.has_list(variables, tail)
            }
            ResolvedPatternForm::Annotated(inner, annotations) => {
                self.has_list(variables, inner) && self.have_instances(variables, annotations)
            }
        }
    }

    // Whether each of these patterns has an instance.
    #[cycle(has_instance)]
    fn have_instances<P: VariableCells>(&self, variables: &P, parts: &[ResolvedPattern]) -> bool
        ensures { result ≡ is_some (build_patterns (resolved_patterns_of parts.now) (P.cells variables.now) self.now.bindings) }
    {
        for part in parts {
            if !self.has_instance(variables, part) {
                return false;
            }
        }
        true
    }

    // Measures the terms of the pattern's variables that have at most `limit` nodes.
    #[cycle(measure)]
    pub(crate) fn measure<P: VariableCells>(
        &mut self,
        variables: &P,
        pattern: &ResolvedPattern,
        limit: u64,
    )
        ensures { self.new ≡ self.old }
    {
        match pattern.form() {
            ResolvedPatternForm::Wildcard => {}
            ResolvedPatternForm::Variable(x) => self.measure_variable(variables, *x, limit),
            ResolvedPatternForm::At(_, _) => {}
            ResolvedPatternForm::Integer(_) => {}
            ResolvedPatternForm::Compound(_, parts) => self.measure_all(variables, parts, limit),
            ResolvedPatternForm::WithTail(parts, tail) => {
                self.measure_all(variables, parts, limit);
                self.measure(variables, tail, limit);
            }
            ResolvedPatternForm::Annotated(inner, annotations) => {
                self.measure(variables, inner, limit);
                self.measure_all(variables, annotations, limit);
            }
        }
    }

    #[cycle(measure)]
    fn measure_all<P: VariableCells>(
        &mut self,
        variables: &P,
        parts: &[ResolvedPattern],
        limit: u64,
    )
        ensures { self.new ≡ self.old }
    {
        for part in parts {
            self.measure(variables, part, limit);
        }
    }

    fn measure_variable<P: VariableCells>(&mut self, variables: &P, variable: usize, limit: u64)
        ensures { self.new ≡ self.old }
    {
        let Some(i) = variables.cell(variable) else {
            return;
        };
        if i >= self.cells.len() {
            return;
        }
        if let Some(value) = &mut self.cells[i] {
            let _small = value.measure(limit);
        }
    }
}
