//! Resolving patterns: numbers for variables.
#![tactic(auto, using(crate::proofs::ResolvedPatternLemmas::resolved_pattern_rules))]

ghost use Rattle.std.specs.Prelude.{◌≡◌, IfOk};
ghost use Rattle.strategy_syntax.specs.Syntax.{patterns_of};
ghost use Rattle.strategy_syntax.specs.Resolved.{resolved_patterns_of};
ghost use Rattle.strategy_check.specs.Resolving.{resolved_pattern, resolved_patterns};

use crate::scope::Scope;
use std::alloc::Global;
use strategy_syntax::{Pattern, PatternForm, ResolvedPattern, ResolvedPatternForm};
use term_core::NoMemory;

/// Resolves the pattern.
#[cycle(pattern)]
pub fn resolve_pattern(
    alloc: Global,
    scope: &Scope,
    pattern: &Pattern,
) -> Result<ResolvedPattern, NoMemory>
    ensures { IfOk result (λ resolved. resolved ≡ resolved_pattern scope.now.variables pattern.now) }
{
    let form = match pattern.form() {
        PatternForm::Wildcard => ResolvedPatternForm::Wildcard,
        PatternForm::Integer(number) => ResolvedPatternForm::Integer(*number),
        PatternForm::Variable(name) => ResolvedPatternForm::Variable(scope.variable(name)),
        PatternForm::At(name, inner) => {
            let number = scope.variable(name);
            let inner = resolve_pattern(alloc, scope, inner)?;
            ResolvedPatternForm::At(number, Box::new(alloc, inner)?)
        }
        PatternForm::Compound(head, patterns) => {
            let resolved = resolve_patterns(alloc, scope, patterns)?;
            ResolvedPatternForm::Compound(head.try_clone()?, resolved)
        }
        PatternForm::WithTail(patterns, tail) => {
            let resolved = resolve_patterns(alloc, scope, patterns)?;
            let tail = resolve_pattern(alloc, scope, tail)?;
            ResolvedPatternForm::WithTail(resolved, Box::new(alloc, tail)?)
        }
        PatternForm::Annotated(base, annotations) => {
            let base = resolve_pattern(alloc, scope, base)?;
            let annotations = resolve_patterns(alloc, scope, annotations)?;
            ResolvedPatternForm::Annotated(Box::new(alloc, base)?, annotations)
        }
    };
    Ok(ResolvedPattern::new(form))
}

/// Resolves the patterns.
#[cycle(pattern)]
pub fn resolve_patterns(
    alloc: Global,
    scope: &Scope,
    patterns: &[Pattern],
) -> Result<Vec<ResolvedPattern>, NoMemory>
    ensures { IfOk result (λ resolved. resolved_patterns_of resolved.items
        ≡ resolved_patterns scope.now.variables (patterns_of patterns.now)) }
{
    let mut resolved = Vec::with_capacity(alloc, patterns.len())?;
    for pattern in patterns {
        resolved.push(resolve_pattern(alloc, scope, pattern)?)?;
    }
    Ok(resolved)
}
