//! Failures that the root of a term shows before any frame is pushed.

ghost use Rattle.std.specs.Prelude.{◌≡◌, ◌<◌, cond, Some, None, IfSome};
ghost use Rattle.term_core.specs.Tree.{Tree, children, annotations};
ghost use Rattle.term_core.specs.Kind.{made_of};
ghost use Rattle.std.specs.Bool.{OnTrue};
ghost use Rattle.term_changes.specs.Standing.{standing_tree};
ghost use Rattle.strategy_machine.specs.Table.{scopes as scopes_of};
ghost use Rattle.strategy_syntax.specs.Heads.{head_of};
ghost use Rattle.strategy_meaning.specs.Matching.{is_integer as is_this_integer, is_headed as has_head, elements};
ghost use Rattle.strategy_syntax.specs.Resolved.{compound, resolved_patterns_of};
ghost use Rattle.strategy_machine.specs.inside.Missing.{Misses, FailsAhead, Shows};

use crate::alternatives::after_rules;
use crate::congruence::{is_list_from, is_over};
use crate::scopes::Scopes;
use strategy_syntax::{
    Head, Resolved, ResolvedForm as Form, ResolvedPattern, ResolvedPatternForm, ResolvedStrategy,
    left_side,
};
use term_core::Kind;
use term_values::Part;

/// How many nested or successive forms are examined.
pub(crate) const MOST: usize = 16;

/// If the root alone shows that `strategy` fails on the part, the steps left afterwards. A pattern
/// with another head shows it, for example, below calls, choices and new variables. Names are
/// looked up in the scope, if one is given.
pub(crate) fn left_by_failure<'t>(
    definitions: &'t [Resolved],
    scopes: &Scopes<'t>,
    strategy: &'t ResolvedStrategy,
    scope: Option<usize>,
    part: &Part<'t>,
    steps: u64,
    most: usize,
) -> Option<u64>
    ensures less { IfSome result (λ left. left < steps) }
    ensures fails { IfSome result (λ left. FailsAhead definitions.entry.now (scopes_of scopes.now) scope strategy.entry.now steps (standing_tree part.now) left) }
{
    let mut strategy = strategy;
    let mut scope = scope;
    let mut left = steps;
    let mut most = most;
    'inward: loop {
        if most == 0 || left == 0 {
            return None;
        }
        most -= 1;
        left -= 1;
        match strategy.form() {
            Form::Fail => return Some(left),
            Form::Match(pattern) => {
                if !misses(pattern, part) {
                    return None;
                }
                return Some(left);
            }
            Form::Congruence(head, strategies) => {
                if is_over(head, strategies.len(), part) {
                    return None;
                }
                return Some(left);
            }
            Form::TailCongruence(strategies, _) => {
                if is_list_from(strategies.len(), part) {
                    return None;
                }
                return Some(left);
            }
            Form::Seq(parts) => strategy = &parts.0,
            Form::Guard(parts) => match left_side(&parts.0) {
                Some(pattern) => {
                    let kind = part.kind();
                    if left < 3 || !rules_out(pattern, kind) {
                        return None;
                    }
                    let passed = after_rules(&parts.2, part, left - 3);
                    strategy = passed.0;
                    left = passed.1;
                    // the choice ends with a rule
                    if let Some(last) = left_side(strategy) {
                        if left < 3 || !rules_out(last, kind) {
                            return None;
                        }
                        return Some(left - 3);
                    }
                }
                None => {
                    left = left_by_failure(definitions, scopes, &parts.0, scope, part, left, most)?;
                    strategy = &parts.2;
                }
            },
            Form::Test(inner) => strategy = inner,
            Form::Scope(_, inner) => strategy = inner,
            Form::Param(name) => {
                let Some(inside) = scope else {
                    return None;
                };
                let Some(known) = scopes.named(inside, *name) else {
                    return None;
                };
                strategy = known.strategy;
                scope = Some(known.written_in);
            }
            Form::Call(definition, _, patterns) => {
                if patterns.len() != 0 {
                    return None;
                }
                let Some(body) = definitions.get(*definition) else {
                    return None;
                };
                strategy = &body.strategy;
                scope = None;
            }
            _ => return None,
        }
    }
}

/// Whether the root's kind shows that the pattern can't match.
#[inline(always)]
pub(crate) fn misses(pattern: &ResolvedPattern, part: &Part<'_>) -> bool
    ensures { OnTrue result (Misses pattern.now (standing_tree part.now)) }
{
    rules_out(pattern, part.kind())
}

/// What the root shows of a match.
#[derive(Clone, Copy)]
pub(crate) enum RootMatch {
    /// The pattern doesn't match.
    Misses,
    /// It matches, and binds nothing.
    Matches,
    /// The rest decides.
    Open,
}

/// What the root of a part shows of a match of this pattern.
#[inline(always)]
pub(crate) fn glance(pattern: &ResolvedPattern, part: &Part<'_>) -> RootMatch
    ensures { Shows result pattern.now (standing_tree part.now) }
{
    match pattern.form() {
        ResolvedPatternForm::Compound(head, parts) => glance_at(head, parts, part),
        ResolvedPatternForm::Integer(number) => {
            if is_integer(*number, part.kind()) {
                RootMatch::Open
            } else {
                RootMatch::Misses
            }
        }
        ResolvedPatternForm::WithTail(_, _) => {
            if is_list(part) {
                RootMatch::Open
            } else {
                RootMatch::Misses
            }
        }
        ResolvedPatternForm::Wildcard => RootMatch::Open,
        ResolvedPatternForm::Variable(_) => RootMatch::Open,
        ResolvedPatternForm::At(_, _) => RootMatch::Open,
        ResolvedPatternForm::Annotated(_, _) => RootMatch::Open,
    }
}

// `glance` for a pattern with this head over these parts.
#[inline(always)]
fn glance_at(head: &Head, parts: &[ResolvedPattern], part: &Part<'_>) -> RootMatch
    ensures { Shows result (compound (head_of head.now) (resolved_patterns_of parts.now)) (standing_tree part.now) }
{
    if !is_headed(head, part.kind()) {
        return RootMatch::Misses;
    }
    if parts.len() != 0 {
        return RootMatch::Open;
    }
    if part.child_count() != 0 {
        return RootMatch::Open;
    }
    RootMatch::Matches
}

/// Whether the root of the pattern shows that no term of this kind matches it.
#[inline(always)]
pub(crate) fn rules_out(pattern: &ResolvedPattern, kind: Kind<'_>) -> bool
    ensures { (t : Tree) → t ≡ made_of kind.entry (children t) (annotations t) → OnTrue result (Misses pattern.now t) }
{
    match pattern.form() {
        ResolvedPatternForm::Integer(number) => !is_integer(*number, kind),
        ResolvedPatternForm::Compound(head, _) => !is_headed(head, kind),
        ResolvedPatternForm::WithTail(_, _) => !is_list_kind(kind),
        _ => false,
    }
}

// Whether a term of this kind is this integer, whatever its annotations.
fn is_integer(number: i64, kind: Kind<'_>) -> bool
    ensures { (t : Tree) → t ≡ made_of kind.entry (children t) (annotations t) → result ≡ is_this_integer number t }
{
    match kind {
        Kind::Integer(same) => same == number,
        _ => false,
    }
}

// Whether a term of this kind has this head.
fn is_headed(head: &Head, kind: Kind<'_>) -> bool
    ensures { (t : Tree) → t ≡ made_of kind.entry (children t) (annotations t) → result ≡ has_head (head_of head.now) t }
{
    head.is_head_of(kind)
}

fn is_list_kind(kind: Kind<'_>) -> bool
    ensures { (t : Tree) → t ≡ made_of kind.entry (children t) (annotations t) → elements t ≡ cond result (Some (children t)) None }
{
    match kind {
        Kind::List => true,
        _ => false,
    }
}

pub(crate) fn is_list(part: &Part<'_>) -> bool
    ensures { elements (standing_tree part.now) ≡ cond result (Some (children (standing_tree part.now))) None }
{
    is_list_kind(part.kind())
}
