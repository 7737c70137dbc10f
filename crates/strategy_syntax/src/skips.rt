//! How many of the first alternatives of a choice can't match a term, by the class of its root and of
//! one child.

ghost use Rattle.std.specs.Prelude.{◌≡◌, ◌≢◌, ◌+◌, ◌⊎◌, ℕ, get_or, Some, IfSome};
ghost use Rattle.std.specs.declared.option.Option.{Option as OptionOf};
ghost use Rattle.strategy_syntax.specs.Resolved.{ResolvedStrategy as Resolving, scope, seq, matches, guard};
ghost use Rattle.strategy_syntax.specs.ResolvedView.{resolved_of};
ghost use Rattle.strategy_syntax.specs.Apart.{AreApart, pattern_class};
ghost use Rattle.strategy_syntax.specs.inside.Skipping.{count_of, Skipping};

use crate::classes::{CLASSES, class_of_pattern, is_apart, telling_child};
use crate::{ResolvedForm, ResolvedPattern, ResolvedStrategy};

/// What tells the first alternatives of a choice apart, of which the first is a rule.
#[derive(Clone, Copy)]
pub(crate) struct Skips {
    /// The class of the rule's root.
    root: u8,
    /// The child that is asked of terms with such a root. If there is none, all terms are asked for
    /// their root alone.
    child: Option<usize>,
    /// How many alternatives are skipped for a term with another root, where the child is asked.
    others: u8,
    /// How many are skipped for each class of the child or the root that is asked.
    counts: [u8; CLASSES],
}

impl Skips {
    /// The child to ask of terms whose root has this class.
    #[inline(always)]
    pub(crate) fn child_to_ask(&self, root: u8) -> Option<usize> {
        if root == self.root { self.child } else { None }
    }

    /// How many alternatives are skipped for a term of these classes.
    #[inline(always)]
    pub(crate) fn count(&self, root: u8, child: Option<(usize, u8)>) -> u8
        ensures { result ≡ count_of self.now root child }
    {
        let Some(asked) = self.child else {
            return self.at(root);
        };
        if root != self.root {
            return self.others;
        }
        match child {
            Some((i, class)) => { if i == asked { self.at(class) } else { 0 } }
            None => 0,
        }
    }

    #[inline(always)]
    fn at(&self, class: u8) -> u8
        ensures { result ≡ get_or self.now.counts class 0 }
    {
        match self.counts.get(class as usize) {
            Some(count) => *count,
            None => 0,
        }
    }

    /// How many alternatives are skipped for every term whose root has another class than this one.
    pub(crate) fn count_for_others(&self, root: u8) -> u8
        ensures { (r : ℕ) (c : OptionOf (ℕ × ℕ)) → r ≢ root → (result ≡ count_of self.now r c) ⊎ (result ≡ 0) }
    {
        if self.child.is_some() && self.root == root {
            self.others
        } else {
            0
        }
    }
}

/// The left side, if the strategy is a rule with variables of its own, or any match in their scope
/// followed by a strategy.
#[inline(always)]
pub fn left_side(strategy: &ResolvedStrategy) -> Option<&ResolvedPattern>
    ensures { IfSome result (λ pattern. (n : ℕ) × (then : Resolving)
        × (strategy.now ≡ scope n (seq (matches pattern.now) then))) }
{
    let ResolvedForm::Scope(_, inner) = strategy.form() else {
        return None;
    };
    let ResolvedForm::Seq(parts) = inner.form() else {
        return None;
    };
    match parts.0.form() {
        ResolvedForm::Match(pattern) => Some(pattern),
        _ => None,
    }
}

/// The skips of a form, if it is a choice whose first two alternatives are rules with a root each.
pub(crate) fn skips_in(form: &ResolvedForm) -> Option<Skips>
    ensures { IfSome result (λ k. Skipping k (resolved_of form.now)) }
{
    let ResolvedForm::Guard(parts) = form else {
        return None;
    };
    skips_of(&parts.0, &parts.2)
}

// The skips of a choice between a strategy and others.
fn skips_of(first: &ResolvedStrategy, other: &ResolvedStrategy) -> Option<Skips>
    ensures { IfSome result (λ k. (second : Resolving) → Skipping k (guard first.now second other.now)) }
{
    let pattern = left_side(first)?;
    let root = class_of_pattern(pattern)?;
    let ResolvedForm::Guard(parts) = other.form() else {
        return None;
    };
    let next = left_side(&parts.0)?;
    if class_of_pattern(next)? != root {
        return Some(told_by_root(pattern, root, other));
    }
    // without a child that tells them apart, a table would only cost time
    let i = telling_child(pattern, next, other.child_to_ask(root))?;
    Some(told_by_child(pattern, root, i, other))
}

// The skips by roots alone.
fn told_by_root(pattern: &ResolvedPattern, root: u8, other: &ResolvedStrategy) -> Skips
    ensures { (n : ℕ) (then second : Resolving) → Skipping result (guard (scope n (seq (matches pattern.now) then)) second other.now) }
{
    let mut counts = [0; CLASSES];
    for i in 0..CLASSES {
        counts[i] = past(pattern, i as u8, None, other);
    }
    Skips {
        root,
        child: None,
        others: 0,
        counts,
    }
}

// The skips by the roots of a child, for terms with this root.
fn told_by_child(
    pattern: &ResolvedPattern,
    root: u8,
    child: usize,
    other: &ResolvedStrategy,
) -> Skips
    requires { pattern_class pattern.now ≡ Some root }
    ensures { (n : ℕ) (then second : Resolving) → Skipping result (guard (scope n (seq (matches pattern.now) then)) second other.now) }
{
    let mut counts = [0; CLASSES];
    for i in 0..CLASSES {
        counts[i] = past(pattern, root, Some((child, i as u8)), other);
    }
    Skips {
        root,
        child: Some(child),
        others: one_more(other.skipped_for_others(root)),
        counts,
    }
}

// How many alternatives terms of these classes can't match, if the first one has this left side.
fn past(
    pattern: &ResolvedPattern,
    root: u8,
    child: Option<(usize, u8)>,
    other: &ResolvedStrategy,
) -> u8
    ensures { (n : ℕ) (then second : Resolving) → AreApart result (guard (scope n (seq (matches pattern.now) then)) second other.now) root child }
{
    if !is_apart(pattern, root, child) {
        return 0;
    }
    one_more(other.skipped(root, child))
}

// One more than these, or the first one alone if there are too many to count.
fn one_more(count: u8) -> u8
    ensures { (result ≡ count + 1) ⊎ (result ≡ 1) }
{
    match count.checked_add(1) {
        Some(more) => more,
        None => 1,
    }
}
