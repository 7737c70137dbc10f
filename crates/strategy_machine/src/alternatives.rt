//! Alternatives of a choice that are rules for other terms.

ghost use Rattle.std.specs.Prelude.{◌≡◌, ◌≤◌, ◌+◌, IfSome};
ghost use Rattle.term_core.specs.Tree.{Tree};
ghost use Rattle.term_changes.specs.Standing.{standing_tree};
ghost use Rattle.strategy_machine.specs.inside.Missing.{Passes, SkipsOver};

use crate::frames::drop_value;
use crate::heads::rules_out;
use strategy_syntax::{ResolvedForm as Form, ResolvedStrategy, class_of, left_side};
use term_values::Part;

/// What remains of a choice, with the steps left, after the first alternatives that are rules for
/// another root. Each of them pays its four steps.
#[inline(always)]
pub(crate) fn after_rules<'t>(
    strategy: &'t ResolvedStrategy,
    part: &Part<'t>,
    steps: u64,
) -> (&'t ResolvedStrategy, u64)
    ensures same { Passes strategy.entry.now steps (standing_tree part.now) result.0.now result.1 }
    ensures less { result.1 ≤ steps }
{
    match strategy.form() {
        Form::Guard(_) => pass_rules(strategy, part, steps),
        _ => (strategy, steps),
    }
}

// What remains of a choice after such alternatives, which are passed one by one or, where the
// choice knows them, many at once.
#[inline(never)]
fn pass_rules<'t>(
    strategy: &'t ResolvedStrategy,
    part: &Part<'t>,
    steps: u64,
) -> (&'t ResolvedStrategy, u64)
    ensures same { Passes strategy.entry.now steps (standing_tree part.now) result.0.now result.1 }
    ensures less { result.1 ≤ steps }
{
    let kind = part.kind();
    let mut strategy = strategy;
    let mut left = steps;
    'rules: while left >= 4 {
        let Form::Guard(parts) = strategy.form() else {
            return (strategy, left);
        };
        let mut count = skipped(strategy, part);
        if count == 0 {
            let Some(pattern) = left_side(&parts.0) else {
                return (strategy, left);
            };
            if !rules_out(pattern, kind) {
                return (strategy, left);
            }
            count = 1;
        }
        let passed = pass_first(&parts.2, count - 1, left - 4);
        strategy = passed.0;
        left = passed.1;
    }
    (strategy, left)
}

/// What remains of a choice whose own step is paid, with the steps left, if the choice knows that
/// its first alternative can't match.
#[inline(never)]
pub(crate) fn after_first<'t>(
    strategy: &'t ResolvedStrategy,
    part: &Part<'t>,
    steps: u64,
) -> Option<(&'t ResolvedStrategy, u64)>
    ensures same { IfSome result (λ r. Passes strategy.entry.now (steps + 1) (standing_tree part.now) r.0.now r.1) }
    ensures less { IfSome result (λ r. r.1 ≤ steps) }
{
    if steps < 3 {
        return None;
    }
    let Form::Guard(parts) = strategy.form() else {
        return None;
    };
    let count = skipped(strategy, part);
    if count == 0 {
        return None;
    }
    let passed = pass_first(&parts.2, count - 1, steps - 3);
    Some(after_rules(passed.0, part, passed.1))
}

// How many of the first alternatives the choice knows to be rules that can't match the part.
#[inline(always)]
fn skipped<'t>(strategy: &'t ResolvedStrategy, part: &Part<'t>) -> u8
    ensures { SkipsOver result strategy.entry.now (standing_tree part.now) }
{
    if !strategy.is_indexed() {
        return 0;
    }
    asked(strategy, part)
}

#[inline(never)]
fn asked<'t>(strategy: &'t ResolvedStrategy, part: &Part<'t>) -> u8
    ensures { SkipsOver result strategy.entry.now (standing_tree part.now) }
{
    let root = class_of(part.kind());
    let Some(i) = strategy.child_to_ask(root) else {
        return strategy.skipped(root, None);
    };
    let Ok(Some(child)) = part.child_tree(i) else {
        return 0;
    };
    let class = class_of(child.kind());
    drop_value(child);
    strategy.skipped(root, Some((i, class)))
}

// What remains after the first `count` alternatives, or as many as can be paid.
#[inline(always)]
fn pass_first<'t>(
    strategy: &'t ResolvedStrategy,
    count: u8,
    steps: u64,
) -> (&'t ResolvedStrategy, u64)
    ensures same { (t : Tree) → SkipsOver count strategy.entry.now t → Passes strategy.entry.now steps t result.0.now result.1 }
    ensures less { result.1 ≤ steps }
{
    let mut strategy = strategy;
    let mut left = steps;
    let mut rest = count;
    'first: while rest > 0 && left >= 4 {
        let Form::Guard(parts) = strategy.form() else {
            return (strategy, left);
        };
        rest -= 1;
        left -= 4;
        strategy = &parts.2;
    }
    (strategy, left)
}
