//! Short texts of patterns and strategies.

ghost use Rattle.std.specs.Prelude.{◌≡◌};

use crate::diagnostic::Diagnostic;
use strategy_syntax::{Head, Pattern, PatternForm, Strategy, StrategyForm};

/// How deep patterns and strategies are followed. A text has no more tokens.
pub const DEEPEST: usize = 4_000;

/// Appends the text of a pattern.
#[cycle(pattern)]
pub fn add_pattern(text: &mut Diagnostic, pattern: &Pattern, deep: usize)
    ensures { (text.new.severity ≡ text.old.severity) × (text.new.code ≡ text.old.code) }
{
    let Some(deep) = deep.checked_sub(1) else {
        return;
    };
    match pattern.form() {
        PatternForm::Wildcard => text.words("_"),
        PatternForm::Variable(name) => text.name(name),
        PatternForm::At(name, inner) => {
            text.name(name);
            text.words("@");
            add_pattern(text, inner, deep);
        }
        PatternForm::Integer(value) => text.integer(*value),
        PatternForm::Compound(head, parts) => {
            add_opening(text, head, parts.len());
            add_patterns(text, parts, deep);
            text.words(closing(head, parts.len()));
        }
        PatternForm::WithTail(parts, tail) => {
            text.words("[");
            add_patterns(text, parts, deep);
            text.words("|");
            add_pattern(text, tail, deep);
            text.words("]");
        }
        PatternForm::Annotated(inner, annotations) => {
            add_pattern(text, inner, deep);
            text.words("{");
            add_patterns(text, annotations, deep);
            text.words("}");
        }
    }
}

#[cycle(pattern)]
fn add_patterns(text: &mut Diagnostic, patterns: &[Pattern], deep: usize)
    ensures { (text.new.severity ≡ text.old.severity) × (text.new.code ≡ text.old.code) }
{
    let mut is_first = true;
    for pattern in patterns {
        if !is_first {
            text.words(",");
        }
        add_pattern(text, pattern, deep);
        is_first = false;
    }
}

fn add_opening(text: &mut Diagnostic, head: &Head, count: usize)
    ensures { (text.new.severity ≡ text.old.severity) × (text.new.code ≡ text.old.code) }
{
    match head {
        Head::Application(name) => {
            text.name(name);
            text.words(if count == 0 && name.is_quoted() {
                ""
            } else {
                "("
            });
        }
        Head::List => text.words("["),
        Head::Tuple => text.words("("),
    }
}

fn closing(head: &Head, count: usize) -> &'static str {
    match head {
        Head::Application(name) if count == 0 && name.is_quoted() => "",
        Head::List => "]",
        _ => ")",
    }
}

/// Appends the front of the text of a strategy, with `..` for what follows, and for what is in
/// brackets.
pub fn add_strategy(text: &mut Diagnostic, strategy: &Strategy, deep: usize)
    ensures { (text.new.severity ≡ text.old.severity) × (text.new.code ≡ text.old.code) }
{
    let Some(deep) = deep.checked_sub(1) else {
        return;
    };
    match strategy.form() {
        StrategyForm::Id => text.words("id"),
        StrategyForm::Fail => text.words("fail"),
        StrategyForm::Match(pattern) => {
            text.words("?");
            add_pattern(text, pattern, DEEPEST);
        }
        StrategyForm::Build(pattern) => {
            text.words("!");
            add_pattern(text, pattern, DEEPEST);
        }
        StrategyForm::Seq(parts) => {
            add_strategy(text, &parts.0, deep);
            text.words("; ..");
        }
        StrategyForm::Guard(parts) => {
            let (before, after) = match (parts.1.form(), parts.2.form()) {
                (StrategyForm::Id, _) => ("", " <+ .."),
                (StrategyForm::Fail, StrategyForm::Id) => ("not(", ")"),
                (StrategyForm::Fail, _) => ("", " < fail + .."),
                _ => ("", " < .. + .."),
            };
            text.words(before);
            add_strategy(text, &parts.0, deep);
            text.words(after);
        }
        StrategyForm::Scope(_, inside) => match rule_of(inside) {
            Some((left, right)) => {
                add_pattern(text, left, DEEPEST);
                text.words(" -> ");
                add_pattern(text, right, DEEPEST);
            }
            None => add_strategy(text, inside, deep),
        },
        StrategyForm::Test(_) => text.words("where(..)"),
        StrategyForm::All(_) => text.words("all(..)"),
        StrategyForm::One(_) => text.words("one(..)"),
        StrategyForm::Some(_) => text.words("some(..)"),
        StrategyForm::TailCongruence(_, _) => text.words("[..|..]"),
        StrategyForm::Child(number, _) => {
            text.number("", *number as u64);
            text.words("(..)");
        }
        StrategyForm::Rec(name, _) => {
            text.words("rec ");
            text.name(name);
            text.words("(..)");
        }
        StrategyForm::Congruence(head, parts) => {
            add_opening(text, head, parts.len());
            text.words(if parts.is_empty() { "" } else { ".." });
            text.words(closing(head, parts.len()));
        }
        StrategyForm::Use(name, strategies, patterns) => {
            text.name(name);
            if !patterns.is_empty() {
                text.words(if strategies.is_empty() { "(|" } else { "(..|" });
                add_patterns(text, patterns, DEEPEST);
                text.words(")");
            } else if !strategies.is_empty() {
                text.words("(..)");
            }
        }
        StrategyForm::Prim(name, patterns) => {
            text.words("prim(");
            text.name(name);
            text.words(if patterns.is_empty() { "" } else { "," });
            add_patterns(text, patterns, DEEPEST);
            text.words(")");
        }
    }
}

// The sides of a rule without a condition.
fn rule_of(strategy: &Strategy) -> Option<(&Pattern, &Pattern)> {
    if let StrategyForm::Seq(parts) = strategy.form()
        && let StrategyForm::Match(left) = parts.0.form()
        && let StrategyForm::Build(right) = parts.1.form()
    {
        return Some((left, right));
    }
    None
}
