//! Classes of roots: small numbers by which most roots are told apart. Equal roots have one class,
//! and others may share it.

ghost use Rattle.std.specs.Prelude.{◌≡◌, ◌%◌, unsigned_abs};
ghost use Rattle.term_core.specs.Tree.{Tree, children, annotations};
ghost use Rattle.term_core.specs.Kind.{made_of};
ghost use Rattle.strategy_syntax.specs.Heads.{head_of};
ghost use Rattle.strategy_syntax.specs.Apart.{text_class, head_class, tree_class, pattern_class, child_class, is_other, is_apart};

use crate::{Head, ResolvedPattern, ResolvedPatternForm};
use term_core::{Kind, Name};

/// The number of classes.
pub const CLASSES: usize = 64;

/// The class of a root of this kind.
#[inline(always)]
pub fn class_of(kind: Kind<'_>) -> u8
    ensures { (t : Tree) → t ≡ made_of kind.entry (children t) (annotations t) → result ≡ tree_class t }
{
    match kind {
        Kind::Integer(number) => class_of_integer(number),
        Kind::Application(name) => class_of_name(name),
        Kind::List => 1,
        Kind::Tuple => 2,
    }
}

fn class_of_head(head: &Head) -> u8
    ensures { result ≡ head_class (head_of head.now) }
{
    match head {
        Head::Application(name) => class_of_name(name),
        Head::List => 1,
        Head::Tuple => 2,
    }
}

#[inline(always)]
fn class_of_integer(number: i64) -> u8
    ensures { result ≡ unsigned_abs number % 64 }
{
    (number.unsigned_abs() % 64) as u8
}

#[inline(always)]
fn class_of_name(name: &Name) -> u8
    ensures { result ≡ text_class 0 name.now.text }
{
    let bytes = name.bytes();
    let mut class: u32 = 0;
    for b in bytes {
        class = (class * 31 + u32::from(*b)) % 64;
    }
    class as u8
}

/// The class of the roots that the pattern matches, if they have one.
pub(crate) fn class_of_pattern(pattern: &ResolvedPattern) -> Option<u8>
    ensures { result ≡ pattern_class pattern.now }
{
    match pattern.form() {
        ResolvedPatternForm::Wildcard => None,
        ResolvedPatternForm::Variable(_) => None,
        ResolvedPatternForm::At(_, inner) => class_of_pattern(inner),
        ResolvedPatternForm::Integer(number) => Some(class_of_integer(*number)),
        ResolvedPatternForm::Compound(head, _) => Some(class_of_head(head)),
        ResolvedPatternForm::WithTail(_, _) => Some(1),
        ResolvedPatternForm::Annotated(inner, _) => class_of_pattern(inner),
    }
}

// The same of child `i`.
fn class_of_child(pattern: &ResolvedPattern, i: usize) -> Option<u8>
    ensures { result ≡ child_class pattern.now i }
{
    match pattern.form() {
        ResolvedPatternForm::Compound(_, parts) => match parts.get(i) {
            Some(part) => class_of_pattern(part),
            None => None,
        },
        _ => None,
    }
}

fn is_other(class: Option<u8>, other: u8) -> bool
    ensures { result ≡ is_other class other }
{
    match class {
        Some(known) => known != other,
        None => false,
    }
}

/// Whether no term matches the pattern whose root has this class, and whose child at an index, if
/// one is given.
pub(crate) fn is_apart(pattern: &ResolvedPattern, root: u8, child: Option<(usize, u8)>) -> bool
    ensures { result ≡ is_apart pattern.now root child }
{
    if is_other(class_of_pattern(pattern), root) {
        return true;
    }
    match child {
        Some((i, class)) => is_other(class_of_child(pattern, i), class),
        None => false,
    }
}

/// A child by whose root the two patterns are told apart: the given one, if it does that, or else
/// the first one.
pub(crate) fn telling_child(
    left: &ResolvedPattern,
    right: &ResolvedPattern,
    given: Option<usize>,
) -> Option<usize> {
    if let Some(i) = given {
        if tells(left, right, i) {
            return given;
        }
    }
    let ResolvedPatternForm::Compound(_, parts) = left.form() else {
        return None;
    };
    for i in 0..parts.len() {
        if tells(left, right, i) {
            return Some(i);
        }
    }
    given
}

fn tells(left: &ResolvedPattern, right: &ResolvedPattern, i: usize) -> bool {
    match class_of_child(left, i) {
        Some(class) => is_other(class_of_child(right, i), class),
        None => false,
    }
}
