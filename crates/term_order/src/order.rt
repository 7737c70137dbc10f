//! The order on terms.
#![tactic(auto, using(crate::proofs::PartLemmas::term_parts))]

ghost use Rattle.std.specs.Prelude.{◌≡◌};
ghost use Rattle.term_core.specs.Tree.{of_list};
ghost use Rattle.term_values.specs.Seen.{seen_tree};
ghost use Rattle.term_order.specs.Order.{compared, compared_all, compared_names};
ghost use Rattle.term_order.specs.inside.Roots.{compared_roots};

use std::cmp::Ordering;
use term_core::{Kind, Name};
use term_values::{Elements, Seen};

/// How a term stands to another one in the order on terms: `Equal` exactly where they are equal,
/// annotations included. It takes no memory.
#[cycle(order)]
pub fn compare(term: Seen<'_, '_>, other: Seen<'_, '_>) -> Ordering
    ensures { result ≡ compared (seen_tree term.entry) (seen_tree other.entry) }
{
    let roots = compare_roots(term, other);
    if roots.is_ne() {
        return roots;
    }
    let children = compare_all(term.elements(), other.elements());
    if children.is_ne() {
        return children;
    }
    compare_all(term.annotations(), other.annotations())
}

#[cycle(order)]
fn compare_all(terms: Elements<'_, '_>, others: Elements<'_, '_>) -> Ordering
    ensures { result ≡ compared_all (of_list terms.entry) (of_list others.entry) }
{
    let mut left = terms;
    let mut right = others;
    while let Some(term) = left.next() {
        let Some(other) = right.next() else {
            return Ordering::Greater;
        };
        let order = compare(term, other);
        if order.is_ne() {
            return order;
        }
    }
    match right.next() {
        Some(_) => Ordering::Less,
        None => Ordering::Equal,
    }
}

// How the roots stand to one another; where they are equal, children and annotations decide.
fn compare_roots(term: Seen<'_, '_>, other: Seen<'_, '_>) -> Ordering
    ensures { result ≡ compared_roots (seen_tree term.entry) (seen_tree other.entry) }
{
    match (term.kind(), other.kind()) {
        (Kind::Integer(value), Kind::Integer(found)) => value.cmp(&found),
        (Kind::Integer(_), _) => Ordering::Less,
        (_, Kind::Integer(_)) => Ordering::Greater,
        (Kind::Application(name), Kind::Application(found)) => compare_names(name, found),
        (Kind::Application(_), _) => Ordering::Less,
        (_, Kind::Application(_)) => Ordering::Greater,
        (Kind::List, Kind::Tuple) => Ordering::Less,
        (Kind::Tuple, Kind::List) => Ordering::Greater,
        _ => Ordering::Equal,
    }
}

fn compare_names(name: &Name, other: &Name) -> Ordering
    ensures { result ≡ compared_names name.now other.now }
{
    let texts = name.bytes().cmp(other.bytes());
    texts.then(name.is_quoted().cmp(&other.is_quoted()))
}
