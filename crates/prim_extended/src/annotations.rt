//! Terms without annotations, and equality but for these.

ghost use Rattle.std.specs.Prelude.{◌≡◌, length, IfOk, codes};
ghost use Rattle.term_core.specs.Tree.{of_list};
ghost use Rattle.strategy_meaning.specs.Same.{same_tree, same_trees};
ghost use Rattle.prim_extended.specs.Annotations.{stripped, all_stripped};
ghost use Rattle.prim_extended.specs.Extended.{extended};

use std::alloc::Global;
use term_core::{Kind, NoMemory, Term};

/// `strip-annos`: the term a without its annotations and those of its subterms.
pub fn strip_annos(alloc: Global, arguments: &[Term]) -> Result<Option<Term>, NoMemory>
    requires { length arguments.now ≡ 1 }
    ensures { IfOk result (λ found. found ≡ extended (codes "strip-annos") arguments.now) }
{
    Ok(Some(without_annotations(alloc, &arguments[0])?))
}

/// `eq-ignore-annos`: the empty tuple if the terms a and b are equal but for annotations, their own
/// and those of their subterms; else nothing.
pub fn eq_ignore_annos(alloc: Global, arguments: &[Term]) -> Result<Option<Term>, NoMemory>
    requires { length arguments.now ≡ 2 }
    ensures { IfOk result (λ found. found ≡ extended (codes "eq-ignore-annos") arguments.now) }
{
    if !are_equal(&arguments[0], &arguments[1]) {
        return Ok(None);
    }
    Ok(Some(Term::tuple(alloc, Vec::new(alloc))))
}

#[cycle(without)]
fn without_annotations(alloc: Global, term: &Term) -> Result<Term, NoMemory>
    ensures { IfOk result (λ made. made ≡ stripped term.now) }
{
    let children = all_without(alloc, term.children())?;
    match term.kind() {
        Kind::Integer(value) => Ok(Term::integer(alloc, value)),
        Kind::Application(name) => Ok(Term::application(alloc, name.try_clone()?, children)),
        Kind::List => Ok(Term::list(alloc, children)),
        Kind::Tuple => Ok(Term::tuple(alloc, children)),
    }
}

#[cycle(without)]
fn all_without(alloc: Global, terms: &[Term]) -> Result<Vec<Term>, NoMemory>
    ensures { IfOk result (λ made. of_list made.items ≡ all_stripped (of_list terms.now)) }
{
    let mut made = Vec::with_capacity(alloc, terms.len())?;
    for term in terms {
        made.push(without_annotations(alloc, term)?)?;
    }
    Ok(made)
}

// Whether the terms are equal but for annotations.
#[cycle(equal)]
fn are_equal(term: &Term, other: &Term) -> bool
    ensures { result ≡ same_tree (stripped term.now) (stripped other.now) }
{
    match (term.kind(), other.kind()) {
        (Kind::Integer(value), Kind::Integer(found)) => value == found,
        (Kind::Application(name), Kind::Application(found)) => {
            name.equals(found) && all_equal(term.children(), other.children())
        }
        (Kind::List, Kind::List) => all_equal(term.children(), other.children()),
        (Kind::Tuple, Kind::Tuple) => all_equal(term.children(), other.children()),
        _ => false,
    }
}

#[cycle(equal)]
fn all_equal(terms: &[Term], others: &[Term]) -> bool
    ensures { result ≡ same_trees (all_stripped (of_list terms.now)) (all_stripped (of_list others.now)) }
{
    if terms.len() != others.len() {
        return false;
    }
    for i in 0..terms.len() {
        if !are_equal(&terms[i], &others[i]) {
            return false;
        }
    }
    true
}
