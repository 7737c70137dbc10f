//! Values to owned terms, and terms to values.
#![tactic(auto, using(crate::proofs::KindLemmas::node_parts))]

ghost use Rattle.std.specs.Prelude.{◌≡◌, ◌<◌, ◌++◌, ◌∷◌, [], List, IfOk, true, false, vec_len, vec_capacity};
ghost use Rattle.term_core.specs.Tree.{Tree};
ghost use Rattle.term_core.specs.Kind.{made_of};
ghost use Rattle.term_values.specs.inside.ValueView.{top_tree};
ghost use Rattle.term_values.specs.Seen.{seen_tree};

use crate::elements::{Elements, Run, Seen};
use crate::value::{Form, Top, Value};
use std::alloc::Global;
use std::rc::Rc;
use term_core::{Kind, NoMemory, Term};

impl<'t> Value<'t> {
    /// An owned term of the same tree.
    #[inline(always)]
    pub fn to_term(&self, alloc: Global) -> Result<Term, NoMemory>
        ensures { IfOk result (λ term. term ≡ self.now) }
    {
        match &self.form {
            Form::Leaf(kind) => leaf(alloc, *kind),
            // results of calls are moved, so that a leaf needn't lie in memory, as in `Part::child`
            Form::Original(term) => {
                let term: &Term = *term;
                let copy = term.try_clone()?;
                Ok(copy)
            }
            _ => {
                let copy = owned(alloc, Seen::Value(self))?;
                Ok(copy)
            }
        }
    }
}

impl<'t> Value<'t> {
    /// A value with the tree of a term that isn't borrowed for as long. Names are copied once.
    pub fn from_term(alloc: Global, term: &Term) -> Result<Value<'t>, NoMemory>
        ensures { IfOk result (λ value. value ≡ term.now) }
    {
        if let Kind::Integer(number) = term.kind() {
            if term.annotations().is_empty() {
                return Ok(Value::leaf(Kind::Integer(number)));
            }
        }
        copied(alloc, term)
    }
}

#[cycle(copied)]
fn copied<'t>(alloc: Global, term: &Term) -> Result<Value<'t>, NoMemory>
    ensures { IfOk result (λ value. value ≡ term.now) }
{
    let top = own_top(alloc, term.kind())?;
    let children = all_copied(alloc, term.children())?;
    let annotations = all_copied(alloc, term.annotations())?;
    Value::topped(alloc, top, children)?.with_annotations(alloc, annotations)
}

#[cycle(copied)]
fn all_copied<'t>(alloc: Global, terms: &[Term]) -> Result<Vec<Value<'t>>, NoMemory>
    ensures { IfOk result (λ all. all.items ≡ terms.now) }
{
    let mut all = Vec::with_capacity(alloc, terms.len())?;
    for term in terms {
        all.push(copied(alloc, term)?)?;
    }
    Ok(all)
}

/// The root, with an owned name.
fn own_top<'t>(alloc: Global, kind: Kind<'_>) -> Result<Top<'t>, NoMemory>
    ensures { IfOk result (λ top. (us ns : List Tree) → top_tree top us ns ≡ made_of kind.entry us ns) }
{
    match kind {
        Kind::Integer(value) => Ok(Top::Borrowed(Kind::Integer(value))),
        Kind::Application(name) => Ok(Top::Owned(Rc::new(alloc, name.try_clone()?)?)),
        Kind::List => Ok(Top::Borrowed(Kind::List)),
        Kind::Tuple => Ok(Top::Borrowed(Kind::Tuple)),
    }
}

#[cycle(owned)]
#[inline(always)]
fn owned(alloc: Global, seen: Seen<'_, '_>) -> Result<Term, NoMemory>
    ensures { IfOk result (λ term. term ≡ seen_tree seen.entry) }
{
    // most nodes that rules make are of this form
    if let Seen::Value(value) = seen {
        if let Form::Built(made) = &value.form {
            let items = Elements::alone(Run::Values(made.items.as_slice()));
            let children = all_owned(alloc, items)?;
            return node(alloc, made.top.kind(), children);
        }
    }
    let children = all_owned(alloc, seen.elements())?;
    let bare = node(alloc, seen.kind(), children)?;
    let annotations = seen.annotation_run();
    if annotations.is_empty() {
        return Ok(bare);
    }
    let annotations = all_owned(alloc, Elements::alone(annotations))?;
    Ok(bare.with_annotations(annotations))
}

#[cycle(owned)]
fn all_owned(alloc: Global, elements: Elements<'_, '_>) -> Result<Vec<Term>, NoMemory>
    ensures { IfOk result (λ all. all.items ≡ elements.entry) }
{
    let mut left = elements;
    let mut all = Vec::with_capacity(alloc, left.first_run_len())?;
    while let Some(seen) = left.next() {
        all.reserve(1)?;
        if !add_plain(alloc, seen, &mut all)? {
            let term = owned(alloc, seen)?;
            all.push_reserved(term);
        }
    }
    Ok(all)
}

// Appends an owned term, for which there is room, if this is a subterm of the borrowed term or a
// node without children. Returns whether it is.
#[inline(always)]
fn add_plain(alloc: Global, seen: Seen<'_, '_>, all: &mut Vec<Term>) -> Result<bool, NoMemory>
    requires { vec_len all.old < vec_capacity all.old }
    ensures added { IfOk result (λ added. added ≡ true → all.new.items ≡ all.old.items ++ seen_tree seen.entry ∷ []) }
    ensures not { IfOk result (λ added. added ≡ false → all.new ≡ all.old) }
{
    match seen {
        Seen::Term(term) => all.push_reserved(term.try_clone()?),
        Seen::Value(value) => match &value.form {
            Form::Leaf(kind) => all.push_reserved(leaf(alloc, *kind)?),
            Form::Original(term) => {
                let term: &Term = *term;
                all.push_reserved(term.try_clone()?);
            }
            _ => return Ok(false),
        },
        Seen::Part(_) => return Ok(false),
    }
    Ok(true)
}

// An owned term of this kind without children and annotations.
#[inline(always)]
fn leaf(alloc: Global, kind: Kind<'_>) -> Result<Term, NoMemory>
    ensures { IfOk result (λ term. term ≡ made_of kind.entry [] []) }
{
    match kind {
        Kind::Integer(value) => Ok(Term::integer(alloc, value)),
        Kind::Application(name) => {
            let name = name.try_clone()?;
            Ok(Term::application(alloc, name, Vec::new(alloc)))
        }
        Kind::List => Ok(Term::list(alloc, Vec::new(alloc))),
        Kind::Tuple => Ok(Term::tuple(alloc, Vec::new(alloc))),
    }
}

/// An owned term of this kind with these children and no annotations.
#[inline(always)]
pub(crate) fn node(alloc: Global, kind: Kind<'_>, children: Vec<Term>) -> Result<Term, NoMemory>
    ensures { IfOk result (λ term. term ≡ made_of kind.entry children.items []) }
{
    match kind {
        Kind::Integer(value) => Ok(Term::integer(alloc, value)),
        Kind::Application(name) => Ok(Term::application(alloc, name.try_clone()?, children)),
        Kind::List => Ok(Term::list(alloc, children)),
        Kind::Tuple => Ok(Term::tuple(alloc, children)),
    }
}
