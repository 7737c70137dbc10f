//! The terms of a text that were read so far, and the brackets open around them.
#![tactic(auto, using(crate::proofs::StackLemmas::stack_parts))]

ghost use Rattle.std.specs.Prelude.{◌≡◌, [], ◌≤◌, length, take, drop, IfOk, IfSome, IfNone, OnOk, OnErr, Some, None};
ghost use Rattle.term_core.specs.Tree.{Tree, with_annotations, with_children};
ghost use Rattle.aterm_text.specs.inside.TermStack.{TermStack as Terms, no_terms, with_top, inside, first_closing};
ghost use Rattle.aterm_text.specs.inside.Depth.{depth};

use crate::reader::open_brackets::{Bracket, OpenBrackets};
use std::alloc::Global;
use std::marker::Model;
use term_core::{NoMemory, Term};

/// An opening bracket. What it contains becomes part of the term before it: its arguments or
/// elements, or its annotations.
#[derive(Clone, Copy)]
pub enum Opening {
    /// `(`, before the arguments of a name or the elements of a tuple.
    Round,
    /// `[`, before the elements of a list.
    Square,
    /// `{`, before annotations.
    Curly,
}

/// All terms read so far, the last on top, and the open brackets. A closing bracket pops the terms
/// after its opening one. A name, a list or a tuple is pushed without children before its bracket
/// is opened.
#[derive(Drop)]
pub struct TermStack {
    brackets: OpenBrackets,
    terms: Vec<Term>,
}

impl Model for TermStack {
    ghost use Rattle.aterm_text.specs.inside.TermStack.{TermStack as Terms, stack_code};

    ghost Value = { Terms };

    ghost coded = { stack_code };

    ghost use Rattle.aterm_text.specs.inside.StackView.{stack_of, IsStack};

    ghost view = { stack_of };

    ghost invariant = { IsStack };
}

impl TermStack {
    /// An empty stack without open brackets.
    pub fn new(alloc: Global) -> TermStack
        ensures { result ≡ no_terms }
    {
        TermStack {
            brackets: OpenBrackets::new(alloc),
            terms: Vec::new(alloc),
        }
    }

    pub fn push(&mut self, term: Term) -> Result<(), NoMemory>
        ensures ok { OnOk result (self.new ≡ with_top term self.old) }
    {
        self.terms.push(term)?;
        Ok(())
    }

    /// Opens a bracket.
    pub fn enter(&mut self, opening: Opening) -> Result<(), NoMemory>
        ensures ok { OnOk result (self.new ≡ inside opening [] self.old) }
    {
        let before = self.terms.len();
        self.brackets.open(Bracket { opening, before })
    }

    /// The number of open brackets.
    pub fn depth(&self) -> usize
        ensures { result ≡ depth self.now }
    {
        self.brackets.count()
    }

    /// The bracket that closes the innermost one, or `None` if none is open.
    pub fn closing(&self) -> Option<u8>
        ensures { result ≡ first_closing self.now }
    {
        let bracket = self.brackets.innermost()?;
        match bracket.opening {
            Opening::Round => Some(b')'),
            Opening::Square => Some(b']'),
            Opening::Curly => Some(b'}'),
        }
    }

    /// Closes the innermost bracket, and pops the terms in it; `None` if none is open.
    pub fn leave(&mut self) -> Result<Option<(Opening, Vec<Term>)>, NoMemory>
        ensures left { IfOk result (λ left. IfSome left (λ left.
            self.old ≡ inside left.0 left.1.items self.new)) }
        ensures none { IfOk result (λ left. IfNone left ((first_closing self.old ≡ None)
            × (self.new ≡ self.old))) }
    {
        let Some(Bracket { opening, before }) = self.brackets.close() else {
            return Ok(None);
        };
        let terms = taken_from(&mut self.terms, before)?;
        Ok(Some((opening, terms)))
    }

    /// Sets the annotations of the term on top.
    pub fn annotate(&mut self, mut annotations: Vec<Term>)
        ensures top { (t : Tree) (below : Terms) → self.old ≡ with_top t below
            → self.new ≡ with_top (with_annotations t annotations.items) below }
        ensures depth { depth self.new ≡ depth self.old }
    {
        let Some(top) = self.terms.len().checked_sub(1) else {
            return;
        };
        self.terms[top].swap_annotations(&mut annotations);
    }

    /// Sets the children of the term on top.
    pub fn give_children(&mut self, children: Vec<Term>)
        ensures top { (t : Tree) (below : Terms) → self.old ≡ with_top t below
            → self.new ≡ with_top (with_children t children.items) below }
        ensures depth { depth self.new ≡ depth self.old }
    {
        let Some(top) = self.terms.len().checked_sub(1) else {
            return;
        };
        self.terms[top].set_children(children);
    }

    /// The only term, outside all brackets.
    pub fn into_term(self) -> Option<Term>
        ensures { (t : Tree) → self ≡ with_top t no_terms → result ≡ Some t }
    {
        let TermStack { mut terms, .. } = self;
        terms.pop()
    }
}

// Pops the terms from this index on. For a single one, the usual case in deep texts, the compiler
// knows how much to copy, and needs no call.
fn taken_from(terms: &mut Vec<Term>, before: usize) -> Result<Vec<Term>, NoMemory>
    requires { before ≤ length terms.old.items }
    ensures kept { OnOk result (terms.new.items ≡ take before terms.old.items) }
    ensures taken { IfOk result (λ taken. taken.items ≡ drop before terms.old.items) }
    ensures err { OnErr result (terms.new ≡ terms.old) }
{
    if before + 1 == terms.len() {
        let last = terms.len() - 1;
        return Ok(terms.split_off(last)?);
    }
    Ok(terms.split_off(before)?)
}
