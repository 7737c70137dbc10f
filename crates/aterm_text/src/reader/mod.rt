//! Reading terms.

ghost use Rattle.std.specs.Prelude.{◌≡◌, ◌≢◌, ◌<◌, ◌≤◌, ◌↔◌, ℕ, List, IfOk, Err};
ghost use Rattle.term_core.specs.Tree.{Tree};
ghost use Rattle.aterm_text.specs.Nesting.{nesting as nesting_of};
ghost use Rattle.aterm_text.specs.Grammar.{Spells, SpellsAnnotations};

mod lexeme;
mod machine;
mod open_brackets;
mod scan;
mod stack;

use crate::{MAX_NESTING, nesting};
use machine::{ReaderState, read_from};
pub use scan::{after_blanks, after_byte, is_blank};
use stack::TermStack;
use std::alloc::{AllocError, AllocFailed, Global};
use term_core::{NoMemory, Term};
use thiserror::Error;

/// Why a text wasn't read.
#[derive(Clone, Copy, Debug, PartialEq, Eq, Error)]
pub enum ReadFault {
    /// More than 1,000 brackets are open at one place.
    #[error("deep")]
    Deep,
    /// The text is no term, or no annotation part.
    #[error("term")]
    Term,
    /// Memory couldn't grow.
    #[error("memory")]
    Memory,
}

/// The term that the text spells, by the grammar of the textual ATerm format.
///
/// For example, `f(1,[a]){b}` spells the name `f` applied to 1 and the list of `a`, with the
/// annotation `b`; `f(1,)` spells none.
///
/// Errors: `Deep` if more than 1,000 brackets are open at one place, which is tested first; `Term`
/// if the text is no term; `Memory` if memory can't grow.
pub fn read(alloc: Global, text: &[u8]) -> Result<Term, ReadFault>
    ensures deep { (result ≡ Err ReadFault.Deep) ↔ (MAX_NESTING < nesting_of text.now) }
    ensures spelled { IfOk result (λ t. Spells text.now t) }
    ensures only { IfOk result (λ t. (u : Tree) → Spells text.now u → u ≡ t) }
    ensures no_term { result ≡ Err ReadFault.Term → (u : Tree) → Spells text.now u → ⊥ }
{
    match read_from(alloc, TermStack::new(alloc), ReaderState::Expected, text) {
        Ok(term) => Ok(term),
        Err(fault) => Err(first_fault(text, fault)),
    }
}

/// The list of annotations that the text spells: a single annotation part, with white space around
/// it, as the two of `{ a, f(1) }`. Its errors are those of [`read`].
pub fn read_annotations(alloc: Global, text: &[u8]) -> Result<Vec<Term>, ReadFault>
    ensures deep { (result ≡ Err ReadFault.Deep) ↔ (MAX_NESTING < nesting_of text.now) }
    ensures spelled { IfOk result (λ ts. SpellsAnnotations text.now ts.items) }
    ensures only { IfOk result (λ ts.
        (us : List Tree) → SpellsAnnotations text.now us → us ≡ ts.items) }
    ensures no_term { result ≡ Err ReadFault.Term →
        (us : List Tree) → SpellsAnnotations text.now us → ⊥ }
{
    match read_alone(alloc, text) {
        Ok(annotations) => Ok(annotations),
        Err(fault) => Err(first_fault(text, fault)),
    }
}

// The list of annotations that the text spells. The first fault met is returned.
fn read_alone(alloc: Global, text: &[u8]) -> Result<Vec<Term>, ReadFault>
    ensures spelled { IfOk result (λ ts. SpellsAnnotations text.now ts.items) }
    ensures only { IfOk result (λ ts.
        (us : List Tree) → SpellsAnnotations text.now us → us ≡ ts.items) }
    ensures no_term { result ≡ Err ReadFault.Term →
        (us : List Tree) → SpellsAnnotations text.now us → ⊥ }
    ensures shallow { IfOk result (λ _. nesting_of text.now ≤ MAX_NESTING) }
    ensures deep { result ≡ Err ReadFault.Deep → MAX_NESTING < nesting_of text.now }
{
    let text = after_blanks(text);
    let Some(_inside) = scan::after_byte(b'{', text) else {
        return Err(ReadFault::Term);
    };
    // What follows the empty list is read as its annotations.
    let mut stack = TermStack::new(alloc);
    stack.push(Term::list(alloc, Vec::new(alloc)))?;
    let mut term = read_from(alloc, stack, ReaderState::Base, text)?;
    let mut annotations = Vec::new(alloc);
    term.swap_annotations(&mut annotations);
    Ok(annotations)
}

// The fault to return: `Deep` takes precedence over the one that was met.
fn first_fault(text: &[u8], met: ReadFault) -> ReadFault
    requires { met ≡ ReadFault.Deep → MAX_NESTING < nesting_of text.now }
    ensures deep { (result ≡ ReadFault.Deep) ↔ (MAX_NESTING < nesting_of text.now) }
    ensures other { result ≢ ReadFault.Deep → result ≡ met }
{
    if nesting(text) > MAX_NESTING {
        ReadFault::Deep
    } else {
        met
    }
}

impl<T: Drop> From<AllocFailed<T>> for ReadFault {
    ghost use Rattle.std.specs.Prelude.{◌≡◌};
    ghost use Rattle.aterm_text.specs.declared.reader.ReadFault.{ReadFault};

    ghost from_gives = { λ _ e. e ≡ ReadFault.Memory };

    fn from(_refused: AllocFailed<T>) -> ReadFault {
        ReadFault::Memory
    }
}

impl From<AllocError> for ReadFault {
    ghost use Rattle.std.specs.Prelude.{◌≡◌};
    ghost use Rattle.aterm_text.specs.declared.reader.ReadFault.{ReadFault};

    ghost from_gives = { λ _ e. e ≡ ReadFault.Memory };

    fn from(_refused: AllocError) -> ReadFault {
        ReadFault::Memory
    }
}

impl From<NoMemory> for ReadFault {
    ghost use Rattle.std.specs.Prelude.{◌≡◌};
    ghost use Rattle.aterm_text.specs.declared.reader.ReadFault.{ReadFault};

    ghost from_gives = { λ _ e. e ≡ ReadFault.Memory };

    fn from(_refused: NoMemory) -> ReadFault {
        ReadFault::Memory
    }
}
