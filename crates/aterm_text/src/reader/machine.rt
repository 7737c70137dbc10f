//! The machine that reads a term: a state, a stack of the terms so far with the open brackets, and
//! the rest of the text. Each step but the last consumes at least one byte, and none looks back.

ghost use Rattle.std.specs.Prelude.{◌≡◌, ◌<◌, ◌≤◌, ◌-◌, ℕ, List, [], IfOk, OnOk, Err, length};
ghost use Rattle.term_core.specs.Tree.{Tree, Symbol};
ghost use Rattle.aterm_text.specs.Tokens.{NextName, without_blanks};
ghost use Rattle.aterm_text.specs.inside.TermStack.{with_top, inside};
ghost use Rattle.aterm_text.specs.inside.Beginnings.{NoLexeme};
ghost use Rattle.aterm_text.specs.inside.Depth.{depth, IsTooDeep, KeepsDepth};
ghost use Rattle.aterm_text.specs.inside.Unread.{Reading, Unread, ReaderStands, ReaderLeads, IsLost, IsClosed};

use crate::MAX_NESTING;
use crate::reader::ReadFault;
use crate::reader::lexeme::{Lexeme, first_lexeme};
use crate::reader::scan::{after_blanks, after_byte};
use crate::reader::stack::{Opening, TermStack};
use std::alloc::Global;
use term_core::{Name, NoMemory, Term};

/// What was read last.
#[derive(Clone, Copy)]
pub enum ReaderState {
    /// The start of the text, or a comma: a term has to begin.
    Expected,
    /// An opening bracket: a term may begin, or the bracket is closed.
    Entered,
    /// A term that may still get annotations. It is on top of the stack.
    Base,
    /// A term with its annotations. It is on top of the stack.
    Whole,
}

/// The outcome of a step of the machine.
#[derive(Clone, Copy)]
pub enum Progress<'a> {
    /// The next state, and the rest of the text.
    More(ReaderState, &'a [u8]),
    /// The end of the text: it spells the one term on the stack.
    Done,
}

// Opens a bracket, unless too many are open.
fn enter(stack: &mut TermStack, opening: Opening) -> Result<(), ReadFault>
    ensures ok { OnOk result (stack.new ≡ inside opening [] stack.old) }
    ensures few { OnOk result (depth stack.old < MAX_NESTING) }
    ensures term { result ≡ Err ReadFault.Term → ⊥ }
    ensures deep { result ≡ Err ReadFault.Deep → MAX_NESTING ≤ depth stack.old }
{
    if stack.depth() as u64 >= MAX_NESTING {
        return Err(ReadFault::Deep);
    }
    stack.enter(opening)?;
    Ok(())
}

// Pushes a term, and opens the bracket of its children. It is inlined, as `expect_term` is: an
// opening bracket takes less work than a call.
#[inline(always)]
fn open(stack: &mut TermStack, term: Term, opening: Opening) -> Result<(), ReadFault>
    ensures ok { OnOk result (stack.new ≡ inside opening [] (with_top term stack.old)) }
    ensures few { OnOk result (depth stack.old < MAX_NESTING) }
    ensures term { result ≡ Err ReadFault.Term → ⊥ }
    ensures deep { result ≡ Err ReadFault.Deep → MAX_NESTING ≤ depth stack.old }
{
    stack.push(term)?;
    enter(stack, opening)
}

// A term has to begin here.
#[inline(always)]
fn expect_term<'a>(
    alloc: Global,
    stack: &mut TermStack,
    text: &'a [u8],
) -> Result<Progress<'a>, ReadFault>
    requires { without_blanks text.now ≡ text.now }
    ensures leads { IfOk result (λ step. ReaderLeads ReaderState.Expected stack.old text.now step stack.new) }
    ensures none { result ≡ Err ReadFault.Term → IsLost ReaderState.Expected stack.old text.now }
    ensures nesting { IfOk result (λ step. KeepsDepth stack.old text.now step stack.new) }
    ensures deep { result ≡ Err ReadFault.Deep → IsTooDeep (depth stack.old) text.now }
{
    if let Some(rest) = after_byte(b'[', text) {
        open(stack, Term::list(alloc, Vec::new(alloc)), Opening::Square)?;
        return Ok(Progress::More(ReaderState::Entered, rest));
    }
    if let Some(rest) = after_byte(b'(', text) {
        open(stack, Term::tuple(alloc, Vec::new(alloc)), Opening::Round)?;
        return Ok(Progress::More(ReaderState::Entered, rest));
    }
    expect_lexeme(alloc, stack, text)
}

// A term that doesn't begin with a bracket has to begin here.
fn expect_lexeme<'a>(
    alloc: Global,
    stack: &mut TermStack,
    text: &'a [u8],
) -> Result<Progress<'a>, ReadFault>
    requires { without_blanks text.now ≡ text.now }
    ensures leads { IfOk result (λ step. ReaderLeads ReaderState.Expected stack.old text.now step stack.new) }
    ensures none { result ≡ Err ReadFault.Term → NoLexeme text.now }
    ensures nesting { IfOk result (λ step. KeepsDepth stack.old text.now step stack.new) }
    ensures deep { result ≡ Err ReadFault.Deep → IsTooDeep (depth stack.old) text.now }
{
    let (lexeme, rest) = first_lexeme(alloc, text)?;
    match lexeme {
        Lexeme::Integer(value) => {
            stack.push(Term::integer(alloc, value))?;
            Ok(Progress::More(ReaderState::Base, rest))
        }
        Lexeme::Named(name) => after_name(alloc, stack, name, rest),
    }
}

// After a name: a bracket that comes next holds its arguments.
fn after_name<'a>(
    alloc: Global,
    stack: &mut TermStack,
    name: Name,
    text: &'a [u8],
) -> Result<Progress<'a>, ReadFault>
    ensures leads { IfOk result (λ step. (x : List ℕ) →
        NextName name x text.now → length text.now < length x →
        ReaderLeads ReaderState.Expected stack.old x step stack.new) }
    ensures fault { result ≡ Err ReadFault.Term → ⊥ }
    ensures nesting { IfOk result (λ step. KeepsDepth stack.old text.now step stack.new) }
    ensures deep { result ≡ Err ReadFault.Deep → IsTooDeep (depth stack.old) text.now }
{
    let term = Term::application(alloc, name, Vec::new(alloc));
    let text = after_blanks(text);
    match after_byte(b'(', text) {
        Some(rest) => {
            open(stack, term, Opening::Round)?;
            Ok(Progress::More(ReaderState::Entered, rest))
        }
        None => {
            stack.push(term)?;
            Ok(Progress::More(ReaderState::Base, text))
        }
    }
}

// Closes the innermost bracket: its terms become parts of the term before it.
fn close(stack: &mut TermStack) -> Result<ReaderState, NoMemory>
    ensures closed { IfOk result (λ state. IsClosed stack.old state stack.new) }
    ensures depth { IfOk result (λ _. depth stack.new ≡ depth stack.old - 1) }
{
    let Some((opening, terms)) = stack.leave()? else {
        return Ok(ReaderState::Base);
    };
    match opening {
        Opening::Curly => {
            stack.annotate(terms);
            Ok(ReaderState::Whole)
        }
        _ => {
            stack.give_children(terms);
            Ok(ReaderState::Base)
        }
    }
}

// After an opening bracket.
fn after_opening<'a>(
    alloc: Global,
    stack: &mut TermStack,
    text: &'a [u8],
) -> Result<Progress<'a>, ReadFault>
    requires { without_blanks text.now ≡ text.now }
    ensures leads { IfOk result (λ step. ReaderLeads ReaderState.Entered stack.old text.now step stack.new) }
    ensures none { result ≡ Err ReadFault.Term → IsLost ReaderState.Entered stack.old text.now }
    ensures nesting { IfOk result (λ step. KeepsDepth stack.old text.now step stack.new) }
    ensures deep { result ≡ Err ReadFault.Deep → IsTooDeep (depth stack.old) text.now }
{
    let Some(closing) = stack.closing() else {
        return Err(ReadFault::Term);
    };
    match after_byte(closing, text) {
        Some(rest) => Ok(Progress::More(close(stack)?, rest)),
        None => expect_term(alloc, stack, text),
    }
}

// After a base: a bracket that comes next holds its annotations.
fn after_base<'a>(stack: &mut TermStack, text: &'a [u8]) -> Result<Progress<'a>, ReadFault>
    requires { without_blanks text.now ≡ text.now }
    ensures leads { IfOk result (λ step. ReaderLeads ReaderState.Base stack.old text.now step stack.new) }
    ensures none { result ≡ Err ReadFault.Term → IsLost ReaderState.Base stack.old text.now }
    ensures nesting { IfOk result (λ step. KeepsDepth stack.old text.now step stack.new) }
    ensures deep { result ≡ Err ReadFault.Deep → IsTooDeep (depth stack.old) text.now }
{
    match after_byte(b'{', text) {
        Some(rest) => {
            enter(stack, Opening::Curly)?;
            Ok(Progress::More(ReaderState::Entered, rest))
        }
        None => after_whole(stack, text),
    }
}

// After a whole term: a comma, the closing bracket or the end of the text comes next.
fn after_whole<'a>(stack: &mut TermStack, text: &'a [u8]) -> Result<Progress<'a>, ReadFault>
    requires { without_blanks text.now ≡ text.now }
    ensures leads { IfOk result (λ step. ReaderLeads ReaderState.Whole stack.old text.now step stack.new) }
    ensures none { result ≡ Err ReadFault.Term → IsLost ReaderState.Whole stack.old text.now }
    ensures nesting { IfOk result (λ step. KeepsDepth stack.old text.now step stack.new) }
    ensures deep { result ≡ Err ReadFault.Deep → IsTooDeep (depth stack.old) text.now }
{
    let Some(closing) = stack.closing() else {
        if text.is_empty() {
            return Ok(Progress::Done);
        }
        return Err(ReadFault::Term);
    };
    if let Some(rest) = after_byte(b',', text) {
        return Ok(Progress::More(ReaderState::Expected, rest));
    }
    match after_byte(closing, text) {
        Some(rest) => Ok(Progress::More(close(stack)?, rest)),
        None => Err(ReadFault::Term),
    }
}

// One step of the machine.
fn make_step<'a>(
    alloc: Global,
    stack: &mut TermStack,
    state: ReaderState,
    text: &'a [u8],
) -> Result<Progress<'a>, ReadFault>
    ensures leads { IfOk result (λ step. ReaderLeads state stack.old text.now step stack.new) }
    ensures none { result ≡ Err ReadFault.Term → IsLost state stack.old text.now }
    ensures nesting { IfOk result (λ step. KeepsDepth stack.old text.now step stack.new) }
    ensures deep { result ≡ Err ReadFault.Deep → IsTooDeep (depth stack.old) text.now }
{
    let text = after_blanks(text);
    match state {
        ReaderState::Expected => expect_term(alloc, stack, text),
        ReaderState::Entered => after_opening(alloc, stack, text),
        ReaderState::Base => after_base(stack, text),
        ReaderState::Whole => after_whole(stack, text),
    }
}

/// Runs the machine to its end, from a state and a stack without open brackets.
pub fn read_from(
    alloc: Global,
    stack: TermStack,
    start: ReaderState,
    text: &[u8],
) -> Result<Term, ReadFault>
    requires stands { (r : Reading) × ReaderStands r [] start stack }
    requires closed { depth stack ≡ 0 }
    ensures found { IfOk result (λ t. (r : Reading) → ReaderStands r [] start stack
        → Unread r [] text.now t) }
    ensures only { IfOk result (λ t. (r : Reading) → ReaderStands r [] start stack
        → (u : Tree) → Unread r [] text.now u → u ≡ t) }
    ensures none { result ≡ Err ReadFault.Term → (r : Reading) → ReaderStands r [] start stack
        → (u : Tree) → Unread r [] text.now u → ⊥ }
    ensures shallow { IfOk result (λ _. IsTooDeep 0 text.now → ⊥) }
    ensures deep { result ≡ Err ReadFault.Deep → IsTooDeep 0 text.now }
{
    let mut stack = stack;
    let mut state = start;
    let mut rest = text;
    loop {
        match make_step(alloc, &mut stack, state, rest)? {
            Progress::More(next, left) => {
                state = next;
                rest = left;
            }
            Progress::Done => break,
        }
    }
    match stack.into_term() {
        Some(term) => Ok(term),
        None => Err(ReadFault::Term),
    }
}
