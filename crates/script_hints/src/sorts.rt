//! What stands where another sort is wanted: in modules, and in trees.

use crate::explainer::{Explainer, origin_of};
use crate::warnings::warning;
use diagnostic::{Diagnostic, Fill, Report, say};
use hint_text::{CommandParts, KnownModule, ScriptCommand, token_of};
use session_history::Timeline;
use sort_hints::{Found, Known, Signature, Sort, SortFault, TermFault, new_fault, sort_faults};
use std::alloc::Global;
use strategy_syntax::{Definition, Place};
use strategy_tokens::TokenPlace;
use term_core::{Kind, NoMemory, Term};
use term_paths::{at, at_parts};

// The most warnings of this kind for a module.
const WARNED: usize = 20;

impl Explainer<'_, '_> {
    /// Warns of what stands in a module where another sort is wanted, and of sorts that it names and that
    /// have no terms.
    pub fn warn_of_sorts<R: Report>(
        &mut self,
        signature: &Signature,
        module: KnownModule<'_>,
        report: &mut R,
    ) -> Result<(), NoMemory> {
        self.warn_of_empty_sorts(signature, module, report)?;
        let mut left = WARNED;
        for definition in module.definitions() {
            left = self.warn_of_wrong_sorts(signature, module, definition, left, report)?;
        }
        Ok(())
    }

    // Warns of the sorts without terms that a module names first.
    fn warn_of_empty_sorts<R: Report>(
        &mut self,
        signature: &Signature,
        module: KnownModule<'_>,
        report: &mut R,
    ) -> Result<(), NoMemory> {
        let empty = signature.empty_sorts(module.name())?;
        for it in empty.iter().take(WARNED) {
            let (bytes, start) = token_of(self.parts.text, it.token);
            let end = start.saturating_add(bytes.len());
            self.begin("empty-sort");
            let at = self.at(TokenPlace { start, end });
            say!(self.hint; "{}: the sort ", at);
            say_sort(self.alloc, &mut self.hint, signature, it.sort)?;
            self.hint.words(" has no terms");
            self.say_advice(
                "`: str -> s` and `: int -> s` say that each string or integer is an `s`",
            );
            report.report(&self.hint);
        }
        drop(empty);
        Ok(())
    }

    // Warns of at most so many places of a definition. Returns how many may follow.
    fn warn_of_wrong_sorts<R: Report>(
        &mut self,
        signature: &Signature,
        module: KnownModule<'_>,
        definition: &Definition,
        left: usize,
        report: &mut R,
    ) -> Result<usize, NoMemory> {
        let faults = sort_faults(self.alloc, signature, definition)?;
        for fault in faults.iter().take(left) {
            let place = self.bytes_of(fault.place);
            self.begin_warning("sort", Some(definition.name()), place);
            self.say_sort_found(signature, *fault)?;
            self.hint
                .note_cause(module.name(), definition.name().bytes());
            report.report(&self.hint);
        }
        let left = left.saturating_sub(faults.len());
        drop(faults);
        Ok(left)
    }

    fn say_sort_found(&mut self, signature: &Signature, fault: SortFault) -> Result<(), NoMemory> {
        match fault.found {
            Found::Given(known) => {
                self.hint.words(" is ");
                say_known(self.alloc, &mut self.hint, signature, known)?;
            }
            Found::Left(known) => {
                self.hint.words(match known {
                    Known::Sort(_) => " leaves a term ",
                    _ => " leaves ",
                });
                say_known(self.alloc, &mut self.hint, signature, known)?;
            }
            Found::Bound(known, place) => {
                self.say_bound(place);
                say_known(self.alloc, &mut self.hint, signature, known)?;
            }
        }
        say_wanted(self.alloc, &mut self.hint, signature, fault.wanted)
    }

    // Says where a variable was bound, if that is known.
    fn say_bound(&mut self, place: Place) {
        if place.is_nowhere() {
            self.hint.words(" is ");
        } else {
            let at = self.at(self.bytes_of(place));
            say!(self.hint; ", bound at {}, is ", at);
        }
    }
}

// Appends what is known of terms.
fn say_known(
    alloc: Global,
    hint: &mut Diagnostic,
    signature: &Signature,
    known: Known,
) -> Result<(), NoMemory> {
    match known {
        Known::Any => hint.words("something else"),
        Known::List => hint.words("a list"),
        Known::Tuple(count) => {
            say!(hint; "a tuple of {}", Fill::Count(count as u64, "term"));
        }
        Known::Sort(sort) => {
            hint.words("of the sort ");
            say_sort(alloc, hint, signature, sort)?;
        }
    }
    Ok(())
}

fn say_wanted(
    alloc: Global,
    hint: &mut Diagnostic,
    signature: &Signature,
    sort: Sort,
) -> Result<(), NoMemory> {
    hint.words("; ");
    say_sort(alloc, hint, signature, sort)?;
    hint.words(" is wanted there");
    Ok(())
}

fn say_sort(
    alloc: Global,
    hint: &mut Diagnostic,
    signature: &Signature,
    sort: Sort,
) -> Result<(), NoMemory> {
    let mut text = Vec::new(alloc);
    signature.sorts.write(sort, &mut text)?;
    say!(hint; "{}", Fill::Quoted(&text));
    drop(text);
    Ok(())
}

/// What the modules of a history declare. The one of the last name, if it is there, is read after the
/// others, which are read in the order of their names.
///
/// Errors: `NoMemory` if memory can't grow.
pub fn signature_of(alloc: Global, history: &Timeline, last: &[u8]) -> Result<Signature, NoMemory> {
    let mut signature = Signature::new(alloc)?;
    let mut newest = None;
    for name in history.module_names()?.iter() {
        if let Some(text) = history.module_text(name) {
            if name.bytes() == last {
                newest = Some(text);
            } else {
                signature.read(alloc, name.bytes(), text)?;
            }
        }
    }
    if let Some(text) = newest {
        signature.read(alloc, last, text)?;
    }
    signature.sorts.close()?;
    Ok(signature)
}

/// What the modules of a history declare after one of this name and text was loaded. `before` is what
/// they declared before that, if it is known.
///
/// Errors: `NoMemory` if memory can't grow.
pub fn signature_after(
    alloc: Global,
    history: &Timeline,
    before: Option<Signature>,
    name: &[u8],
    text: &[u8],
) -> Result<Signature, NoMemory> {
    match before {
        Some(mut signature) if !signature.has_module(name) => {
            signature.read(alloc, name, text)?;
            signature.sorts.close()?;
            Ok(signature)
        }
        _ => signature_of(alloc, history, name),
    }
}

/// The subterm that a command applies a strategy to, if it is there.
///
/// Errors: `NoMemory` if memory can't grow.
pub fn part_before(
    alloc: Global,
    history: &Timeline,
    parts: &CommandParts<'_>,
) -> Result<Option<Term>, NoMemory> {
    let path = parts.path_or_root(alloc)?;
    let tree = parts.tree(alloc, history);
    let part = tree.and_then(|tree| at(tree, &path));
    drop(path);
    match part {
        Some(part) => Ok(Some(part.try_clone()?)),
        None => Ok(None),
    }
}

/// What is said of an `apply` that was accepted, and that put a subterm where another sort is wanted. It
/// was applied to this one.
///
/// Errors: `NoMemory` if memory can't grow.
pub fn warn_of_result(
    alloc: Global,
    history: &Timeline,
    command: &ScriptCommand<'_>,
    signature: &Signature,
    before: &Term,
) -> Result<Option<Diagnostic>, NoMemory> {
    let Some(tree) = command.parts.tree(alloc, history) else {
        return Ok(None);
    };
    let path = command.parts.path_or_root(alloc)?;
    let Some(after) = at(tree, &path) else {
        return Ok(None);
    };
    let known = signature.known_at(tree, path.parts());
    let Some(fault) = new_fault(alloc, signature, before, after, known)? else {
        return Ok(None);
    };
    let mut hint = warning(alloc, "ill-sorted", origin_of(command));
    hint.words("at ");
    hint.path(path.parts(), &fault.path);
    say_fault(alloc, &mut hint, signature, after, &fault)?;
    drop(fault);
    drop(path);
    Ok(Some(hint))
}

// Says what stands there, and what is wanted.
fn say_fault(
    alloc: Global,
    hint: &mut Diagnostic,
    signature: &Signature,
    part: &Term,
    fault: &TermFault,
) -> Result<(), NoMemory> {
    let Some(term) = at_parts(part, &fault.path) else {
        return Ok(());
    };
    hint.words(" there is ");
    hint.root(term.kind(), term.child_count());
    if let (Kind::Application(name), Known::Sort(sort)) = (
        term.kind(),
        signature.known_of_root(term),
    )
        && !name.is_quoted()
    {
        hint.words(", of the sort ");
        say_sort(alloc, hint, signature, sort)?;
    }
    say_wanted(alloc, hint, signature, fault.wanted)
}
