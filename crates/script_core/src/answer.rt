//! Answering one command.

ghost use Rattle.std.specs.Prelude.{◌≡◌, ◌⊎◌, Ok, Err, OnOk, IfOk, IfErr, is_ok, false, codes};
ghost use Rattle.aterm_text.specs.Grammar.{Spells, SpellsAnnotations};
ghost use Rattle.term_core.specs.Tree.{Tree};
ghost use Rattle.session_history.specs.Acts.{place_of};
ghost use Rattle.script_text.specs.Form.{tree, put, annotate, is_without_memory};
ghost use Rattle.script_text.specs.FedRight.{handed_out};
ghost use Rattle.script_text.specs.Replies.{ReadAs, Replies, budgets_in, line};
ghost use Rattle.script_text.specs.Answer.{Answered, ReplyInRun, TellsRefusal};
ghost use Rattle.script_text.specs.CommandView.{form as form_seen};
ghost use Rattle.script_text.specs.KeywordView.{form_after, is_without_memory_after, tree_form, put_form};
ghost use Rattle.script_core.specs.inside.Performing.{PerformedRight, ReplyToForm, ToldRight, reading_refusal};

use crate::buffer::Answer;
use crate::preview::show_preview;
use crate::watch::{Unwatched, Watch};
use aterm_text::{ReadFault, read, read_annotations};
use prim_core::Meaning;
use script_text::{
    Budgets, Command, Keyword, Piece, read_name_and_text, read_path_and_text, split_keyword,
};
use session_core::{Refusal, Session};
use std::alloc::Global;
use term_core::{Label, Term};
use term_paths::{Path, at};

/// Writes the answer of a command, in place of what was in the buffer, and returns whether the
/// command was accepted. If memory can't grow, the answer is `refused 1 memory` and the session
/// stays as it was. `budget` is that of a command that names none.
///
/// For example, `show t` is answered by `f(a)` and a line feed where that is the tree `t`, and by
/// `refused 5 notree` and a line feed, with `false`, where there is none.
pub fn answer_text<M: Meaning>(
    alloc: Global,
    session: &mut Session<M>,
    command: Piece<'_>,
    budget: u32,
    answer: &mut Answer,
) -> bool
    ensures { Answered (ReplyInRun M.meaning budget) (handed_out command.entry) session.old session.new answer.new result }
{
    answer_watched(alloc, session, command, budget, answer, &mut Unwatched)
}

/// Answers a command as `answer_text` does, and shows the observer whether it was accepted, or
/// which refusal it got.
pub fn answer_watched<M: Meaning, W: Watch<M>>(
    alloc: Global,
    session: &mut Session<M>,
    command: Piece<'_>,
    budget: u32,
    answer: &mut Answer,
    watch: &mut W,
) -> bool
    ensures { Answered (ReplyInRun M.meaning budget) (handed_out command.entry) session.old session.new answer.new result }
{
    watch.expected(session, command);
    match command {
        Piece::Text(text) => {
            let (keyword, rest) = split_keyword(text);
            match keyword {
                Keyword::Tree => answer_tree(alloc, session, text, rest, answer, watch),
                Keyword::Put => answer_put(alloc, session, text, rest, answer, watch),
                _ => answer_form(alloc, session, text, keyword, rest, budget, answer, watch),
            }
        }
        Piece::Long => refuse(session, command, &Refusal::Long, answer, watch),
    }
}

// Shows a refusal to the observer, and writes it.
#[inline(never)]
fn refuse<M: Meaning, W: Watch<M>>(
    session: &Session<M>,
    command: Piece<'_>,
    refusal: &Refusal,
    answer: &mut Answer,
    watch: &mut W,
) -> bool
    ensures refused { result ≡ false }
    ensures told { TellsRefusal answer.new refusal.now }
{
    watch.refused(session, command, refusal);
    answer.refuse(refusal);
    false
}

// Most commands of scripts are of the forms `tree` and `put`. They are performed as they are read:
// a `Command` in between costs 413 instructions more for `tree`, and 206 for `put`. No function
// here is inlined, so that none pays for the variables of another.
#[inline(never)]
fn answer_tree<M: Meaning, W: Watch<M>>(
    alloc: Global,
    session: &mut Session<M>,
    command: &[u8],
    rest: &[u8],
    answer: &mut Answer,
    watch: &mut W,
) -> bool
    ensures { ToldRight (ReplyToForm M.meaning (tree_form rest.now) session.old) false session.old session.new answer.new result }
{
    match read_name_and_text(alloc, rest) {
        Ok((name, text)) => {
            let outcome = set_tree(alloc, session, &name, text);
            tell(outcome, session, command, answer, watch)
        }
        Err(refusal) => refuse(session, Piece::Text(command), &refusal, answer, watch),
    }
}

#[inline(never)]
fn answer_put<M: Meaning, W: Watch<M>>(
    alloc: Global,
    session: &mut Session<M>,
    command: &[u8],
    rest: &[u8],
    answer: &mut Answer,
    watch: &mut W,
) -> bool
    ensures { ToldRight (ReplyToForm M.meaning (put_form rest.now) session.old) false session.old session.new answer.new result }
{
    match read_path_and_text(alloc, rest) {
        Ok((name, path, text)) => {
            let outcome = put(alloc, session, &name, &path, text);
            tell(outcome, session, command, answer, watch)
        }
        Err(refusal) => refuse(session, Piece::Text(command), &refusal, answer, watch),
    }
}

// Shows the outcome of an act to the observer, and writes it.
#[inline(always)]
fn tell<M: Meaning, W: Watch<M>>(
    outcome: Result<(), Refusal>,
    session: &Session<M>,
    command: &[u8],
    answer: &mut Answer,
    watch: &mut W,
) -> bool
    ensures accepted { result ≡ is_ok outcome }
    ensures ok { OnOk outcome (answer.new ≡ line (codes "ok")) }
    ensures refused { IfErr outcome (λ refusal. TellsRefusal answer.new refusal) }
{
    match outcome {
        Ok(()) => {
            answer.write_ok();
            watch.accepted(session, Piece::Text(command));
            true
        }
        Err(refusal) => refuse(session, Piece::Text(command), &refusal, answer, watch),
    }
}

#[inline(never)]
fn answer_form<M: Meaning, W: Watch<M>>(
    alloc: Global,
    session: &mut Session<M>,
    command: &[u8],
    keyword: Keyword,
    rest: &[u8],
    budget: u32,
    answer: &mut Answer,
    watch: &mut W,
) -> bool
    ensures { ToldRight (ReplyToForm M.meaning (form_after keyword (budgets_in session.old budget) rest.now) session.old) (is_without_memory_after keyword)
        session.old session.new answer.new result }
{
    let budgets = budgets_of(session, budget);
    match Command::read_form(alloc, keyword, rest, budgets) {
        Ok(read) => match perform(alloc, session, &read, answer) {
            Ok(()) => {
                watch.accepted(session, Piece::Text(command));
                true
            }
            Err(refusal) => refuse(session, Piece::Text(command), &refusal, answer, watch),
        },
        Err(refusal) => refuse(session, Piece::Text(command), &refusal, answer, watch),
    }
}

// The budgets of commands in the session: this one if a command names none.
fn budgets_of<M: Meaning>(session: &Session<M>, usual: u32) -> Budgets
    ensures { result ≡ budgets_in session.now usual }
{
    Budgets {
        most: session.limits().max_steps,
        usual,
    }
}

// Does what a command says and writes its answer.
#[tactic(auto, using(crate::proofs::AnswerLemmas::by_acts))]
fn perform<M: Meaning>(
    alloc: Global,
    session: &mut Session<M>,
    command: &Command<'_>,
    answer: &mut Answer,
) -> Result<(), Refusal>
    ensures { PerformedRight (Replies M.meaning (form_seen command.now) session.old) (is_without_memory (form_seen command.now)) result
        session.old session.new answer.new }
{
    match command {
        Command::Tree(name, text) => say_ok(set_tree(alloc, session, name, text), answer),
        Command::Copy(name, copy) => say_ok(session.copy_tree(name, copy), answer),
        Command::Drop(name) => say_ok(session.drop_tree(name), answer),
        Command::Put(name, path, text) => say_ok(put(alloc, session, name, path, text), answer),
        Command::Annotate(name, path, text) => {
            say_ok(annotate(alloc, session, name, path, text), answer)
        }
        Command::Module(name, text) => say_ok(session.set_module(name, text), answer),
        Command::Unload(name) => say_ok(session.unload(name), answer),
        Command::Apply(name, path, budget, text) => {
            say_ok(session.apply(name, path, *budget, text), answer)
        }
        Command::Preview(name, path, budget, text) => {
            show_preview(session, name, path, *budget, text, answer)
        }
        Command::Undo(n) => say_ok(session.undo(*n), answer),
        Command::Redo(n) => say_ok(session.redo(*n), answer),
        Command::Begin => say_ok(session.begin(), answer),
        Command::Commit => say_ok(session.commit(), answer),
        Command::Abandon => say_ok(session.abandon(), answer),
        Command::Show(name, path) => Ok(answer.write_term(find_place(session, name, path)?)?),
        Command::Pretty(name, path) => Ok(answer.write_pretty(find_place(session, name, path)?)?),
        Command::Diff(name) => answer.write_diff(session, name.as_ref()),
        Command::Trees => Ok(answer.write_names(b"trees", &session.tree_names()?)?),
        Command::Modules => Ok(answer.write_names(b"modules", &session.module_names()?)?),
        Command::Text(name) => match session.module_text(name) {
            Some(text) => Ok(answer.write_line(text)?),
            None => Err(Refusal::NoModule),
        },
        Command::History => Ok(answer.write_counts(session)?),
        Command::Dump => Ok(answer.write_dump(session)?),
    }
}

// Writes `ok` if the step was accepted.
#[inline(always)]
fn say_ok(outcome: Result<(), Refusal>, answer: &mut Answer) -> Result<(), Refusal>
    ensures same { result ≡ outcome }
    ensures ok { OnOk result (answer.new ≡ line (codes "ok")) }
{
    outcome?;
    answer.write_ok();
    Ok(())
}

#[inline(always)]
fn set_tree<M: Meaning>(
    alloc: Global,
    session: &mut Session<M>,
    name: &Label,
    text: &[u8],
) -> Result<(), Refusal>
    ensures { PerformedRight (Replies M.meaning (tree name.now text.now) session.old) false result session.old session.new
        (line (codes "ok")) }
{
    match read(alloc, text) {
        Ok(tree) => session.set_tree(name, tree),
        Err(fault) => Err(read_refusal(fault)),
    }
}

fn put<M: Meaning>(
    alloc: Global,
    session: &mut Session<M>,
    name: &Label,
    path: &Path,
    text: &[u8],
) -> Result<(), Refusal>
    ensures { PerformedRight (Replies M.meaning (put name.now path.now text.now) session.old) false result session.old session.new
        (line (codes "ok")) }
{
    if let Err(refusal) = find_place(session, name, path) {
        return Err(refusal);
    }
    match read_term(alloc, text) {
        Ok(part) => session.put(name, path, part),
        Err(refusal) => Err(refusal),
    }
}

fn annotate<M: Meaning>(
    alloc: Global,
    session: &mut Session<M>,
    name: &Label,
    path: &Path,
    text: &[u8],
) -> Result<(), Refusal>
    ensures { PerformedRight (Replies M.meaning (annotate name.now path.now text.now) session.old) false result session.old session.new
        (line (codes "ok")) }
{
    if let Err(refusal) = find_place(session, name, path) {
        return Err(refusal);
    }
    match annotations_in(alloc, text) {
        Ok(annotations) => session.annotate(name, path, annotations),
        Err(refusal) => Err(refusal),
    }
}

// The subterm at the path of the name's tree, or the refusal that says which of the two is missing.
fn find_place<'s, M: Meaning>(
    session: &'s Session<M>,
    name: &Label,
    path: &Path,
) -> Result<&'s Term, Refusal>
    ensures found { IfOk result (λ part. (tree : Tree) × (place_of session.now.now name.now path.now
        ≡ Ok (record { tree = tree; part = part.now }))) }
    ensures refused { IfErr result (λ refusal. place_of session.now.now name.now path.now
        ≡ Err refusal) }
{
    let Some(tree) = session.tree(name) else {
        return Err(Refusal::NoTree);
    };
    match at(tree, path) {
        Some(part) => Ok(part),
        None => Err(Refusal::Path),
    }
}

fn read_term(alloc: Global, text: &[u8]) -> Result<Term, Refusal>
    ensures ok { IfOk result (λ term. ReadAs Spells text.now (Ok term)) }
    ensures refused { IfErr result (λ refusal. (refusal ≡ Refusal.Memory)
        ⊎ ReadAs Spells text.now (Err refusal)) }
{
    match read(alloc, text) {
        Ok(term) => Ok(term),
        Err(fault) => Err(read_refusal(fault)),
    }
}

fn annotations_in(alloc: Global, text: &[u8]) -> Result<Vec<Term>, Refusal>
    ensures ok { IfOk result (λ terms. ReadAs SpellsAnnotations text.now (Ok terms.items)) }
    ensures refused { IfErr result (λ refusal. (refusal ≡ Refusal.Memory)
        ⊎ ReadAs SpellsAnnotations text.now (Err refusal)) }
{
    match read_annotations(alloc, text) {
        Ok(terms) => Ok(terms),
        Err(fault) => Err(read_refusal(fault)),
    }
}

fn read_refusal(fault: ReadFault) -> Refusal
    ensures { result ≡ reading_refusal fault }
{
    match fault {
        ReadFault::Deep => Refusal::Deep,
        ReadFault::Term => Refusal::Term,
        ReadFault::Memory => Refusal::Memory,
    }
}
