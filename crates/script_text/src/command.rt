//! The forms of commands.

ghost use Rattle.std.specs.Prelude.{◌≡◌, ◌≤◌, length, ◌⊎◌, ℕ, List, true, false, IfOk, IfErr, Ok, Err, Some, None, option_copied, option_map};
ghost use Rattle.std.specs.List.{prefix_len, suffix_len, position_or_len};
ghost use Rattle.term_core.specs.Word.{label_of};
ghost use Rattle.term_paths.specs.PathText.{path_of};
ghost use Rattle.aterm_text.specs.Tokens.{is_blank, without_blanks};
ghost use Rattle.script_text.specs.Script.{without_end};
ghost use Rattle.script_text.specs.declared.command.Budgets.{Budgets};
ghost use Rattle.script_text.specs.Form.{tree, put, annotate, set_module, apply, preview, show, pretty, diff, command_of, form_of, checked, has_labels, strategy_form, last_name, optional_name, last_steps, option_word, after_option, path_or_root, budget_or, up_to, ended, is_without_memory, takes_no_memory, front_word, after_word, has_word};
ghost use Rattle.script_text.specs.CommandView.{form as form_seen};
ghost use Rattle.script_text.specs.KeywordView.{form_after, is_without_memory_after, tree_form, copy_form, put_form, annotate_form, module_form, show_form, pretty_form};
ghost use Rattle.script_text.specs.Reading.{ReadRight};

use crate::keyword::{Keyword, keyword_of};
use aterm_text::is_blank;
use session_history::{MAX_STEPS, Refusal};
use std::alloc::Global;
use term_core::Label;
use term_paths::{Path, PathFault, read_number, read_path};

/// The budgets of commands: numbers of steps.
#[derive(Clone, Copy)]
pub struct Budgets {
    /// The greatest that a command may name.
    pub most: u32,
    /// That of a command that names none.
    pub usual: u32,
}

/// A command, with its operands.
#[derive(Drop)]
pub enum Command<'a> {
    /// Sets the tree of the name to the term of the text.
    Tree(Label, &'a [u8]),
    /// Sets the tree of the second name to a copy of that of the first.
    Copy(Label, Label),
    /// Removes the tree of the name.
    Drop(Label),
    /// Replaces the subterm at the path by the term of the text.
    Put(Label, Path, &'a [u8]),
    /// Replaces the annotations there by those of the text.
    Annotate(Label, Path, &'a [u8]),
    /// Sets the text of the name's module.
    Module(Label, &'a [u8]),
    /// Removes the module of the name.
    Unload(Label),
    /// Applies the strategy of the text at the path, within this budget.
    Apply(Label, Path, u32, &'a [u8]),
    /// Shows what that would replace, with the same operands.
    Preview(Label, Path, u32, &'a [u8]),
    /// Goes this many steps back.
    Undo(u32),
    /// Goes this many steps forward.
    Redo(u32),
    /// Begins a group.
    Begin,
    /// Makes the changes of a group one step.
    Commit,
    /// Undoes the changes of a group.
    Abandon,
    /// Shows the subterm at the path.
    Show(Label, Path),
    /// Shows it over lines.
    Pretty(Label, Path),
    /// Shows what the last step changed, or only what it changed of the name.
    Diff(Option<Label>),
    /// Lists the names of the trees.
    Trees,
    /// Lists the names of the modules.
    Modules,
    /// Shows the text of the name's module.
    Text(Label),
    /// Counts the steps.
    History,
    /// Writes a script that restores the contents.
    Dump,
}

impl<'a> Command<'a> {
    /// Reads a command. Its form is tested before its names. `undo`, `redo`, `begin` and `abandon`
    /// take no memory.
    ///
    /// Errors: `Line` if the command has none of the forms above; `Name` if a name is no word or is
    /// longer than 64 bytes; `Memory` if memory can't grow.
    pub fn read(alloc: Global, command: &'a [u8], budgets: Budgets) -> Result<Command<'a>, Refusal>
        ensures ok { IfOk result (λ read. command_of budgets command.now ≡ Ok (form_seen read)) }
        ensures without_memory { IfOk result (λ read. takes_no_memory command.now
            ≡ is_without_memory (form_seen read)) }
        ensures refused { IfErr result (λ refusal. ((refusal ≡ Refusal.Memory)
            × (takes_no_memory command.now ≡ false))
            ⊎ (command_of budgets command.now ≡ Err refusal)) }
    {
        let (keyword, rest) = split_keyword(command);
        Command::read_form(alloc, keyword, rest, budgets)
    }

    /// Reads the form that this keyword starts, given what follows it in the command.
    ///
    /// Errors: those of `read`.
    pub fn read_form(
        alloc: Global,
        keyword: Keyword,
        rest: &'a [u8],
        budgets: Budgets,
    ) -> Result<Command<'a>, Refusal>
        ensures { ReadRight (form_after keyword budgets rest.now) (is_without_memory_after keyword) result }
    {
        match keyword {
            Keyword::Tree => {
                let (name, text) = read_name_and_text(alloc, rest)?;
                Ok(Command::Tree(name, text))
            }
            Keyword::Copy => read_copy(alloc, rest),
            Keyword::Drop => Ok(Command::Drop(read_last_name(alloc, rest)?)),
            Keyword::Put => {
                let (name, path, text) = read_path_and_text(alloc, rest)?;
                Ok(Command::Put(name, path, text))
            }
            Keyword::Annotate => {
                let (name, path, text) = read_path_and_text(alloc, rest)?;
                Ok(Command::Annotate(name, path, text))
            }
            Keyword::Module => {
                let (name, text) = read_name_and_text(alloc, rest)?;
                Ok(Command::Module(name, text))
            }
            Keyword::Unload => Ok(Command::Unload(read_last_name(alloc, rest)?)),
            Keyword::Apply => {
                let (name, path, budget, text) = read_strategy_parts(alloc, rest, budgets)?;
                Ok(Command::Apply(name, path, budget, text))
            }
            Keyword::Preview => {
                let (name, path, budget, text) = read_strategy_parts(alloc, rest, budgets)?;
                Ok(Command::Preview(name, path, budget, text))
            }
            Keyword::Undo => Ok(Command::Undo(read_steps(rest)?)),
            Keyword::Redo => Ok(Command::Redo(read_steps(rest)?)),
            Keyword::Begin => read_ended(Command::Begin, rest),
            Keyword::Commit => read_ended(Command::Commit, rest),
            Keyword::Abandon => read_ended(Command::Abandon, rest),
            Keyword::Show => {
                let (name, path) = read_name_and_place(alloc, rest)?;
                Ok(Command::Show(name, path))
            }
            Keyword::Pretty => {
                let (name, path) = read_name_and_place(alloc, rest)?;
                Ok(Command::Pretty(name, path))
            }
            Keyword::Diff => Ok(Command::Diff(read_optional_name(alloc, rest)?)),
            Keyword::Trees => read_ended(Command::Trees, rest),
            Keyword::Modules => read_ended(Command::Modules, rest),
            Keyword::Text => Ok(Command::Text(read_last_name(alloc, rest)?)),
            Keyword::History => read_ended(Command::History, rest),
            Keyword::Dump => read_ended(Command::Dump, rest),
            Keyword::Other => Err(Refusal::Line),
        }
    }
}

/// The keyword of a command, and what follows it without the blanks at the end.
#[inline(always)]
pub fn split_keyword(command: &[u8]) -> (Keyword, &[u8])
    ensures form { (budgets : Budgets) → form_of budgets command.now ≡ form_after result.0 budgets result.1.now }
    ensures without_memory { takes_no_memory command.now ≡ is_without_memory_after result.0 }
{
    let (word, rest) = split_word(without_last_blanks(command));
    (keyword_of(word), rest)
}

/// Reads a name and a text, with which a command ends.
///
/// Errors: those of `Command::read`.
#[inline(always)]
pub fn read_name_and_text(alloc: Global, rest: &[u8]) -> Result<(Label, &[u8]), Refusal>
    ensures tree { IfOk result (λ read. checked (tree_form rest.now) ≡ Ok (tree read.0 read.1.now)) }
    ensures module { IfOk result (λ read. checked (module_form rest.now) ≡ Ok (set_module read.0 read.1.now)) }
    ensures refused { IfErr result (λ refusal. (refusal ≡ Refusal.Memory)
        ⊎ ((checked (tree_form rest.now) ≡ Err refusal) × (checked (module_form rest.now) ≡ Err refusal))) }
{
    let (name, rest) = split_name(rest)?;
    let text = after_blanks(rest);
    Ok((read_label(alloc, name)?, text))
}

/// Reads a name, a path and a text, with which a command ends.
///
/// Errors: those of `Command::read`.
pub fn read_path_and_text(alloc: Global, rest: &[u8]) -> Result<(Label, Path, &[u8]), Refusal>
    ensures put { IfOk result (λ read. checked (put_form rest.now) ≡ Ok (put read.0 read.1 read.2.now)) }
    ensures annotate { IfOk result (λ read. checked (annotate_form rest.now) ≡ Ok (annotate read.0 read.1 read.2.now)) }
    ensures refused { IfErr result (λ refusal. (refusal ≡ Refusal.Memory)
        ⊎ ((checked (put_form rest.now) ≡ Err refusal) × (checked (annotate_form rest.now) ≡ Err refusal))) }
{
    let (name, rest) = split_name(rest)?;
    let (path, rest) = split_word(rest);
    let text = after_blanks(rest);
    let path = read_path_word(alloc, path)?;
    Ok((read_label(alloc, name)?, path, text))
}

fn read_copy<'a>(alloc: Global, rest: &[u8]) -> Result<Command<'a>, Refusal>
    ensures { ReadRight (copy_form rest.now) false result }
{
    let (name, rest) = split_name(rest)?;
    let (copy, rest) = split_name(rest)?;
    if has_more(rest) {
        return Err(Refusal::Line);
    }
    let name = read_label(alloc, name)?;
    let copy = read_label(alloc, copy)?;
    Ok(Command::Copy(name, copy))
}

// The name and the place of a command `show` or `pretty`.
fn read_name_and_place(alloc: Global, rest: &[u8]) -> Result<(Label, Path), Refusal>
    ensures show { IfOk result (λ read. checked (show_form rest.now) ≡ Ok (show read.0 read.1)) }
    ensures pretty { IfOk result (λ read. checked (pretty_form rest.now) ≡ Ok (pretty read.0 read.1)) }
    ensures refused { IfErr result (λ refusal. (refusal ≡ Refusal.Memory)
        ⊎ ((checked (show_form rest.now) ≡ Err refusal) × (checked (pretty_form rest.now) ≡ Err refusal))) }
{
    let (name, rest) = split_name(rest)?;
    let (word, rest) = split_option(b"at", rest);
    if has_more(rest) {
        return Err(Refusal::Line);
    }
    let path = read_place(alloc, word)?;
    Ok((read_label(alloc, name)?, path))
}

// The name, the path, the budget and the text of a command `apply` or `preview`.
fn read_strategy_parts(
    alloc: Global,
    rest: &[u8],
    budgets: Budgets,
) -> Result<(Label, Path, u32, &[u8]), Refusal>
    ensures apply { IfOk result (λ read. checked (strategy_form apply budgets rest.now)
        ≡ Ok (apply read.0 read.1 read.2 read.3.now)) }
    ensures preview { IfOk result (λ read. checked (strategy_form preview budgets rest.now)
        ≡ Ok (preview read.0 read.1 read.2 read.3.now)) }
    ensures refused { IfErr result (λ refusal. (refusal ≡ Refusal.Memory)
        ⊎ ((checked (strategy_form apply budgets rest.now) ≡ Err refusal)
        × (checked (strategy_form preview budgets rest.now) ≡ Err refusal))) }
{
    let (name, rest) = split_name(rest)?;
    let (place, rest) = split_option(b"at", rest);
    let (within, rest) = split_option(b"within", rest);
    let (keyword, text) = split_word(rest);
    if keyword != b"do".as_slice() {
        return Err(Refusal::Line);
    }
    let path = read_place(alloc, place)?;
    let budget = read_budget(within, budgets)?;
    let name = read_label(alloc, name)?;
    Ok((name, path, budget, after_blanks(text)))
}

// A name at the end of a form.
fn read_last_name(alloc: Global, rest: &[u8]) -> Result<Label, Refusal>
    ensures ok { IfOk result (λ label. last_name rest.now ≡ Some label) }
    ensures label { IfOk result (λ label. label_of label ≡ Some label) }
    ensures refused { IfErr result (λ refusal. (refusal ≡ Refusal.Memory)
        ⊎ (((refusal ≡ Refusal.Line) × (last_name rest.now ≡ None))
        ⊎ ((refusal ≡ Refusal.Name) × (name : List ℕ) × (last_name rest.now ≡ Some name)
        × (label_of name ≡ None)))) }
{
    let (name, rest) = split_name(rest)?;
    if has_more(rest) {
        return Err(Refusal::Line);
    }
    read_label(alloc, name)
}

// A name at the end of a form, if there is one.
fn read_optional_name(alloc: Global, rest: &[u8]) -> Result<Option<Label>, Refusal>
    ensures ok { IfOk result (λ name. optional_name rest.now ≡ Some name) }
    ensures label { IfOk result (λ name. has_labels (diff name) ≡ true) }
    ensures refused { IfErr result (λ refusal. (refusal ≡ Refusal.Memory)
        ⊎ (checked (option_map diff (optional_name rest.now)) ≡ Err refusal)) }
{
    if has_more(rest) {
        Ok(Some(read_last_name(alloc, rest)?))
    } else {
        Ok(None)
    }
}

// The path of a word, or the root if there is none.
fn read_place(alloc: Global, word: Option<&[u8]>) -> Result<Path, Refusal>
    ensures ok { IfOk result (λ path. path_or_root (option_copied word.entry) ≡ Some path) }
    ensures refused { IfErr result (λ refusal. (refusal ≡ Refusal.Memory)
        ⊎ ((refusal ≡ Refusal.Line) × (path_or_root (option_copied word.entry) ≡ None))) }
{
    match word {
        Some(word) => read_path_word(alloc, word),
        None => Ok(Path::root(alloc)),
    }
}

fn read_path_word(alloc: Global, word: &[u8]) -> Result<Path, Refusal>
    ensures ok { IfOk result (λ path. path_of word.now ≡ Some path) }
    ensures refused { IfErr result (λ refusal. (refusal ≡ Refusal.Memory)
        ⊎ ((refusal ≡ Refusal.Line) × (path_of word.now ≡ None))) }
{
    match read_path(alloc, word) {
        Ok(path) => Ok(path),
        Err(PathFault::Line) => Err(Refusal::Line),
        Err(PathFault::Memory) => Err(Refusal::Memory),
    }
}

// A number of steps at the end of a form; 1 if it is missing.
fn read_steps(rest: &[u8]) -> Result<u32, Refusal>
    ensures ok { IfOk result (λ steps. last_steps rest.now ≡ Some steps) }
    ensures refused { IfErr result (λ refusal. (refusal ≡ Refusal.Line)
        × (last_steps rest.now ≡ None)) }
{
    let (word, rest) = split_word(rest);
    if word.is_empty() {
        return Ok(1);
    }
    if has_more(rest) {
        return Err(Refusal::Line);
    }
    read_up_to(MAX_STEPS, word)
}

// The budget of a word, or the usual one if there is no word.
fn read_budget(word: Option<&[u8]>, budgets: Budgets) -> Result<u32, Refusal>
    ensures ok { IfOk result (λ n. budget_or budgets (option_copied word.entry) ≡ Some n) }
    ensures refused { IfErr result (λ refusal. (refusal ≡ Refusal.Line)
        × (budget_or budgets (option_copied word.entry) ≡ None)) }
{
    match word {
        Some(word) => read_up_to(budgets.most, word),
        None => Ok(budgets.usual),
    }
}

// The number of a word, from 1 to `most`.
fn read_up_to(most: u32, word: &[u8]) -> Result<u32, Refusal>
    ensures ok { IfOk result (λ number. up_to most word.now ≡ Some number) }
    ensures within { IfOk result (λ number. (1 ≤ number) × (number ≤ most)) }
    ensures refused { IfErr result (λ refusal. (refusal ≡ Refusal.Line)
        × (up_to most word.now ≡ None)) }
{
    match read_number(word) {
        Some(number) if number >= 1 && number <= most as usize => Ok(number as u32),
        _ => Err(Refusal::Line),
    }
}

// A form without further words.
fn read_ended<'a>(form: Command<'a>, rest: &[u8]) -> Result<Command<'a>, Refusal>
    ensures ok { IfOk result (λ read. ended (form_seen form.entry) rest.now
        ≡ Some (form_seen read)) }
    ensures refused { IfErr result (λ refusal. (refusal ≡ Refusal.Line)
        × (ended (form_seen form.entry) rest.now ≡ None)) }
{
    if has_more(rest) {
        return Err(Refusal::Line);
    }
    Ok(form)
}

fn has_more(rest: &[u8]) -> bool
    ensures { result ≡ has_word rest.now }
{
    let (word, _) = split_word(rest);
    !word.is_empty()
}

#[inline(always)]
fn read_label(alloc: Global, name: &[u8]) -> Result<Label, Refusal>
    ensures ok { IfOk result (λ label. label_of name.now ≡ Some label) }
    ensures same { IfOk result (λ label. label ≡ name.now) }
    ensures refused { IfErr result (λ refusal. (refusal ≡ Refusal.Memory)
        ⊎ ((refusal ≡ Refusal.Name) × (label_of name.now ≡ None))) }
{
    Ok(Label::read(alloc, name)?)
}

// ---- words

// Most bytes are beyond the blanks, and are told apart by one test.
#[inline(always)]
fn is_space(byte: u8) -> bool
    ensures { result ≡ is_blank byte }
{
    byte <= b' ' && is_blank(byte)
}

fn after_blanks(text: &[u8]) -> &[u8]
    ensures { result.now ≡ without_blanks text.now }
{
    &text[blanks_at_start(text)..]
}

fn blanks_at_start(text: &[u8]) -> usize
    ensures run { result ≡ prefix_len is_blank text.now }
    ensures within { result ≤ length text.now }
{
    text.iter().take_while(|b| is_space(**b)).count()
}

fn without_last_blanks(text: &[u8]) -> &[u8]
    ensures { result.now ≡ without_end is_blank text.now }
{
    &text[..text.len() - blanks_at_end(text)]
}

fn blanks_at_end(text: &[u8]) -> usize
    ensures run { result ≡ suffix_len is_blank text.now }
    ensures within { result ≤ length text.now }
{
    text.iter().rev().take_while(|b| is_space(**b)).count()
}

// The first word of a text, empty if there is none, and what follows it.
#[inline(always)]
fn split_word(text: &[u8]) -> (&[u8], &[u8])
    ensures word { result.0.now ≡ front_word text.now }
    ensures after { result.1.now ≡ after_word text.now }
{
    let text = after_blanks(text);
    text.split_at(word_len(text))
}

// The word at the start of a text, where a name has to be, and what follows it.
#[inline(always)]
fn split_name(text: &[u8]) -> Result<(&[u8], &[u8]), Refusal>
    ensures ok { IfOk result (λ parts. (has_word text.now ≡ true)
        × (parts.0.now ≡ front_word text.now) × (parts.1.now ≡ after_word text.now)) }
    ensures refused { IfErr result (λ refusal. (refusal ≡ Refusal.Line) × (has_word text.now ≡ false)) }
{
    let (word, rest) = split_word(text);
    if word.is_empty() {
        return Err(Refusal::Line);
    }
    Ok((word, rest))
}

// If this keyword comes next: the word after it, and what follows that; else nothing, and the whole
// text.
fn split_option<'a>(keyword: &[u8], rest: &'a [u8]) -> (Option<&'a [u8]>, &'a [u8])
    ensures word { option_copied result.0 ≡ option_word keyword.now rest.now }
    ensures after { result.1.now ≡ after_option keyword.now rest.now }
{
    let (word, after) = split_word(rest);
    if word != keyword {
        return (None, rest);
    }
    let (word, after) = split_word(after);
    (Some(word), after)
}

fn word_len(text: &[u8]) -> usize
    ensures run { result ≡ position_or_len is_blank text.now }
    ensures within { result ≤ length text.now }
{
    text.iter().take_while(|b| !is_space(**b)).count()
}
