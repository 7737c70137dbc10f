//! The text of a module, as a file has it, made one that a command can give.

ghost use Rattle.std.specs.Prelude.{◌≡◌, ◌≤◌, ◌++◌, OnOk, IfOk, length, if◌then◌else◌};
ghost use Rattle.std.specs.List.{suffix_len};
ghost use Rattle.aterm_text.specs.Tokens.{is_blank};
ghost use Rattle.script_text.specs.Script.{begins_command, is_carriage_return, without_end};
ghost use Rattle.script_text.specs.declared.framing.Framing.TheVariants.{Continued};
ghost use Rattle.script_text.specs.Laws.{IsCommandText};
ghost use Rattle.session_loading.specs.Loading.{module_text_of, next_line};

use aterm_text::{after_blanks, is_blank};
use std::alloc::{AllocError, Global};

/// The text with a blank before each line that begins in the first column, without the carriage
/// returns before line feeds, and without the blanks at both ends.
pub fn module_text(alloc: Global, text: &[u8]) -> Result<Vec<u8>, AllocError>
    ensures made { IfOk result (λ made. made.items ≡ module_text_of text.now) }
    ensures given { IfOk result (λ made. IsCommandText Continued made.items) }
{
    let text = without_last_blanks(after_blanks(text));
    let mut made = Vec::with_capacity(alloc, text.len())?;
    let mut started = false;
    for line in text.split(|b| *b == b'\n') {
        add_line(&mut made, without_returns(line), started)?;
        started = true;
    }
    Ok(made)
}

// Appends the first line, or one that goes on.
fn add_line(made: &mut Vec<u8>, line: &[u8], goes_on: bool) -> Result<(), AllocError>
    ensures { OnOk result (made.new.items
        ≡ made.old.items ++ (if goes_on then next_line line.now else line.now)) }
{
    if goes_on {
        made.push(b'\n')?;
        if begins_command(line) {
            made.push(b' ')?;
        }
    }
    made.extend_from_slice(line)
}

// Whether the line, alone, would begin a command.
fn begins_command(line: &[u8]) -> bool
    ensures { result ≡ begins_command line.now }
{
    match line.first() {
        Some(first) => *first != b' ' && *first != b'\t',
        None => false,
    }
}

fn without_last_blanks(text: &[u8]) -> &[u8]
    ensures { result.now ≡ without_end is_blank text.now }
{
    &text[..text.len() - blanks_at_end(text)]
}

fn blanks_at_end(text: &[u8]) -> usize
    ensures run { result ≡ suffix_len is_blank text.now }
    ensures within { result ≤ length text.now }
{
    text.iter().rev().take_while(|b| is_blank(**b)).count()
}

fn without_returns(line: &[u8]) -> &[u8]
    ensures { result.now ≡ without_end is_carriage_return line.now }
{
    &line[..line.len() - returns_at_end(line)]
}

fn returns_at_end(line: &[u8]) -> usize
    ensures run { result ≡ suffix_len is_carriage_return line.now }
    ensures within { result ≤ length line.now }
{
    line.iter().rev().take_while(|b| **b == b'\r').count()
}
