//! A command, its words by the form that it has, and what came before it.

use aterm_text::{after_blanks, is_blank};
use script_text::{Framing, Keyword, split_keyword};
use session_history::Timeline;
use std::alloc::Global;
use term_core::{Label, NoMemory, Term};
use term_paths::{Path, PathFault, read_number, read_path};

/// The forms of the commands, one a line.
pub const FORMS: &str = "abandon
annotate N P {..}
apply N [at P] [within K] do S
begin
commit
copy N C
diff [N]
drop N
dump
history
module N M
modules
pretty N [at P]
preview N [at P] [within K] do S
put N P T
redo [K]
show N [at P]
text N
tree N T
trees
undo [K]
unload N";

/// The parts of a command. A word that its form doesn't have, or that is missing, is empty or none.
#[derive(Clone, Copy)]
pub struct CommandParts<'a> {
    pub word: &'a [u8],
    pub command: Keyword,
    /// The form that begins with the word; empty if there is none.
    pub form: &'static str,
    /// The first name and the second.
    pub name: &'a [u8],
    pub copy: &'a [u8],
    /// The words in the places of the path, the number and `do`.
    pub path: Option<&'a [u8]>,
    pub number: Option<&'a [u8]>,
    pub keyword: &'a [u8],
    /// The text of a term, annotations, a module or a strategy, or else what follows the form; and
    /// the number of bytes before it.
    pub text: &'a [u8],
    pub at: usize,
}

/// The first word, empty if there is none, and what follows it.
pub fn split_word(text: &[u8]) -> (&[u8], &[u8]) {
    let text = after_blanks(text);
    let end = text.iter().position(|byte| is_blank(*byte));
    text.split_at(end.unwrap_or(text.len()))
}

// The line of a table that begins with this word; empty if none does.
fn line_of(table: &'static str, word: &[u8]) -> &'static str {
    for line in table.lines() {
        if split_word(line.as_bytes()).0 == word {
            return line;
        }
    }
    ""
}

/// Whether a form, or another list of words, has this one.
pub fn has_word(form: &str, word: &[u8]) -> bool {
    form.split(' ').any(|it| it.as_bytes() == word)
}

/// The parts of a command.
pub fn parts_of(text: &[u8]) -> CommandParts<'_> {
    let (word, after) = split_word(text);
    let (command, rest) = split_keyword(text);
    // The blanks at the end belong to no part.
    let blanks = after.len().saturating_sub(rest.len());
    let mut parts = CommandParts {
        word,
        command,
        form: line_of(FORMS, word),
        name: &[],
        copy: &[],
        path: None,
        number: None,
        keyword: &[],
        text: rest,
        at: 0,
    };
    for operand in parts.form.split(' ').skip(1) {
        parts.take(operand);
    }
    parts.text = after_blanks(parts.text);
    parts.at = text
        .len()
        .saturating_sub(blanks)
        .saturating_sub(parts.text.len());
    parts
}

/// The parts of a command of this word that loads a text under a name: all of its text is that.
pub fn parts_of_load<'a>(word: &'static str, name: &'a [u8], text: &'a [u8]) -> CommandParts<'a> {
    CommandParts {
        text,
        at: 0,
        name,
        ..parts_of(word.as_bytes())
    }
}

impl<'a> CommandParts<'a> {
    // Takes the word in the place of an operand from what follows; of an option the word after its
    // own, if that comes next.
    fn take(&mut self, operand: &str) {
        let (word, mut rest) = split_word(self.text);
        let (next, after) = split_word(rest);
        match operand {
            "N" | "[N]" => self.name = word,
            "C" => self.copy = word,
            "P" => self.path = Some(word),
            "[K]" => self.number = Some(word),
            "do" => self.keyword = word,
            "[at" if word == b"at".as_slice() => {
                self.path = Some(next);
                rest = after;
            }
            "[within" if word == b"within".as_slice() => {
                self.number = Some(next);
                rest = after;
            }
            _ => return,
        }
        self.text = rest;
    }

    /// The path of the command; the root if it has none.
    pub fn path_or_root(&self, alloc: Global) -> Result<Path, NoMemory> {
        match read_path(alloc, self.path.unwrap_or(&[])) {
            Ok(path) => Ok(path),
            Err(PathFault::Line) => Ok(Path::root(alloc)),
            Err(PathFault::Memory) => Err(NoMemory),
        }
    }

    /// The tree of the first name, if there is one.
    pub fn tree<'h>(&self, alloc: Global, history: &'h Timeline) -> Option<&'h Term> {
        match Label::read(alloc, self.name) {
            Ok(name) => history.tree(&name),
            Err(_) => None,
        }
    }

    /// The number of the command; this one if it has none.
    pub fn number_or(&self, other: u32) -> u64 {
        match read_number(self.number.unwrap_or(&[])) {
            Some(number) => number as u64,
            None => u64::from(other),
        }
    }

    /// Whether the text of the command is a module.
    pub fn is_module(&self) -> bool {
        matches!(self.command, Keyword::Module)
    }

    /// Whether the command applies a strategy.
    pub fn is_strategy(&self) -> bool {
        matches!(self.command, Keyword::Apply | Keyword::Preview)
    }

    /// Whether the text of the command is annotations.
    pub fn is_annotations(&self) -> bool {
        matches!(self.command, Keyword::Annotate)
    }

    /// Whether the text of the command is a term.
    pub fn is_term(&self) -> bool {
        matches!(self.command, Keyword::Tree | Keyword::Put)
    }

    /// Whether the form of the command ends with a text.
    pub fn has_text(&self) -> bool {
        self.is_term() || self.is_module() || self.is_strategy() || self.is_annotations()
    }
}

/// What is kept of the commands before.
#[derive(Clone, Copy)]
pub struct Past {
    /// The word of the last one, and the line on which it begins, if it is `module` or `tree`.
    pub before: Option<(&'static str, u64)>,
    /// The line on which the last group was begun, counted from 1, if one was.
    pub group: Option<u64>,
    /// Whether that group is open.
    pub open: bool,
}

impl Past {
    /// What is kept before the first command.
    pub fn new() -> Past {
        Past {
            before: None,
            group: None,
            open: false,
        }
    }

    /// What is kept after a command that begins on this line.
    pub fn after(self, line: u64, command: Keyword, accepted: bool) -> Past {
        let opens = accepted && matches!(command, Keyword::Begin);
        let closes = accepted && matches!(command, Keyword::Commit | Keyword::Abandon);
        Past {
            before: match command {
                Keyword::Module => Some(("module", line)),
                Keyword::Tree => Some(("tree", line)),
                _ => None,
            },
            group: if opens { Some(line) } else { self.group },
            open: opens || (self.open && !closes),
        }
    }
}

/// A command, as it stands in a script; or what loads a file, whose text is then the command's.
#[derive(Clone, Copy)]
pub struct ScriptCommand<'a> {
    /// The file whose text it loads, if it is none of a script.
    pub file: Option<&'a str>,
    /// The line on which it begins, counted from 1.
    pub line: u64,
    /// How many blanks stand on that line before it.
    pub indent: u64,
    /// The lines of the comments within it, in order.
    pub comments: &'a [u64],
    /// Its bytes; none if it is longer than 65,536.
    pub text: &'a [u8],
    /// Its parts.
    pub parts: CommandParts<'a>,
    /// The budget of commands that name none: a number of steps, at least 1.
    pub budget: u32,
    /// Where a command ends.
    pub framing: Framing,
    /// What is kept of the commands before it.
    pub past: Past,
    /// The text of the library's module, if the program offers one that it didn't load.
    pub library: Option<&'a [u8]>,
}
