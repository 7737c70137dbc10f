//! Modules that are only looked at.

use crate::explaining::{Shown, shown_name};
use crate::loading::{FromFile, with_fault};
use crate::reading::{limit_of, read_file, read_whole};
use crate::status::{FileFault, file_status};
use command_line::{CommandLine, Escaped, Load};
use hint_text::split_word;
use observing::{LoadedText, Observer};
use prim_core::Meaning;
use session_core::{Refusal, Session};
use session_loading::load_module;
use std::io::Write;
use term_core::{Label, NoMemory};

// What standard input is called, and a module whose text doesn't begin with its name.
const INPUT: &str = "standard input";

const NAMELESS: &[u8] = b"text";

// The text of a module, and the file that it is from, as messages name it.
#[derive(Drop)]
struct LookedAt {
    name: Label,
    file: String,
    text: Vec<u8>,
}

impl FromFile for LookedAt {
    fn name(&self) -> &Label {
        &self.name
    }
}

impl LookedAt {
    fn as_loaded(&self) -> LoadedText<'_> {
        LoadedText {
            word: "module",
            name: self.name.bytes(),
            file: &self.file,
            text: &self.text,
        }
    }
}

// A file that can't be looked at, and why.
#[derive(Drop)]
struct Unread<'a> {
    file: &'a str,
    fault: FileFault,
}

/// Says on standard error what is wrong with the modules of the command line, and with its file as one
/// more: that is standard input for `-`, and where nothing is named. Returns the exit status: 0 if
/// nothing is wrong, 1 if a module is refused, 3 if a file can't be read, 4 for want of memory.
pub fn check_modules<M: Meaning>(
    rt: &HostRuntime,
    session: &mut Session<M>,
    line: &CommandLine<'_>,
    observer: &mut Observer<'_>,
) -> u8 {
    match read_modules(rt, line) {
        Ok(texts) => check_texts(rt, session, &texts, observer),
        Err(unread) => {
            let _ = match &unread.fault {
                FileFault::Read(error) => {
                    eprintln!(rt;
                        "stratbench: read fault: {}\n    {error}",
                        Escaped(unread.file)
                    )
                }
                _ => eprintln!(rt; "stratbench: no memory: {}", Escaped(unread.file)),
            };
            file_status(&unread.fault)
        }
    }
}

fn read_modules<'a>(
    rt: &HostRuntime,
    line: &'a CommandLine<'_>,
) -> Result<Vec<LookedAt>, Unread<'a>> {
    let mut texts = Vec::new(rt.alloc());
    for load in &line.loads {
        if let Load::Module(named) = load {
            let looked = looked_at(rt, line, named.file, Some(&named.name));
            push(&mut texts, named.file, looked)?;
        }
    }
    let file = match line.file {
        None if !texts.is_empty() => return Ok(texts),
        None | Some("-") => INPUT,
        Some(file) => file,
    };
    let looked = looked_at(rt, line, file, None);
    push(&mut texts, file, looked)?;
    Ok(texts)
}

fn push<'a>(
    texts: &mut Vec<LookedAt>,
    file: &'a str,
    looked: Result<LookedAt, FileFault>,
) -> Result<(), Unread<'a>> {
    match looked {
        Ok(looked) => match texts.push(looked) {
            Ok(()) => Ok(()),
            Err(_) => Err(Unread {
                file,
                fault: FileFault::Memory,
            }),
        },
        Err(fault) => Err(Unread { file, fault }),
    }
}

// The text of a file, or of standard input, as the module of this name, or else of its own.
fn looked_at(
    rt: &HostRuntime,
    line: &CommandLine<'_>,
    file: &str,
    name: Option<&Label>,
) -> Result<LookedAt, FileFault> {
    let limit = limit_of(line.max_terms);
    let text = if file == INPUT {
        read_whole(rt.alloc(), rt.stdin(), limit)?
    } else {
        read_file(rt, file, limit)?
    };
    let named = match name {
        Some(name) => name.try_clone(),
        None => own_name(rt, &text),
    };
    match (named, shown_name(rt.alloc(), line, file)) {
        (Ok(name), Ok(file)) => Ok(LookedAt { name, file, text }),
        _ => Err(FileFault::Memory),
    }
}

// The name after the word `module` at the start of a text.
fn own_name(rt: &HostRuntime, text: &[u8]) -> Result<Label, NoMemory> {
    let (word, rest) = split_word(text);
    let (name, _rest) = split_word(rest);
    let own = if word == b"module".as_slice() {
        name
    } else {
        NAMELESS
    };
    match Label::read(rt.alloc(), own) {
        Ok(label) => Ok(label),
        Err(_) => match Label::read(rt.alloc(), NAMELESS) {
            Ok(label) => Ok(label),
            Err(_) => Err(NoMemory),
        },
    }
}

// Loads all of them as one step, and says which is refused; they are checked if none is.
fn check_texts<M: Meaning>(
    rt: &HostRuntime,
    session: &mut Session<M>,
    texts: &[LookedAt],
    observer: &mut Observer<'_>,
) -> u8 {
    let mut screen = Shown {
        stream: rt.stderr(),
    };
    if session.begin().is_err() {
        return 4;
    }
    let mut status = 0u8;
    for text in texts {
        if let Err(refusal) = load_module(rt.alloc(), session, &text.name, &text.text) {
            status = status.max(refused(session, text, &refusal, observer, &mut screen));
        }
    }
    if status > 0 {
        return status;
    }
    match session.commit() {
        Ok(()) => {
            observer.see_modules(session);
            for text in texts {
                observer.loaded_together(session, text.as_loaded(), &mut screen);
            }
            0
        }
        Err(refusal) => match with_fault(rt.alloc(), session, texts, &refusal) {
            Some(text) => refused(session, text, &refusal, observer, &mut screen),
            None => 4,
        },
    }
}

fn refused<M: Meaning, W: Write>(
    session: &Session<M>,
    text: &LookedAt,
    refusal: &Refusal,
    observer: &Observer<'_>,
    screen: &mut Shown<W>,
) -> u8 {
    if matches!(refusal, Refusal::Memory) {
        return 4;
    }
    if observer.load_refused(session, text.as_loaded(), refusal, screen) {
        1
    } else {
        4
    }
}
