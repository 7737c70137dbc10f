//! Trees to files.

ghost use Rattle.std.specs.Prelude.{◌≡◌, ◌⊎◌, IfOk, IfErr, Some, None, if◌then◌else◌};
ghost use Rattle.std.specs.FinMap as finmap;
ghost use Rattle.term_core.specs.Tree.{Tree};
ghost use Rattle.aterm_text.specs.Layout.{pretty as pretty_of};
ghost use Rattle.aterm_text.specs.Printed.{print};
ghost use Rattle.script_text.specs.Replies.{line};

use crate::status::FileFault;
use command_line::Named;
use prim_core::Meaning;
use script_core::Answer;
use session_core::{Refusal, Session};
use std::alloc::{AllocError, Global};
use std::fs::{self, File, Metadata};
use std::io::{self, ErrorKind, Write};
use std::os::unix::fs::{MetadataExt, fchown};
use term_core::Label;

// How many names for the new file are tried.
const MAX_TRIES: u32 = 100;

/// The text of the file for the tree of this name, which is the answer of `show`, or of `pretty`.
pub fn file_text<M: Meaning>(
    alloc: Global,
    session: &Session<M>,
    name: &Label,
    pretty: bool,
) -> Result<Answer, Refusal>
    ensures shown { IfOk result (λ text. (tree : Tree)
        × (finmap.get session.now.now.trees name.now ≡ Some tree)
        × (text ≡ line (if pretty then pretty_of 0 tree else print tree))) }
    ensures refused { IfErr result (λ refusal. (refusal ≡ Refusal.Memory)
        ⊎ ((refusal ≡ Refusal.NoTree) × (finmap.get session.now.now.trees name.now ≡ None))) }
{
    let Some(tree) = session.tree(name) else {
        return Err(Refusal::NoTree);
    };
    let mut text = Answer::new(alloc)?;
    if pretty {
        text.write_pretty(tree)?;
    } else {
        text.write_term(tree)?;
    }
    Ok(text)
}

/// Writes a tree to its file, over lines or on one, whole or not at all.
pub fn write_tree<M: Meaning>(
    rt: &HostRuntime,
    session: &Session<M>,
    named: &Named<'_>,
    pretty: bool,
) -> Result<(), FileFault> {
    let text = file_text(rt.alloc(), session, &named.name, pretty)?;
    match replace(rt, named.file, text.bytes()) {
        Ok(()) => Ok(()),
        Err(error) if error.kind() == ErrorKind::OutOfMemory => Err(FileFault::Memory),
        Err(error) => Err(FileFault::Write(error)),
    }
}

// Writes the text beside its place and moves it there. A file that is there keeps its owner, its
// group and its permissions, and a link to it stays one. Left as it is, and refused, is what isn't
// a file, since a file would take the place of a device; a link to nothing, since a file would take
// its place; and a file with further hard links, since those would keep the old text.
fn replace(rt: &HostRuntime, file: &str, text: &[u8]) -> io::Result<()> {
    let there = match fs::metadata(rt, file) {
        Ok(there) => there,
        Err(_) if fs::symlink_metadata(rt, file).is_ok() => return refuse("a link to no file"),
        Err(_) => return write_beside(rt, file, text, None),
    };
    if !there.is_file() {
        return refuse("no file");
    }
    if there.nlink() > 1 {
        return refuse("a file with further hard links");
    }
    let place = fs::canonicalize(rt, file)?;
    write_beside(rt, place.as_str(), text, Some(&there))
}

fn refuse(reason: &'static str) -> io::Result<()> {
    Err(io::Error::new(ErrorKind::InvalidInput, reason))
}

// A name beside the file that is in use is left alone, and the next is tried.
fn write_beside(
    rt: &HostRuntime,
    file: &str,
    text: &[u8],
    there: Option<&Metadata>,
) -> io::Result<()> {
    for number in 0..MAX_TRIES {
        let beside = beside(rt.alloc(), file, number)?;
        match File::create_new(rt, &beside) {
            Ok(new) => {
                let moved = fill_and_move(rt, new, &beside, file, text, there);
                if moved.is_err() {
                    let _ = fs::remove_file(rt, &beside);
                }
                return moved;
            }
            Err(error) if error.kind() == ErrorKind::AlreadyExists => {}
            Err(error) => return Err(error),
        }
    }
    Err(ErrorKind::AlreadyExists.into())
}

// What is written reaches the disk before it is moved, so that no crash leaves half a file.
fn fill_and_move(
    rt: &HostRuntime,
    mut new: File,
    beside: &str,
    file: &str,
    text: &[u8],
    there: Option<&Metadata>,
) -> io::Result<()> {
    if let Some(there) = there {
        keep_owner(&new, there)?;
        new.set_permissions(there.permissions())?;
    }
    new.write_all(text)?;
    if let Some(there) = there {
        // writing takes away the right to run as the owner
        new.set_permissions(there.permissions())?;
    }
    new.sync_all()?;
    fs::rename(rt, beside, file)
}

// Gives the new file the owner and the group of the one that is there.
fn keep_owner(new: &File, there: &Metadata) -> io::Result<()> {
    let made = new.metadata()?;
    if made.uid() == there.uid() && made.gid() == there.gid() {
        return Ok(());
    }
    match fchown(new, Some(there.uid()), Some(there.gid())) {
        Ok(()) => Ok(()),
        Err(_) => refuse("a file whose owner or group can't be kept"),
    }
}

// A name in the same folder.
fn beside(alloc: Global, file: &str, number: u32) -> Result<String, AllocError> {
    format!(in alloc; "{file}.{number}.new")
}
