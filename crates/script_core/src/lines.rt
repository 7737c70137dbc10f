//! The lines of answers. Each call replaces what was in the answer.

ghost use Rattle.std.specs.Prelude.{◌≡◌, ◌⊎◌, [], Err, OnOk, IfErr, codes, option_copied};
ghost use Rattle.aterm_text.specs.Layout.{pretty as pretty_of};
ghost use Rattle.aterm_text.specs.Printed.{print as print_of};
ghost use Rattle.session_history.specs.Differences.{base_of, TellsChanges};
ghost use Rattle.session_history.specs.Dump.{dumped};
ghost use Rattle.script_text.specs.Replies.{line, listed, counted};

use crate::buffer::Answer;
use prim_core::Meaning;
use session_core::{Refusal, Session};
use term_core::{Label, NoMemory, Term};

impl Answer {
    #[inline(always)]
    pub(crate) fn write_ok(&mut self)
        ensures { self.new ≡ line (codes "ok") }
    {
        self.clear();
        self.append_short(b"ok\n");
    }

    /// Writes a printed tree as a line: `f(a)` and a line feed, for example, in place of what was
    /// there.
    ///
    /// Errors: `NoMemory` if memory can't grow.
    pub fn write_term(&mut self, tree: &Term) -> Result<(), NoMemory>
        ensures { OnOk result (self.new ≡ line (print_of tree.now)) }
    {
        self.clear();
        self.append_term(tree)?;
        self.push(b'\n')
    }

    /// Writes a tree over lines, with a line feed at the end, in place of what was there.
    ///
    /// Errors: `NoMemory` if memory can't grow.
    pub fn write_pretty(&mut self, tree: &Term) -> Result<(), NoMemory>
        ensures { OnOk result (self.new ≡ line (pretty_of 0 tree.now)) }
    {
        self.clear();
        self.append_pretty(tree)?;
        self.push(b'\n')
    }

    /// Writes what the last step changed, or only what it changed of the name.
    pub(crate) fn write_diff<M: Meaning>(
        &mut self,
        session: &mut Session<M>,
        name: Option<&Label>,
    ) -> Result<(), Refusal>
        ensures same { session.new ≡ session.old }
        ensures ok { OnOk result (TellsChanges (option_copied name.entry) session.old [] self.new) }
        ensures refused { IfErr result (λ refusal. (refusal ≡ Refusal.Memory) ⊎ (base_of session.old ≡ Err refusal)) }
    {
        self.clear();
        self.append_diff(session, name)
    }

    pub(crate) fn write_line(&mut self, text: &[u8]) -> Result<(), NoMemory>
        ensures { OnOk result (self.new ≡ line text.now) }
    {
        self.clear();
        self.append(text)?;
        self.push(b'\n')
    }

    // Writes a word and the names as one line.
    pub(crate) fn write_names(&mut self, word: &[u8], names: &[Label]) -> Result<(), NoMemory>
        ensures { OnOk result (self.new ≡ listed word.now names.now) }
    {
        self.clear();
        self.append(word)?;
        for name in names {
            self.push(b' ')?;
            self.append(name.bytes())?;
        }
        self.push(b'\n')
    }

    // Writes the numbers of steps to undo and to redo.
    pub(crate) fn write_counts<M: Meaning>(&mut self, session: &Session<M>) -> Result<(), NoMemory>
        ensures { OnOk result (self.new ≡ counted session.now) }
    {
        let (past, later) = session.counts();
        self.clear();
        self.append(b"undo ")?;
        self.append_number(past)?;
        self.append(b" redo ")?;
        self.append_number(later)?;
        self.push(b'\n')
    }

    pub(crate) fn write_dump<M: Meaning>(&mut self, session: &Session<M>) -> Result<(), NoMemory>
        ensures { OnOk result (self.new ≡ dumped session.now.now) }
    {
        self.clear();
        self.append_dump(session)
    }
}
