//! The buffer of a command's answer.

ghost use Rattle.std.specs.Prelude.{◌≡◌, ◌⊎◌, ◌≤◌, ◌+◌, ◌++◌, ◌∷◌, [], Err, IfOk, OnOk, IfErr, decimal, length, option_copied};
ghost use Rattle.aterm_text.specs.Layout.{pretty as pretty_of};
ghost use Rattle.aterm_text.specs.Printed.{print as print_of, print_name as name_printed};
ghost use Rattle.session_history.specs.Differences.{base_of, TellsChanges};
ghost use Rattle.session_history.specs.Dump.{dumped};
ghost use Rattle.script_text.specs.Replies.{replacement_line};

use aterm_text::{pretty, print, print_name};
use itoa::Buffer;
use prim_core::Meaning;
use session_changes::{Side, append_change};
use session_core::{Refusal, Session};
use std::alloc::Global;
use std::marker::Model;
use term_core::{Label, Name, NoMemory, Term};

/// The least capacity of an answer's buffer, so that a refusal always has room.
pub const ANSWER_ROOM: usize = 128;

/// The answer of a command. After a call that fails for want of memory it holds any bytes.
#[derive(Drop)]
pub struct Answer {
    bytes: Vec<u8>,
}

impl Model for Answer {
    ghost use Rattle.std.specs.Prelude.{ℕ, List, ◌≤◌, vec_capacity};

    ghost Value = { List ℕ };

    ghost view = { λ answer. answer.bytes.items };

    ghost use Rattle.script_core.specs.declared.buffer.TheConstants.{ANSWER_ROOM};

    ghost invariant = { λ answer. ANSWER_ROOM ≤ vec_capacity answer.bytes };
}

impl Answer {
    /// An empty answer. Its room is the only memory that a refusal needs, but for long names.
    pub fn new(alloc: Global) -> Result<Answer, NoMemory>
        ensures { IfOk result (λ answer. answer ≡ []) }
    {
        let bytes = Vec::with_capacity(alloc, ANSWER_ROOM)?;
        Ok(Answer { bytes })
    }

    /// The bytes of the answer.
    pub fn bytes(&self) -> &[u8]
        ensures { result.now ≡ self.now }
    {
        &self.bytes
    }

    pub(crate) fn clear(&mut self)
        ensures { self.new ≡ [] }
    {
        self.bytes.clear();
    }

    // Appends bytes for which there is room.
    #[inline(always)]
    pub(crate) fn append_short(&mut self, bytes: &[u8])
        requires { length self.old + length bytes.now ≤ ANSWER_ROOM }
        ensures { self.new ≡ self.old ++ bytes.now }
    {
        self.bytes.extend_from_slice(bytes).unwrap();
    }

    pub(crate) fn append(&mut self, bytes: &[u8]) -> Result<(), NoMemory>
        ensures { OnOk result (self.new ≡ self.old ++ bytes.now) }
    {
        self.bytes.extend_from_slice(bytes)?;
        Ok(())
    }

    pub(crate) fn append_number(&mut self, number: u64) -> Result<(), NoMemory>
        ensures { OnOk result (self.new ≡ self.old ++ decimal number) }
    {
        let mut digits = Buffer::new();
        self.append(digits.format(number).as_bytes())
    }

    pub(crate) fn append_term(&mut self, term: &Term) -> Result<(), NoMemory>
        ensures { OnOk result (self.new ≡ self.old ++ print_of term.now) }
    {
        print(term, &mut self.bytes)
    }

    // Appends a path, what is there, and what would be there. The path of the root is a slash.
    pub(crate) fn append_replacement(
        &mut self,
        path: &[usize],
        old: &Term,
        new: &Term,
    ) -> Result<(), NoMemory>
        ensures { OnOk result (self.new
            ≡ self.old ++ replacement_line (record { path = path.now; old = old.now; new = new.now })) }
    {
        let before: &[u8] = if path.is_empty() { b"/" } else { b"" };
        append_change(
            before,
            path,
            Side::Tree(old),
            Side::Tree(new),
            &mut self.bytes,
        )
    }

    pub(crate) fn append_pretty(&mut self, term: &Term) -> Result<(), NoMemory>
        ensures { OnOk result (self.new ≡ self.old ++ pretty_of 0 term.now) }
    {
        pretty(term, &mut self.bytes)
    }

    pub(crate) fn append_name(&mut self, name: &Name) -> Result<(), NoMemory>
        ensures { OnOk result (self.new ≡ self.old ++ name_printed name.now) }
    {
        print_name(name, &mut self.bytes)
    }

    pub(crate) fn append_dump<M: Meaning>(&mut self, session: &Session<M>) -> Result<(), NoMemory>
        ensures { OnOk result (self.new ≡ self.old ++ dumped session.now.now) }
    {
        session.dump(&mut self.bytes)
    }

    pub(crate) fn append_diff<M: Meaning>(
        &mut self,
        session: &mut Session<M>,
        name: Option<&Label>,
    ) -> Result<(), Refusal>
        ensures same { session.new ≡ session.old }
        ensures ok { OnOk result (TellsChanges (option_copied name.entry) session.old self.old self.new) }
        ensures refused { IfErr result (λ refusal. (refusal ≡ Refusal.Memory) ⊎ (base_of session.old ≡ Err refusal)) }
    {
        session.diff(name, &mut self.bytes)
    }

    pub(crate) fn push(&mut self, byte: u8) -> Result<(), NoMemory>
        ensures { OnOk result (self.new ≡ self.old ++ byte ∷ []) }
    {
        self.bytes.push(byte)?;
        Ok(())
    }
}
