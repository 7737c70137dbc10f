//! The answers of a call, in a buffer whose room stays for the next call.

ghost use Rattle.std.specs.Prelude.{◌≡◌, ◌++◌, [], length, IfOk, OnOk, OnErr, IfErr, true, false, is_some, if◌then◌else◌};
ghost use Rattle.script_text.specs.Answer.{ReplyInRun, TellsRefusal};
ghost use Rattle.script_text.specs.FedRight.{handed_out};
ghost use Rattle.stratbench_c.specs.Loads.{Shows, Shown};
ghost use Rattle.stratbench_c.specs.Runs.{Adds, AreCopied};
ghost use Rattle.stratbench_c.specs.Status.{HasCause};

use crate::showing::write_tree;
use crate::status::Status;
use prim_core::Meaning;
use script_core::{Answer, Piece, Watch, answer_watched};
use session_core::{Refusal, Session, Stop};
use std::alloc::Global;
use std::marker::Model;
use term_core::NoMemory;

/// Answers, one after the other.
///
/// A command is answered in a buffer of its own, where want of memory is an answer. It is appended
/// to the others before the next command is run: if memory can't grow for that, no answer is lost.
#[derive(Drop)]
pub struct Answers {
    others: Vec<u8>,
    last: Answer,
    // Whether the last answer is not among the others.
    follows: bool,
}

impl Model for Answers {
    ghost use Rattle.std.specs.Prelude.{ℕ, List, [], ◌++◌, if◌then◌else◌};

    ghost Value = { List ℕ };

    ghost view = { λ a. a.others.items ++ (if a.follows then a.last else []) };
}

/// Why a command isn't answered.
#[derive(Drop)]
pub enum Unanswered {
    /// Memory couldn't grow for the answers so far.
    Memory,
    /// It was stopped, or would have been.
    Stopped,
}

impl Answers {
    /// None yet.
    pub fn new(alloc: Global) -> Result<Answers, NoMemory>
        ensures { IfOk result (λ answers. answers ≡ []) }
    {
        let last = Answer::new(alloc)?;
        Ok(Answers {
            others: Vec::new(alloc),
            last,
            follows: false,
        })
    }

    /// Drops all answers. Their room stays.
    pub fn clear(&mut self)
        ensures { self.new ≡ [] }
    {
        self.others.clear();
        self.follows = false;
    }

    /// Answers one more command, and returns whether it was accepted. `budget` is that of a command
    /// that names none. The observer sees the command and how it is answered. `stop` is what the
    /// runs of the session heed.
    ///
    /// Errors: if memory can't grow for the answers so far, or the stop is asked for by then, the
    /// command isn't run, and all stays. A command that is refused once it is asked for isn't
    /// answered: it is taken as one that wasn't run.
    #[tactic(auto, using(crate::proofs::ProgressLemmas::refused_stays))]
    pub fn add<M: Meaning, W: Watch<M>>(
        &mut self,
        alloc: Global,
        session: &mut Session<M>,
        command: Piece<'_>,
        budget: u32,
        stop: Option<&Stop>,
        watch: &mut W,
    ) -> Result<bool, Unanswered>
        ensures ok { IfOk result (λ accepted. Adds (ReplyInRun M.meaning budget) (handed_out command.entry)
            session.old session.new self.old self.new accepted) }
        ensures answers { OnErr result (self.new ≡ self.old) }
        ensures session { OnErr result (session.new ≡ session.old) }
        ensures cause { IfErr result (λ why. HasCause why (is_some stop.entry)) }
    {
        let Ok(()) = gather(&mut self.others, &self.last, &mut self.follows) else {
            return Err(Unanswered::Memory);
        };
        if is_asked(stop) {
            return Err(Unanswered::Stopped);
        }
        let accepted = answer_watched(alloc, session, command, budget, &mut self.last, watch);
        if !accepted && is_asked(stop) {
            return Err(Unanswered::Stopped);
        }
        self.follows = true;
        Ok(accepted)
    }

    /// The answer of a load, in place of all others: none, or the refusal.
    pub fn tell(&mut self, outcome: Result<(), Refusal>) -> Status
        ensures ok { OnOk outcome ((result ≡ Status.Accepted) × (self.new ≡ [])) }
        ensures refused { IfErr outcome (λ refusal. (result ≡ Status.Refused) × TellsRefusal self.new refusal) }
    {
        self.others.clear();
        match outcome {
            Ok(()) => {
                self.follows = false;
                Status::Accepted
            }
            Err(refusal) => {
                self.last.refuse(&refusal);
                self.follows = true;
                Status::Refused
            }
        }
    }

    /// Answers the text of a tree, in place of all others; or the refusal, if there is none of this
    /// name.
    pub fn show<M: Meaning>(&mut self, alloc: Global, session: &Session<M>, name: &[u8]) -> Status
        ensures { Shown (Shows name.now session.now) result self.new }
    {
        self.others.clear();
        self.follows = true;
        match write_tree(alloc, session, name, &mut self.last) {
            Ok(()) => Status::Accepted,
            Err(refusal) => {
                self.last.refuse(&refusal);
                Status::Refused
            }
        }
    }

    /// The number of bytes of all answers.
    pub fn len(&self) -> usize
        ensures { result ≡ length self.now }
    {
        self.others.len() + following(&self.last, self.follows).len()
    }

    /// Copies all answers to the start of `out` if there is room for them, and returns their
    /// length.
    pub fn copy_to(&self, out: &mut [u8]) -> usize
        ensures { AreCopied self.now out.old out.new result }
    {
        copy_both(&self.others, following(&self.last, self.follows), out)
    }
}

// Whether there is a stop that is asked for.
#[inline(always)]
fn is_asked(stop: Option<&Stop>) -> bool
    ensures { (result ≡ true) → (is_some stop.entry ≡ true) }
{
    match stop {
        Some(stop) => stop.is_asked(),
        None => false,
    }
}

// Appends the last answer to the others, if it follows. If memory can't grow, all stays.
fn gather(others: &mut Vec<u8>, last: &Answer, follows: &mut bool) -> Result<(), NoMemory>
    ensures ok { OnOk result (others.new.items
        ≡ others.old.items ++ (if follows.old then last.now else [])) }
    ensures gathered { OnOk result (follows.new ≡ false) }
    ensures err { OnErr result (others.new.items ≡ others.old.items) }
    ensures same { OnErr result (follows.new ≡ follows.old) }
{
    if *follows {
        others.extend_from_slice(last.bytes())?;
        *follows = false;
    }
    Ok(())
}

// The bytes of the last answer, or none if it doesn't follow.
fn following(last: &Answer, follows: bool) -> &[u8]
    ensures { result.now ≡ (if follows then last.now else []) }
{
    if follows { last.bytes() } else { &[] }
}

/// Copies both, one after the other, to the start of `out` if there is room for them, and returns
/// their length.
pub fn copy_both(front: &[u8], back: &[u8], out: &mut [u8]) -> usize
    ensures { AreCopied (front.now ++ back.now) out.old out.new result }
{
    let len = front.len() + back.len();
    if len <= out.len() {
        out[..front.len()].copy_from_slice(front);
        out[front.len()..len].copy_from_slice(back);
    }
    len
}
