//! Running a script: reading it in pieces, answering each command when it is complete, and writing
//! the answers.

ghost use Rattle.std.specs.Prelude.{◌≡◌, ◌≤◌, ◌<◌, ◌+◌, ◌*◌, ◌^◌, ◌∷◌, [], Bool, Ok, Err, OnOk, OnErr, IfOk, true, false, not, is_some, Some, length};
ghost use Rattle.script_text.specs.Handed.{Handed, handed, completed};
ghost use Rattle.script_text.specs.Splitting.{StandsAfter};
ghost use Rattle.script_text.specs.Answer.{ReplyInRun};
ghost use Rattle.script_core.specs.Ran.{RunRight, streams};
ghost use Rattle.script_core.specs.inside.Running.{AnswersReady, AnswersBytes, Breaks, Ends, TurnRight};
ghost use Rattle.script_text.specs.Run.{Answers, AnswersPart, AnswersFirst, Completes, BreaksOff};
ghost use Rattle.script_text.specs.inside.Counting.{one_if};

use crate::answer::answer_watched;
use crate::buffer::Answer;
use crate::watch::{Unwatched, Watch};
use prim_core::Meaning;
use script_text::{Failed, Fed, Framing, Sink, Source, Splitter, write_whole};
use session_core::Session;
use std::alloc::Global;
use thiserror::Error;

/// The greatest number of reads in a run.
pub const MAX_READS: u64 = 1_000_000_000;

/// The number of bytes per read.
pub const PIECE: usize = 4096;

/// How a script is run.
#[derive(Clone, Copy, Debug, PartialEq, Eq)]
pub struct Settings {
    /// The budget of commands that name none: a number of steps, at least 1.
    pub steps: u32,
    /// Whether the run ends after the first refused command.
    pub stop: bool,
    /// Where a command ends.
    pub framing: Framing,
}

/// The numbers of accepted and refused commands.
#[derive(Clone, Copy, Debug, PartialEq, Eq)]
pub struct Summary {
    pub accepted: u64,
    pub refused: u64,
}

/// Why a run ended early.
#[derive(Clone, Copy, Debug, PartialEq, Eq, Error)]
pub enum RunFault {
    /// A read failed.
    #[error("read fault")]
    Read,
    /// A write or a flush failed.
    #[error("write fault")]
    Write,
    /// After 1,000,000,000 reads the end wasn't reached.
    #[error("read bound")]
    Turns,
    /// Memory couldn't grow before the first command.
    #[error("no memory")]
    Memory,
}

// The state of a run.
#[derive(Drop)]
struct Running {
    splitter: Splitter,
    answer: Answer,
    summary: Summary,
    settings: Settings,
}

/// Runs a script: each command is answered when it is complete, and its answer is written. A
/// command is complete once the first byte of the next one was read, or by `Framing::Lines` its
/// line feed; or at the end. The sink is flushed before each read and at the end.
///
/// For example, the script `tree t f(a)`, `show t`, `show u`, a line each, is answered by `ok`,
/// `f(a)` and `refused 5 notree`, a line each, with two commands accepted and one refused.
///
/// Errors: `Memory` only before the first command. After `Read` and `Turns` all complete commands
/// of the bytes read are answered; an incomplete one isn't run. After `Write` the first of these
/// are answered, and the sink took their answers, except perhaps for a suffix of the last.
pub fn run<M: Meaning, I: Source, O: Sink>(
    alloc: Global,
    session: &mut Session<M>,
    source: &mut I,
    sink: &mut O,
    settings: Settings,
) -> Result<Summary, RunFault>
    requires source_counts { I.failed source.old + 1 < 2 ^ 64 }
    requires sink_counts { O.failed sink.old + 1 < 2 ^ 64 }

    // Everything read is answered, up to the end of the script; or the run stopped at a refusal.
    ensures done { IfOk result (λ summary. Answers settings.framing settings.stop (ReplyInRun M.meaning settings.steps) session.old session.new
        (I.left source.old) (I.left source.new) (O.held sink.old) (O.held sink.new)
        summary.accepted summary.refused) }
    ensures calm { OnOk result ((I.failed source.new ≡ I.failed source.old)
        × (O.failed sink.new ≡ O.failed sink.old)) }

    // If a read fails, the complete commands are answered; so too after the bound on reads, and
    // then at least that many bytes were read.
    ensures read { result ≡ Err RunFault.Read → (I.failed source.new ≡ I.failed source.old + 1)
        × (O.failed sink.new ≡ O.failed sink.old)
        × AnswersPart settings.framing settings.stop (ReplyInRun M.meaning settings.steps) session.old session.new
        (I.left source.old) (I.left source.new) (O.held sink.old) (O.held sink.new) 0 }
    ensures turns { result ≡ Err RunFault.Turns → ((I.failed source.new ≡ I.failed source.old)
        × (O.failed sink.new ≡ O.failed sink.old))
        × AnswersPart settings.framing settings.stop (ReplyInRun M.meaning settings.steps) session.old session.new
        (I.left source.old) (I.left source.new) (O.held sink.old) (O.held sink.new) MAX_READS }

    // If a write or a flush fails, the first of the complete commands are answered.
    ensures write { result ≡ Err RunFault.Write → (O.failed sink.new ≡ O.failed sink.old + 1)
        × (I.failed source.new ≡ I.failed source.old)
        × AnswersFirst settings.framing settings.stop (ReplyInRun M.meaning settings.steps) session.old session.new
        (I.left source.old) (I.left source.new) (O.held sink.old) (O.held sink.new) }

    // Without memory nothing happened.
    ensures memory { result ≡ Err RunFault.Memory → (session.new ≡ session.old)
        × (source.new ≡ source.old) × (sink.new ≡ sink.old) }
{
    run_watched(alloc, session, source, sink, &mut Unwatched, settings)
}

/// Runs a script as `run` does, and shows to an observer what is read and answered.
///
/// Errors: those of `run`.
pub fn run_watched<M: Meaning, I: Source, O: Sink, W: Watch<M>>(
    alloc: Global,
    session: &mut Session<M>,
    source: &mut I,
    sink: &mut O,
    watch: &mut W,
    settings: Settings,
) -> Result<Summary, RunFault>
    requires source_counts { I.failed source.old + 1 < 2 ^ 64 }
    requires sink_counts { O.failed sink.old + 1 < 2 ^ 64 }
    ensures right { RunRight (ReplyInRun M.meaning) result settings session.old session.new
        (streams (I.left source.old) (O.held sink.old) (I.failed source.old) (O.failed sink.old))
        (streams (I.left source.new) (O.held sink.new) (I.failed source.new) (O.failed sink.new)) }
    ensures memory { result ≡ Err RunFault.Memory → (session.new ≡ session.old)
        × (source.new ≡ source.old) × (sink.new ≡ sink.old) }
{
    let Ok(splitter) = Splitter::new(alloc, settings.framing) else {
        return Err(RunFault::Memory);
    };
    let Ok(answer) = Answer::new(alloc) else {
        return Err(RunFault::Memory);
    };
    let mut running = Running {
        splitter,
        answer,
        summary: Summary {
            accepted: 0,
            refused: 0,
        },
        settings,
    };
    running.answer_all(alloc, session, source, sink, watch)
}

impl Running {
    // Answers the next complete command, and returns whether the run goes on.
    fn answer_ready<M: Meaning, O: Sink, W: Watch<M>>(
        &mut self,
        alloc: Global,
        session: &mut Session<M>,
        sink: &mut O,
        watch: &mut W,
    ) -> Result<bool, Failed>
        requires ready { is_some self.old.splitter.to_hand_out ≡ true }
        requires counts { self.old.summary.accepted + self.old.summary.refused + 1 < 2 ^ 64 }
        requires sink { O.failed sink.old + 1 < 2 ^ 64 }
        ensures answers { IfOk result (AnswersReady (ReplyInRun M.meaning) self.old self.new session.old session.new
            (O.held sink.old) (O.held sink.new)) }
        ensures same { OnOk result (O.failed sink.new ≡ O.failed sink.old) }
        ensures breaks { OnErr result ((command : Handed) × (self.old.splitter.to_hand_out ≡ Some command)
            × BreaksOff self.old.settings.stop (ReplyInRun M.meaning self.old.settings.steps) (command ∷ []) session.old session.new
            (O.held sink.old) (O.held sink.new)) }
        ensures count { OnErr result (O.failed sink.new ≡ O.failed sink.old + 1) }
        ensures splitter { self.new.splitter ≡ self.old.splitter }
    {
        let accepted = answer_watched(
            alloc,
            session,
            self.splitter.command(),
            self.settings.steps,
            &mut self.answer,
            watch,
        );
        write_whole(sink, self.answer.bytes())?;
        self.summary.count(accepted);
        Ok(accepted || !self.settings.stop)
    }

    // Answers the commands that these bytes complete, until the run stops, and returns whether it
    // goes on.
    fn answer_bytes<M: Meaning, O: Sink, W: Watch<M>>(
        &mut self,
        alloc: Global,
        session: &mut Session<M>,
        sink: &mut O,
        bytes: &[u8],
        watch: &mut W,
    ) -> Result<bool, Failed>
        requires counts { self.old.summary.accepted + self.old.summary.refused + length bytes.now
            < 2 ^ 64 }
        requires sink { O.failed sink.old + 1 < 2 ^ 64 }
        ensures answers { IfOk result (AnswersBytes (ReplyInRun M.meaning) self.old self.new session.old session.new
            (O.held sink.old) (O.held sink.new) bytes.now) }
        ensures same { OnOk result (O.failed sink.new ≡ O.failed sink.old) }
        ensures breaks { OnErr result (Breaks (ReplyInRun M.meaning) completed self.old session.old session.new
            (O.held sink.old) (O.held sink.new) bytes.now) }
        ensures count { OnErr result (O.failed sink.new ≡ O.failed sink.old + 1) }
    {
        let mut rest = bytes;
        while let Fed::Command(taken) = self.splitter.feed(rest) {
            watch.consumed(&rest[..taken]);
            rest = &rest[taken..];
            if !self.answer_ready(alloc, session, sink, watch)? {
                return Ok(false);
            }
        }
        watch.consumed(rest);
        Ok(true)
    }

    // Answers the command at the end, if there is one.
    fn answer_last<M: Meaning, O: Sink, W: Watch<M>>(
        &mut self,
        alloc: Global,
        session: &mut Session<M>,
        sink: &mut O,
        watch: &mut W,
    ) -> Result<(), Failed>
        requires counts { self.old.summary.accepted + self.old.summary.refused + 1 < 2 ^ 64 }
        requires sink { O.failed sink.old + 1 < 2 ^ 64 }
        ensures ends { OnOk result ((goes_on : Bool) × Ends (ReplyInRun M.meaning) handed self.old self.new session.old session.new
            (O.held sink.old) (O.held sink.new) [] goes_on) }
        ensures same { OnOk result (O.failed sink.new ≡ O.failed sink.old) }
        ensures breaks { OnErr result (Breaks (ReplyInRun M.meaning) handed self.old session.old session.new
            (O.held sink.old) (O.held sink.new) []) }
        ensures count { OnErr result (O.failed sink.new ≡ O.failed sink.old + 1) }
    {
        if self.splitter.finish() {
            self.answer_ready(alloc, session, sink, watch)?;
        }
        Ok(())
    }

    // Flushes what was written, reads once and answers the commands that are then complete. Returns
    // whether the run goes on.
    fn turn<M: Meaning, I: Source, O: Sink, W: Watch<M>>(
        &mut self,
        alloc: Global,
        session: &mut Session<M>,
        source: &mut I,
        sink: &mut O,
        piece: &mut [u8],
        watch: &mut W,
    ) -> Result<bool, RunFault>
        requires piece { 0 < length piece.old }
        requires counts { self.old.summary.accepted + self.old.summary.refused + length piece.old
            < 2 ^ 64 }
        requires source { I.failed source.old + 1 < 2 ^ 64 }
        requires sink { O.failed sink.old + 1 < 2 ^ 64 }
        ensures right { TurnRight (ReplyInRun M.meaning) result self.old self.new session.old session.new
            (streams (I.left source.old) (O.held sink.old) (I.failed source.old) (O.failed sink.old))
            (streams (I.left source.new) (O.held sink.new) (I.failed source.new) (O.failed sink.new))
            (length piece.old) }
        ensures piece { length piece.new ≡ length piece.old }
    {
        let Ok(()) = sink.flush() else {
            return Err(RunFault::Write);
        };
        match source.read(piece) {
            Err(Failed) => Err(RunFault::Read),
            Ok(0) => match self.answer_last(alloc, session, sink, watch) {
                Ok(()) => Ok(false),
                Err(Failed) => Err(RunFault::Write),
            },
            Ok(given) => match self.answer_bytes(alloc, session, sink, &piece[..given], watch) {
                Ok(goes_on) => Ok(goes_on),
                Err(Failed) => Err(RunFault::Write),
            },
        }
    }

    // Reads and answers until the end, or until the run stops.
    fn answer_all<M: Meaning, I: Source, O: Sink, W: Watch<M>>(
        &mut self,
        alloc: Global,
        session: &mut Session<M>,
        source: &mut I,
        sink: &mut O,
        watch: &mut W,
    ) -> Result<Summary, RunFault>
        requires fresh { StandsAfter self.old.settings.framing [] [] self.old.splitter.left }
        requires zero { (self.old.summary.accepted ≡ 0) × (self.old.summary.refused ≡ 0) }
        requires source { I.failed source.old + 1 < 2 ^ 64 }
        requires sink { O.failed sink.old + 1 < 2 ^ 64 }
        ensures some { result ≡ Err RunFault.Memory → ⊥ }
        ensures right { RunRight (ReplyInRun M.meaning) result self.old.settings session.old session.new
            (streams (I.left source.old) (O.held sink.old) (I.failed source.old) (O.failed sink.old))
            (streams (I.left source.new) (O.held sink.new) (I.failed source.new) (O.failed sink.new)) }
    {
        let mut piece = [0; PIECE];
        for _ in 0..MAX_READS {
            match self.turn(alloc, session, source, sink, &mut piece, watch) {
                Ok(true) => {}
                Ok(false) => {
                    let Ok(()) = sink.flush() else {
                        return Err(RunFault::Write);
                    };
                    return Ok(self.summary);
                }
                Err(fault) => return Err(fault),
            }
        }
        let Ok(()) = sink.flush() else {
            return Err(RunFault::Write);
        };
        Err(RunFault::Turns)
    }
}

impl Summary {
    fn count(&mut self, accepted: bool)
        requires { self.old.accepted + self.old.refused + 1 < 2 ^ 64 }
        ensures accepted { self.new.accepted ≡ self.old.accepted + one_if accepted }
        ensures refused { self.new.refused ≡ self.old.refused + one_if (not accepted) }
    {
        if accepted {
            self.accepted += 1;
        } else {
            self.refused += 1;
        }
    }
}
