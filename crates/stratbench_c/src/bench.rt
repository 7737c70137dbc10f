//! What lies at a handle.

ghost use Rattle.std.specs.Prelude.{◌≡◌, ◌≤◌, ◌++◌, ◌∷◌, [], length, None, true, is_some, IfErr, IfOk, OnErr, OnOk};
ghost use Rattle.prim_extended.specs.Extended.{extended};
ghost use Rattle.term_core.specs.declared.TheConstants.{MAX_ROOM};
ghost use Rattle.script_text.specs.Answer.{ReplyInRun, TellsRefusal};
ghost use Rattle.script_text.specs.FedRight.{handed_out};
ghost use Rattle.script_text.specs.declared.framing.Framing.TheVariants.{Continued, Lines};
ghost use Rattle.stratbench_c.specs.Status.{HasCause};
ghost use Rattle.stratbench_c.specs.Runs.{Adds, AreCopied, ExplainedAt, IsNew, IsNewWithin, IsUntouched, LimitedAt, Ran, RanAt, TellsExplained, TellsLimited, TellsRun, answers_of, ends_of, hints_of, limits_of, most_steps as most_steps_of};

use crate::answers::{Answers, Unanswered};
use crate::hints::Hints;
use crate::status::{NO_BUDGET, NO_LIMITS, Status};
use prim_core::Primitives;
use prim_extended::{Extended, extended_primitives};
use script_core::{Fed, Framing, Piece, Splitter};
use session_core::{Limits, MAX_BUDGET, Refusal, Session, Stop};
use session_history::MOST_STEPS;
use std::alloc::Global;
use term_core::{MAX_ROOM, NoMemory};

/// What lies at a handle: a session with the answers of the last call. There is none if there was
/// no memory for it at the start.
#[derive(Drop)]
pub struct Bench {
    pub(crate) alloc: Global,
    pub work: Option<Work>,
}

/// A session with the extended primitives, the answers of the last call, and what was said of it. Of
/// a script there is also where each of its answers ends.
#[derive(Drop)]
pub struct Work {
    pub session: Session<Extended>,
    pub answers: Answers,
    pub ends: Vec<usize>,
    pub hints: Hints,
    /// What the runs of the session heed, once there was a stopper for it.
    pub stop: Option<Stop>,
}

impl Work {
    /// A session without trees and modules.
    pub fn new(alloc: Global, limits: Limits) -> Result<Work, NoMemory>
        requires { limits.max_terms ≤ MAX_ROOM }
        ensures new { IfOk result (IsNewWithin limits) }
        ensures stop { IfOk result (λ work. work.stop ≡ None) }
    {
        let primitives = extended_primitives(alloc)?;
        let answers = Answers::new(alloc)?;
        Ok(Work {
            session: Session::with_limits(alloc, Primitives::new(primitives), limits),
            answers,
            ends: Vec::new(alloc),
            hints: Hints::new(alloc),
            stop: None,
        })
    }

    /// Has the session heed this stop, in place of the one before.
    ///
    /// Errors: want of memory. All stays then.
    pub fn heed(&mut self, stop: &Stop) -> Result<(), NoMemory>
        ensures ok { OnOk result (is_some self.new.stop ≡ true) }
        ensures untouched { IsUntouched self.old self.new }
        ensures err { OnErr result (self.new ≡ self.old) }
    {
        let (here, there) = (stop.share()?, stop.share()?);
        self.session.heed(there);
        self.stop = Some(here);
        Ok(())
    }

    /// Answers the commands of the script, in place of the answers of the last one. The last
    /// command ends with the script.
    pub fn run(&mut self, alloc: Global, script: &[u8], framing: Framing, steps: u32) -> Status
        ensures ran { Ran framing steps script.now result self.old self.new }
        ensures stop { self.new.stop ≡ self.old.stop }
    {
        self.hints.begin(framing, steps);
        let Ok(mut splitter) = Splitter::new(alloc, framing) else {
            return Status::NoMemory;
        };
        self.answers.clear();
        self.ends.clear();
        let mut accepted = true;
        let mut rest = script;
        while let Fed::Command(taken) = splitter.feed(rest) {
            self.hints.consume(&rest[..taken]);
            rest = &rest[taken..];
            match self.answer(alloc, splitter.command(), steps) {
                Ok(verdict) => accepted &= verdict,
                Err(why) => return Status::unanswered(why),
            }
        }
        self.hints.consume(rest);
        if !splitter.finish() {
            return Status::answered(accepted);
        }
        match self.answer(alloc, splitter.command(), steps) {
            Ok(verdict) => Status::answered(accepted & verdict),
            Err(why) => Status::unanswered(why),
        }
    }

    // Answers one more command. Of one that isn't answered nothing is said.
    fn answer(&mut self, alloc: Global, command: Piece<'_>, steps: u32) -> Result<bool, Unanswered>
        ensures ok { IfOk result (λ accepted. Adds (ReplyInRun extended steps) (handed_out command.entry)
            self.old.session self.new.session self.old.answers self.new.answers accepted) }
        ensures ends { OnOk result (self.new.ends.items ≡ self.old.ends.items ++ length self.new.answers ∷ []) }
        ensures answers { OnErr result (self.new.answers ≡ self.old.answers) }
        ensures same_ends { OnErr result (self.new.ends.items ≡ self.old.ends.items) }
        ensures session { OnErr result (self.new.session ≡ self.old.session) }
        ensures cause { IfErr result (λ why. HasCause why (is_some self.old.stop)) }
        ensures stop { self.new.stop ≡ self.old.stop }
    {
        // the room comes first, since the answer isn't taken back
        let Ok(()) = self.ends.reserve(1) else {
            return Err(Unanswered::Memory);
        };
        let said = self.hints.len();
        let added = self.answers.add(
            alloc,
            &mut self.session,
            command,
            steps,
            self.stop.as_ref(),
            &mut self.hints,
        );
        match added {
            Ok(accepted) => {
                self.ends.push_reserved(self.answers.len());
                Ok(accepted)
            }
            Err(why) => {
                self.hints.take_back_to(said);
                Err(why)
            }
        }
    }

    // Begins the session anew within these limits, with the stop that it heeds, if there is one.
    fn begin_anew(&mut self, alloc: Global, limits: Limits) -> Result<(), NoMemory>
        requires { limits.max_terms ≤ MAX_ROOM }
        ensures new { OnOk result (IsNewWithin limits self.new) }
        ensures stop { OnOk result (is_some self.new.stop ≡ is_some self.old.stop) }
        ensures err { OnErr result (self.new ≡ self.old) }
    {
        let new = begun_anew(alloc, limits, &self.stop)?;
        *self = new;
        Ok(())
    }

    /// Says how a load ended. The answer is the refusal, if there is one. `word` is the command
    /// that would load this text.
    pub fn tell(
        &mut self,
        word: &'static str,
        name: &[u8],
        text: &[u8],
        outcome: Result<(), Refusal>,
    ) -> Status
        ensures session { self.new.session ≡ self.old.session }
        ensures stop { self.new.stop ≡ self.old.stop }
        ensures ends { self.new.ends.items ≡ [] }
        ensures ok { OnOk outcome ((result ≡ Status.Accepted) × (self.new.answers ≡ [])) }
        ensures refused { IfErr outcome (λ refusal. (result ≡ Status.Refused) × TellsRefusal self.new.answers refusal) }
    {
        self.ends.clear();
        self.hints.clear();
        self.hints.loaded(&self.session, word, name, text, &outcome);
        self.answers.tell(outcome)
    }
}

/// A new session without trees and modules.
pub fn make(alloc: Global) -> Bench
    ensures { IsNew result.work }
{
    let work = match Work::new(alloc, Limits::default()) {
        Ok(work) => Some(work),
        Err(NoMemory) => None,
    };
    Bench { alloc, work }
}

/// Begins the session anew, with these limits: a number of terms from 100,000 to 1,000,000,000, and a
/// number of steps from 1,000,000 to 4,000,000,000. Returns the number of the status, or `NO_LIMITS`.
pub fn set_limits(bench: &mut Bench, max_terms: u32, max_steps: u32) -> u32
    ensures { TellsLimited (limits_of max_terms max_steps) result bench.old.work bench.new.work }
{
    let usual = Limits::default();
    if max_terms < usual.max_terms || max_terms > MAX_ROOM {
        return NO_LIMITS;
    }
    if max_steps < usual.max_steps || max_steps > MOST_STEPS {
        return NO_LIMITS;
    }
    let limits = Limits {
        max_terms,
        max_steps,
        max_tokens: usual.max_tokens,
    };
    limited_at(bench, limits).code()
}

fn limited_at(bench: &mut Bench, limits: Limits) -> Status
    requires { limits.max_terms ≤ MAX_ROOM }
    ensures { LimitedAt limits result bench.old.work bench.new.work }
{
    let alloc = bench.alloc;
    let Some(work) = &mut bench.work else {
        return Status::NoMemory;
    };
    match work.begin_anew(alloc, limits) {
        Ok(()) => Status::Accepted,
        Err(NoMemory) => Status::NoMemory,
    }
}

// A session without trees and modules that heeds this stop, if there is one.
fn begun_anew(alloc: Global, limits: Limits, stop: &Option<Stop>) -> Result<Work, NoMemory>
    requires { limits.max_terms ≤ MAX_ROOM }
    ensures new { IfOk result (IsNewWithin limits) }
    ensures stop { IfOk result (λ new. is_some new.stop ≡ is_some stop.now) }
{
    let mut new = Work::new(alloc, limits)?;
    if let Some(stop) = stop {
        new.heed(stop)?;
    }
    Ok(new)
}

/// Answers the commands of a script, which may go on over lines. Returns the number of its status,
/// or `NO_BUDGET`.
pub fn run_script(bench: &mut Bench, script: &[u8], steps: u32) -> u32
    ensures { TellsRun Continued steps script.now result bench.old.work bench.new.work }
{
    run(bench, script, Framing::Continued, steps)
}

/// Answers the lines of a script, each a command. Returns the number of its status, or `NO_BUDGET`.
pub fn run_lines(bench: &mut Bench, script: &[u8], steps: u32) -> u32
    ensures { TellsRun Lines steps script.now result bench.old.work bench.new.work }
{
    run(bench, script, Framing::Lines, steps)
}

fn run(bench: &mut Bench, script: &[u8], framing: Framing, steps: u32) -> u32
    ensures { TellsRun framing steps script.now result bench.old.work bench.new.work }
{
    if steps < 1 || steps > most_steps(bench) {
        return NO_BUDGET;
    }
    run_work(bench, script, framing, steps).code()
}

// The greatest budget of the session.
fn most_steps(bench: &Bench) -> u32
    ensures { result ≡ most_steps_of bench.now.work }
{
    match &bench.work {
        Some(work) => work.session.limits().max_steps,
        None => MAX_BUDGET,
    }
}

fn run_work(bench: &mut Bench, script: &[u8], framing: Framing, steps: u32) -> Status
    ensures { RanAt framing steps script.now result bench.old.work bench.new.work }
{
    let alloc = bench.alloc;
    match &mut bench.work {
        Some(work) => work.run(alloc, script, framing, steps),
        None => Status::NoMemory,
    }
}

/// Copies the answers of the last script to the start of `out` if there is room for them, and
/// returns their length.
pub fn copy_answers(bench: &mut Bench, out: &mut [u8]) -> usize
    ensures { AreCopied (answers_of bench.old.work) out.old out.new result
        × (bench.new ≡ bench.old) }
{
    match &bench.work {
        Some(work) => work.answers.copy_to(out),
        None => 0,
    }
}

/// Copies where the answers of the last script end to the start of `out` if there is room for that,
/// and returns their number.
pub fn copy_ends(bench: &mut Bench, out: &mut [usize]) -> usize
    ensures { AreCopied (ends_of bench.old.work) out.old out.new result
        × (bench.new ≡ bench.old) }
{
    match &bench.work {
        Some(work) => copy_numbers(&work.ends, out),
        None => 0,
    }
}

fn copy_numbers(numbers: &[usize], out: &mut [usize]) -> usize
    ensures { AreCopied numbers.now out.old out.new result }
{
    let len = numbers.len();
    if len <= out.len() {
        out[..len].copy_from_slice(numbers);
    }
    len
}

/// Copies what was said of the last call to the start of `out` if there is room for it, and returns
/// its length.
pub fn copy_hints(bench: &mut Bench, out: &mut [u8]) -> usize
    ensures { AreCopied (hints_of bench.old.work) out.old out.new result
        × (bench.new ≡ bench.old) }
{
    match &bench.work {
        Some(work) => work.hints.copy_to(out),
        None => 0,
    }
}

/// Says whether the calls that follow are to be explained: not if `explains` is 0, as JSON if it is
/// 2, else as text. Returns the number of the status.
pub fn explain_calls(bench: &mut Bench, explains: u32) -> u32
    ensures { TellsExplained result bench.old.work bench.new.work }
{
    explained_at(bench, explains != 0, explains == 2).code()
}

fn explained_at(bench: &mut Bench, explains: bool, as_json: bool) -> Status
    ensures { ExplainedAt result bench.old.work bench.new.work }
{
    match &mut bench.work {
        Some(work) => {
            work.hints.explain(explains, as_json);
            Status::Accepted
        }
        None => Status::NoMemory,
    }
}

/// Gives all memory back.
pub fn end(bench: Bench) {
    let Bench { alloc: _, work: _ } = bench;
}
