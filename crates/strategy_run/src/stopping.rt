//! Stopping runs from another thread.

ghost use Rattle.std.specs.Prelude.{◌≡◌, ◌≤◌, ◌+◌, IfOk};
ghost use Rattle.term_core.specs.Size.{height};
ghost use Rattle.term_core.specs.declared.TheConstants.{MAX_ROOM};
ghost use Rattle.strategy_meaning.specs.Meaning.{run_whole};
ghost use Rattle.strategy_machine.specs.Turns.{world_of};
ghost use Rattle.strategy_run.specs.Planning.{Plans};

use crate::ended::Ended;
use crate::looking::{Look, plan_patch_seen};
use crate::planning::Planned;
use prim_core::Meaning;
use std::alloc::Global;
use std::sync::Arc;
use std::sync::atomic::{AtomicBool, Ordering};
use strategy_machine::{Host, Machine};
use strategy_syntax::Resolved;
use term_core::{MAX_HEIGHT, NoMemory, Term};

/// A stop of runs. Any thread may ask for it, and it stays asked for. No clause says when a run sees
/// that, since none knows what other threads do.
#[derive(Drop)]
pub struct Stop {
    asked: Arc<AtomicBool, Global>,
}

impl Stop {
    /// One that nobody has asked for.
    pub fn new(alloc: Global) -> Result<Stop, NoMemory> {
        let asked = Arc::new(alloc, AtomicBool::new(false))?;
        Ok(crossing(Stop { asked }))
    }

    /// Another owner of the same stop. It takes no memory.
    ///
    /// Errors: if it has 2^63 - 1 owners.
    pub fn share(&self) -> Result<Stop, NoMemory> {
        let asked = Arc::try_clone(&self.asked)?;
        Ok(Stop { asked })
    }

    /// Asks for it.
    pub fn ask(&self) {
        self.asked.store(true, Ordering::SeqCst);
    }

    /// Whether it was asked for.
    #[inline(always)]
    pub fn is_asked(&self) -> bool {
        self.asked.load(Ordering::SeqCst)
    }
}

// The value itself. Where this is called it is proved that another thread may have it.
fn crossing<T: Send>(value: T) -> T
    ensures { result ≡ value }
{
    value
}

// Ends a run before its next turn, once the stop is asked for.
#[derive(Drop)]
struct Heeding<'a> {
    asked: &'a AtomicBool,
}

impl<'t> Look<'t> for Heeding<'_> {
    #[inline(always)]
    fn before_turn(&mut self, _machine: &Machine<'t>) -> Result<(), NoMemory> {
        if self.asked.load(Ordering::SeqCst) {
            return Err(NoMemory);
        }
        Ok(())
    }

    #[inline(always)]
    fn at_end(&mut self, _machine: &Machine<'t>) -> Result<(), NoMemory> {
        Ok(())
    }
}

/// As [`crate::plan_patch`], but that a stop ends it as want of memory does, before its next turn.
pub fn plan_patch_until<M: Meaning>(
    alloc: Global,
    host: &Host<'_, M>,
    term: &Term,
    level: u64,
    strategy: &Resolved,
    steps: u64,
    stop: Option<&Stop>,
) -> Result<Ended<Planned>, NoMemory>
    requires room { host.now.room ≤ MAX_ROOM }
    requires low { level + height term.now ≤ MAX_HEIGHT }
    ensures { IfOk result (Plans term.now steps
        (run_whole (world_of M.meaning host.now.definitions.now host.now.primitives.now host.now.room)
        level strategy.now steps term.now)) }
{
    // One loop for both: with a second one the compiler calls what each turn begins with.
    let never = AtomicBool::new(false);
    let asked = match stop {
        Some(stop) => &*stop.asked,
        None => &never,
    };
    let mut look = Heeding { asked };
    plan_patch_seen(alloc, host, term, level, strategy, steps, &mut look)
}
