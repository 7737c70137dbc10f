//! Failures that an alternative or a next child came after, while that is going on.

use std::alloc::Global;
use strategy_syntax::{ResolvedForm as Form, ResolvedStrategy};
use term_core::NoMemory;

// An alternative that took fewer steps failed at its head, which says nothing.
const FEWEST: u64 = 6;

/// What failed in a turn, and what has been going on since with so many frames below it.
#[derive(Clone, Copy)]
pub struct Cause {
    frames: usize,
    /// The steps of the alternative that failed.
    pub steps: u64,
    pub turn: u64,
}

// The steps that were left, and whether it is a choice whose condition is only a test.
#[derive(Clone, Copy)]
struct Begun {
    left: u64,
    is_test: bool,
}

/// The failures that were caught, and after which a choice or a walk goes on, the outermost first.
pub struct Causes {
    caught: Vec<Cause>,
    // The strategy that was begun last with so many frames below it.
    begun: Vec<Begun>,
    // The turn of a failure that hasn't been caught yet.
    failed: Option<u64>,
}

impl Drop for Causes {
    fn drop(self) {
        let Causes {
            caught: _,
            begun: _,
            failed: _,
        } = self;
    }
}

impl Causes {
    pub fn new(alloc: Global) -> Causes {
        Causes {
            caught: Vec::new(alloc),
            begun: Vec::new(alloc),
            failed: None,
        }
    }

    /// Something fails in this turn.
    pub fn fail(&mut self, turn: u64) {
        self.failed = Some(turn);
    }

    /// A strategy begins with so many frames below it, and so many steps left. If something failed
    /// before, it was caught.
    pub fn begin(
        &mut self,
        strategy: &ResolvedStrategy,
        frames: usize,
        left: u64,
    ) -> Result<(), NoMemory> {
        if let Some(turn) = self.failed.take() {
            let steps = match self.begun.get(frames) {
                Some(before) if !before.is_test => before.left.saturating_sub(left),
                _ => 0,
            };
            self.catch(frames, steps, turn)?;
        }
        // A choice between two ways to go on is a test, and `s <+ t` is not.
        let is_test = match strategy.form() {
            Form::Guard(parts) => !matches!(parts.1.form(), Form::Id),
            _ => false,
        };
        let begun = Begun { left, is_test };
        for _ in self.begun.len()..frames.saturating_add(1) {
            self.begun.push(begun)?;
        }
        if let Some(place) = self.begun.get_mut(frames) {
            *place = begun;
        }
        Ok(())
    }

    /// A strategy succeeds with so many frames below it.
    pub fn end(&mut self, frames: usize) {
        self.failed = None;
        let _ = self.take(frames);
    }

    /// The failure of the alternative that took most steps.
    pub fn greatest(&self) -> Option<Cause> {
        self.among(0).0
    }

    // Keeps a failure, or the one within the alternative that it came after. Of the alternatives of
    // one choice that with most steps is kept.
    fn catch(&mut self, frames: usize, steps: u64, turn: u64) -> Result<(), NoMemory> {
        let turn = match self.take(frames.saturating_add(1)) {
            Some(inner) => inner.turn,
            None => turn,
        };
        let mut cause = Cause {
            frames,
            steps,
            turn,
        };
        if steps < FEWEST {
            return Ok(());
        }
        if let Some(other) = self.take(frames)
            && other.steps >= steps
        {
            cause = other;
        }
        self.caught.push(cause)?;
        Ok(())
    }

    // Takes off those with at least so many frames, and returns that with most steps.
    fn take(&mut self, frames: usize) -> Option<Cause> {
        let (best, left) = self.among(frames);
        self.caught.truncate(left);
        best
    }

    // Of those with at least so many frames that with most steps, and how many others there are.
    fn among(&self, frames: usize) -> (Option<Cause>, usize) {
        let mut best: Option<Cause> = None;
        let mut left = self.caught.len();
        for cause in self.caught.iter().rev() {
            if cause.frames < frames {
                break;
            }
            left = left.saturating_sub(1);
            match best {
                Some(more) if more.steps >= cause.steps => {}
                _ => best = Some(*cause),
            }
        }
        (best, left)
    }
}
