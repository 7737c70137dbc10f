//! Where the steps of a run went.

use crate::record::{Begun, RunRecord, Wanted};
use strategy_machine::{Machine, Next};
use strategy_syntax::{ResolvedForm as Form, ResolvedStrategy};
use term_core::NoMemory;

// With so few steps left calls are kept.
const LAST: u64 = 5_000;

impl<'t> RunRecord<'t> {
    /// Counts the steps down to so many for the innermost call, or for a definition that was tried
    /// at once.
    pub fn charge(
        &mut self,
        begun: Option<Begun<'t>>,
        machine: &Machine<'t>,
        left: u64,
    ) -> Result<(), NoMemory> {
        let taken = self.left.saturating_sub(left);
        self.left = left;
        let mut number = match self.calls.last() {
            Some(call) => call.definition,
            None => self.spent.len().saturating_sub(1),
        };
        if let Some(begun) = begun
            && let Some(definition) = tried_at_once(begun, machine)
        {
            number = definition;
            if machine.trail.count > begun.edits {
                self.note(definition, left)?;
                add(&mut self.successes, definition, 1);
            }
        }
        add(&mut self.spent, number, taken);
        Ok(())
    }

    /// Keeps the definition as the last that was called.
    pub fn note(&mut self, definition: usize, left: u64) -> Result<(), NoMemory> {
        if let Wanted::Spending = self.wanted
            && left < LAST
        {
            self.recent.push(definition)?;
        }
        Ok(())
    }
}

/// Adds so much to the number of a definition.
pub fn add(numbers: &mut Vec<u64>, definition: usize, more: u64) {
    if let Some(number) = numbers.get_mut(definition) {
        *number = number.saturating_add(more);
    }
}

// The definition that was tried in the turn that began this, if it opened no frame: as the first
// branch of a choice, or of that which a call of a definition like `try` stands for.
fn tried_at_once(begun: Begun<'_>, machine: &Machine<'_>) -> Option<usize> {
    if machine.frames.len() > begun.frames {
        return None;
    }
    match begun.strategy.form() {
        Form::Guard(parts) => called_by(&parts.0),
        Form::Call(_, strategies, patterns) if patterns.is_empty() && strategies.len() == 1 => {
            match machine.next {
                Next::Done => called_by(strategies.first()?),
                _ => None,
            }
        }
        _ => None,
    }
}

// The definition without arguments that a strategy calls.
fn called_by(strategy: &ResolvedStrategy) -> Option<usize> {
    match strategy.form() {
        Form::Call(definition, strategies, patterns)
            if strategies.is_empty() && patterns.is_empty() => { Some(*definition) }
        _ => None,
    }
}
