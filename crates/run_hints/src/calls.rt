//! The open calls of a run.

use crate::record::{Begun, RunRecord, Wanted};
use crate::stands::Called;
use crate::steps::add;
use prim_core::Meaning;
use strategy_machine::{Host, Machine, Next};
use strategy_syntax::{ResolvedForm as Form, ResolvedStrategy};
use term_core::NoMemory;

// The most calls that are kept where each took the place of the one before.
const AT_ONE_DEPTH: usize = 9;

impl<'t> RunRecord<'t> {
    /// Begins a strategy. The names that it goes through are calls, too.
    pub fn begin<M: Meaning>(
        &mut self,
        host: &Host<'t, M>,
        machine: &Machine<'t>,
        strategy: &'t ResolvedStrategy,
        scope: usize,
    ) -> Result<(), NoMemory> {
        let frames = machine.frames.len();
        let mut strategy = strategy;
        let mut scope = scope;
        for _ in 0..machine.steps {
            match strategy.form() {
                Form::Call(definition, _, _) => {
                    self.note(*definition, machine.steps)?;
                    self.call(*definition, strategy, frames)?;
                }
                Form::Param(_) => {}
                _ => break,
            }
            let Some(known) = machine.stands_for(host, strategy, scope) else {
                break;
            };
            strategy = known.strategy;
            scope = known.written_in;
        }
        self.begun = Some(Begun {
            strategy,
            scope,
            frames,
            edits: machine.trail.count,
        });
        Ok(())
    }

    // A call that takes the place of one of the same definition is counted there.
    fn call(
        &mut self,
        definition: usize,
        from: &'t ResolvedStrategy,
        depth: usize,
    ) -> Result<(), NoMemory> {
        let mut open = self.calls.len();
        let mut times = 1u64;
        let mut beside = 0usize;
        for call in self.calls.iter().rev() {
            if call.depth != depth {
                break;
            }
            beside = beside.saturating_add(1);
            if call.definition == definition {
                times = call.times.saturating_add(1);
                open = open.saturating_sub(beside);
                break;
            }
        }
        if times == 1 && beside >= AT_ONE_DEPTH {
            open = open.saturating_sub(1);
        }
        self.calls.truncate(open);
        self.calls.push(Called {
            definition,
            from,
            times,
            depth,
        })?;
        Ok(())
    }

    /// Ends the calls whose answer the machine gives.
    pub fn end_calls(&mut self, machine: &Machine<'t>) {
        let frames = machine.frames.len();
        let is_counted = matches!(self.wanted, Wanted::Spending)
            && matches!(machine.next, Next::Done);
        for _ in 0..self.calls.len() {
            let Some(call) = self.calls.last().copied() else {
                break;
            };
            if call.depth < frames {
                break;
            }
            let _ = self.calls.pop();
            if is_counted {
                add(&mut self.successes, call.definition, 1);
            }
        }
    }
}
