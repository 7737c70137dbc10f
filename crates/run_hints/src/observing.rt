//! A run as it is observed, turn by turn.

use crate::finding::is_search;
use crate::record::{Begun, RunRecord, Wanted};
use prim_core::Meaning;
use strategy_machine::{Host, Machine, Next};
use strategy_run::Look;
use term_core::{Kind, NoMemory};

/// Keeps what is wanted of a run of these definitions and primitives.
#[derive(Drop)]
pub struct Observer<'h, 't, M: Meaning> {
    pub host: &'h Host<'t, M>,
    pub kept: RunRecord<'t>,
}

impl<'t, M: Meaning> Look<'t> for Observer<'_, 't, M> {
    fn before_turn(&mut self, machine: &Machine<'t>) -> Result<(), NoMemory> {
        if let Some(stop) = self.kept.about.stop
            && stop.is_asked()
        {
            return Err(NoMemory);
        }
        self.kept.before_turn(self.host, machine)
    }

    fn at_end(&mut self, machine: &Machine<'t>) -> Result<(), NoMemory> {
        self.kept.at_end(machine)
    }
}

impl<'t> RunRecord<'t> {
    fn before_turn<M: Meaning>(
        &mut self,
        host: &Host<'t, M>,
        machine: &Machine<'t>,
    ) -> Result<(), NoMemory> {
        let begun = self.begun.take();
        let frames = machine.frames.len();
        self.turn = self.turn.saturating_add(1);
        if let Wanted::Spending | Wanted::Steps = self.wanted {
            self.charge(begun, machine, machine.steps)?;
        }
        match machine.next {
            Next::Begin(strategy, scope) => {
                if let Wanted::Failure = self.wanted {
                    self.causes.begin(strategy, frames, machine.steps)?;
                }
                self.begin(host, machine, strategy, scope)?;
                return match self.wanted {
                    Wanted::Failure | Wanted::Nearest => {
                        self.attempt(host, machine, strategy, scope)
                    }
                    _ => Ok(()),
                };
            }
            Next::Done => {
                self.succeeded = begun.or(self.succeeded);
                self.causes.end(frames);
            }
            Next::Failed => self.fail(begun, machine)?,
        }
        self.end_calls(machine);
        Ok(())
    }

    fn at_end(&mut self, machine: &Machine<'t>) -> Result<(), NoMemory> {
        let begun = self.begun;
        match self.wanted {
            Wanted::Failure | Wanted::FailureIn(_) | Wanted::Nearest => return Ok(()),
            Wanted::Steps => return self.charge(begun, machine, machine.steps),
            // the steps that are left didn't suffice for the last turn
            Wanted::Spending => self.charge(begun, machine, 0)?,
            Wanted::End => {}
        }
        if let Some(begun) = begun {
            let around = machine.frames.size_around(self.about.alloc)?;
            let focus = self.keep_stand(machine, begun, false)?;
            self.size = around.saturating_add(focus);
        }
        Ok(())
    }

    fn fail(&mut self, begun: Option<Begun<'t>>, machine: &Machine<'t>) -> Result<(), NoMemory> {
        let mut succeeded = self.succeeded.take();
        if let Kind::List = machine.part.kind() {
            succeeded = None;
        }
        let Some(last) = begun.or(succeeded) else {
            return Ok(());
        };
        let is_wanted = match self.wanted {
            Wanted::Failure => {
                if !is_search(last.strategy) {
                    self.causes.fail(self.turn);
                }
                !machine.frames.catches()
            }
            Wanted::FailureIn(turn) => turn == self.turn,
            _ => false,
        };
        if is_wanted {
            let _size = self.keep_stand(machine, last, begun.is_none())?;
        }
        if self.is_complete() {
            // nothing more is wanted, and this ends the run
            return Err(NoMemory);
        }
        Ok(())
    }
}
