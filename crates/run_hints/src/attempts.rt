//! Attempts of rules that a run makes.

use crate::matching::{Known, Miss, compare, may_match};
use crate::record::RunRecord;
use crate::stands::Called;
use prim_core::Meaning;
use strategy_machine::{Host, Machine};
use strategy_syntax::{ResolvedForm as Form, ResolvedPattern, ResolvedStrategy};
use term_core::NoMemory;

// Through how many forms a rule is followed that is tried in a turn.
const FOLLOWED: usize = 24;

// A rule that is tried in a turn.
#[derive(Clone, Copy)]
struct Attempt<'t> {
    rule: &'t ResolvedStrategy,
    left: &'t ResolvedPattern,
    // The scope around its variables, if it is known.
    scope: Option<usize>,
    // The definition that was called for it, and the strategy that calls it.
    call: Option<(usize, &'t ResolvedStrategy)>,
}

// The strategies that a call was given, and their scope.
#[derive(Clone, Copy)]
struct Given<'t> {
    strategies: &'t [ResolvedStrategy],
    scope: Option<usize>,
}

impl<'t> RunRecord<'t> {
    /// Keeps the attempt of a rule that a strategy begins with, if it is the nearest so far: one
    /// whose root matches, and not all of it.
    pub fn attempt<M: Meaning>(
        &mut self,
        host: &Host<'t, M>,
        machine: &Machine<'t>,
        strategy: &'t ResolvedStrategy,
        scope: usize,
    ) -> Result<(), NoMemory> {
        let Some(attempt) = first_tried(host, machine, strategy, scope) else {
            return Ok(());
        };
        let (kind, count) = (machine.part.kind(), machine.part.child_count());
        if self.library == Some(attempt.rule.text()) || !may_match(attempt.left, kind, count) {
            return Ok(());
        }
        let known = attempt.scope.map(|scope| Known { machine, scope });
        let alloc = self.about.alloc;
        let found = compare(alloc, attempt.left, &machine.part.value()?, known)?;
        if found.miss.is_some()
            && (found.matched > self.most.0
                || (found.matched == self.most.0 && found.depth > self.most.1))
        {
            self.most = (found.matched, found.depth);
            self.keep_attempt(machine, attempt, found.miss)?;
        }
        Ok(())
    }

    fn keep_attempt(
        &mut self,
        machine: &Machine<'t>,
        attempt: Attempt<'t>,
        miss: Option<Miss<'t>>,
    ) -> Result<(), NoMemory> {
        let mut calls = Vec::from_slice(self.about.alloc, &self.calls)?;
        if let Some((definition, from)) = attempt.call
            && !matches!(calls.last(), Some(last) if last.definition == definition)
        {
            calls.push(Called {
                definition,
                from,
                times: 1,
                depth: machine.frames.len(),
            })?;
        }
        let mut stand = self.stand(machine, attempt.rule, calls, false)?;
        stand.miss = miss;
        self.nearest = Some(stand);
        Ok(())
    }
}

// The rule that is tried first where a strategy begins, perhaps in the same turn: as the first
// branch of a choice, through names and calls.
fn first_tried<'t, M: Meaning>(
    host: &Host<'t, M>,
    machine: &Machine<'t>,
    strategy: &'t ResolvedStrategy,
    scope: usize,
) -> Option<Attempt<'t>> {
    let mut rule = strategy;
    let mut front = strategy;
    let mut scope = Some(scope);
    let mut given = Given {
        strategies: &[],
        scope: None,
    };
    let mut call = None;
    for _ in 0..FOLLOWED {
        match front.form() {
            Form::Match(left) => {
                return Some(Attempt {
                    rule,
                    left,
                    scope,
                    call,
                });
            }
            Form::Seq(parts) => front = &parts.0,
            Form::Scope(_, part) => front = part,
            Form::Guard(parts) => {
                front = &parts.0;
                rule = front;
            }
            Form::Param(number) => {
                (front, scope) = match scope {
                    Some(inside) => {
                        let known = machine.stands_for(host, front, inside)?;
                        (known.strategy, Some(known.written_in))
                    }
                    None => (given.strategies.get(*number)?, given.scope),
                };
                rule = front;
            }
            Form::Call(number, strategies, _) => {
                call = Some((*number, front));
                given = Given { strategies, scope };
                front = &host.definitions.get(*number)?.strategy;
                scope = None;
                rule = front;
            }
            Form::Id
            | Form::Fail
            | Form::Build(_)
            | Form::Test(_)
            | Form::Congruence(_, _)
            | Form::TailCongruence(_, _)
            | Form::All(_)
            | Form::One(_)
            | Form::Some(_)
            | Form::Child(_, _)
            | Form::Rec(_)
            | Form::Prim(_, _) => return None,
        }
    }
    None
}
