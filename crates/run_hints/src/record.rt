//! What is kept of a run.

use crate::about::About;
use crate::causes::Causes;
use crate::stands::{Called, Stand};
use strategy_syntax::ResolvedStrategy;
use term_core::NoMemory;

/// What is wanted of a run.
#[derive(Clone, Copy)]
pub enum Wanted {
    /// The last failure that nothing caught, what failed before that, and the nearest attempt.
    Failure,
    /// The failure in this turn.
    FailureIn(u64),
    /// The steps of each definition, the last calls, and where it stood at the end.
    Spending,
    /// Where it stood at the end.
    End,
    /// The steps of each definition.
    Steps,
    /// The attempt of a rule of the user that matched most of its left side, but not all of it.
    Nearest,
}

/// A strategy that was begun, in its scope.
#[derive(Clone, Copy)]
pub struct Begun<'t> {
    pub strategy: &'t ResolvedStrategy,
    pub scope: usize,
    /// How many frames were below it.
    pub frames: usize,
    /// How many edits were made before it.
    pub edits: usize,
}

/// What is kept of a run.
pub struct RunRecord<'t> {
    pub about: About<'t>,
    pub wanted: Wanted,
    /// The number of this turn.
    pub turn: u64,
    /// The open calls, the outermost first.
    pub calls: Vec<Called<'t>>,
    /// What the last turn began.
    pub begun: Option<Begun<'t>>,
    /// What was begun last, if it has succeeded since.
    pub succeeded: Option<Begun<'t>>,
    /// The steps that were left at the last turn.
    pub left: u64,
    /// The number of the library's text.
    pub library: Option<u32>,
    /// How many parts of the nearest attempt matched, and how deep the deepest of these was.
    pub most: (usize, usize),
    /// Where the run stood at the nearest attempt.
    pub nearest: Option<Stand<'t>>,
    /// The steps of each definition, by its number, and last those of the command.
    pub spent: Vec<u64>,
    /// How often each definition succeeded, by its number, where steps are wanted.
    pub successes: Vec<u64>,
    /// The definitions that were called last, in order.
    pub recent: Vec<usize>,
    pub causes: Causes,
    /// Where the run stood at the failure or the end that is wanted.
    pub stand: Option<Stand<'t>>,
    /// The size of the whole term at the end.
    pub size: u64,
    /// Whether it succeeded, and left the term as it was.
    pub has_left: bool,
}

impl Drop for RunRecord<'_> {
    fn drop(self) {
        let RunRecord {
            about: _,
            wanted: _,
            turn: _,
            calls: _,
            begun: _,
            succeeded: _,
            left: _,
            library: _,
            most: _,
            nearest: _,
            spent: _,
            successes: _,
            recent: _,
            causes: _,
            stand: _,
            size: _,
            has_left: _,
        } = self;
    }
}

impl<'t> RunRecord<'t> {
    /// What is kept before a run of so many steps.
    pub fn new(about: About<'t>, wanted: Wanted, steps: u64) -> Result<RunRecord<'t>, NoMemory> {
        let alloc = about.alloc;
        let mut spent = Vec::new(alloc);
        let count = about.modules.program().definitions().len();
        spent.resize(count.saturating_add(1), 0)?;
        let mut library = None;
        for named in about.modules.modules() {
            if named.name().bytes() == b"library".as_slice() {
                library = Some(named.text());
            }
        }
        Ok(RunRecord {
            successes: Vec::from_slice(alloc, &spent)?,
            about,
            wanted,
            turn: 0,
            calls: Vec::new(alloc),
            begun: None,
            succeeded: None,
            left: steps,
            library,
            most: (0, 0),
            nearest: None,
            spent,
            recent: Vec::new(alloc),
            causes: Causes::new(alloc),
            stand: None,
            size: 0,
            has_left: false,
        })
    }

    /// Whether it was a failure that is wanted and kept, after which the run was ended.
    pub fn is_complete(&self) -> bool {
        matches!(self.wanted, Wanted::FailureIn(_)) && self.stand.is_some()
    }
}
