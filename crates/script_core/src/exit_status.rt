//! The exit status of a run.

ghost use Rattle.std.specs.Prelude.{◌≡◌};
ghost use Rattle.script_core.specs.Status.{status_of};

use crate::running::{RunFault, Summary};

/// The exit status for the outcome of a run: 0 if all commands were accepted, 1 if some were
/// refused, 3 for a fault of reading or writing or the bound on reads, 4 for want of memory.
pub fn status(outcome: &Result<Summary, RunFault>) -> u8
    ensures { result ≡ status_of outcome.now }
{
    match outcome {
        Ok(summary) if summary.refused == 0 => 0,
        Ok(_) => 1,
        Err(RunFault::Read | RunFault::Write | RunFault::Turns) => 3,
        Err(RunFault::Memory) => 4,
    }
}
