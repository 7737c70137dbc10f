//! Stopping a script from another thread.

ghost use Rattle.std.specs.Prelude.{is_ok};
ghost use Rattle.stratbench_c.specs.Runs.{Makes, MakesStopper, TellsStop};

use crate::bench::Bench;
use crate::status::Status;
use session_core::Stop;
use term_core::NoMemory;

/// What lies at a stopper's handle: a stop, or nothing if there was no memory for it.
#[derive(Drop)]
pub struct Stopper {
    pub stop: Option<Stop>,
}

/// Makes a stopper for the scripts at this handle, in place of the one before.
pub fn make_stopper(bench: &mut Bench) -> Stopper
    ensures { MakesStopper result bench.old.work bench.new.work }
{
    let stop = match new_stop(bench) {
        Ok(stop) => Some(stop),
        Err(NoMemory) => None,
    };
    Stopper { stop }
}

fn new_stop(bench: &mut Bench) -> Result<Stop, NoMemory>
    ensures { Makes (is_ok result) bench.old.work bench.new.work }
{
    let Some(work) = &mut bench.work else {
        return Err(NoMemory);
    };
    let stop = Stop::new(bench.alloc)?;
    work.heed(&stop)?;
    Ok(stop)
}

/// Asks for the stop. Returns the number of the status.
pub fn ask_to_stop(stopper: &mut Stopper) -> u32
    ensures { TellsStop result stopper.old stopper.new }
{
    match &stopper.stop {
        Some(stop) => {
            stop.ask();
            Status::Accepted.code()
        }
        None => Status::NoMemory.code(),
    }
}

/// Gives the stopper's memory back. A stop that was asked for stays.
pub fn end_stopper(stopper: Stopper) {
    let Stopper { stop: _ } = stopper;
}
