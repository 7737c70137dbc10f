//! Runs of scripts, and answers to single commands.

mod commands;
mod devices;
mod hosts;
mod order;
mod pieces;
mod streams;

use prim_core::{NoPrimitives, Primitives};
use script_core::{Framing, RunFault, Settings, Summary};
use session_core::{MAX_BUDGET, Session};
use std::alloc::Global;
use std::test::Fail;

// A new session, in a box, which is dropped by a call: the drop of a session itself is proved anew
// in each function that holds one.
fn new_session(alloc: Global) -> Result<Box<Session<NoPrimitives>>, Fail> {
    let session = Session::new(alloc, Primitives::new(Vec::new(alloc)));
    Ok(Box::new(alloc, session)?)
}

/// How a run is to end.
type Outcome = Result<Summary, RunFault>;

fn ends(accepted: u64, refused: u64) -> Outcome {
    Ok(Summary { accepted, refused })
}

fn settings(framing: Framing, stop: bool) -> Settings {
    Settings {
        steps: MAX_BUDGET,
        stop,
        framing,
    }
}
