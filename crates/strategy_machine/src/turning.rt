//! One turn of the machine.

ghost use Rattle.std.specs.Prelude.{◌≤◌, IfOk};
ghost use Rattle.term_core.specs.declared.TheConstants.{MAX_ROOM};
ghost use Rattle.strategy_meaning.specs.Answer.{Answer};
ghost use Rattle.strategy_meaning.specs.Meaning.{World};
ghost use Rattle.term_changes.specs.Standing.{Standing};
ghost use Rattle.strategy_machine.specs.Hands.{in_hand};
ghost use Rattle.strategy_machine.specs.Turns.{Holds, Turn, Falls, world_of};

use crate::begin::begin;
use crate::fail::give_failed;
use crate::frames::{Next, Turned};
use crate::give::give_done;
use crate::machine::{Host, Machine};
use prim_core::Meaning;
use std::alloc::Global;
use term_core::NoMemory;

/// Takes one turn: starts the next strategy, or gives an answer to the innermost frame.
///
/// Errors: only want of memory. The run has to end then.
#[inline(always)]
pub fn turn<'t, M: Meaning>(
    alloc: Global,
    host: &Host<'t, M>,
    m: &mut Machine<'t>,
) -> Result<Turned, NoMemory>
    requires room { host.now.room ≤ MAX_ROOM }
    requires holds { (W : World) × (sub : Standing) × (whole : Answer) × Holds W sub whole m.old (in_hand m.old) }
    ensures ok { IfOk result (λ next. Turn (world_of M.meaning host.now.definitions.now host.now.primitives.now host.now.room) m.old (in_hand m.old) m.new next) }
    ensures less { IfOk result (λ next. Falls m.old (in_hand m.old) m.new next) }
{
    match m.next {
        Next::Begin(strategy, scope) => begin(alloc, host, m, strategy, scope),
        Next::Done => give_done(alloc, m),
        Next::Failed => give_failed(alloc, m),
    }
}
