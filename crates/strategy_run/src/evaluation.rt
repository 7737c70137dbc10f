//! Running strategies to their end.

ghost use Rattle.std.specs.Prelude.{◌≤◌, ◌+◌, IfOk};
ghost use Rattle.term_core.specs.Size.{height};
ghost use Rattle.term_core.specs.declared.TheConstants.{MAX_ROOM};
ghost use Rattle.strategy_meaning.specs.Meaning.{run_whole};
ghost use Rattle.term_changes.specs.Standing.{unchanged};
ghost use Rattle.strategy_machine.specs.Turns.{world_of};
ghost use Rattle.strategy_run.specs.inside.Runs.{Ends, IsEmpty};
ghost use Rattle.strategy_run.specs.Ends.{IsAnswered};

use crate::ended::{Ended, when_done};
use crate::looking::{Look, Unseen};
use prim_core::{Meaning, Primitives};
use std::alloc::Global;
use strategy_check::Program;
use strategy_machine::{Host, Machine, Next, Trail, Turned, turn};
use strategy_syntax::Resolved;
use term_core::{MAX_HEIGHT, NoMemory, Term};
use term_values::Part;

/// The answer of a strategy: on success, the resulting term.
pub type Evaluated = Ended<Term>;

/// Evaluates a strategy on a term at a level, the number of terms above it, in at most `steps`
/// steps. Terms that it builds have at most the size `room`. The term has to be low enough at its
/// level: level plus height is at most 1,000. It is left unchanged.
///
/// Returns `Done` with the resulting term, `Failed` if the strategy fails, `Spent` if it needs more
/// steps, or `Big` if it makes a term that doesn't fit.
///
/// For example, `all(!7)` on `(1,2)` gives `(7,7)` within 3 steps, and is `Spent` within 2.
///
/// Errors: only want of memory.
pub fn evaluate<M: Meaning>(
    alloc: Global,
    program: &Program,
    primitives: &Primitives<M>,
    term: &Term,
    level: u64,
    room: u32,
    strategy: &Resolved,
    steps: u64,
) -> Result<Evaluated, NoMemory>
    requires room { room ≤ MAX_ROOM }
    requires low { level + height term.now ≤ MAX_HEIGHT }
    ensures { IfOk result (λ evaluated. IsAnswered evaluated
        (run_whole (world_of M.meaning program.now.bodies primitives.now room) level strategy.now steps term.now)) }
{
    let host = Host {
        definitions: program.definitions(),
        primitives,
        room,
    };
    let mut m = Machine::new(alloc, Trail::counted(), term, level, steps);
    evaluate_by(alloc, &host, &mut m, term, strategy)
}

// Evaluates it on a machine without frames. The machine is borrowed, since its owner drops it on
// each way out.
fn evaluate_by<'t, M: Meaning>(
    alloc: Global,
    host: &Host<'t, M>,
    m: &mut Machine<'t>,
    term: &'t Term,
    strategy: &'t Resolved,
) -> Result<Evaluated, NoMemory>
    requires room { host.now.room ≤ MAX_ROOM }
    requires empty { IsEmpty m.old }
    requires low { m.old.level + height term.now ≤ MAX_HEIGHT }
    ensures { IfOk result (λ evaluated. IsAnswered evaluated
        (run_whole (world_of M.meaning host.now.definitions.now host.now.primitives.now host.now.room)
        m.old.level strategy.entry.now m.old.steps term.entry.now)) }
{
    let ended = run_to_end(alloc, host, m, strategy, term, &mut Unseen)?;
    when_done!(ended, () => m.part.value()?.to_term(alloc)?)
}

/// Runs a machine without frames to its end. If that is `Done`, its part is the result.
pub(crate) fn run_to_end<'t, M: Meaning, L: Look<'t>>(
    alloc: Global,
    host: &Host<'t, M>,
    m: &mut Machine<'t>,
    strategy: &'t Resolved,
    term: &'t Term,
    look: &mut L,
) -> Result<Ended<()>, NoMemory>
    requires room { host.now.room ≤ MAX_ROOM }
    requires empty { IsEmpty m.old }
    requires low { m.old.level + height term.now ≤ MAX_HEIGHT }
    ensures { IfOk result (λ ended. Ends (unchanged term.entry.now) m.new ended
        (run_whole (world_of M.meaning host.now.definitions.now host.now.primitives.now host.now.room)
        m.old.level strategy.entry.now m.old.steps term.entry.now)) }
{
    // the strategy runs in a scope without variables and names
    m.scopes.add_variables(None, 0, 0)?;
    m.cells.open_cells(strategy.variables)?;
    let scope = m.scopes.add_variables(None, 0, strategy.variables)?;
    let part = Part::original_within(term, MAX_HEIGHT - m.level);
    m.part = part;
    m.next = Next::Begin(&strategy.strategy, scope);
    'run: loop {
        look.before_turn(m)?;
        let turned = turn(alloc, host, m)?;
        match turned {
            Turned::On => (),
            Turned::Done => return Ok(Ended::Done(())),
            Turned::Failed => return Ok(Ended::Failed),
            Turned::Spent => return Ok(Ended::Spent),
            Turned::Big => return Ok(Ended::Big),
        }
    }
}
