//! Applying strategies in the tree of a slot.

ghost use Rattle.std.specs.Prelude.{◌≡◌, ◌≤◌, ◌+◌, Some, length, Decides, IfOk, IfSome, OnErr};
ghost use Rattle.term_core.specs.Tree.{Tree};
ghost use Rattle.term_core.specs.Size.{height};
ghost use Rattle.term_core.specs.declared.TheConstants.{MAX_ROOM};
ghost use Rattle.term_paths.specs.Paths.{at as found_at};
ghost use Rattle.term_changes.specs.Slots.{Store, content};
ghost use Rattle.term_changes.specs.Entries.{subterm_in};
ghost use Rattle.strategy_meaning.specs.Applied.{applied};
ghost use Rattle.strategy_run.specs.inside.Runs.{IsEmpty};
ghost use Rattle.strategy_machine.specs.Turns.{world_of};
ghost use Rattle.strategy_run.specs.Applies.{Applies, PutsAll, Stay, applied_in};
ghost use Rattle.strategy_run.specs.inside.Finding.{Finds};

use crate::ended::{Ended, when_done};
use crate::evaluation::run_to_end;
use crate::in_place::put_in_place;
use crate::looking::Unseen;
use change_log::{Log, Plan, Store};
use prim_core::{Meaning, Primitives};
use std::alloc::Global;
use strategy_check::Program;
use strategy_machine::{Host, Machine, Trail};
use strategy_syntax::Resolved;
use term_core::{MAX_HEIGHT, NoMemory, Term};
use term_paths::{Path, at};

/// The outcome of applying a strategy: on success, the result is in the tree.
pub type Outcome = Ended<()>;

/// Whether the subterm at the path of the slot's tree is low enough for [`apply`]: the length of
/// the path plus the height of the subterm is at most 1,000, or there is no subterm. It walks over
/// the subterm.
///
/// For example, a subterm of height 990 at a path of 10 parts is low enough, and one at a path of
/// 11 parts isn't.
pub fn is_low_enough(store: &Store, slot: usize, path: &Path) -> bool
    ensures { Decides result (IfSome (subterm_in store.now.trees slot path.now) (λ u. length path.now + height u ≤ MAX_HEIGHT)) }
{
    let Some(tree) = store.tree(slot) else {
        return true;
    };
    let Some(subterm) = at(tree, path) else {
        return true;
    };
    match MAX_HEIGHT.checked_sub(path.len() as u64) {
        Some(room) => subterm.height() <= room,
        None => false,
    }
}

/// Applies a strategy to the subterm at the path of the slot's tree, in at most `steps` steps.
/// Terms that it builds have at most the size `room`. The log gets an entry for each edit, in
/// order, so that each rewriting step can be read there. What a failed branch or a test did is no
/// edit. The subterm has to be low enough at its level, the length of the path ([`is_low_enough`]);
/// in a tree that fits, every subterm is.
///
/// Returns `Done` if the result is in the tree now, `Failed` if the strategy fails or there is no
/// subterm at the path, `Spent` if the strategy needs more steps, or `Big` if it makes a term that
/// doesn't fit. On every outcome but `Done`, and if memory can't grow, store and log stay as they
/// were.
///
/// For example, `all(!7); !8` on the tree `(1,2)` leaves 8, and three entries: 7 in the place of 1,
/// 7 in that of 2, and 8 in that of `(7,7)`.
///
/// Errors: only want of memory.
pub fn apply<M: Meaning>(
    alloc: Global,
    program: &Program,
    primitives: &Primitives<M>,
    store: &mut Store,
    slot: usize,
    path: &Path,
    room: u32,
    strategy: &Resolved,
    steps: u64,
    log: &mut Log,
) -> Result<Outcome, NoMemory>
    requires room { room ≤ MAX_ROOM }
    requires low { IfSome (subterm_in store.old.trees slot path.now) (λ u. length path.now + height u ≤ MAX_HEIGHT) }
    ensures applies { IfOk result (λ outcome. Applies
        (λ e u. PutsAll slot e u store.old log.old store.new log.new) (Stay store.old log.old store.new log.new)
        (applied_in (world_of M.meaning program.now.bodies primitives.now room) store.old.trees slot path.now strategy.now steps) outcome) }
    ensures store_err { OnErr result (store.new ≡ store.old) }
    ensures log_err { OnErr result (log.new ≡ log.old) }
{
    let Some(tree) = store.tree(slot) else {
        return Ok(Ended::Failed);
    };
    let host = Host {
        definitions: program.definitions(),
        primitives,
        room,
    };
    let found = plan_edits(alloc, &host, tree, slot, path, strategy, steps)?;
    when_done!(found, plan => put_in_place(plan, store, log)?)
}

// Runs the strategy on the subterm at the path of the tree, which is left unchanged. `Done` has the
// plan of what to put into the tree.
fn plan_edits<M: Meaning>(
    alloc: Global,
    host: &Host<'_, M>,
    tree: &Term,
    slot: usize,
    path: &Path,
    strategy: &Resolved,
    steps: u64,
) -> Result<Ended<Plan>, NoMemory>
    requires room { host.now.room ≤ MAX_ROOM }
    requires low { IfSome (found_at tree.now path.now) (λ u. length path.now + height u ≤ MAX_HEIGHT) }
    ensures { IfOk result (λ found. (s : Store) → content s.trees slot ≡ Some tree.now → Finds s slot
        (applied (world_of M.meaning host.now.definitions.now host.now.primitives.now host.now.room)
        path.now strategy.now steps tree.now) found) }
{
    let Some(term) = at(tree, path) else {
        return Ok(Ended::Failed);
    };
    let trail = Trail::listed(alloc);
    let mut m = Machine::new(alloc, trail, term, path.len() as u64, steps);
    plan_edits_by(alloc, host, &mut m, term, strategy, slot, path)
}

// Runs it on a machine without frames. The machine is borrowed, since its owner drops it on each
// way out.
fn plan_edits_by<'t, M: Meaning>(
    alloc: Global,
    host: &Host<'t, M>,
    m: &mut Machine<'t>,
    term: &'t Term,
    strategy: &'t Resolved,
    slot: usize,
    path: &Path,
) -> Result<Ended<Plan>, NoMemory>
    requires room { host.now.room ≤ MAX_ROOM }
    requires empty { IsEmpty m.old }
    requires level { m.old.level ≡ length path.now }
    requires low { length path.now + height term.now ≤ MAX_HEIGHT }
    ensures { IfOk result (λ found. (tree : Tree) (s : Store) → found_at tree path.now ≡ Some term.entry.now → content s.trees slot ≡ Some tree
        → Finds s slot (applied (world_of M.meaning host.now.definitions.now host.now.primitives.now host.now.room)
        path.now strategy.entry.now m.old.steps tree) found) }
{
    let ended = run_to_end(alloc, host, m, strategy, term, &mut Unseen)?;
    when_done!(ended, () => m.trail.replacements(alloc, slot, path.parts())?)
}
