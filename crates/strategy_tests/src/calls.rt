//! The calls that run a strategy on a term: what each leaves and lists.

ghost use Rattle.std.specs.Prelude.{◌≡◌};
ghost use Rattle.term_core.specs.declared.TheConstants.{MAX_SIZE};

use change_log::{Entry, Log, Store};
use prim_core::{Meaning, Primitives};
use std::alloc::Global;
use std::test::Fail;
use strategy_check::Program;
use strategy_run::{Ended, Host, Outcome, Planned, apply, evaluate, is_low_enough, plan_patch};
use strategy_syntax::Resolved;
use term_core::{Label, MAX_HEIGHT, MAX_SIZE, NoMemory, Term};
use term_paths::Path;

/// A strategy on a term, and what has to come.
#[derive(Clone, Copy)]
pub struct Case<'a> {
    pub program: &'a Program,
    pub strategy: &'a Resolved,
    pub steps: u64,
    /// The term, and the tree in which it is at the path `/1`.
    pub term: &'a Term,
    pub tree: &'a Term,
    /// `gives`, `fails`, `spent`, `big` or `memory`.
    pub word: &'a str,
    /// The two afterwards: other ones only where the strategy gives a term.
    pub term_after: &'a Term,
    pub tree_after: &'a Term,
    /// How many edits the strategy makes, and at how many outermost places.
    pub edits: usize,
    pub places: usize,
}

// The calls that change a tree of a store.
#[derive(Clone, Copy)]
enum Call {
    Apply,
    Plan,
}

// A store with the tree, the log that put it there, and that of the run.
#[derive(Drop)]
struct Bench {
    store: Store,
    entered: Log,
    log: Log,
}

/// Whether each call comes to what has to come.
pub fn is_so<M: Meaning>(
    alloc: Global,
    primitives: &Primitives<M>,
    case: &Case<'_>,
) -> Result<bool, Fail> {
    Ok(
        evaluates(alloc, primitives, case)
            && patches(alloc, primitives, case)?
            && changes(alloc, primitives, case, Call::Apply)?
            && changes(alloc, primitives, case, Call::Plan)?,
    )
}

fn word_of(outcome: Outcome) -> &'static str {
    match outcome {
        Ended::Done(()) => "gives",
        Ended::Failed => "fails",
        Ended::Spent => "spent",
        Ended::Big => "big",
    }
}

fn evaluates<M: Meaning>(alloc: Global, primitives: &Primitives<M>, case: &Case<'_>) -> bool {
    let term = case.term;
    if term.height() > MAX_HEIGHT - 1 {
        return false;
    }
    match evaluate(
        alloc,
        case.program,
        primitives,
        term,
        1,
        MAX_SIZE,
        case.strategy,
        case.steps,
    ) {
        Ok(Ended::Done(found)) => case.word == "gives" && found.equals(case.term_after),
        Ok(Ended::Failed) => case.word == "fails",
        Ok(Ended::Spent) => case.word == "spent",
        Ok(Ended::Big) => case.word == "big",
        Err(_) => case.word == "memory",
    }
}

// The program of a case, with room by default.
fn host_of<'a, M: Meaning>(case: &Case<'a>, primitives: &'a Primitives<M>) -> Host<'a, M>
    ensures { result.room ≡ MAX_SIZE }
{
    Host {
        definitions: case.program.definitions(),
        primitives,
        room: MAX_SIZE,
    }
}

// The patch leads to the term afterwards, and back again.
fn patches<M: Meaning>(
    alloc: Global,
    primitives: &Primitives<M>,
    case: &Case<'_>,
) -> Result<bool, Fail> {
    let term = case.term;
    let mut copy = term.try_clone()?;
    if term.height() > MAX_HEIGHT - 1 {
        return Ok(false);
    }
    let host = host_of(case, primitives);
    match plan_patch(alloc, &host, term, 1, case.strategy, case.steps) {
        Ok(Ended::Done(planned)) => {
            let Planned { mut patch, taken } = planned;
            patch.exchange(&mut copy);
            let is_after = copy.equals(case.term_after);
            patch.exchange(&mut copy);
            Ok(case.word == "gives" && taken == case.steps && is_after && copy.equals(case.term))
        }
        Ok(Ended::Failed) => Ok(case.word == "fails"),
        Ok(Ended::Spent) => Ok(case.word == "spent"),
        Ok(Ended::Big) => Ok(case.word == "big"),
        Err(_) => Ok(case.word == "memory"),
    }
}

// In a box, whose drop is a call: that of its content is proved anew on each way out.
fn new_bench(alloc: Global) -> Result<Box<Bench>, NoMemory> {
    let bench = Bench {
        store: Store::new(alloc),
        entered: Log::new(alloc),
        log: Log::new(alloc),
    };
    Ok(Box::new(alloc, bench)?)
}

fn changes<M: Meaning>(
    alloc: Global,
    primitives: &Primitives<M>,
    case: &Case<'_>,
    call: Call,
) -> Result<bool, Fail> {
    let mut bench = new_bench(alloc)?;
    let slot = enter(alloc, &mut bench, case.tree)?;
    let path = Path::from_parts(vec![in alloc; 1usize]?);
    let word = match run(alloc, primitives, case, call, &mut bench, slot, &path) {
        Ok(Some(outcome)) => word_of(outcome),
        Ok(None) => "high",
        Err(_) => "memory",
    };
    Ok(word == case.word && is_left(case, call, &mut bench, slot))
}

// Puts the tree in a slot of its own.
fn enter(alloc: Global, bench: &mut Bench, tree: &Term) -> Result<usize, Fail> {
    let label = Label::read(alloc, b"t")?;
    let slot = bench.store.tree_slot(&label)?;
    let entry = Entry::tree(slot, Some(tree.try_clone()?));
    bench.entered.push(&mut bench.store, entry)?;
    Ok(slot)
}

// Nothing for a tree that is too high.
fn run<M: Meaning>(
    alloc: Global,
    primitives: &Primitives<M>,
    case: &Case<'_>,
    call: Call,
    bench: &mut Bench,
    slot: usize,
    path: &Path,
) -> Result<Option<Outcome>, NoMemory> {
    let Bench { store, log, .. } = bench;
    if !is_low_enough(store, slot, path) {
        return Ok(None);
    }
    let outcome = match call {
        Call::Apply => apply(
            alloc,
            case.program,
            primitives,
            store,
            slot,
            path,
            MAX_SIZE,
            case.strategy,
            case.steps,
            log,
        )?,
        Call::Plan => return make_plan(alloc, primitives, case, store, log, slot, path),
    };
    Ok(Some(outcome))
}

// Makes the changes that the strategy would make, as entries of the log.
fn make_plan<M: Meaning>(
    alloc: Global,
    primitives: &Primitives<M>,
    case: &Case<'_>,
    store: &mut Store,
    log: &mut Log,
    slot: usize,
    path: &Path,
) -> Result<Option<Outcome>, NoMemory> {
    let term = case.term;
    let level = path.len() as u64;
    let Some(room) = MAX_HEIGHT.checked_sub(level) else {
        return Ok(None);
    };
    if term.height() > room {
        return Ok(None);
    }
    let host = host_of(case, primitives);
    match plan_patch(alloc, &host, term, level, case.strategy, case.steps)? {
        Ended::Done(planned) => {
            let plan = planned.patch.into_plan(alloc, slot, path.parts())?;
            log.make(store, plan)?;
            Ok(Some(Ended::Done(())))
        }
        Ended::Failed => Ok(Some(Ended::Failed)),
        Ended::Spent => Ok(Some(Ended::Spent)),
        Ended::Big => Ok(Some(Ended::Big)),
    }
}

fn holds(bench: &Bench, slot: usize, tree: &Term) -> bool {
    bench
        .store
        .tree(slot)
        .is_some_and(|there| there.equals(tree))
}

// Whether the tree is the one afterwards, and the log has an entry for each edit or place, and
// leads back and forward.
fn is_left(case: &Case<'_>, call: Call, bench: &mut Bench, slot: usize) -> bool {
    let count = match call {
        Call::Apply => case.edits,
        _ => case.places,
    };
    let is_after = bench.log.count() == count && holds(bench, slot, case.tree_after);
    bench.log.flip_back(&mut bench.store);
    let is_back = holds(bench, slot, case.tree);
    bench.log.flip_forward(&mut bench.store);
    let is_again = holds(bench, slot, case.tree_after);
    bench.log.roll_back(0, &mut bench.store);
    is_after && is_back && is_again && holds(bench, slot, case.tree)
}
