//! Strategies given as text, for a place in a tree of a session.

ghost use Rattle.std.specs.Prelude.{◌≡◌, ◌<◌, ◌⊎◌, Some, Ok, Err, IfOk, IfErr};
ghost use Rattle.term_changes.specs.Slots.{contents};
ghost use Rattle.term_changes.specs.Entries.{subterm_in};
ghost use Rattle.session_history.specs.Applying.{ReadsAsStrategy, resolved_in};
ghost use Rattle.session_history.specs.History.{AreFormed};
ghost use Rattle.session_modules.specs.Kept.{IsKept, program_in};
ghost use Rattle.session_history.specs.Unfolded.{unfolded};
ghost use Rattle.session_core.specs.inside.Resolved.{ResolvesTo, IsUnresolved};

use prim_core::{Meaning, Primitives};
use session_history::{Found, ModuleCache, Refusal, Timeline};
use std::alloc::Global;
use strategy_check::{Program, resolve};
use strategy_parse::parse_strategy;
use strategy_syntax::{Resolved, Strategy};
use term_core::Label;
use term_paths::Path;

/// A strategy, resolved for a place in a tree.
#[derive(Drop)]
pub(crate) struct ResolvedAt<'a> {
    pub(crate) place: Found<'a>,
    pub(crate) strategy: Resolved,
}

/// The place at the path in the name's tree, and the strategy that the text is resolved to. The
/// modules are checked unless they are kept, and are kept then.
// What was read is passed to `drop` instead of being left to the ends of scopes: there its drop
// would be proved anew on each way out.
pub(crate) fn resolve_at<'a, M: Meaning>(
    timeline: &'a Timeline,
    primitives: &Primitives<M>,
    cache: &mut ModuleCache,
    name: &Label,
    path: &Path,
    text: &[u8],
) -> Result<ResolvedAt<'a>, Refusal>
    requires formed { AreFormed timeline.now.limits.max_tokens (contents timeline.now.store) }
    requires kept { IsKept primitives.now (contents timeline.now.store).modules cache.old }
    ensures ok { IfOk result (λ found. ResolvesTo primitives.now timeline.now name.now path.now text.now
        (program_in cache.new) found.place.slot found.strategy) }
    ensures part { IfOk result (λ found. subterm_in timeline.now.store.trees found.place.slot path.now ≡ Some found.place.part.now) }
    ensures refused { IfErr result (λ refusal. (refusal ≡ Refusal.Memory)
        ⊎ IsUnresolved name.now path.now text.now (unfolded primitives.now timeline.now) refusal) }
    ensures kept { IsKept primitives.now (contents timeline.now.store).modules cache.new }
{
    let alloc = timeline.allocator();
    let place = match timeline.place(name, path) {
        Ok(place) => place,
        Err(refusal) => return Err(refusal),
    };
    let strategy = match read_strategy(alloc, text) {
        Ok(strategy) => strategy,
        Err(refusal) => return Err(refusal),
    };
    if let Err(refusal) = cache.check(timeline.store(), primitives) {
        drop(strategy);
        return Err(refusal);
    }
    let resolved = resolve_strategy(alloc, cache.program(), primitives, &strategy);
    drop(strategy);
    match resolved {
        Ok(whole) => Ok(ResolvedAt {
            place,
            strategy: whole,
        }),
        Err(refusal) => Err(refusal),
    }
}

// Parses a strategy.
fn read_strategy(alloc: Global, text: &[u8]) -> Result<Strategy, Refusal>
    ensures ok { IfOk result (λ s. ReadsAsStrategy text.now (Ok s)) }
    ensures refused { IfErr result (λ refusal. (refusal ≡ Refusal.Memory)
        ⊎ ReadsAsStrategy text.now (Err refusal)) }
{
    match parse_strategy(alloc, text) {
        Ok(strategy) => Ok(strategy),
        Err(fault) => Err(Refusal::from(fault)),
    }
}

// Resolves the strategy's names to numbers, if the checker finds no fault in it, given the program.
fn resolve_strategy<M: Meaning>(
    alloc: Global,
    program: &Program,
    primitives: &Primitives<M>,
    strategy: &Strategy,
) -> Result<Resolved, Refusal>
    ensures ok { IfOk result (λ whole. resolved_in program.now primitives.now strategy.now ≡ Ok whole) }
    ensures refused { IfErr result (λ refusal. (refusal ≡ Refusal.Memory)
        ⊎ (resolved_in program.now primitives.now strategy.now ≡ Err refusal)) }
{
    match resolve(alloc, program, primitives, strategy) {
        Ok(whole) => Ok(whole),
        Err(fault) => Err(Refusal::from(fault)),
    }
}
