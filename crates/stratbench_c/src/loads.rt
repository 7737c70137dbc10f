//! Loading the library, modules and trees into what lies at a handle.

ghost use Rattle.std.specs.Prelude.{◌≡◌, ◌⊎◌, Ok, Err, OnOk, OnErr, IfErr};
ghost use Rattle.session_loading.specs.Loading.{LoadsModule, LoadsTree};
ghost use Rattle.stratbench_c.specs.Loads.{LoadedAt, LoadsNamed, SetsModule, TellsLibrary, TellsLoad};
ghost use Rattle.session_loading.specs.declared.library.TheConstants.{LIBRARY, LIBRARY_NAME};

use crate::bench::Bench;
use crate::status::Status;
use prim_core::Meaning;
use session_core::{Refusal, Session};
use session_loading::{LIBRARY, LIBRARY_NAME, load_library, load_module, load_tree};
use std::alloc::Global;
use term_core::Label;

/// Loads the library as a step. The answer is the refusal, if there is one; on a new session only
/// want of memory can refuse it. Returns the number of the status.
pub fn set_library(bench: &mut Bench) -> u32
    ensures { TellsLibrary result bench.old.work bench.new.work }
{
    library_at(bench).code()
}

fn library_at(bench: &mut Bench) -> Status
    ensures { LoadedAt SetsModule LIBRARY_NAME.now LIBRARY.now result bench.old.work bench.new.work }
{
    let alloc = bench.alloc;
    match &mut bench.work {
        Some(work) => {
            let outcome = load_library(alloc, &mut work.session);
            work.hints.add_library(&outcome);
            work.tell("module", LIBRARY_NAME, LIBRARY, outcome)
        }
        None => Status::NoMemory,
    }
}

/// Sets the module of this name to a text as a file has it, as a step. The answer is the refusal,
/// if there is one. Returns the number of the status.
pub fn set_module(bench: &mut Bench, name: &[u8], text: &[u8]) -> u32
    ensures { TellsLoad LoadsModule name.now text.now result bench.old.work bench.new.work }
{
    module_at(bench, name, text).code()
}

fn module_at(bench: &mut Bench, name: &[u8], text: &[u8]) -> Status
    ensures { LoadedAt LoadsModule name.now text.now result bench.old.work bench.new.work }
{
    let alloc = bench.alloc;
    match &mut bench.work {
        Some(work) => {
            let outcome = load_named_module(alloc, &mut work.session, name, text);
            work.tell("module", name, text, outcome)
        }
        None => Status::NoMemory,
    }
}

/// Sets the tree of this name to what the text spells, as a step. The answer is the refusal, if
/// there is one. Returns the number of the status.
pub fn set_tree(bench: &mut Bench, name: &[u8], text: &[u8]) -> u32
    ensures { TellsLoad LoadsTree name.now text.now result bench.old.work bench.new.work }
{
    tree_at(bench, name, text).code()
}

fn tree_at(bench: &mut Bench, name: &[u8], text: &[u8]) -> Status
    ensures { LoadedAt LoadsTree name.now text.now result bench.old.work bench.new.work }
{
    let alloc = bench.alloc;
    match &mut bench.work {
        Some(work) => {
            let outcome = load_named_tree(alloc, &mut work.session, name, text);
            work.tell("tree", name, text, outcome)
        }
        None => Status::NoMemory,
    }
}

fn load_named_module<M: Meaning>(
    alloc: Global,
    session: &mut Session<M>,
    name: &[u8],
    text: &[u8],
) -> Result<(), Refusal>
    ensures ok { OnOk result (LoadsNamed LoadsModule name.now text.now session.old (Ok session.new)) }
    ensures refused { IfErr result (λ refusal. (refusal ≡ Refusal.Memory)
        ⊎ LoadsNamed LoadsModule name.now text.now session.old (Err refusal)) }
    ensures err { OnErr result (session.new ≡ session.old) }
{
    match Label::read(alloc, name) {
        Ok(label) => load_module(alloc, session, &label, text),
        Err(fault) => Err(Refusal::from(fault)),
    }
}

fn load_named_tree<M: Meaning>(
    alloc: Global,
    session: &mut Session<M>,
    name: &[u8],
    text: &[u8],
) -> Result<(), Refusal>
    ensures ok { OnOk result (LoadsNamed LoadsTree name.now text.now session.old (Ok session.new)) }
    ensures refused { IfErr result (λ refusal. (refusal ≡ Refusal.Memory)
        ⊎ LoadsNamed LoadsTree name.now text.now session.old (Err refusal)) }
    ensures err { OnErr result (session.new ≡ session.old) }
{
    match Label::read(alloc, name) {
        Ok(label) => load_tree(alloc, session, &label, text),
        Err(fault) => Err(Refusal::from(fault)),
    }
}
