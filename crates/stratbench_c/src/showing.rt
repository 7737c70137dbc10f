//! The text of a tree at a handle.

ghost use Rattle.std.specs.Prelude.{◌≡◌, ◌⊎◌, IfErr, IfOk, Err, OnErr, OnOk, Ok};
ghost use Rattle.session_history.specs.History.{History};
ghost use Rattle.stratbench_c.specs.Loads.{Shows, ShownAt, TellsShown};

use crate::bench::Bench;
use crate::status::Status;
use prim_core::Meaning;
use script_core::Answer;
use session_core::{Refusal, Session};
use std::alloc::Global;
use term_core::Label;

/// Answers the text of the tree of this name, as a line; or the refusal, if there is no such tree.
/// Returns the number of the status.
pub fn show_tree(bench: &mut Bench, name: &[u8]) -> u32
    ensures { TellsShown name.now result bench.old.work bench.new.work }
{
    shown_at(bench, name).code()
}

fn shown_at(bench: &mut Bench, name: &[u8]) -> Status
    ensures { ShownAt name.now result bench.old.work bench.new.work }
{
    let alloc = bench.alloc;
    match &mut bench.work {
        Some(work) => {
            work.ends.clear();
            work.hints.clear();
            work.answers.show(alloc, &work.session, name)
        }
        None => Status::NoMemory,
    }
}

/// Writes the text of the tree of this name as a line, in place of what was in the answer.
pub fn write_tree<M: Meaning>(
    alloc: Global,
    session: &Session<M>,
    name: &[u8],
    answer: &mut Answer,
) -> Result<(), Refusal>
    ensures ok { OnOk result (Shows name.now session.now (Ok answer.new)) }
    ensures refused { IfErr result (λ refusal. (refusal ≡ Refusal.Memory) ⊎ Shows name.now session.now (Err refusal)) }
{
    let label = Label::read(alloc, name)?;
    match session.tree(&label) {
        Some(tree) => Ok(answer.write_term(tree)?),
        None => Err(Refusal::NoTree),
    }
}
