//! Trees and modules as files have them.

ghost use Rattle.std.specs.Prelude.{◌≡◌, ◌⊎◌, Ok, Err, OnOk, OnErr, IfErr};
ghost use Rattle.script_text.specs.declared.framing.Framing.TheVariants.{Continued};
ghost use Rattle.script_text.specs.Laws.{IsCommandText};
ghost use Rattle.script_core.specs.inside.Performing.{reading_refusal};
ghost use Rattle.session_loading.specs.Loading.{LoadsModule, LoadsTree, module_text_of};

use crate::module_text::module_text;
use aterm_text::{ReadFault, read};
use prim_core::Meaning;
use session_core::{Refusal, Session};
use std::alloc::Global;
use term_core::Label;

/// Sets the module of this name to the text of a file, as a command would do it. Lines that begin
/// in the first column are indented by a blank, carriage returns before line feeds are dropped, and
/// blanks at both ends are cut, so that the text is one that a command can give.
///
/// A refusal leaves the session as it was.
pub fn load_module<M: Meaning>(
    alloc: Global,
    session: &mut Session<M>,
    name: &Label,
    text: &[u8],
) -> Result<(), Refusal>
    ensures ok { OnOk result (LoadsModule name.now text.now session.old (Ok session.new)) }
    ensures refused { IfErr result (λ refusal. (refusal ≡ Refusal.Memory)
        ⊎ LoadsModule name.now text.now session.old (Err refusal)) }
    ensures err { OnErr result (session.new ≡ session.old) }
    ensures given { OnOk result (IsCommandText Continued (module_text_of text.now)) }
{
    match module_text(alloc, text) {
        Ok(text) => session.set_module(name, &text),
        Err(_) => Err(Refusal::Memory),
    }
}

/// Sets the tree of this name to what the text of a file spells, as the command `tree` would do
/// it. The text may have any length.
///
/// A refusal leaves the session as it was.
pub fn load_tree<M: Meaning>(
    alloc: Global,
    session: &mut Session<M>,
    name: &Label,
    text: &[u8],
) -> Result<(), Refusal>
    ensures ok { OnOk result (LoadsTree name.now text.now session.old (Ok session.new)) }
    ensures refused { IfErr result (λ refusal. (refusal ≡ Refusal.Memory)
        ⊎ LoadsTree name.now text.now session.old (Err refusal)) }
    ensures err { OnErr result (session.new ≡ session.old) }
{
    match read(alloc, text) {
        Ok(tree) => session.set_tree(name, tree),
        Err(fault) => Err(read_refusal(fault)),
    }
}

fn read_refusal(fault: ReadFault) -> Refusal
    ensures { result ≡ reading_refusal fault }
{
    match fault {
        ReadFault::Deep => Refusal::Deep,
        ReadFault::Term => Refusal::Term,
        ReadFault::Memory => Refusal::Memory,
    }
}
