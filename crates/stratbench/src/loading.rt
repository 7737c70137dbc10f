//! Trees and modules from files.

ghost use Rattle.std.specs.Prelude.{◌≡◌, ◌⊎◌, Ok, Err, OnOk, OnErr, IfErr};
ghost use Rattle.stratbench.specs.Files.{Loads};

use command_line::Load;
use hint_text::{arity_of, module_of};
use observing::{LoadedText, faulty_module};
use prim_core::Meaning;
use session_core::{Refusal, Session};
use session_loading::{load_module, load_tree};
use std::alloc::Global;
use strategy_check::FaultKind;
use term_core::{Label, Name};

/// A file that was loaded, with its text.
#[derive(Drop)]
pub struct Loaded<'l, 'a> {
    pub load: &'l Load<'a>,
    pub text: Vec<u8>,
}

/// A module from a file.
pub trait FromFile {
    fn name(&self) -> &Label;
}

impl FromFile for Loaded<'_, '_> {
    fn name(&self) -> &Label {
        self.load.name()
    }
}

/// Loads the text of a file of the command line.
///
/// A refusal leaves the session as it was.
pub fn load_text<M: Meaning>(
    alloc: Global,
    session: &mut Session<M>,
    load: &Load<'_>,
    text: &[u8],
) -> Result<(), Refusal>
    ensures ok { OnOk result (Loads load.now text.now session.old (Ok session.new)) }
    ensures refused { IfErr result (λ refusal. (refusal ≡ Refusal.Memory)
        ⊎ Loads load.now text.now session.old (Err refusal)) }
    ensures err { OnErr result (session.new ≡ session.old) }
{
    match load {
        Load::Module(named) => load_module(alloc, session, &named.name, text),
        Load::Tree(named) => load_tree(alloc, session, &named.name, text),
    }
}

/// What a file loads, as an observer sees it. The file has this name in messages.
pub fn loaded_text<'a>(load: &'a Load<'_>, file: &'a str, text: &'a [u8]) -> LoadedText<'a> {
    LoadedText {
        word: match load {
            Load::Module(_) => "module",
            Load::Tree(_) => "tree",
        },
        name: load.name().bytes(),
        file,
        text,
    }
}

/// The module for which modules are refused together: of those that define the same the last that was
/// given, or else the one with the first fault. Of several of one name that is the last, whose text
/// the session has.
pub fn with_fault<'s, T: FromFile, M: Meaning>(
    alloc: Global,
    session: &Session<M>,
    modules: &'s [T],
    refusal: &Refusal,
) -> Option<&'s T> {
    if let Refusal::Check(FaultKind::Twice, name, strategies, terms) = refusal {
        for it in modules.iter().rev() {
            if defines(alloc, session, it.name(), name, (*strategies, *terms)) {
                return Some(it);
            }
        }
    }
    let faulty = faulty_module(alloc, session)?;
    modules.iter().rfind(|it| *it.name() == faulty)
}

// Whether the module defines the name with so many strategies and terms as parameters.
fn defines<M: Meaning>(
    alloc: Global,
    session: &Session<M>,
    module: &Label,
    name: &Name,
    arity: (u64, u64),
) -> bool {
    let Some(text) = session.timeline().module_text(module) else {
        return false;
    };
    let Ok(module) = module_of(alloc, text) else {
        return false;
    };
    for definition in module.definitions() {
        if definition.name().equals(name) && arity_of(definition) == arity {
            return true;
        }
    }
    false
}
