//! The library: the usual traversals, as a module that is loaded by a step like any other.

ghost use Rattle.session_history.specs.Acts.{Performs};
ghost use Rattle.session_loading.specs.Library.{set_library};

use prim_core::Meaning;
use session_core::{Refusal, Session};
use std::alloc::Global;
use term_core::Label;

/// The name of the module.
pub const LIBRARY_NAME: &[u8] = b"library";

/// The text of the module. Its definitions have the names and meanings of the Stratego/XT manual.
pub const LIBRARY: &[u8] = b"strategies
  try(s) = s <+ id
  repeat(s) = try(s; repeat(s))
  topdown(s) = s; all(topdown(s))
  bottomup(s) = all(bottomup(s)); s
  downup(s) = s; all(downup(s)); s
  alltd(s) = s <+ all(alltd(s))
  oncetd(s) = s <+ one(oncetd(s))
  oncebu(s) = one(oncebu(s)) <+ s
  sometd(s) = s <+ some(sometd(s))
  somebu(s) = some(somebu(s)) <+ s
  innermost(s) = bottomup(try(s; innermost(s)))
  outermost(s) = repeat(oncetd(s))
  map(s) = [] <+ [s | map(s)]";

/// Loads the library as a step: the module `library` is set to its text. On a new session only want
/// of memory can refuse it (`library_is_accepted`).
///
/// A refusal leaves the session as it was.
pub fn load_library<M: Meaning>(alloc: Global, session: &mut Session<M>) -> Result<(), Refusal>
    ensures { Performs set_library session.old session.new result }
{
    match Label::read(alloc, LIBRARY_NAME) {
        Ok(label) => session.set_module(&label, LIBRARY),
        Err(_) => Err(Refusal::Memory),
    }
}
