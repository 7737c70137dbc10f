//! A law about the library.

ghost use Rattle.session_loading.specs.Library.{LibraryIsAccepted};

use strategy_parse::laws::{one_module, one_result};

/// On a new session only want of memory can refuse the library.
pub fn library_is_accepted()
    ensures { LibraryIsAccepted }
{
    // Called for their contracts: a text is at most one module, and at most one strategy.
    one_module();
    one_result();
}
