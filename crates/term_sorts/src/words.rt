//! Words that have a meaning as names of sorts.

ghost use Rattle.std.specs.Prelude.{◌≡◌, ◌↔◌, IsTrue, IfOk, true};
ghost use Rattle.term_core.specs.Tree.{same_name};
ghost use Rattle.term_core.specs.Word.{is_word};
ghost use Rattle.term_sorts.specs.Sorts.{word};

use std::alloc::Global;
use term_core::{Name, NoMemory};

pub(crate) const INT: &[u8] = b"int";

pub(crate) const STR: &[u8] = b"str";

pub(crate) const LIST: &[u8] = b"list";

pub(crate) const TUPLE: &[u8] = b"tuple";

/// Whether the name is the word with these bytes.
pub(crate) fn is_named(name: &Name, text: &[u8]) -> bool
    ensures test { result ≡ same_name name.now (word text.now) }
    ensures same { IsTrue result ↔ (name.now ≡ word text.now) }
{
    !name.is_quoted() && name.bytes() == text
}

/// The word with these bytes, which are known to be one.
pub(crate) fn named(alloc: Global, text: &[u8]) -> Result<Name, NoMemory>
    requires { is_word text.now ≡ true }
    ensures { IfOk result (λ name. name ≡ word text.now) }
{
    let Some(name) = Name::word(alloc, text)? else {
        unreachable!()
    };
    Ok(name)
}
