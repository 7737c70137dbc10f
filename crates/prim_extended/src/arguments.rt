//! Values of arguments beside those of `prim_core`. Annotations are ignored.

ghost use Rattle.std.specs.Prelude.{◌≡◌, length};
ghost use Rattle.std.specs.Option.{option_copied};
ghost use Rattle.prim_core.specs.Values.{one};
ghost use Rattle.prim_extended.specs.Bytes.{list_value, byte_value};

use prim_core::standard::arguments::integer;
use term_core::{Kind, Term};

/// The byte, if the term is an integer from 0 to 255.
pub fn byte(term: &Term) -> Option<u8>
    ensures { result ≡ byte_value term.now }
{
    let value = integer(term)?;
    u8::try_from(value).ok()
}

/// The elements, if the term is a list.
pub fn list(term: &Term) -> Option<&[Term]>
    ensures { option_copied result ≡ list_value term.now }
{
    match term.kind() {
        Kind::List => Some(term.children()),
        _ => None,
    }
}

/// The elements of the only argument, if it is a list.
pub fn one_list(arguments: &[Term]) -> Option<&[Term]>
    requires { length arguments.now ≡ 1 }
    ensures { option_copied result ≡ one list_value arguments.now }
{
    list(&arguments[0])
}
