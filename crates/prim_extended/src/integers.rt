//! Remainders of integers.

ghost use Rattle.std.specs.Prelude.{◌≡◌, length, IfOk, codes};
ghost use Rattle.prim_extended.specs.Extended.{extended};

use prim_core::standard::arguments::two_integers;
use std::alloc::Global;
use term_core::{NoMemory, Term};

/// `modi`: for integers a and b what is left of a if a / b, truncated towards zero, is taken b
/// times from it; nothing if b is 0.
pub fn modi(alloc: Global, arguments: &[Term]) -> Result<Option<Term>, NoMemory>
    requires { length arguments.now ≡ 2 }
    ensures { IfOk result (λ found. found ≡ extended (codes "modi") arguments.now) }
{
    let Some((a, b)) = two_integers(arguments) else {
        return Ok(None);
    };
    if b == 0 {
        return Ok(None);
    }
    Ok(Some(Term::integer(alloc, a.wrapping_rem(b))))
}
