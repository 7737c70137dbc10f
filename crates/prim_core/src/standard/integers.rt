//! The standard primitives on integers.

ghost use Rattle.std.specs.Prelude.{◌≡◌, ℤ, length, IfOk, codes};
ghost use Rattle.std.specs.Option.{option_map};
ghost use Rattle.term_core.specs.Tree.{integer_term};
ghost use Rattle.prim_core.specs.Standard.{standard};

use super::arguments::two_integers;
use std::alloc::Global;
use term_core::{NoMemory, Term};

/// The integer as a term.
pub(crate) fn integer_answer(alloc: Global, value: Option<i64>) -> Option<Term>
    ensures { result ≡ option_map integer_term value }
{
    match value {
        Some(value) => Some(Term::integer(alloc, value)),
        None => None,
    }
}

/// `addi`: a + b for integers a and b; nothing if that is out of the range of `i64`.
pub fn addi(alloc: Global, arguments: &[Term]) -> Result<Option<Term>, NoMemory>
    requires { length arguments.now ≡ 2 }
    ensures { IfOk result (λ found. found ≡ standard (codes "addi") arguments.now) }
{
    let Some((a, b)) = two_integers(arguments) else {
        return Ok(None);
    };
    Ok(integer_answer(alloc, a.checked_add(b)))
}

/// `subti`: a - b for integers a and b; nothing if that is out of the range of `i64`.
pub fn subti(alloc: Global, arguments: &[Term]) -> Result<Option<Term>, NoMemory>
    requires { length arguments.now ≡ 2 }
    ensures { IfOk result (λ found. found ≡ standard (codes "subti") arguments.now) }
{
    let Some((a, b)) = two_integers(arguments) else {
        return Ok(None);
    };
    Ok(integer_answer(alloc, a.checked_sub(b)))
}

/// `muli`: a * b for integers a and b; nothing if that is out of the range of `i64`.
pub fn muli(alloc: Global, arguments: &[Term]) -> Result<Option<Term>, NoMemory>
    requires { length arguments.now ≡ 2 }
    ensures { IfOk result (λ found. found ≡ standard (codes "muli") arguments.now) }
{
    let Some((a, b)) = two_integers(arguments) else {
        return Ok(None);
    };
    Ok(integer_answer(alloc, a.checked_mul(b)))
}

/// `divi`: a / b for integers a and b, truncated towards zero; nothing if b is 0 or the result is
/// out of the range of `i64`.
pub fn divi(alloc: Global, arguments: &[Term]) -> Result<Option<Term>, NoMemory>
    requires { length arguments.now ≡ 2 }
    ensures { IfOk result (λ found. found ≡ standard (codes "divi") arguments.now) }
{
    let Some((a, b)) = two_integers(arguments) else {
        return Ok(None);
    };
    Ok(integer_answer(alloc, a.checked_div(b)))
}

/// `gti`: the tuple (a,b) for integers a and b if a > b, else nothing.
pub fn gti(alloc: Global, arguments: &[Term]) -> Result<Option<Term>, NoMemory>
    requires { length arguments.now ≡ 2 }
    ensures { IfOk result (λ found. found ≡ standard (codes "gti") arguments.now) }
{
    let Some((a, b)) = two_integers(arguments) else {
        return Ok(None);
    };
    if a <= b {
        return Ok(None);
    }
    let pair = vec![in alloc; Term::integer(alloc, a), Term::integer(alloc, b)]?;
    Ok(Some(Term::tuple(alloc, pair)))
}
