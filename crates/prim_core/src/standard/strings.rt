//! The standard primitives on strings. A string is a quoted name applied to nothing.

ghost use Rattle.std.specs.Prelude.{◌≡◌, length, IfOk, codes, option_and_then};
ghost use Rattle.std.specs.Option.{option_map};
ghost use Rattle.term_core.specs.Tree.{integer_term};
ghost use Rattle.prim_core.specs.Values.{string_term, integer_in_range};
ghost use Rattle.prim_core.specs.Strings.{integer_of};
ghost use Rattle.prim_core.specs.Standard.{standard};

use super::arguments::{one_integer, one_string, two_strings};
use super::integers::integer_answer;
use itoa::Buffer;
use std::alloc::Global;
use std::str;
use term_core::{Name, NoMemory, Term};

/// The greatest length in bytes of a string that `strcat` returns.
pub const MAX_STRING: usize = 65_536;

const PLUS: u8 = b'+';

fn string(alloc: Global, bytes: &[u8]) -> Result<Term, NoMemory>
    ensures { IfOk result (λ term. term ≡ string_term bytes.now) }
{
    let name = Name::quoted(alloc, bytes)?;
    Ok(Term::application(alloc, name, Vec::new(alloc)))
}

/// `strcat`: the string a followed by the string b; nothing if that is longer than 65,536 bytes.
pub fn strcat(alloc: Global, arguments: &[Term]) -> Result<Option<Term>, NoMemory>
    requires { length arguments.now ≡ 2 }
    ensures { IfOk result (λ found. found ≡ standard (codes "strcat") arguments.now) }
{
    let Some((a, b)) = two_strings(arguments) else {
        return Ok(None);
    };
    if a.len() > MAX_STRING || b.len() > MAX_STRING - a.len() {
        return Ok(None);
    }
    let mut bytes = Vec::with_capacity(alloc, a.len() + b.len())?;
    bytes.extend_from_slice(a)?;
    bytes.extend_from_slice(b)?;
    Ok(Some(string(alloc, &bytes)?))
}

/// `strlen`: the number of bytes of the string a; nothing if that is out of the range of `i64`.
pub fn strlen(alloc: Global, arguments: &[Term]) -> Result<Option<Term>, NoMemory>
    requires { length arguments.now ≡ 1 }
    ensures { IfOk result (λ found. found ≡ standard (codes "strlen") arguments.now) }
{
    let Some(bytes) = one_string(arguments) else {
        return Ok(None);
    };
    Ok(integer_answer(alloc, i64::try_from(bytes.len()).ok()))
}

/// `int-to-string`: the printed text of the integer a, as a string.
pub fn int_to_string(alloc: Global, arguments: &[Term]) -> Result<Option<Term>, NoMemory>
    requires { length arguments.now ≡ 1 }
    ensures { IfOk result (λ found. found ≡ standard (codes "int-to-string") arguments.now) }
{
    let Some(value) = one_integer(arguments) else {
        return Ok(None);
    };
    let mut buffer = Buffer::new();
    Ok(Some(string(alloc, buffer.format(value).as_bytes())?))
}

/// `string-to-int`: the integer that the string a spells: an optional `-` followed by digits and
/// nothing else; nothing if it spells none, or one out of the range of `i64`.
pub fn string_to_int(alloc: Global, arguments: &[Term]) -> Result<Option<Term>, NoMemory>
    requires { length arguments.now ≡ 1 }
    ensures { IfOk result (λ found. found ≡ standard (codes "string-to-int") arguments.now) }
{
    let Some(bytes) = one_string(arguments) else {
        return Ok(None);
    };
    Ok(integer_answer(alloc, parsed(bytes)))
}

// The integer that the bytes spell, if it is in range.
fn parsed(bytes: &[u8]) -> Option<i64>
    ensures { option_map integer_term result
        ≡ option_and_then integer_in_range (integer_of bytes.now) }
{
    if bytes.is_empty() || bytes[0] == PLUS {
        return None;
    }
    let Ok(text) = str::from_utf8(bytes) else {
        return None;
    };
    match text.parse::<i64>() {
        Ok(value) => Some(value),
        Err(_) => None,
    }
}
