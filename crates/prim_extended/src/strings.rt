//! Strings as lists of bytes, and their order. A string is a quoted name applied to nothing.

ghost use Rattle.std.specs.Prelude.{◌≡◌, length, map, IfOk, codes};
ghost use Rattle.std.specs.Option.{option_map};
ghost use Rattle.prim_core.specs.Values.{string_term};
ghost use Rattle.prim_extended.specs.Bytes.{byte_term, byte_value, each, string_in_range};
ghost use Rattle.prim_extended.specs.Extended.{extended};

use crate::arguments::{byte, one_list};
use prim_core::MAX_STRING;
use prim_core::standard::arguments::{one_string, two_strings};
use std::alloc::Global;
use term_core::{Name, NoMemory, Term};

/// The string with these bytes.
pub(crate) fn string(alloc: Global, bytes: &[u8]) -> Result<Term, NoMemory>
    ensures { IfOk result (λ term. term ≡ string_term bytes.now) }
{
    let name = Name::quoted(alloc, bytes)?;
    Ok(Term::application(alloc, name, Vec::new(alloc)))
}

/// The string with these bytes; nothing if there are more than 65,536.
pub(crate) fn string_if_short(alloc: Global, bytes: &[u8]) -> Result<Option<Term>, NoMemory>
    ensures { IfOk result (λ found. found ≡ string_in_range bytes.now) }
{
    if bytes.len() > MAX_STRING {
        return Ok(None);
    }
    Ok(Some(string(alloc, bytes)?))
}

/// `explode-string`: the list of the bytes of the string a, as integers.
pub fn explode_string(alloc: Global, arguments: &[Term]) -> Result<Option<Term>, NoMemory>
    requires { length arguments.now ≡ 1 }
    ensures { IfOk result (λ found. found ≡ extended (codes "explode-string") arguments.now) }
{
    let Some(bytes) = one_string(arguments) else {
        return Ok(None);
    };
    let elements = byte_terms(alloc, bytes)?;
    Ok(Some(Term::list(alloc, elements)))
}

fn byte_terms(alloc: Global, bytes: &[u8]) -> Result<Vec<Term>, NoMemory>
    ensures { IfOk result (λ terms. terms.items ≡ map byte_term bytes.now) }
{
    let mut terms = Vec::with_capacity(alloc, bytes.len())?;
    for byte in bytes {
        terms.push(Term::integer(alloc, i64::from(*byte)))?;
    }
    Ok(terms)
}

/// `implode-string`: the string of the bytes that the list a has as integers from 0 to 255; nothing
/// if another element is in it, or if that is longer than 65,536 bytes.
pub fn implode_string(alloc: Global, arguments: &[Term]) -> Result<Option<Term>, NoMemory>
    requires { length arguments.now ≡ 1 }
    ensures { IfOk result (λ found. found ≡ extended (codes "implode-string") arguments.now) }
{
    let Some(elements) = one_list(arguments) else {
        return Ok(None);
    };
    if elements.len() > MAX_STRING {
        return Ok(None);
    }
    match bytes_of(alloc, elements)? {
        Some(bytes) => Ok(Some(string(alloc, &bytes)?)),
        None => Ok(None),
    }
}

// The bytes of the elements, if each is one.
fn bytes_of(alloc: Global, elements: &[Term]) -> Result<Option<Vec<u8>>, NoMemory>
    ensures { IfOk result (λ found. option_map (λ v. v.items) found
        ≡ each byte_value elements.now) }
{
    let mut bytes = Vec::with_capacity(alloc, elements.len())?;
    for element in elements {
        let Some(byte) = byte(element) else {
            return Ok(None);
        };
        bytes.push(byte)?;
    }
    Ok(Some(bytes))
}

/// `gts`: the tuple (a,b) for strings a and b if a comes after b in the order of bytes, else
/// nothing.
pub fn gts(alloc: Global, arguments: &[Term]) -> Result<Option<Term>, NoMemory>
    requires { length arguments.now ≡ 2 }
    ensures { IfOk result (λ found. found ≡ extended (codes "gts") arguments.now) }
{
    let Some((a, b)) = two_strings(arguments) else {
        return Ok(None);
    };
    if !a.cmp(b).is_gt() {
        return Ok(None);
    }
    let pair = vec![in alloc; string(alloc, a)?, string(alloc, b)?]?;
    Ok(Some(Term::tuple(alloc, pair)))
}
