//! Strings as primitives: search, parts, characters, and letters.

ghost use Rattle.std.specs.Prelude.{◌≡◌, ◌<◌, ◌≤◌, ◌∷◌, pos, length, map, IfOk, codes};
ghost use Rattle.std.specs.List.{prefix_len};
ghost use Rattle.prim_core.specs.Values.{integer_in_range, string_term};
ghost use Rattle.prim_extended.specs.Extended.{extended};
ghost use Rattle.prim_extended.specs.StringPrimitives.{characters as characters_in, goes_on as goes_on_of, found, joined_string, parts as parts_of};

use crate::arguments::list;
use crate::strings::{string as string_of, string_if_short};
use memchr::memmem;
use prim_core::MAX_STRING;
use prim_core::standard::arguments::{one_string, string, two_strings};
use std::alloc::Global;
use term_core::{NoMemory, Term};

/// `string-search`: the number of bytes before the first place where the string a has the string b;
/// nothing if it has it nowhere.
pub fn string_search(alloc: Global, arguments: &[Term]) -> Option<Term>
    requires { length arguments.now ≡ 2 }
    ensures { result ≡ extended (codes "string-search") arguments.now }
{
    let (text, part) = two_strings(arguments)?;
    number(alloc, place(text, part)?)
}

// The first place where the text has the part.
#[tactic(auto, using(crate::proofs::StringLemmas::found_value))]
fn place(text: &[u8], part: &[u8]) -> Option<usize>
    ensures { result ≡ found part.now text.now }
{
    memmem::find(text, part)
}

fn number(alloc: Global, number: usize) -> Option<Term>
    ensures { result ≡ integer_in_range (pos number) }
{
    match i64::try_from(number) {
        Ok(value) => Some(Term::integer(alloc, value)),
        Err(_) => None,
    }
}

/// `string-split`: the parts of the string a between the strings b in it, from left to right, as a
/// list; nothing if b is empty.
#[tactic(auto, using(crate::proofs::StringLemmas::splits))]
pub fn string_split(alloc: Global, arguments: &[Term]) -> Result<Option<Term>, NoMemory>
    requires { length arguments.now ≡ 2 }
    ensures { IfOk result (λ found. found ≡ extended (codes "string-split") arguments.now) }
{
    let Some((text, separator)) = two_strings(arguments) else {
        return Ok(None);
    };
    if separator.is_empty() {
        return Ok(None);
    }
    Ok(Some(Term::list(alloc, parts(alloc, text, separator)?)))
}

fn parts(alloc: Global, text: &[u8], separator: &[u8]) -> Result<Vec<Term>, NoMemory>
    requires { 0 < length separator.now }
    ensures { IfOk result (λ all. all.items ≡ map string_term (parts_of separator.now 0 text.now)) }
{
    let mut all = Vec::new(alloc);
    let mut left = text;
    while let Some(place) = memmem::find(left, separator) {
        let (part, rest) = left.split_at(place);
        all.push(string_of(alloc, part)?)?;
        left = &rest[separator.len()..];
    }
    all.push(string_of(alloc, left)?)?;
    Ok(all)
}

/// `string-join`: the strings in the list a with the string b between them; nothing if something else
/// is in a, or if that is longer than 65,536 bytes.
pub fn string_join(alloc: Global, arguments: &[Term]) -> Result<Option<Term>, NoMemory>
    requires { length arguments.now ≡ 2 }
    ensures { IfOk result (λ found. found ≡ extended (codes "string-join") arguments.now) }
{
    let Some(separator) = string(&arguments[1]) else {
        return Ok(None);
    };
    let Some(strings) = list(&arguments[0]) else {
        return Ok(None);
    };
    joined(alloc, strings, separator)
}

#[tactic(auto, using(crate::proofs::StringLemmas::first_texts))]
fn joined(alloc: Global, strings: &[Term], separator: &[u8]) -> Result<Option<Term>, NoMemory>
    ensures { IfOk result (λ found. found ≡ joined_string separator.now strings.now) }
{
    let Some((first, others)) = strings.split_first() else {
        return Ok(Some(string_of(alloc, b"")?));
    };
    let Some(text) = string(first) else {
        return Ok(None);
    };
    with_others(alloc, text, others, separator)
}

// The text with these strings after it, a separator in front of each.
fn with_others(
    alloc: Global,
    text: &[u8],
    others: &[Term],
    separator: &[u8],
) -> Result<Option<Term>, NoMemory>
    ensures { IfOk result (λ found. found ≡ joined_string separator.now (string_term text.now ∷ others.now)) }
{
    let mut bytes = Vec::from_slice(alloc, text)?;
    for other in others {
        if bytes.len() > MAX_STRING {
            return Ok(None);
        }
        let Some(text) = string(other) else {
            return Ok(None);
        };
        bytes.extend_from_slice(separator)?;
        bytes.extend_from_slice(text)?;
    }
    string_if_short(alloc, &bytes)
}

/// `string-characters`: the list of the characters of the string a, each as a string. In UTF-8 one
/// begins at each byte, but for those from 128 to 191; these go on with the one before.
pub fn string_characters(alloc: Global, arguments: &[Term]) -> Result<Option<Term>, NoMemory>
    requires { length arguments.now ≡ 1 }
    ensures { IfOk result (λ found. found ≡ extended (codes "string-characters") arguments.now) }
{
    let Some(text) = one_string(arguments) else {
        return Ok(None);
    };
    Ok(Some(Term::list(alloc, characters(alloc, text)?)))
}

fn characters(alloc: Global, text: &[u8]) -> Result<Vec<Term>, NoMemory>
    ensures { IfOk result (λ all. all.items ≡ map string_term (characters_in text.now)) }
{
    let mut all = Vec::new(alloc);
    let mut left = text;
    while let Some((_, after)) = left.split_first() {
        let (character, others) = left.split_at(1 + going_on(after));
        all.push(string_of(alloc, character)?)?;
        left = others;
    }
    Ok(all)
}

// The number of bytes at the start that go on with a character.
fn going_on(text: &[u8]) -> usize
    ensures value { result ≡ prefix_len goes_on_of text.now }
    ensures bound { result ≤ length text.now }
{
    text.iter().take_while(|byte| goes_on(**byte)).count()
}

fn goes_on(byte: u8) -> bool
    ensures { result ≡ goes_on_of byte }
{
    matches!(byte, 128..=191)
}

/// `upper-case`: the string a with its ASCII letters in upper case.
pub fn upper_case(alloc: Global, arguments: &[Term]) -> Result<Option<Term>, NoMemory>
    requires { length arguments.now ≡ 1 }
    ensures { IfOk result (λ found. found ≡ extended (codes "upper-case") arguments.now) }
{
    let Some(text) = one_string(arguments) else {
        return Ok(None);
    };
    let changed = text.to_ascii_uppercase(alloc)?;
    Ok(Some(string_of(alloc, &changed)?))
}

/// `lower-case`: the string a with its ASCII letters in lower case.
pub fn lower_case(alloc: Global, arguments: &[Term]) -> Result<Option<Term>, NoMemory>
    requires { length arguments.now ≡ 1 }
    ensures { IfOk result (λ found. found ≡ extended (codes "lower-case") arguments.now) }
{
    let Some(text) = one_string(arguments) else {
        return Ok(None);
    };
    let changed = text.to_ascii_lowercase(alloc)?;
    Ok(Some(string_of(alloc, &changed)?))
}
