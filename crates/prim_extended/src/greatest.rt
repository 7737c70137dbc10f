//! The greatest number after a beginning of strings, for fresh names.

ghost use Rattle.std.specs.Prelude.{◌≡◌, length, IfOk, codes};
ghost use Rattle.std.specs.Option.{option_map};
ghost use Rattle.term_core.specs.Tree.{integer_term, of_list};
ghost use Rattle.prim_extended.specs.Extended.{extended};
ghost use Rattle.prim_extended.specs.Greatest.{counted, counted_after, greatest as greatest_in, greatest_of_all, uncounted};

use prim_core::standard::arguments::string;
use std::alloc::Global;
use term_core::{NoMemory, Term};

/// `greatest-number`: the greatest number that comes after the string a in a string of the term b, as 12
/// after `x` in `"x12"`: decimal digits up to the end, of which at most 18 follow leading zeros.
/// Nothing if there is none.
pub fn greatest_number(alloc: Global, arguments: &[Term]) -> Result<Option<Term>, NoMemory>
    requires { length arguments.now ≡ 2 }
    ensures { IfOk result (λ found. found ≡ extended (codes "greatest-number") arguments.now) }
{
    let Some(beginning) = string(&arguments[0]) else {
        return Ok(None);
    };
    let counted = greatest(beginning, 0, &arguments[1]);
    Ok(number(alloc, counted))
}

// The number that is counted one more, as a term.
fn number(alloc: Global, counted: u64) -> Option<Term>
    ensures { result ≡ uncounted counted }
{
    let number = counted.checked_sub(1)?;
    match i64::try_from(number) {
        Ok(value) => Some(Term::integer(alloc, value)),
        Err(_) => None,
    }
}

// The greatest of a number and those of the term's strings, each counted one more.
#[cycle(greatest)]
fn greatest(beginning: &[u8], least: u64, term: &Term) -> u64
    ensures { result ≡ greatest_in beginning.now least term.now }
{
    if let Some(text) = string(term) {
        return least.max(number_after(beginning, text));
    }
    greatest_of(beginning, least, term.children())
}

#[cycle(greatest)]
fn greatest_of(beginning: &[u8], least: u64, terms: &[Term]) -> u64
    ensures { result ≡ greatest_of_all beginning.now least (of_list terms.now) }
{
    let mut found = least;
    for term in terms {
        found = greatest(beginning, found, term);
    }
    found
}

// The number after this beginning of a text, counted one more; 0 if there is none.
fn number_after(beginning: &[u8], text: &[u8]) -> u64
    ensures { result ≡ counted_after beginning.now text.now }
{
    match text.strip_prefix(beginning) {
        Some(rest) => digits(rest),
        None => 0,
    }
}

fn digits(text: &[u8]) -> u64
    ensures { result ≡ counted text.now }
{
    if text.is_empty() {
        return 0;
    }
    let mut number: u64 = 0;
    for byte in text {
        if !byte.is_ascii_digit() || number >= 100_000_000_000_000_000 {
            return 0;
        }
        number = number * 10 + u64::from(*byte - b'0');
    }
    number + 1
}
