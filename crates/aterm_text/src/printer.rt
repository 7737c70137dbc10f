//! Printing terms.
#![tactic(auto, using(crate::proofs::PrintLemmas::print_steps))]

ghost use Rattle.std.specs.Prelude.{◌≡◌, ◌++◌, ◌∷◌, [], ◌≤◌, false, OnOk, OnErr, vec_capacity};
ghost use Rattle.std.specs.List.{flat_map, prefix_len};
ghost use Rattle.std.specs.Fmt.{signed_decimal};
ghost use Rattle.term_core.specs.Tree.{of_list, bare};
ghost use Rattle.term_core.specs.Terms.{IsTerm, AreTerms, IsName};
ghost use Rattle.aterm_text.specs.Printed.{escaped as escaped_of, octal_escape, print as print_of, print_name as print_name_of, print_all as print_all_of, bracketed as bracketed_of};
ghost use Rattle.aterm_text.specs.Grammar.{Spells};
ghost use Rattle.aterm_text.specs.inside.Printing.{Extends, is_plain as is_plain_of};

use itoa::Buffer;
use term_core::{Kind, Name, NoMemory, Term};

const QUOTE: u8 = b'"';

/// Appends the printed text of the term, which has no white space between tokens and reads back as
/// this term. The recursion is as deep as the term is high.
///
/// For example, the term of `f ( "x\n\101" , -007 )` is printed as `f("x\nA",-7)`.
///
/// If memory can't grow, `out` is unchanged, except that its capacity may have grown.
pub fn print(term: &Term, out: &mut Vec<u8>) -> Result<(), NoMemory>
    ensures ok { OnOk result (out.new.items ≡ out.old.items ++ print_of term.now) }
    ensures term { OnOk result (IsTerm term.now) }
    ensures spells { OnOk result (Spells (print_of term.now) term.now) }
    ensures err { OnErr result (out.new.items ≡ out.old.items) }
    ensures room { vec_capacity out.old ≤ vec_capacity out.new }
{
    let len = out.len();
    let printed = print_term(term, out);
    if printed.is_err() {
        out.truncate(len);
    }
    printed
}

/// Appends the name as it is printed in a term: a word as it is, a quoted name in quotes with its
/// escapes.
///
/// If memory can't grow, `out` is unchanged, except that its capacity may have grown.
pub fn print_name(name: &Name, out: &mut Vec<u8>) -> Result<(), NoMemory>
    ensures ok { OnOk result (out.new.items ≡ out.old.items ++ print_name_of name.now) }
    ensures err { OnErr result (out.new.items ≡ out.old.items) }
    ensures room { vec_capacity out.old ≤ vec_capacity out.new }
{
    let start = out.len();
    let printed = append_name(name, out);
    if printed.is_err() {
        out.truncate(start);
    }
    printed
}

#[cycle(print)]
pub(crate) fn print_term(term: &Term, out: &mut Vec<u8>) -> Result<(), NoMemory>
    ensures ok { OnOk result (out.new.items ≡ out.old.items ++ print_of term.now) }
    ensures term { OnOk result (IsTerm term.now) }
    ensures err { Extends out.old.items out.new.items }
    ensures room { vec_capacity out.old ≤ vec_capacity out.new }
{
    print_bare(term, out)?;
    print_bracketed(b'{', term.annotations(), b'}', out)
}

// Prints the term without its annotations.
#[cycle(print)]
fn print_bare(term: &Term, out: &mut Vec<u8>) -> Result<(), NoMemory>
    ensures ok { OnOk result (out.new.items ≡ out.old.items ++ print_of (bare term.now)) }
    ensures term { OnOk result (IsTerm (bare term.now)) }
    ensures err { Extends out.old.items out.new.items }
    ensures room { vec_capacity out.old ≤ vec_capacity out.new }
{
    match term.kind() {
        Kind::Integer(value) => print_integer(value, out),
        Kind::Application(name) => {
            append_name(name, out)?;
            print_bracketed(b'(', term.children(), b')', out)
        }
        Kind::List => print_between(b'[', term.children(), b']', out),
        Kind::Tuple => print_between(b'(', term.children(), b')', out),
    }
}

// Prints the terms in brackets, or nothing if there are none.
#[cycle(print)]
fn print_bracketed(
    opening: u8,
    terms: &[Term],
    closing: u8,
    out: &mut Vec<u8>,
) -> Result<(), NoMemory>
    ensures ok { let all = of_list terms.now in
        let text = bracketed_of opening closing all (print_all_of all) in
        OnOk result (out.new.items ≡ out.old.items ++ text) }
    ensures terms { OnOk result (AreTerms (of_list terms.now)) }
    ensures err { Extends out.old.items out.new.items }
    ensures room { vec_capacity out.old ≤ vec_capacity out.new }
{
    if terms.is_empty() {
        return Ok(());
    }
    print_between(opening, terms, closing, out)
}

#[cycle(print)]
fn print_between(
    opening: u8,
    terms: &[Term],
    closing: u8,
    out: &mut Vec<u8>,
) -> Result<(), NoMemory>
    ensures ok { let all = print_all_of (of_list terms.now) in
        OnOk result (out.new.items ≡ out.old.items ++ opening ∷ (all ++ closing ∷ [])) }
    ensures terms { OnOk result (AreTerms (of_list terms.now)) }
    ensures err { Extends out.old.items out.new.items }
    ensures room { vec_capacity out.old ≤ vec_capacity out.new }
{
    out.push(opening)?;
    print_all(terms, out)?;
    out.push(closing)?;
    Ok(())
}

// Prints the terms, separated by commas.
#[cycle(print)]
fn print_all(terms: &[Term], out: &mut Vec<u8>) -> Result<(), NoMemory>
    ensures ok { OnOk result (out.new.items ≡ out.old.items ++ print_all_of (of_list terms.now)) }
    ensures terms { OnOk result (AreTerms (of_list terms.now)) }
    ensures err { Extends out.old.items out.new.items }
    ensures room { vec_capacity out.old ≤ vec_capacity out.new }
{
    let Some((first, rest)) = terms.split_first() else {
        return Ok(());
    };
    print_term(first, out)?;
    for term in rest {
        out.push(b',')?;
        print_term(term, out)?;
    }
    Ok(())
}

pub(crate) fn print_integer(value: i64, out: &mut Vec<u8>) -> Result<(), NoMemory>
    ensures ok { OnOk result (out.new.items ≡ out.old.items ++ signed_decimal value) }
    ensures err { Extends out.old.items out.new.items }
    ensures room { vec_capacity out.old ≤ vec_capacity out.new }
{
    let mut buffer = Buffer::new();
    out.extend_from_slice(buffer.format(value).as_bytes())?;
    Ok(())
}

pub(crate) fn append_name(name: &Name, out: &mut Vec<u8>) -> Result<(), NoMemory>
    ensures ok { OnOk result (out.new.items ≡ out.old.items ++ print_name_of name.now) }
    ensures name { IsName name.now }
    ensures err { Extends out.old.items out.new.items }
    ensures room { vec_capacity out.old ≤ vec_capacity out.new }
{
    let bytes = name.bytes();
    if name.is_quoted() {
        print_quoted(bytes, out)
    } else {
        out.extend_from_slice(bytes)?;
        Ok(())
    }
}

fn print_quoted(bytes: &[u8], out: &mut Vec<u8>) -> Result<(), NoMemory>
    ensures ok { let items = flat_map escaped_of bytes.now in
        OnOk result (out.new.items ≡ out.old.items ++ QUOTE ∷ (items ++ QUOTE ∷ [])) }
    ensures err { Extends out.old.items out.new.items }
    ensures room { vec_capacity out.old ≤ vec_capacity out.new }
{
    out.push(QUOTE)?;
    print_escaped(bytes, out)?;
    out.push(QUOTE)?;
    Ok(())
}

// A run of bytes that need no escape is appended at once.
fn print_escaped(bytes: &[u8], out: &mut Vec<u8>) -> Result<(), NoMemory>
    ensures ok { OnOk result (out.new.items ≡ out.old.items ++ flat_map escaped_of bytes.now) }
    ensures err { Extends out.old.items out.new.items }
    ensures room { vec_capacity out.old ≤ vec_capacity out.new }
{
    let mut rest = bytes;
    while !rest.is_empty() {
        let (run, after) = rest.split_at(plain_run_len(rest));
        out.extend_from_slice(run)?;
        let Some((byte, next)) = after.split_first() else {
            return Ok(());
        };
        print_escape(*byte, out)?;
        rest = next;
    }
    Ok(())
}

fn plain_run_len(bytes: &[u8]) -> usize
    ensures { result ≡ prefix_len is_plain_of bytes.now }
{
    bytes.iter().take_while(|byte| is_plain(**byte)).count()
}

pub(crate) fn is_plain(byte: u8) -> bool
    ensures { result ≡ is_plain_of byte }
{
    matches!(byte, 32..=126) && byte != QUOTE && byte != b'\\'
}

fn print_escape(byte: u8, out: &mut Vec<u8>) -> Result<(), NoMemory>
    requires { is_plain_of byte ≡ false }
    ensures ok { OnOk result (out.new.items ≡ out.old.items ++ escaped_of byte) }
    ensures err { OnErr result (out.new.items ≡ out.old.items) }
    ensures room { vec_capacity out.old ≤ vec_capacity out.new }
{
    match byte {
        QUOTE => out.extend_from_slice(b"\\\"")?,
        b'\\' => out.extend_from_slice(b"\\\\")?,
        b'\n' => out.extend_from_slice(b"\\n")?,
        b'\t' => out.extend_from_slice(b"\\t")?,
        b'\r' => out.extend_from_slice(b"\\r")?,
        _ => print_octal(byte, out)?,
    }
    Ok(())
}

fn print_octal(byte: u8, out: &mut Vec<u8>) -> Result<(), NoMemory>
    ensures ok { OnOk result (out.new.items ≡ out.old.items ++ octal_escape byte) }
    ensures err { OnErr result (out.new.items ≡ out.old.items) }
    ensures room { vec_capacity out.old ≤ vec_capacity out.new }
{
    let digits = [
        b'\\',
        b'0' + byte / 64,
        b'0' + byte / 8 % 8,
        b'0' + byte % 8,
    ];
    out.extend_from_slice(&digits)?;
    Ok(())
}
