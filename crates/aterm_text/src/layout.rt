//! Printing terms over lines, for people.
#![tactic(auto, using(crate::proofs::LayoutLemmas::layout_steps))]

ghost use Rattle.std.specs.Prelude.{◌≡◌, ◌+◌, ◌++◌, ◌∷◌, [], ◌≤◌, nat_le, length, OnOk, OnErr, vec_capacity};
ghost use Rattle.term_core.specs.Tree.{of_list, bare, children};
ghost use Rattle.term_core.specs.Terms.{IsTerm, AreTerms};
ghost use Rattle.aterm_text.specs.Grammar.{Spells};
ghost use Rattle.aterm_text.specs.Printed.{assembled, bracketed as bracketed_of, print as print_of};
ghost use Rattle.aterm_text.specs.Layout.{pretty as pretty_of, pretty_all as pretty_all_of, new_line as new_line_of};
ghost use Rattle.aterm_text.specs.inside.Printing.{Extends};

use crate::printer::{append_name, print_integer, print_term};
use crate::room::room_after;
use term_core::{Kind, NoMemory, Term};

/// The number of columns within which a term stays on one line.
pub const LINE_WIDTH: usize = 100;

// Blanks to indent with.
const BLANKS: [u8; 64] = [b' '; 64];

/// Appends the text of the term over lines, as people read it. A term that ends within the first
/// 100 columns stays on one line, as `print` has it; what follows it there isn't counted. Else each
/// of its children and annotations begins a line, two columns further in, and the last one is
/// followed by the closing bracket. So no line but the first begins without a blank.
///
/// The text reads back as this term. The recursion is as deep as the term is high.
///
/// If memory can't grow, `out` is unchanged, except that its capacity may have grown.
pub fn pretty(term: &Term, out: &mut Vec<u8>) -> Result<(), NoMemory>
    ensures ok { OnOk result (out.new.items ≡ out.old.items ++ pretty_of 0 term.now) }
    ensures term { OnOk result (IsTerm term.now) }
    ensures spells { OnOk result (Spells (pretty_of 0 term.now) term.now) }
    ensures err { OnErr result (out.new.items ≡ out.old.items) }
    ensures room { vec_capacity out.old ≤ vec_capacity out.new }
{
    let len = out.len();
    let printed = pretty_term(term, 0, out);
    if printed.is_err() {
        out.truncate(len);
    }
    printed
}

// Prints the term, which begins in this column.
#[cycle(pretty)]
fn pretty_term(term: &Term, column: usize, out: &mut Vec<u8>) -> Result<(), NoMemory>
    ensures ok { OnOk result (out.new.items ≡ out.old.items ++ pretty_of column term.now) }
    ensures term { OnOk result (IsTerm term.now) }
    ensures err { Extends out.old.items out.new.items }
    ensures room { vec_capacity out.old ≤ vec_capacity out.new }
{
    if fits(term, column) {
        return print_term(term, out);
    }
    let Some(inner) = column.checked_add(2) else {
        return Err(NoMemory);
    };
    spread_bare(term, inner, out)?;
    spread_bracketed(b'{', term.annotations(), b'}', inner, out)
}

// Whether the term ends within the width, if it begins in this column.
fn fits(term: &Term, column: usize) -> bool
    ensures { result ≡ nat_le (column + length (print_of term.now)) LINE_WIDTH }
{
    match LINE_WIDTH.checked_sub(column) {
        Some(room) => room_after(term, room).is_some(),
        None => false,
    }
}

// Prints the term without its annotations, and its children from this column on.
#[cycle(pretty)]
fn spread_bare(term: &Term, column: usize, out: &mut Vec<u8>) -> Result<(), NoMemory>
    ensures ok { let inner = pretty_all_of column (of_list (children term.now)) in
        OnOk result (out.new.items ≡ out.old.items ++ assembled (bare term.now) inner []) }
    ensures term { OnOk result (IsTerm (bare term.now)) }
    ensures err { Extends out.old.items out.new.items }
    ensures room { vec_capacity out.old ≤ vec_capacity out.new }
{
    match term.kind() {
        Kind::Integer(value) => print_integer(value, out),
        Kind::Application(name) => {
            append_name(name, out)?;
            spread_bracketed(b'(', term.children(), b')', column, out)
        }
        Kind::List => spread_between(b'[', term.children(), b']', column, out),
        Kind::Tuple => spread_between(b'(', term.children(), b')', column, out),
    }
}

// Prints the terms in brackets, from this column on, or nothing if there are none.
#[cycle(pretty)]
fn spread_bracketed(
    opening: u8,
    terms: &[Term],
    closing: u8,
    column: usize,
    out: &mut Vec<u8>,
) -> Result<(), NoMemory>
    ensures ok { let all = of_list terms.now in
        let text = bracketed_of opening closing all (pretty_all_of column all) in
        OnOk result (out.new.items ≡ out.old.items ++ text) }
    ensures terms { OnOk result (AreTerms (of_list terms.now)) }
    ensures err { Extends out.old.items out.new.items }
    ensures room { vec_capacity out.old ≤ vec_capacity out.new }
{
    if terms.is_empty() {
        return Ok(());
    }
    spread_between(opening, terms, closing, column, out)
}

#[cycle(pretty)]
fn spread_between(
    opening: u8,
    terms: &[Term],
    closing: u8,
    column: usize,
    out: &mut Vec<u8>,
) -> Result<(), NoMemory>
    ensures ok { let all = pretty_all_of column (of_list terms.now) in
        OnOk result (out.new.items ≡ out.old.items ++ opening ∷ (all ++ closing ∷ [])) }
    ensures terms { OnOk result (AreTerms (of_list terms.now)) }
    ensures err { Extends out.old.items out.new.items }
    ensures room { vec_capacity out.old ≤ vec_capacity out.new }
{
    out.push(opening)?;
    pretty_all(terms, column, out)?;
    out.push(closing)?;
    Ok(())
}

// Prints the terms, each on a line of its own from this column on, separated by commas.
#[cycle(pretty)]
fn pretty_all(terms: &[Term], column: usize, out: &mut Vec<u8>) -> Result<(), NoMemory>
    ensures ok { OnOk result (out.new.items
        ≡ out.old.items ++ pretty_all_of column (of_list terms.now)) }
    ensures terms { OnOk result (AreTerms (of_list terms.now)) }
    ensures err { Extends out.old.items out.new.items }
    ensures room { vec_capacity out.old ≤ vec_capacity out.new }
{
    let Some((first, rest)) = terms.split_first() else {
        return Ok(());
    };
    new_line(column, out)?;
    pretty_term(first, column, out)?;
    for term in rest {
        out.push(b',')?;
        new_line(column, out)?;
        pretty_term(term, column, out)?;
    }
    Ok(())
}

// Begins a line in this column.
fn new_line(column: usize, out: &mut Vec<u8>) -> Result<(), NoMemory>
    ensures ok { OnOk result (out.new.items ≡ out.old.items ++ new_line_of column) }
    ensures err { Extends out.old.items out.new.items }
    ensures room { vec_capacity out.old ≤ vec_capacity out.new }
{
    out.push(b'\n')?;
    let mut left = column;
    while left > 0 {
        let blanks = left.min(BLANKS.len());
        out.extend_from_slice(&BLANKS[..blanks])?;
        left -= blanks;
    }
    Ok(())
}
