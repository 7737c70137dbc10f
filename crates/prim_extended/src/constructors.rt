//! Terms as data: a constructor, and the list of children.

ghost use Rattle.std.specs.Prelude.{◌≡◌, ◌<◌, length, IfOk, codes};
ghost use Rattle.std.specs.Option.{option_copied, option_map};
ghost use Rattle.prim_extended.specs.Constructors.{before_quote, constructor_in, head_named, in_quotes, made_of, name_text};
ghost use Rattle.prim_extended.specs.Extended.{extended};
ghost use Rattle.prim_extended.specs.Bytes.{string_in_range};
ghost use Rattle.term_core.specs.Tree.{application, branch, none, of_list};

use crate::strings::{string, string_if_short};
use std::alloc::Global;
use term_core::{Kind, Name, NoMemory, Term};

/// `explode-term`: the tuple of the constructor and the children of the term a, these as a list. The
/// constructor is a string: a word, or a quoted name with its quotes, or the empty string for a tuple;
/// it is `[]` for a list, and an integer for itself. Nothing if the string would be longer than 65,536
/// bytes.
pub fn explode_term(alloc: Global, arguments: &[Term]) -> Result<Option<Term>, NoMemory>
    requires { length arguments.now ≡ 1 }
    ensures { IfOk result (λ found. found ≡ extended (codes "explode-term") arguments.now) }
{
    let term = &arguments[0];
    let Some(constructor) = constructor(alloc, term)? else {
        return Ok(None);
    };
    let children = Term::list(alloc, copies(alloc, term.children())?);
    let pair = vec![in alloc; constructor, children]?;
    Ok(Some(Term::tuple(alloc, pair)))
}

// The constructor of a term, if it isn't too long.
fn constructor(alloc: Global, term: &Term) -> Result<Option<Term>, NoMemory>
    ensures { IfOk result (λ found. found ≡ constructor_in term.now) }
{
    match term.kind() {
        Kind::Integer(value) => Ok(Some(Term::integer(alloc, value))),
        Kind::Application(name) => name_string(alloc, name),
        Kind::List => Ok(Some(Term::list(alloc, Vec::new(alloc)))),
        Kind::Tuple => Ok(Some(string(alloc, b"")?)),
    }
}

// The text of a name as a string.
fn name_string(alloc: Global, name: &Name) -> Result<Option<Term>, NoMemory>
    ensures { IfOk result (λ found. found ≡ string_in_range (name_text name.now)) }
{
    let text = text_of(alloc, name)?;
    string_if_short(alloc, &text)
}

fn text_of(alloc: Global, name: &Name) -> Result<Vec<u8>, NoMemory>
    ensures { IfOk result (λ text. text.items ≡ name_text name.now) }
{
    let mut text = Vec::new(alloc);
    if name.is_quoted() {
        text.push(b'"')?;
    }
    text.extend_from_slice(name.bytes())?;
    if name.is_quoted() {
        text.push(b'"')?;
    }
    Ok(text)
}

fn copies(alloc: Global, terms: &[Term]) -> Result<Vec<Term>, NoMemory>
    ensures { IfOk result (λ made. made.items ≡ terms.now) }
{
    let mut made = Vec::with_capacity(alloc, terms.len())?;
    for term in terms {
        made.push(term.try_clone()?)?;
    }
    Ok(made)
}

/// `mkterm`: the term of the constructor a, as `explode-term` gives it, and of the children that the
/// list b has; nothing where there is none.
pub fn mkterm(alloc: Global, arguments: &[Term]) -> Result<Option<Term>, NoMemory>
    requires { length arguments.now ≡ 2 }
    ensures { IfOk result (λ found. found ≡ extended (codes "mkterm") arguments.now) }
{
    let Kind::List = arguments[1].kind() else {
        return Ok(None);
    };
    made(alloc, &arguments[0], arguments[1].children())
}

fn made(alloc: Global, constructor: &Term, children: &[Term]) -> Result<Option<Term>, NoMemory>
    ensures { IfOk result (λ found. found ≡ made_of constructor.now children.now) }
{
    match constructor.kind() {
        Kind::Integer(value) if children.is_empty() => Ok(Some(Term::integer(alloc, value))),
        Kind::List if constructor.child_count() == 0 => {
            Ok(Some(Term::list(alloc, copies(alloc, children)?)))
        }
        Kind::Application(name) if name.is_quoted() && constructor.child_count() == 0 => {
            named(alloc, name.bytes(), children)
        }
        _ => Ok(None),
    }
}

// The term of the constructor that this text names.
fn named(alloc: Global, text: &[u8], children: &[Term]) -> Result<Option<Term>, NoMemory>
    ensures { IfOk result (λ found. found ≡ option_map (λ head. branch head (of_list children.now) none) (head_named text.now)) }
{
    if text.is_empty() {
        return Ok(Some(Term::tuple(alloc, copies(alloc, children)?)));
    }
    let Some(name) = name(alloc, text)? else {
        return Ok(None);
    };
    Ok(Some(Term::application(alloc, name, copies(alloc, children)?)))
}

// The name with this text, which isn't empty.
fn name(alloc: Global, text: &[u8]) -> Result<Option<Name>, NoMemory>
    requires { 0 < length text.now }
    ensures { IfOk result (λ found. option_map (λ name. application name) found ≡ head_named text.now) }
{
    if let Some(word) = Name::word(alloc, text)? {
        return Ok(Some(word));
    }
    match inner(text) {
        Some(inner) => Ok(Some(Name::quoted(alloc, inner)?)),
        None => Ok(None),
    }
}

// What stands between the quotes of a text.
fn inner(text: &[u8]) -> Option<&[u8]>
    ensures { option_copied result ≡ in_quotes text.now }
{
    let (first, rest) = text.split_first()?;
    if *first == b'"' { front(rest) } else { None }
}

// What is before a quote at the end.
fn front(text: &[u8]) -> Option<&[u8]>
    ensures { option_copied result ≡ before_quote text.now }
{
    let (last, front) = text.split_last()?;
    if *last == b'"' { Some(front) } else { None }
}
