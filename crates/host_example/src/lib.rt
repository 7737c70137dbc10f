//! A host with primitives of its own, as an example and for the tests: `pick` returns `a`, `b` or
//! `c` for 0, 1 or 2, and nothing for any other term; `wants` always wants memory.
//!
//! A host says what its names mean (`Picking`), and hands operations that compute it to
//! `Primitive::new`, each in a box: `crates/script_tests/src/runs/hosts.rt` does so.
#![tactic(auto)]

ghost use Rattle.std.specs.Prelude.{◌≡◌, length, true, IfOk, codes};
ghost use Rattle.term_core.specs.Word.{is_word};
ghost use Rattle.host_example.specs.Pick.{constant, choices as three_choices, pick};

use prim_core::{BoxedOperation, Meaning};
use std::alloc::Global;
use term_core::{Kind, Name, NoMemory, Term};

/// What this host's primitives mean.
pub struct Picking;

impl Meaning for Picking {
    type Operation = BoxedOperation;

    ghost meaning = { pick };
}

/// The terms to pick from: the words `a`, `b` and `c`.
pub fn choices(alloc: Global) -> Result<Vec<Term>, NoMemory>
    ensures { IfOk result (λ choices. choices.items ≡ three_choices) }
{
    let a = constant(alloc, b"a")?;
    let b = constant(alloc, b"b")?;
    let c = constant(alloc, b"c")?;
    Ok(vec![in alloc; a, b, c]?)
}

/// The meaning of `pick`, over the three terms that its closure owns.
///
/// Errors: only want of memory.
pub fn pick(choices: &[Term], arguments: &[Term]) -> Result<Option<Term>, NoMemory>
    requires choices { choices.now ≡ three_choices }
    requires one { length arguments.now ≡ 1 }
    ensures { IfOk result (λ found. found ≡ pick (codes "pick") arguments.now) }
{
    match arguments[0].kind() {
        Kind::Integer(0) => Ok(Some(choices[0].try_clone()?)),
        Kind::Integer(1) => Ok(Some(choices[1].try_clone()?)),
        Kind::Integer(2) => Ok(Some(choices[2].try_clone()?)),
        _ => Ok(None),
    }
}

/// The meaning of `wants`. It never has an answer, so each of its answers is what the name means.
pub fn want(_alloc: Global, _arguments: &[Term]) -> Result<Option<Term>, NoMemory>
    ensures { IfOk result (λ found. found ≡ pick (codes "wants") _arguments.now) }
{
    Err(NoMemory)
}

// The word with these bytes, applied to nothing.
fn constant(alloc: Global, text: &[u8]) -> Result<Term, NoMemory>
    requires { is_word text.now ≡ true }
    ensures { IfOk result (λ term. term ≡ constant text.now) }
{
    let Some(name) = Name::word(alloc, text)? else {
        unreachable!()
    };
    Ok(Term::application(alloc, name, Vec::new(alloc)))
}
