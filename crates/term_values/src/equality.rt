//! Equality of values.
#![tactic(auto, using(crate::proofs::KindLemmas::node_parts))]

ghost use Rattle.std.specs.Prelude.{◌≡◌, ◌↔◌, IsTrue, List};
ghost use Rattle.term_core.specs.Tree.{Tree};
ghost use Rattle.term_core.specs.Kind.{made_of};
ghost use Rattle.term_values.specs.inside.Bounded.{Covers};
ghost use Rattle.term_values.specs.Seen.{seen_tree};

use crate::elements::{Elements, Seen};
use crate::value::Value;
use term_core::Kind;

impl<'t> Value<'t> {
    /// Whether the values are the same tree, annotations included. It takes no memory.
    pub fn equals(&self, other: &Value<'t>) -> bool
        ensures { IsTrue result ↔ (self.now ≡ other.now) }
    {
        same(Seen::Value(self), Seen::Value(other))
    }
}

#[cycle(same)]
fn same(a: Seen<'_, '_>, b: Seen<'_, '_>) -> bool
    ensures { IsTrue result ↔ (seen_tree a.entry ≡ seen_tree b.entry) }
{
    if let (Seen::Term(term), Seen::Term(other)) = (a, b) {
        return term.equals(other);
    }
    if a.bounds().excludes(b.bounds()) {
        return false;
    }
    if !same_kind(a.kind(), b.kind()) {
        return false;
    }
    if !all_same(a.elements(), b.elements()) {
        return false;
    }
    all_same(a.annotations(), b.annotations())
}

#[cycle(same)]
fn all_same(these: Elements<'_, '_>, those: Elements<'_, '_>) -> bool
    ensures { IsTrue result ↔ (these.entry ≡ those.entry) }
{
    let mut left = these;
    let mut right = those;
    while let Some(a) = left.next() {
        match right.next() {
            None => return false,
            Some(b) => {
                if !same(a, b) {
                    return false;
                }
            }
        }
    }
    right.next().is_none()
}

/// Whether nodes of the two kinds are equal if their children and annotations are.
fn same_kind(a: Kind<'_>, b: Kind<'_>) -> bool
    ensures yes { IsTrue result → (us ns : List Tree) → made_of a.entry us ns ≡ made_of b.entry us ns }
    ensures no { (us vs ns ms : List Tree) → made_of a.entry us ns ≡ made_of b.entry vs ms → IsTrue result }
{
    match (a, b) {
        (Kind::Integer(x), Kind::Integer(y)) => x == y,
        (Kind::Application(x), Kind::Application(y)) => x.equals(y),
        (Kind::List, Kind::List) => true,
        (Kind::Tuple, Kind::Tuple) => true,
        _ => false,
    }
}
