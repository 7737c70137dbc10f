//! The root of a compound pattern or a congruence.

ghost use Rattle.std.specs.Prelude.{◌≡◌, ◌↔◌, IfOk, IsTrue, Some};
ghost use Rattle.strategy_syntax.specs.Heads.{head_of, head_at};

use term_core::{Kind, Name, NoMemory};

/// What a compound pattern or a congruence matches at the root.
#[derive(Drop)]
pub enum Head {
    /// An application of the name. A quoted name has no parts.
    Application(Name),
    /// A list.
    List,
    /// A tuple.
    Tuple,
}

impl Head {
    /// Whether a term of this kind has this head. An integer has none.
    #[inline(always)]
    pub fn is_head_of(&self, kind: Kind<'_>) -> bool
        ensures { IsTrue result ↔ (head_at kind.entry ≡ Some (head_of self.now)) }
    {
        match (self, kind) {
            (Head::Application(name), Kind::Application(same)) => name.equals(same),
            (Head::List, Kind::List) => true,
            (Head::Tuple, Kind::Tuple) => true,
            _ => false,
        }
    }

    /// Whether the two heads are equal.
    pub fn equals(&self, other: &Head) -> bool
        ensures { IsTrue result ↔ (self.now ≡ other.now) }
    {
        match (self, other) {
            (Head::Application(name), Head::Application(same)) => name.equals(same),
            (Head::List, Head::List) => true,
            (Head::Tuple, Head::Tuple) => true,
            _ => false,
        }
    }

    /// An equal head.
    pub fn try_clone(&self) -> Result<Head, NoMemory>
        ensures { IfOk result (λ head. head ≡ self.now) }
    {
        match self {
            Head::Application(name) => Ok(Head::Application(name.try_clone()?)),
            Head::List => Ok(Head::List),
            Head::Tuple => Ok(Head::Tuple),
        }
    }
}
