//! What signatures declare.

ghost use Rattle.std.specs.Prelude.{◌≡◌, ◌↔◌, IsTrue, IfOk};

use crate::Sort;
use crate::sort::{clone_sorts, same_sorts};
use std::marker::Model;
use term_core::{Name, NoMemory};

/// A constructor with the sorts of its arguments and of its terms: `c : s1 * .. * sn -> s`.
pub struct Declaration {
    name: Name,
    arguments: Vec<Sort>,
    given: Sort,
}

impl Model for Declaration {
    ghost use Rattle.term_sorts.specs.Sorts.{Declaration};
    ghost use Rattle.term_sorts.specs.inside.SortCode.{declaration_code};

    ghost Value = { Declaration };

    ghost coded = { declaration_code };

    ghost view = { λ d. record { name = d.name; arguments = d.arguments.items; result = d.given } };
}

// By hand: a derived drop is proved anew in each crate that drops it.
impl Drop for Declaration {
    fn drop(self) {
        let Declaration {
            name: _,
            arguments: _,
            given: _,
        } = self;
    }
}

/// `: r -> s`: each term of the sort r is one of the sort s, too.
pub struct Injection {
    from: Sort,
    to: Sort,
}

impl Model for Injection {
    ghost use Rattle.term_sorts.specs.Sorts.{Injection};
    ghost use Rattle.term_sorts.specs.inside.SortCode.{injection_code};

    ghost Value = { Injection };

    ghost coded = { injection_code };

    ghost view = { λ i. record { from = i.from; to = i.to } };
}

// By hand: a derived drop is proved anew in each crate that drops it.
impl Drop for Injection {
    fn drop(self) {
        let Injection { from: _, to: _ } = self;
    }
}

impl Declaration {
    /// The declaration of a constructor of terms of the sort `given`.
    pub fn new(name: Name, arguments: Vec<Sort>, given: Sort) -> Declaration
        ensures { result ≡ record { name = name; arguments = arguments.items; result = given } }
    {
        Declaration {
            name,
            arguments,
            given,
        }
    }

    pub fn name(&self) -> &Name
        ensures { result.now ≡ self.now.name }
    {
        &self.name
    }

    /// The sorts of the arguments.
    pub fn arguments(&self) -> &[Sort]
        ensures { result.now ≡ self.now.arguments }
    {
        self.arguments.as_slice()
    }

    /// The sort of the terms.
    pub fn given(&self) -> &Sort
        ensures { result.now ≡ self.now.result }
    {
        &self.given
    }

    /// Whether the two declarations are equal.
    pub fn equals(&self, other: &Declaration) -> bool
        ensures { IsTrue result ↔ (self.now ≡ other.now) }
    {
        self.name.equals(&other.name)
            && same_sorts(&self.arguments, &other.arguments)
            && self.given.equals(&other.given)
    }

    /// An equal declaration.
    pub fn try_clone(&self) -> Result<Declaration, NoMemory>
        ensures { IfOk result (λ made. made ≡ self.now) }
    {
        Ok(Declaration {
            name: self.name.try_clone()?,
            arguments: clone_sorts(*self.arguments.allocator(), &self.arguments)?,
            given: self.given.try_clone()?,
        })
    }
}

impl Injection {
    /// The injection of the one sort into the other.
    pub fn new(from: Sort, to: Sort) -> Injection
        ensures { result ≡ record { from = from; to = to } }
    {
        Injection { from, to }
    }

    /// The sort whose terms are injected.
    pub fn from(&self) -> &Sort
        ensures { result.now ≡ self.now.from }
    {
        &self.from
    }

    /// The sort that takes them.
    pub fn to(&self) -> &Sort
        ensures { result.now ≡ self.now.to }
    {
        &self.to
    }

    /// Whether the two injections are equal.
    pub fn equals(&self, other: &Injection) -> bool
        ensures { IsTrue result ↔ (self.now ≡ other.now) }
    {
        self.from.equals(&other.from) && self.to.equals(&other.to)
    }

    /// An equal injection.
    pub fn try_clone(&self) -> Result<Injection, NoMemory>
        ensures { IfOk result (λ made. made ≡ self.now) }
    {
        Ok(Injection {
            from: self.from.try_clone()?,
            to: self.to.try_clone()?,
        })
    }
}
