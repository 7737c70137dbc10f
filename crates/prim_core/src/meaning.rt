//! The meaning of primitives, and the operations that compute it.

ghost use Rattle.std.specs.Prelude.{◌≡◌, ℕ, List, IfOk, Ok, Some};
ghost use Rattle.std.specs.declared.option.Option.{Option};
ghost use Rattle.term_core.specs.Tree.{Tree};

use crate::values::{as_value, own_terms};
use std::alloc::Global;
use term_core::{NoMemory, Term};
use term_values::Value;

/// The meaning of primitives: from a name and a list of terms to a term, or to nothing.
pub trait Meaning {
    /// The type of the operations, usually `BoxedOperation`.
    type Operation: Operation;

    ghost meaning: { List ℕ → List Tree → Option Tree };
}

/// An operation on terms, which returns a term or nothing.
pub trait Operation: Drop {
    // whether it may be run on these terms
    ghost may_run: { Self → List Tree → Type 0 };

    // whether this may be its answer on them
    ghost answers: { Self → List Tree → Option Tree → Type 0 };

    /// Its answer on these terms, which may share with them.
    fn run<'t>(&self, alloc: Global, arguments: &[Value<'t>]) -> Result<Option<Value<'t>>, NoMemory>
        requires { may_run self.now arguments.now }
        ensures { IfOk result (answers self.now arguments.now) };
}

/// A closure of the host, which may own terms and other values. The host makes the box.
pub type BoxedOperation = Box<dyn Fn(Global, &[Term]) -> Result<Option<Term>, NoMemory>>;

impl Operation for BoxedOperation {
    ghost may_run = { λ f terms. (alloc : _) (lent : _) → lent.now ≡ terms
        → BoxedOperation.pre f alloc lent };

    ghost answers = { λ f terms found. (alloc : _) × (lent : _) × (lent.now ≡ terms)
        × BoxedOperation.post f alloc lent (Ok found) };

    fn run<'t>(
        &self,
        alloc: Global,
        arguments: &[Value<'t>],
    ) -> Result<Option<Value<'t>>, NoMemory> {
        let terms = own_terms(alloc, arguments)?;
        let found = self(alloc, terms.as_slice())?;
        as_value(alloc, found)
    }
}
