//! One primitive: an operation with a proof that it computes the meaning of its name.

ghost use Rattle.std.specs.Prelude.{◌≡◌, length, IfOk};
ghost use Rattle.prim_core.specs.Signature.{has_signature};
ghost use Rattle.prim_core.specs.Computes.{Computes};

use crate::{Meaning, Operation};
use std::alloc::Global;
use std::marker::Model;
use term_core::NoMemory;
use term_values::Value;

/// An operation with its name and the number of its arguments.
#[derive(Drop)]
pub struct Primitive<M: Meaning> {
    name: Vec<u8>,
    arity: usize,
    operation: M::Operation,
}

impl<M: Meaning> Model for Primitive<M> {
    ghost use Rattle.prim_core.specs.Signature.{Signature};
    ghost use Rattle.prim_core.specs.Computes.{Computes};

    ghost Value = { Signature };

    ghost view = { λ p. record { name = p.name.items; arity = p.arity } };

    ghost invariant = { λ p. Computes M.Operation.may_run M.Operation.answers p.operation p.arity
        (M.meaning p.name.items) };
}

impl<M: Meaning> Primitive<M> {
    /// The primitive of this name and number of arguments that the operation computes. The
    /// operation has to be safe to run on every list of that many terms, and each of its answers
    /// has to be what the name means.
    pub fn new(name: Vec<u8>, arity: usize, operation: M::Operation) -> Primitive<M>
        requires { Computes M.Operation.may_run M.Operation.answers operation arity
            (M.meaning name.items) }
        ensures { result ≡ record { name = name.items; arity = arity } }
    {
        Primitive {
            name,
            arity,
            operation,
        }
    }

    /// Whether it has this name and this number of arguments.
    pub(crate) fn has(&self, name: &[u8], arity: usize) -> bool
        ensures { result ≡ has_signature name.now arity self.now }
    {
        self.arity == arity && self.name.as_slice() == name
    }

    /// The number of its arguments.
    pub(crate) fn arity(&self) -> usize
        ensures { result ≡ self.now.arity }
    {
        self.arity
    }

    /// What its name means on these terms, as many as it takes.
    pub(crate) fn call<'t>(
        &self,
        alloc: Global,
        arguments: &[Value<'t>],
    ) -> Result<Option<Value<'t>>, NoMemory>
        requires { length arguments.now ≡ self.now.arity }
        ensures { IfOk result (λ found. found ≡ M.meaning self.now.name arguments.now) }
    {
        self.operation.run(alloc, arguments)
    }
}
