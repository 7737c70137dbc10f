//! The primitives of a host, by index.

ghost use Rattle.std.specs.Prelude.{◌≡◌, length, IfOk, IfSome, Some, IsSomeAnd, slice_get, option_map};
ghost use Rattle.prim_core.specs.Signature.{index_of};

use crate::{Meaning, Primitive};
use std::alloc::Global;
use std::marker::Model;
use term_core::NoMemory;
use term_values::Value;

/// The primitives of a host. Contracts see the list of their names and arities.
#[derive(Drop)]
pub struct Primitives<M: Meaning> {
    items: Vec<Primitive<M>>,
}

impl<M: Meaning> Model for Primitives<M> {
    ghost use Rattle.std.specs.Prelude.{List};
    ghost use Rattle.prim_core.specs.Signature.{Signature};

    ghost Value = { List Signature };

    ghost view = { λ p. p.items.items };
}

impl<M: Meaning> Primitives<M> {
    pub fn new(primitives: Vec<Primitive<M>>) -> Primitives<M>
        ensures { result ≡ primitives.items }
    {
        Primitives { items: primitives }
    }

    /// The index of the first primitive with this name and number of arguments, or `None` if there
    /// is none.
    pub fn find(&self, name: &[u8], arity: usize) -> Option<usize>
        ensures first { result ≡ index_of name.now arity self.now }
        ensures there { IfSome result (λ index.
            slice_get self.now index ≡ Some (record { name = name.now; arity = arity })) }
    {
        first_index(&self.items, name, arity)
    }

    /// How many terms the primitive at `index` takes, or `None` if there is none.
    pub fn arity(&self, index: usize) -> Option<usize>
        ensures { result ≡ option_map (λ primitive. primitive.arity) (slice_get self.now index) }
    {
        let primitive = self.items.get(index)?;
        Some(primitive.arity())
    }

    /// What the name of the primitive at `index` means on these terms, as many as it takes.
    pub fn call<'t>(
        &self,
        alloc: Global,
        index: usize,
        arguments: &[Value<'t>],
    ) -> Result<Option<Value<'t>>, NoMemory>
        requires { IsSomeAnd (slice_get self.now index)
            (λ primitive. length arguments.now ≡ primitive.arity) }
        ensures { IfOk result (λ found. IfSome (slice_get self.now index)
            (λ primitive. found ≡ M.meaning primitive.name arguments.now)) }
    {
        let primitive = &self.items[index];
        primitive.call(alloc, arguments)
    }
}

fn first_index<M: Meaning>(items: &[Primitive<M>], name: &[u8], arity: usize) -> Option<usize>
    ensures { result ≡ index_of name.now arity items.now }
{
    items
        .iter()
        .position(|primitive| primitive.has(name, arity))
}
