//! A host without primitives.

use crate::{Meaning, Operation};
use std::alloc::Global;
use term_core::NoMemory;
use term_values::Value;

/// The meaning of a host without primitives: no name means anything.
pub struct NoPrimitives;

/// The only operation of such a host: it returns nothing, whatever its name.
#[derive(Drop)]
pub struct NoOperation;

impl Meaning for NoPrimitives {
    ghost use Rattle.std.specs.Prelude.{None};

    type Operation = NoOperation;

    ghost meaning = { λ name arguments. None };
}

impl Operation for NoOperation {
    ghost use Rattle.std.specs.Prelude.{None, ⊤, ◌≡◌};

    ghost may_run = { λ operation arguments. ⊤ };

    ghost answers = { λ operation arguments found. found ≡ None };

    fn run<'t>(
        &self,
        _alloc: Global,
        _arguments: &[Value<'t>],
    ) -> Result<Option<Value<'t>>, NoMemory> {
        Ok(None)
    }
}
