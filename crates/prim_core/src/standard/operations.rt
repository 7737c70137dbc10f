//! The standard primitives, given an operation for each.

ghost use Rattle.std.specs.Prelude.{◌≡◌, ◌++◌, ◌∷◌, [], IfOk, OnOk};
ghost use Rattle.prim_core.specs.Computes.{Computes};
ghost use Rattle.prim_core.specs.StandardTable.{ComputeStandard, standard_signatures};

use crate::{Meaning, Primitive};
use std::alloc::Global;
use term_core::NoMemory;

/// An operation for each of the standard primitives.
#[derive(Drop)]
pub struct StandardOperations<F> {
    pub addi: F,
    pub subti: F,
    pub muli: F,
    pub divi: F,
    pub gti: F,
    pub strcat: F,
    pub strlen: F,
    pub int_to_string: F,
    pub string_to_int: F,
}

/// The standard primitives, given an operation for each; a host can add its own. The host makes the
/// boxes.
pub fn standard_primitives<M: Meaning>(
    alloc: Global,
    operations: StandardOperations<M::Operation>,
) -> Result<Vec<Primitive<M>>, NoMemory>
    requires { ComputeStandard M.Operation.may_run M.Operation.answers M.meaning operations }
    ensures { IfOk result (λ primitives. primitives.items ≡ standard_signatures) }
{
    let StandardOperations {
        addi,
        subti,
        muli,
        divi,
        gti,
        strcat,
        strlen,
        int_to_string,
        string_to_int,
    } = operations;
    let mut primitives = Vec::new(alloc);
    add::<M>(alloc, &mut primitives, b"addi", 2, addi)?;
    add::<M>(alloc, &mut primitives, b"subti", 2, subti)?;
    add::<M>(alloc, &mut primitives, b"muli", 2, muli)?;
    add::<M>(alloc, &mut primitives, b"divi", 2, divi)?;
    add::<M>(alloc, &mut primitives, b"gti", 2, gti)?;
    add::<M>(alloc, &mut primitives, b"strcat", 2, strcat)?;
    add::<M>(alloc, &mut primitives, b"strlen", 1, strlen)?;
    add::<M>(alloc, &mut primitives, b"int-to-string", 1, int_to_string)?;
    add::<M>(alloc, &mut primitives, b"string-to-int", 1, string_to_int)?;
    Ok(primitives)
}

fn add<M: Meaning>(
    alloc: Global,
    primitives: &mut Vec<Primitive<M>>,
    name: &[u8],
    arity: usize,
    operation: M::Operation,
) -> Result<(), NoMemory>
    requires { Computes M.Operation.may_run M.Operation.answers operation arity
        (M.meaning name.now) }
    ensures { OnOk result (primitives.new.items
        ≡ primitives.old.items ++ record { name = name.now; arity = arity } ∷ []) }
{
    let name = Vec::from_slice(alloc, name)?;
    primitives.push(Primitive::new(name, arity, operation))?;
    Ok(())
}
