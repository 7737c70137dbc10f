//! Primitives: operations of a host, each with a proof that it computes the meaning of its name.
#![tactic(auto)]

mod meaning;
mod nothing;
mod primitive;
pub mod standard;
mod table;
mod values;

pub use meaning::{BoxedOperation, Meaning, Operation};
pub use nothing::{NoOperation, NoPrimitives};
pub use primitive::Primitive;
pub use standard::{
    MAX_STRING, Standard, StandardOperations, addi, divi, gti, int_to_string, muli,
    standard_primitives, strcat, string_to_int, strlen, subti,
};
pub use table::Primitives;
pub use values::{as_value, own_terms};
