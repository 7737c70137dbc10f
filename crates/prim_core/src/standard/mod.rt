//! The standard primitives. The names are this project's own. The modules are public, so that a
//! host can box a function by its name.

pub mod arguments;
pub mod integers;
pub mod operations;
pub mod strings;

use crate::{BoxedOperation, Meaning};
pub use integers::{addi, divi, gti, muli, subti};
pub use operations::{StandardOperations, standard_primitives};
pub use strings::{MAX_STRING, int_to_string, strcat, string_to_int, strlen};

/// The meaning of the standard primitives.
pub struct Standard;

impl Meaning for Standard {
    ghost use Rattle.prim_core.specs.Standard.{standard};

    type Operation = BoxedOperation;

    ghost meaning = { standard };
}
