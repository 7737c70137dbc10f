//! Matching patterns against trees and building their instances, over cells that can be rolled back
//! to a mark.
//!
//! The owner of a term lends it to a function that has many ways out, and passes it to `drop` after
//! that call: each way out that drops a term by itself is proved with all forms of terms.
#![tactic(auto)]

mod building;
mod cells;
mod matching;
mod preparing;
mod terms;
mod variables;

pub use building::Built;
pub use cells::{Cells, Mark};
pub use matching::is_list;
pub use terms::BuiltTerm;
pub use variables::{InSlice, VariableCells};
