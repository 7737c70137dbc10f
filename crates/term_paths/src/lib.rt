//! Paths: places in terms, by which all layers above name, read and change a subterm.
#![tactic(auto)]

pub mod laws;
mod path;
mod subterm;
mod text;

pub use path::{Path, parts_lie_within};
pub use subterm::{
    at, at_mut, at_parts, at_parts_mut, change_at, change_at_parts, swap_annotations_at,
    swap_annotations_at_parts, swap_at, swap_at_parts,
};
pub use text::{PathFault, read_number, read_path};
