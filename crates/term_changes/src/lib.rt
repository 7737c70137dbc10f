//! What is to change in terms and stores: plans and the entries of logs, the change that a run
//! makes, and patches, which are exchanged with a tree by one walk.
#![tactic(auto)]

mod draft;
mod entry;
mod exchange;
pub mod laws;
mod listing;
mod patch;
mod plan;
mod reading;
mod text;

pub use draft::Draft;
#[doc(hidden)]
pub use draft::PlaceMark;
pub use entry::{Entry, Kept};
pub use patch::Patch;
pub use plan::{Plan, Replaced};
pub use reading::{PatchItem, PatchReader};
pub use text::Text;
