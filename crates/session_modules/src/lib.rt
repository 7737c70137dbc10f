//! The modules of a session: their texts are read, and those that were checked last are kept.
#![tactic(auto)]

mod cache;
mod checked;
mod reading;
mod refusal;
mod sorting;

pub use cache::ModuleCache;
pub use checked::CheckedTexts;
pub use reading::{ReadModule, module_text, read_module};
pub use refusal::Refusal;
pub use sorting::{SortFault, signature_of};
