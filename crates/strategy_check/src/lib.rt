//! Checks that modules and strategies keep the rules of names, and resolves names to numbers.
#![tactic(auto)]

mod binders;
mod bodies;
mod changes;
mod checked;
mod fault;
mod found;
mod groups;
mod headers;
mod key;
mod list;
mod listing;
mod mentions;
mod modules;
mod named;
mod patterns;
mod program;
mod resolved_patterns;
mod scope;
mod strategies;
mod table;

pub use checked::Checked;
pub use fault::{CheckFault, FaultKind, Kind};
pub use found::{DefinitionIndex, FoundFault};
pub use listing::{all_faults, all_strategy_faults};
pub use named::NamedModule;
pub use program::{Program, check, resolve};
