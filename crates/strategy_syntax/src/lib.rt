//! The syntax of the strategy language: patterns, strategies in their core forms and modules; with
//! names, as their texts have them, and resolved, with numbers in place of names.
#![tactic(auto)]

mod classes;
mod head;
mod module;
mod names;
mod pattern;
mod place;
mod placed;
mod resolved;
mod resolved_pattern;
mod skips;
mod strategy;

pub use classes::{CLASSES, class_of};
pub use head::Head;
pub use module::{Constructor, Definition, Module};
pub use pattern::{Pattern, PatternForm};
pub use place::{Place, TokenRange};
pub use placed::Placed;
pub use resolved::{Resolved, ResolvedForm, ResolvedStrategy};
pub use resolved_pattern::{ResolvedPattern, ResolvedPatternForm};
pub use skips::left_side;
pub use strategy::{Strategy, StrategyForm};
