//! Values: trees that share subterms of a borrowed term and nodes made since; and parts: what took
//! the places of its subterms.
#![tactic(auto)]

mod annotate;
mod bounds;
mod build;
mod children;
mod elements;
mod equality;
mod list;
mod measure;
mod owned;
mod part;
mod patches;
mod places;
mod value;

pub use elements::{Elements, Seen};
pub use part::Part;
pub use value::Value;
