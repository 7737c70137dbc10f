//! The parser: a machine that reads one token after another, with a stack of open forms.
//!
//! What was read is passed to `drop` where nothing continues with it: a drop at the end of a scope
//! is proved anew on each way out.

mod after;
mod closure;
mod expect;
mod fault;
mod group;
mod lists;
mod make;
mod names;
mod patterns;
mod run;
mod stack;
mod state;
mod step;
mod strategies;
mod stuck;

pub use fault::SyntaxFault;
pub use lists::ItemList;
pub use make::{make_rewrite, make_rewrite_where, make_scope};
pub use run::{read_in_text, read_pattern, read_strategy};
pub use state::Order;
pub use stuck::{first_stuck, pass_pattern, pass_strategy};
