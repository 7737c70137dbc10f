//! The machine that runs strategies: a focus, frames that wait for its answer, and what variables
//! and names stand for. Each turn starts a form, goes on to a child, or gives an answer to a frame.
#![tactic(auto)]

mod alternatives;
mod arguments;
mod begin;
mod calls;
mod children;
mod choices;
mod congruence;
mod endings;
mod fail;
mod forms;
mod frames;
mod give;
mod heads;
mod lends;
mod lists;
mod machine;
mod names;
mod rules;
mod scopes;
mod stack;
mod tails;
mod trail;
mod tries;
mod turning;

pub use frames::{Acts, Frame, Next, Turned, Walk};
pub use lends::Spot;
pub use machine::{Host, Machine};
pub use scopes::{Closure, Scopes};
pub use stack::Frames;
pub use trail::{Edit, Trail};
pub use turning::turn;
