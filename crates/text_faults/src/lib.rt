//! What is wrong with a text: where it stops being a term, what makes a token bad, and which form
//! is open where a strategy or a module ends too early.
#![tactic(auto)]

mod escape;
mod open;
mod operand;
mod roles;
mod terms;
mod tokens;

pub use open::{OpenForm, OpenToken, innermost_open};
pub use roles::{Role, roles_in_definition, roles_in_strategy};
pub use terms::{StuckTerm, TermFault, stuck_annotations, stuck_term};
pub use tokens::{BadToken, bad_token};
