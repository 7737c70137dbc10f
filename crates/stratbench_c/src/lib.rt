//! Sessions at a handle, for C: each export lends what lies at the handle to a function that is
//! proved as any other, and restates its contract.
#![tactic(auto)]

mod answers;
mod bench;
mod exports;
mod hints;
mod loads;
mod showing;
mod status;
mod stopping;

pub use answers::{Answers, Unanswered};
pub use bench::{
    Bench, Work, copy_answers, copy_ends, copy_hints, end, explain_calls, make, run_lines,
    run_script, set_limits,
};
pub use exports::{
    stratbench_copy, stratbench_drop, stratbench_ends, stratbench_explain, stratbench_hints,
    stratbench_library, stratbench_limits, stratbench_lines, stratbench_module, stratbench_new,
    stratbench_run, stratbench_show, stratbench_size, stratbench_stop, stratbench_stopper_drop,
    stratbench_stopper_new, stratbench_stopper_size, stratbench_tree,
};
pub use hints::Hints;
pub use loads::{set_library, set_module, set_tree};
pub use showing::show_tree;
pub use status::{NO_BUDGET, NO_LIMITS, Status};
pub use stopping::{Stopper, ask_to_stop, end_stopper, make_stopper};
