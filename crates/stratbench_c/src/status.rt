//! How a call ended, as a number for C.

ghost use Rattle.std.specs.Prelude.{◌≡◌};
ghost use Rattle.stratbench_c.specs.Status.{code_of, ended_by, status_of};

use crate::answers::Unanswered;

/// How a script ended.
#[derive(Clone, Copy, Debug, PartialEq, Eq)]
pub enum Status {
    /// All commands are answered, and accepted.
    Accepted,
    /// All commands are answered, and some are refused.
    Refused,
    /// Memory couldn't grow for the answers: some first commands are answered, and no other is run.
    Cut,
    /// There was no memory to begin with: nothing is done.
    NoMemory,
    /// A stopper stopped the script: some first commands are answered, and no other is run.
    Stopped,
}

/// The number for a budget that is not from 1 to the session's greatest.
pub const NO_BUDGET: u32 = 4;

/// The number for limits that are lower than those by default, or higher than the highest.
pub const NO_LIMITS: u32 = 5;

impl Status {
    /// The status of a script whose commands are all answered.
    pub fn answered(accepted: bool) -> Status
        ensures { result ≡ status_of accepted }
    {
        if accepted {
            Status::Accepted
        } else {
            Status::Refused
        }
    }

    /// The status of a script, one command of which isn't answered.
    pub fn unanswered(why: Unanswered) -> Status
        ensures { result ≡ ended_by why }
    {
        match why {
            Unanswered::Memory => Status::Cut,
            Unanswered::Stopped => Status::Stopped,
        }
    }

    /// The number that C gets.
    pub fn code(self) -> u32
        ensures { result ≡ code_of self }
    {
        match self {
            Status::Accepted => 0,
            Status::Refused => 1,
            Status::Cut => 2,
            Status::NoMemory => 3,
            Status::Stopped => 6,
        }
    }
}
