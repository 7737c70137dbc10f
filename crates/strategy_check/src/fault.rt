//! The faults that the checker finds.

ghost use Rattle.std.specs.Prelude.{◌≡◌};
ghost use Rattle.strategy_check.specs.Words.{word_of};

use std::fmt;
use term_core::{Name, NoMemory};
use thiserror::Error;

/// The kinds of faults.
#[derive(Clone, Copy, Debug, PartialEq, Eq)]
pub enum FaultKind {
    /// A name is repeated in a header or a scope, or a strategy parameter has arguments.
    Parameter,
    /// An earlier module defines the same name with as many parameters.
    Twice,
    /// A definition without term parameters has the name of a constructor with as many arguments.
    Clash,
    /// A name is no parameter, no definition and no constructor.
    Unknown,
    /// A pattern has a constructor that no module declares with as many arguments.
    Undeclared,
    /// `_` or `x@p` occurs where a term is built.
    Wild,
    /// There is no primitive of this name and number of arguments.
    Primitive,
}

/// The kinds of faults, by the short name that they have beside `CheckFault`.
pub type Kind = FaultKind;

impl FaultKind {
    /// The word for the kind in a refusal.
    pub fn word(self) -> &'static str
        ensures { result.now ≡ word_of self }
    {
        match self {
            FaultKind::Parameter => "parameter",
            FaultKind::Twice => "twice",
            FaultKind::Clash => "clash",
            FaultKind::Unknown => "unknown",
            FaultKind::Undeclared => "undeclared",
            FaultKind::Wild => "wild",
            FaultKind::Primitive => "primitive",
        }
    }
}

/// Why modules give no program, or a strategy can't be resolved.
#[derive(Drop, Error)]
pub enum CheckFault {
    /// Memory couldn't grow.
    #[error("memory")]
    Memory,
    /// The first fault: its kind, the name, and two numbers, usually of strategies and of terms. If
    /// it comes from a text, the name is quoted for `Primitive`, else a word.
    #[error("{}", .0.word())]
    Fault(FaultKind, Name, u64, u64),
}

impl fmt::Debug for CheckFault {
    fn fmt<W: fmt::Write>(&self, f: &mut fmt::Formatter<W>) -> Result<(), fmt::Error> {
        fmt::Display::fmt(self, f)
    }
}

impl From<NoMemory> for CheckFault {
    ghost use Rattle.std.specs.Prelude.{◌≡◌};
    ghost use Rattle.strategy_check.specs.declared.fault.CheckFault.{CheckFault};

    ghost from_gives = { λ _ e. e ≡ CheckFault.Memory };

    fn from(_refused: NoMemory) -> CheckFault {
        CheckFault::Memory
    }
}
