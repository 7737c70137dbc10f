//! Why a token wasn't accepted.

use crate::ParseFault;
use std::alloc::{AllocError, AllocFailed};
use term_core::NoMemory;

/// Why a token wasn't accepted.
#[derive(Clone, Copy)]
pub enum SyntaxFault {
    /// No form continues with it.
    Syntax,
    /// Memory couldn't grow.
    Memory,
}

impl<T: Drop> From<AllocFailed<T>> for SyntaxFault {
    ghost use Rattle.std.specs.Prelude.{◌≡◌};
    ghost use Rattle.strategy_parse.specs.declared.parser.fault.SyntaxFault.{SyntaxFault};

    ghost from_gives = { λ _ e. e ≡ SyntaxFault.Memory };

    fn from(_refused: AllocFailed<T>) -> SyntaxFault {
        SyntaxFault::Memory
    }
}

impl From<AllocError> for SyntaxFault {
    ghost use Rattle.std.specs.Prelude.{◌≡◌};
    ghost use Rattle.strategy_parse.specs.declared.parser.fault.SyntaxFault.{SyntaxFault};

    ghost from_gives = { λ _ e. e ≡ SyntaxFault.Memory };

    fn from(_refused: AllocError) -> SyntaxFault {
        SyntaxFault::Memory
    }
}

impl From<NoMemory> for SyntaxFault {
    ghost use Rattle.std.specs.Prelude.{◌≡◌};
    ghost use Rattle.strategy_parse.specs.declared.parser.fault.SyntaxFault.{SyntaxFault};

    ghost from_gives = { λ _ e. e ≡ SyntaxFault.Memory };

    fn from(_refused: NoMemory) -> SyntaxFault {
        SyntaxFault::Memory
    }
}

impl From<SyntaxFault> for ParseFault {
    ghost use Rattle.std.specs.Prelude.{◌≡◌};
    ghost use Rattle.strategy_parse.specs.Faults.{text_fault};

    ghost from_gives = { λ fault e. e ≡ text_fault fault };

    fn from(fault: SyntaxFault) -> ParseFault {
        match fault {
            SyntaxFault::Syntax => ParseFault::Syntax,
            SyntaxFault::Memory => ParseFault::Memory,
        }
    }
}
