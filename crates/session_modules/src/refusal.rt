//! Why a command is refused.

ghost use Rattle.std.specs.Prelude.{◌≡◌};
ghost use Rattle.session_modules.specs.Refusal.{number_of, word_of};

use std::fmt;
use strategy_check::{CheckFault, FaultKind};
use strategy_parse::ParseFault;
use term_core::{LabelFault, Name, NoMemory};
use thiserror::Error;

/// Why a command is refused. A refused command leaves the session as it was.
#[derive(Drop, Error)]
pub enum Refusal {
    /// Memory couldn't grow.
    #[error("memory")]
    Memory,
    /// The command has no known form, a path is malformed, or a number is out of range.
    #[error("line")]
    Line,
    /// The command is longer than 65,536 bytes.
    #[error("long")]
    Long,
    /// A name isn't a word, or is longer than 64 bytes.
    #[error("name")]
    Name,
    /// There is no tree of this name.
    #[error("notree")]
    NoTree,
    /// There is no module of this name.
    #[error("nomodule")]
    NoModule,
    /// The text is no term.
    #[error("term")]
    Term,
    /// The text nests too deep or has too many tokens.
    #[error("deep")]
    Deep,
    /// The tree has no subterm at the path.
    #[error("path")]
    Path,
    /// The text is no strategy, or no module.
    #[error("syntax")]
    Syntax,
    /// The checker found a fault: its kind, the name, and two numbers, usually of strategies and
    /// terms.
    #[error("check")]
    Check(FaultKind, Name, u64, u64),
    /// The strategy fails.
    #[error("fails")]
    Fails,
    /// No step is left.
    #[error("spent")]
    Spent,
    /// A term doesn't fit at its level.
    #[error("big")]
    Big,
    /// There are fewer steps to undo than asked for.
    #[error("noundo")]
    NoUndo,
    /// There are fewer steps to redo than asked for.
    #[error("noredo")]
    NoRedo,
    /// A group is open.
    #[error("group")]
    Group,
    /// No group is open.
    #[error("nogroup")]
    NoGroup,
}

impl Refusal {
    /// The number of the refusal, from 1 to 18.
    pub fn number(&self) -> u8
        ensures { result ≡ number_of self.now }
    {
        match self {
            Refusal::Memory => 1,
            Refusal::Line => 2,
            Refusal::Long => 3,
            Refusal::Name => 4,
            Refusal::NoTree => 5,
            Refusal::NoModule => 6,
            Refusal::Term => 7,
            Refusal::Deep => 8,
            Refusal::Path => 9,
            Refusal::Syntax => 10,
            Refusal::Check(..) => 11,
            Refusal::Fails => 12,
            Refusal::Spent => 13,
            Refusal::Big => 14,
            Refusal::NoUndo => 15,
            Refusal::NoRedo => 16,
            Refusal::Group => 17,
            Refusal::NoGroup => 18,
        }
    }

    /// The word of the refusal, which an answer has after the number.
    pub fn word(&self) -> &'static str
        ensures { result.now ≡ word_of self.now }
    {
        match self {
            Refusal::Memory => "memory",
            Refusal::Line => "line",
            Refusal::Long => "long",
            Refusal::Name => "name",
            Refusal::NoTree => "notree",
            Refusal::NoModule => "nomodule",
            Refusal::Term => "term",
            Refusal::Deep => "deep",
            Refusal::Path => "path",
            Refusal::Syntax => "syntax",
            Refusal::Check(..) => "check",
            Refusal::Fails => "fails",
            Refusal::Spent => "spent",
            Refusal::Big => "big",
            Refusal::NoUndo => "noundo",
            Refusal::NoRedo => "noredo",
            Refusal::Group => "group",
            Refusal::NoGroup => "nogroup",
        }
    }
}

impl From<NoMemory> for Refusal {
    ghost use Rattle.std.specs.Prelude.{◌≡◌};
    ghost use Rattle.session_modules.specs.declared.refusal.Refusal.{Refusal};

    ghost from_gives = { λ _ e. e ≡ Refusal.Memory };

    fn from(_refused: NoMemory) -> Refusal {
        Refusal::Memory
    }
}

impl From<LabelFault> for Refusal {
    ghost use Rattle.std.specs.Prelude.{◌≡◌};
    ghost use Rattle.session_modules.specs.Refusal.{label_refusal};

    ghost from_gives = { λ fault e. e ≡ label_refusal fault };

    fn from(fault: LabelFault) -> Refusal {
        match fault {
            LabelFault::Name => Refusal::Name,
            LabelFault::Memory => Refusal::Memory,
        }
    }
}

impl From<ParseFault> for Refusal {
    ghost use Rattle.std.specs.Prelude.{◌≡◌};
    ghost use Rattle.session_modules.specs.Refusal.{parse_refusal};

    ghost from_gives = { λ fault e. e ≡ parse_refusal fault };

    fn from(fault: ParseFault) -> Refusal {
        match fault {
            ParseFault::Deep => Refusal::Deep,
            ParseFault::Syntax => Refusal::Syntax,
            ParseFault::Memory => Refusal::Memory,
        }
    }
}

impl From<CheckFault> for Refusal {
    ghost use Rattle.std.specs.Prelude.{◌≡◌};
    ghost use Rattle.session_modules.specs.Refusal.{check_refusal};

    ghost from_gives = { λ fault e. e ≡ check_refusal fault };

    fn from(fault: CheckFault) -> Refusal {
        match fault {
            CheckFault::Memory => Refusal::Memory,
            CheckFault::Fault(kind, name, first, second) => {
                Refusal::Check(kind, name, first, second)
            }
        }
    }
}

impl fmt::Debug for Refusal {
    fn fmt<W: fmt::Write>(&self, f: &mut fmt::Formatter<W>) -> Result<(), fmt::Error> {
        fmt::Display::fmt(self, f)
    }
}
