//! What is wrong with files, and the exit status for it.

ghost use Rattle.std.specs.Prelude.{◌≡◌};
ghost use Rattle.stratbench.specs.Status.{status_of_file};

use session_core::Refusal;
use std::io;
use term_core::NoMemory;

/// What is wrong with a file of the command line, or with what is in it.
#[derive(Drop)]
pub enum FileFault {
    /// It can't be read, for this reason.
    Read(io::Error),
    /// It can't be written, for this reason.
    Write(io::Error),
    /// Memory couldn't grow.
    Memory,
    /// The text in it is refused, or there is no tree to write, for any reason but want of memory.
    Refused(Refusal),
}

impl From<Refusal> for FileFault {
    fn from(refusal: Refusal) -> FileFault {
        match refusal {
            Refusal::Memory => FileFault::Memory,
            refusal => FileFault::Refused(refusal),
        }
    }
}

/// The exit status for a fault of a file: 1 for a refusal, 3 if it can't be read or written, 4 for
/// want of memory.
pub fn file_status(fault: &FileFault) -> u8
    ensures { result ≡ status_of_file fault.now }
{
    match fault {
        FileFault::Refused(_) => 1,
        FileFault::Read(_) | FileFault::Write(_) => 3,
        FileFault::Memory => 4,
    }
}
