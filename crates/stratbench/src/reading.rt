//! Files that are read, each up to a limit.

use crate::status::FileFault;
use std::alloc::Global;
use std::cell::Cell;
use std::fs::File;
use std::io::{self, ErrorKind, Read};

// A file may have so many bytes for each term that a tree may have.
const BYTES_A_TERM: u64 = 1_000;

/// The most bytes of a file that is read whole, and of a line of a script.
pub fn limit_of(max_terms: u32) -> u64 {
    BYTES_A_TERM.saturating_mul(max_terms as u64)
}

/// The text of a file.
pub fn read_file(rt: &HostRuntime, file: &str, limit: u64) -> Result<Vec<u8>, FileFault> {
    match File::open(rt, file) {
        Ok(file) => read_whole(rt.alloc(), file, limit),
        Err(error) => Err(fault_of(error)),
    }
}

/// What a reader has. A device may give bytes without an end, so one that has more than the limit is
/// left there.
pub fn read_whole<R: Read + Drop>(
    alloc: Global,
    reader: R,
    limit: u64,
) -> Result<Vec<u8>, FileFault> {
    let mut text = Vec::new(alloc);
    match reader.take(limit.saturating_add(1)).read_to_end(&mut text) {
        Ok(_) if text.len() as u64 > limit => Err(FileFault::Read(too_long(alloc, "it", limit))),
        Ok(_) => Ok(text),
        Err(error) => Err(fault_of(error)),
    }
}

fn fault_of(error: io::Error) -> FileFault {
    if error.kind() == ErrorKind::OutOfMemory {
        FileFault::Memory
    } else {
        FileFault::Read(error)
    }
}

fn too_long(alloc: Global, what: &str, limit: u64) -> io::Error {
    match format!(in alloc; "{what} has more than {limit} bytes (--max-terms raises that limit)") {
        Ok(message) => io::Error::new(ErrorKind::InvalidData, &message),
        Err(_) => ErrorKind::OutOfMemory.into(),
    }
}

/// A script that keeps the reason why it can't be read. It may have any length, but a line that is
/// longer than the limit can't be read to its end.
#[derive(Drop)]
pub struct ScriptFile<'a, R> {
    file: R,
    alloc: Global,
    limit: u64,
    // How many bytes the line may still have.
    left: u64,
    reason: &'a Cell<Option<io::Error>>,
}

impl<'a, R> ScriptFile<'a, R> {
    /// One that reads from this file.
    pub fn new(
        alloc: Global,
        file: R,
        limit: u64,
        reason: &'a Cell<Option<io::Error>>,
    ) -> ScriptFile<'a, R> {
        ScriptFile {
            file,
            alloc,
            limit,
            left: limit,
            reason,
        }
    }

    fn note(&mut self, bytes: &[u8]) {
        self.left = if bytes.contains(&b'\n') {
            self.limit
        } else {
            self.left.saturating_sub(bytes.len() as u64)
        };
    }

    // Keeps the reason, and returns an error of the same kind.
    fn keep(&self, error: io::Error) -> io::Error {
        let kind = error.kind();
        self.reason.set(Some(error));
        kind.into()
    }
}

impl<R: Read> Read for ScriptFile<'_, R> {
    fn read(&mut self, buf: &mut [u8]) -> io::Result<usize> {
        if self.left == 0 {
            return Err(self.keep(too_long(self.alloc, "a line", self.limit)));
        }
        match self.file.read(buf) {
            Ok(given) => {
                self.note(&buf[..given]);
                Ok(given)
            }
            Err(error) => Err(self.keep(error)),
        }
    }
}
