//! Readers and writers that give and take little at a time, fail, or are interrupted.

use std::io::{self, Error, ErrorKind, Read, Write};

/// Whether the first call of a device, and then every other, is interrupted.
#[derive(Clone, Copy)]
pub struct Turns {
    interrupts: bool,
    was_interrupted: bool,
}

pub const UNDISTURBED: Turns = Turns {
    interrupts: false,
    was_interrupted: false,
};

pub const INTERRUPTED: Turns = Turns {
    interrupts: true,
    was_interrupted: false,
};

impl Turns {
    fn is_interrupted(&mut self) -> bool {
        self.was_interrupted = self.interrupts && !self.was_interrupted;
        self.was_interrupted
    }
}

/// Gives at most this many bytes at a time, and at its end fails or gives none.
#[derive(Drop)]
pub struct Reader<'a> {
    pub rest: &'a [u8],
    pub most: usize,
    pub fails: bool,
    pub turns: Turns,
}

impl Read for Reader<'_> {
    fn read(&mut self, buf: &mut [u8]) -> io::Result<usize> {
        if self.turns.is_interrupted() {
            return Err(Error::from(ErrorKind::Interrupted));
        }
        if self.rest.is_empty() && self.fails {
            return Err(Error::from(ErrorKind::Other));
        }
        let given = self.rest.len().min(buf.len()).min(self.most);
        let (front, rest) = self.rest.split_at(given);
        buf[..given].copy_from_slice(front);
        self.rest = rest;
        Ok(given)
    }
}

/// How much a writer takes per write and in all, and what it does then.
#[derive(Clone, Copy)]
pub struct Narrow {
    pub most: usize,
    pub room: usize,
    /// Whether a write without room fails. Else it takes none.
    pub fails: bool,
    pub flush_fails: bool,
    pub turns: Turns,
}

/// One that takes all.
pub const WIDE: Narrow = Narrow {
    most: 4096,
    room: 4096,
    fails: true,
    flush_fails: false,
    turns: UNDISTURBED,
};

/// Keeps what it takes in a vector that it borrows.
#[derive(Drop)]
pub struct Writer<'a> {
    pub held: &'a mut Vec<u8>,
    pub narrow: Narrow,
}

impl Write for Writer<'_> {
    fn write(&mut self, buf: &[u8]) -> io::Result<usize> {
        if self.narrow.turns.is_interrupted() {
            return Err(Error::from(ErrorKind::Interrupted));
        }
        if self.narrow.room == 0 && self.narrow.fails {
            return Err(Error::from(ErrorKind::Other));
        }
        let taken = self.narrow.room.min(buf.len()).min(self.narrow.most);
        self.held.extend_from_slice(&buf[..taken])?;
        self.narrow.room -= taken;
        Ok(taken)
    }

    fn flush(&mut self) -> io::Result<()> {
        if self.narrow.flush_fails {
            return Err(Error::from(ErrorKind::Other));
        }
        Ok(())
    }
}
