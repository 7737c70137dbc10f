//! Where answers go.
#![tactic(auto, using(crate::proofs::WriteLemmas::known_bytes))]

ghost use Rattle.std.specs.Prelude.{◌≡◌, ◌≤◌, ◌<◌, ◌+◌, ◌^◌, ℕ, List, [], length, take, IfOk, OnOk, OnErr, Some};
ghost use Rattle.std.specs.declared.option.Option.{Option};
ghost use Rattle.std.specs.Io.KnownBytes.{Appends, Keeps};

use crate::source::{Counted, Failed, MAX_TRIES};
use std::alloc::Global;
use std::io::{ErrorKind, Write};

/// A sink that answers are written to.
pub trait Sink {
    // the bytes that it took, if known
    ghost held: { Self → Option (List ℕ) };

    // how often a write or a flush failed
    ghost failed: { Self → ℕ };

    /// Takes a prefix of the bytes and returns its length: at least 1 if there are bytes.
    fn write(&mut self, bytes: &[u8]) -> Result<usize, Failed>
        requires { failed self.old + 1 < 2 ^ 64 }
        ensures within { IfOk result (λ n. n ≤ length bytes.now) }
        ensures some { 0 < length bytes.now → IfOk result (λ n. 0 < n) }
        ensures ok { IfOk result (λ n. Appends (held self.old) (held self.new)
            (take n bytes.now)) }
        ensures same { OnOk result (failed self.new ≡ failed self.old) }
        ensures err { OnErr result (Keeps (held self.old) (held self.new)) }
        ensures count { OnErr result (failed self.new ≡ failed self.old + 1) };

    /// Passes on what it took and may still buffer.
    fn flush(&mut self) -> Result<(), Failed>
        requires { failed self.old + 1 < 2 ^ 64 }
        ensures keeps { Keeps (held self.old) (held self.new) }
        ensures same { OnOk result (failed self.new ≡ failed self.old) }
        ensures count { OnErr result (failed self.new ≡ failed self.old + 1) };

    /// How often a write or a flush failed.
    fn failures(&self) -> u64
        ensures { result ≡ failed self.now };
}

/// Answers that are held in memory. A write fails if memory can't grow.
#[derive(Drop)]
pub struct Held {
    bytes: Vec<u8>,
    failures: u64,
}

impl Held {
    /// An empty buffer. It takes no memory.
    pub fn new(alloc: Global) -> Held
        ensures bytes { ⟦<Held as Sink>⟧.held result ≡ Some [] }
        ensures failures { ⟦<Held as Sink>⟧.failed result ≡ 0 }
    {
        Held {
            bytes: Vec::new(alloc),
            failures: 0,
        }
    }

    /// The bytes that it took.
    pub fn bytes(&self) -> &[u8]
        ensures { ⟦<Held as Sink>⟧.held self.now ≡ Some result.now }
    {
        &self.bytes
    }
}

impl Sink for Held {
    ghost held = { λ h. Some h.bytes.items };

    ghost failed = { λ h. h.failures };

    fn write(&mut self, bytes: &[u8]) -> Result<usize, Failed> {
        match self.bytes.extend_from_slice(bytes) {
            Ok(()) => Ok(bytes.len()),
            Err(_) => {
                self.failures += 1;
                Err(Failed)
            }
        }
    }

    fn flush(&mut self) -> Result<(), Failed> {
        Ok(())
    }

    fn failures(&self) -> u64 {
        self.failures
    }
}

/// A write that takes none of some bytes counts as failed.
impl<W: Write> Sink for Counted<W> {
    ghost held = { λ c. W.contents c.inner };

    ghost failed = { λ c. c.failures };

    fn write(&mut self, bytes: &[u8]) -> Result<usize, Failed> {
        for _ in 0..MAX_TRIES {
            match self.inner.write(bytes) {
                Ok(taken) if taken > 0 || bytes.is_empty() => return Ok(taken),
                Err(error) if error.kind() == ErrorKind::Interrupted => {}
                _ => break,
            }
        }
        self.failures += 1;
        Err(Failed)
    }

    fn flush(&mut self) -> Result<(), Failed> {
        match self.inner.flush() {
            Ok(()) => Ok(()),
            Err(_) => {
                self.failures += 1;
                Err(Failed)
            }
        }
    }

    fn failures(&self) -> u64 {
        self.failures
    }
}
