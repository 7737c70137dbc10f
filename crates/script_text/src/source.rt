//! Where scripts come from.
#![tactic(auto, using(crate::proofs::WriteLemmas::known_bytes))]

ghost use Rattle.std.specs.Prelude.{◌≡◌, ◌≤◌, ◌<◌, ◌+◌, ◌^◌, ℕ, List, [], length, take, IfOk, OnOk, OnErr, Ok, Some};
ghost use Rattle.std.specs.declared.option.Option.{Option};
ghost use Rattle.std.specs.Io.KnownBytes.{Consumes, IsAtEnd, Keeps};

use std::io::{ErrorKind, Read};

/// A read or a write failed. It transferred no byte.
#[derive(Clone, Copy, Debug, PartialEq, Eq)]
pub struct Failed;

/// A source that scripts are read from.
pub trait Source {
    // the bytes that are left, if known
    ghost left: { Self → Option (List ℕ) };

    // how often a read failed
    ghost failed: { Self → ℕ };

    /// Reads at most as many bytes as the piece has: none only at the end, or into an empty piece.
    fn read(&mut self, piece: &mut [u8]) -> Result<usize, Failed>
        requires { failed self.old + 1 < 2 ^ 64 }
        ensures within { IfOk result (λ n. n ≤ length piece.new) }
        ensures ok { IfOk result (λ n. Consumes (left self.old) (left self.new)
            (take n piece.new)) }
        ensures end { result ≡ Ok 0 → 0 < length piece.old → IsAtEnd (left self.new) }
        ensures same { OnOk result (failed self.new ≡ failed self.old) }
        ensures err { OnErr result (Keeps (left self.old) (left self.new)) }
        ensures count { OnErr result (failed self.new ≡ failed self.old + 1) };

    /// How often a read failed.
    fn failures(&self) -> u64
        ensures { result ≡ failed self.now };
}

/// A script in memory. No read of it fails.
#[derive(Clone, Copy)]
pub struct Bytes<'a> {
    rest: &'a [u8],
}

impl<'a> Bytes<'a> {
    pub fn new(bytes: &'a [u8]) -> Bytes<'a>
        ensures { ⟦<Bytes<'a> as Source>⟧.left result ≡ Some bytes.now }
    {
        Bytes { rest: bytes }
    }
}

impl<'a> Source for Bytes<'a> {
    ghost left = { λ b. Some b.rest.now };

    ghost failed = { λ _. 0 };

    fn read(&mut self, piece: &mut [u8]) -> Result<usize, Failed> {
        let given = self.rest.len().min(piece.len());
        let (front, rest) = self.rest.split_at(given);
        piece[..given].copy_from_slice(front);
        self.rest = rest;
        Ok(given)
    }

    fn failures(&self) -> u64 {
        0
    }
}

/// A reader or writer of the system, with the count of its failures. The contracts know as many
/// bytes as those of the reader or writer do: all bytes of memory, none of the system's files and
/// streams.
#[derive(Drop)]
pub struct Counted<T> {
    pub(crate) inner: T,
    pub(crate) failures: u64,
}

impl<T> Counted<T> {
    /// One that hasn't failed yet.
    pub fn new(inner: T) -> Counted<T>
        ensures failures { result.failures ≡ 0 }
        ensures inner { result.inner ≡ inner }
    {
        Counted { inner, failures: 0 }
    }
}

/// How often an interrupted read or write is retried at most.
pub const MAX_TRIES: u64 = 1_000_000_000;

impl<R: Read> Source for Counted<R> {
    ghost left = { λ c. R.remaining c.inner };

    ghost failed = { λ c. c.failures };

    fn read(&mut self, piece: &mut [u8]) -> Result<usize, Failed> {
        for _ in 0..MAX_TRIES {
            match self.inner.read(piece) {
                Ok(given) => return Ok(given),
                Err(error) if error.kind() == ErrorKind::Interrupted => {}
                Err(_) => break,
            }
        }
        self.failures += 1;
        Err(Failed)
    }

    fn failures(&self) -> u64 {
        self.failures
    }
}
