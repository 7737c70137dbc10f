//! The pending command, in a buffer that never grows.

ghost use Rattle.std.specs.Prelude.{◌≡◌, ◌∷◌, [], IfOk, true, Some, None, option_map, is_some};
ghost use Rattle.script_text.specs.Handed.{handed_as, text};
ghost use Rattle.script_text.specs.Splitting.{with_more, after_returns};
ghost use Rattle.script_text.specs.FedRight.{handed_out};

use crate::MAX_COMMAND;
use crate::splitter::Piece;
use std::alloc::Global;
use std::marker::Model;
use term_core::NoMemory;

/// The pending command, if there is one. Of a command that is too long at most 65,536 bytes are
/// stored.
#[derive(Drop)]
pub struct Pending {
    bytes: Vec<u8>,
    is_there: bool,
    is_long: bool,
}

impl Model for Pending {
    ghost use Rattle.std.specs.declared.option.Option.{Option};
    ghost use Rattle.std.specs.Coded.{coded_option};
    ghost use Rattle.script_text.specs.Handed.{Handed};
    ghost use Rattle.script_text.specs.inside.HandedCode.{handed_code};

    ghost Value = { Option Handed };

    ghost coded = { coded_option handed_code };

    ghost use Rattle.script_text.specs.inside.PendingView.{pending_of, HasRoom};

    ghost view = { pending_of };

    ghost invariant = { HasRoom };
}

impl Pending {
    /// No command. It takes the memory for the longest one.
    pub fn new(alloc: Global) -> Result<Pending, NoMemory>
        ensures { IfOk result (λ pending. pending ≡ None) }
    {
        let bytes = Vec::with_capacity(alloc, MAX_COMMAND)?;
        Ok(Pending {
            bytes,
            is_there: false,
            is_long: false,
        })
    }

    /// Whether a command is pending.
    pub fn is_there(&self) -> bool
        ensures { result ≡ is_some self.now }
    {
        self.is_there
    }

    /// The bytes of the pending command, or that it is too long.
    pub fn piece(&self) -> Piece<'_>
        requires { is_some self.now ≡ true }
        ensures { self.now ≡ Some (handed_out result) }
    {
        if self.is_long {
            return Piece::Long;
        }
        Piece::Text(&self.bytes)
    }

    /// Begins a command with `returns` carriage returns and another byte.
    pub fn begin(&mut self, returns: usize, byte: u8)
        ensures { self.new ≡ Some (handed_as (after_returns returns byte)) }
    {
        self.bytes.clear();
        self.is_there = true;
        self.is_long = false;
        self.add_after(returns, byte);
    }

    /// Drops the command, if there is one.
    pub fn forget(&mut self)
        ensures { self.new ≡ None }
    {
        self.is_there = false;
    }

    /// Appends `returns` carriage returns and another byte to the pending command.
    pub fn add_after(&mut self, returns: usize, byte: u8)
        ensures { self.new ≡ option_map (with_more (after_returns returns byte)) self.old }
    {
        if returns > MAX_COMMAND {
            self.is_long = true;
            return;
        }
        let mut left = returns;
        while left > 0 {
            self.add(b'\r');
            left -= 1;
        }
        self.add(byte);
    }

    /// Appends a byte to the pending command.
    pub fn add(&mut self, byte: u8)
        ensures { self.new ≡ option_map (with_more (byte ∷ [])) self.old }
    {
        if self.bytes.len() >= MAX_COMMAND {
            self.is_long = true;
            return;
        }
        self.bytes.push_reserved(byte);
    }

    /// Appends bytes to the pending command.
    pub fn add_all(&mut self, bytes: &[u8])
        ensures { self.new ≡ option_map (with_more bytes.now) self.old }
    {
        if bytes.len() > MAX_COMMAND - self.bytes.len() {
            self.is_long = true;
            return;
        }
        if self.bytes.extend_from_slice(bytes).is_err() {
            unreachable!();
        }
    }
}
