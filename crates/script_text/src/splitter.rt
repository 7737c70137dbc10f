//! Commands, split off a script as its bytes arrive.
//!
//! A line ends at LF or at the end of the input, and the run of CR at its end is dropped. A line
//! that begins with `#` is a comment. By `Framing::Continued` a line that is empty or begins with a
//! space or a tab continues the command before it, and any other begins a command. By
//! `Framing::Lines` blanks at the start of a line are skipped, an empty line is dropped, and any
//! other is a command.

ghost use Rattle.std.specs.Prelude.{◌≡◌, ◌≤◌, ◌++◌, [], List, length, take, ℕ, IfOk, IfSome, IfNone, Some, None, is_some, option_map, true};
ghost use Rattle.script_text.specs.Handed.{Handed, handed};
ghost use Rattle.std.specs.List.{position_or_len};
ghost use Rattle.std.specs.Option.{option_to_list};
ghost use Rattle.script_text.specs.Script.{is_line_feed};
ghost use Rattle.script_text.specs.declared.framing.Framing.{Framing as AnyFraming};
ghost use Rattle.script_text.specs.declared.framing.Framing.TheVariants.{Continued, Lines};
ghost use Rattle.script_text.specs.Splitting.{StandsAfter, taken, taken_in, going, begun, nothing, longer, in_place, hold_return, continued_at, own_line_at, at_start, in_line, in_dropped, at_own_start, in_own_line, in_own_comment, gone_on, with_more};
ghost use Rattle.script_text.specs.inside.Passing.{Goes, ends_run};
ghost use Rattle.script_text.specs.inside.SplitView.{Takes, left_behind};
ghost use Rattle.script_text.specs.FedRight.{FedRight, handed_out};

use crate::MAX_COMMAND;
use crate::framing::Framing;
use crate::pending::Pending;
use memchr::{memchr, memchr2};
use std::alloc::Global;
use std::marker::Model;
use term_core::NoMemory;

/// A complete command.
#[derive(Clone, Copy)]
pub enum Piece<'a> {
    /// Its bytes, at most 65,536.
    Text(&'a [u8]),
    /// It is longer, and its bytes weren't kept.
    Long,
}

/// What a splitter did with the bytes that it was fed.
#[derive(Clone, Copy, Debug, PartialEq, Eq)]
pub enum Fed {
    /// All bytes were consumed, and no command is complete.
    Need,
    /// This many bytes were consumed, and a command is complete. The others have to be fed again.
    Command(usize),
}

/// Where in a line the next byte is.
#[derive(Clone, Copy)]
pub enum LineState {
    /// At the start: only carriage returns came.
    Start,
    /// In a line of the command.
    Kept,
    /// In a comment.
    Comment,
    /// In a continuation line before the first command, which is dropped.
    Skipped,
}

/// What follows the complete command: the next one's first byte, or nothing.
#[derive(Clone, Copy)]
pub enum Following {
    /// The line that completes it begins a command, with `returns` carriage returns and a byte.
    Begun { returns: usize, byte: u8 },
    /// Nothing: its own line feed completes it.
    Nothing,
}

/// What is pending between two bytes.
#[derive(Drop)]
pub struct Unfinished {
    framing: Framing,
    command: Pending,
    place: LineState,
    // Carriage returns that are dropped if the line ends.
    returns: usize,
}

/// Splits a script into commands as its bytes arrive. It stores one command at a time.
#[derive(Drop)]
pub struct Splitter {
    open: Unfinished,
    next: Option<Following>,
}

impl Model for Splitter {
    ghost use Rattle.script_text.specs.Split.{Split};
    ghost use Rattle.script_text.specs.inside.SplitView.{split_code, split_of};

    ghost Value = { Split };

    ghost coded = { split_code };

    ghost view = { λ s. split_of s.open s.next };
}

impl Splitter {
    /// A splitter that was fed nothing. It takes the memory for the longest command, and no other
    /// call takes any.
    pub fn new(alloc: Global, framing: Framing) -> Result<Splitter, NoMemory>
        ensures { IfOk result (λ splitter. StandsAfter framing [] [] splitter.left) }
    {
        let command = Pending::new(alloc)?;
        Ok(Splitter {
            open: Unfinished {
                framing,
                command,
                place: LineState::Start,
                returns: 0,
            },
            next: None,
        })
    }

    /// Consumes bytes up to and including the first one that completes a command, or all.
    pub fn feed(&mut self, bytes: &[u8]) -> Fed
        ensures { FedRight result self.old self.new bytes.now }
    {
        self.open.go_on_after(self.next);
        self.next = None;
        let mut at = 0;
        while at < bytes.len() {
            at += self.open.take_run(&bytes[at..]);
            if at == bytes.len() {
                break;
            }
            let byte = bytes[at];
            at += 1;
            if let Some(next) = self.open.take(byte) {
                self.next = Some(next);
                return Fed::Command(at);
            }
        }
        Fed::Need
    }

    /// Ends the script, and returns whether there is a last command. Nothing may be fed afterwards.
    pub fn finish(&mut self) -> bool
        ensures ready { result ≡ is_some self.new.to_hand_out }
        ensures all { (framing : AnyFraming) (x : List ℕ) (out : List Handed) → StandsAfter framing x out self.old.left
            → handed framing x ≡ out ++ option_to_list self.new.to_hand_out }
    {
        self.open.go_on_after(self.next);
        self.next = None;
        self.open.command.is_there()
    }

    /// The complete command.
    pub fn command(&self) -> Piece<'_>
        requires { is_some self.now.to_hand_out ≡ true }
        ensures { self.now.to_hand_out ≡ Some (handed_out result) }
    {
        self.open.command.piece()
    }
}

impl Unfinished {
    // Drops the complete command, if there is one, in favour of what comes after it.
    fn go_on_after(&mut self, next: Option<Following>)
        ensures { self.new ≡ left_behind self.old next }
    {
        match next {
            None => {}
            Some(Following::Begun { returns, byte }) => self.begin(returns, byte),
            Some(Following::Nothing) => self.forget(),
        }
    }

    // A line begins a command.
    fn begin(&mut self, returns: usize, byte: u8)
        ensures { self.new ≡ begun self.old.framing returns byte }
    {
        self.command.begin(returns, byte);
        self.place = LineState::Kept;
        self.returns = 0;
    }

    // A line begins, and nothing is pending.
    fn forget(&mut self)
        ensures { self.new ≡ nothing self.old.framing }
    {
        self.command.forget();
        self.place = LineState::Start;
        self.returns = 0;
    }

    // Consumes the bytes before the next one that can change more than the command, and returns
    // their number.
    fn take_run(&mut self, bytes: &[u8]) -> usize
        ensures within { result ≤ length bytes.now }
        ensures goes { Goes self.old (take result bytes.now) [] self.new }
    {
        match self.place {
            LineState::Start => 0,
            LineState::Kept => {
                if self.returns > 0 {
                    return 0;
                }
                let len = kept_len(bytes);
                self.command.add_all(&bytes[..len]);
                len
            }
            LineState::Comment | LineState::Skipped => dropped_len(bytes),
        }
    }

    // Consumes a byte. If it completes the pending command, returns what comes after it; the
    // command stays.
    fn take(&mut self, byte: u8) -> Option<Following>
        ensures { Takes (taken self.old byte) result self.new }
    {
        match self.framing {
            Framing::Continued => self.take_continued(byte),
            Framing::Lines => self.take_own_line(byte),
        }
    }

    fn take_continued(&mut self, byte: u8) -> Option<Following>
        ensures { Takes (continued_at self.old.place self.old byte) result self.new }
    {
        match self.place {
            LineState::Start => return self.take_first(byte),
            LineState::Kept => self.take_kept(byte),
            LineState::Comment | LineState::Skipped => self.take_dropped(byte),
        }
        None
    }

    // A byte at the start of a line.
    fn take_first(&mut self, byte: u8) -> Option<Following>
        requires { self.old.place ≡ LineState.Start }
        ensures { Takes (at_start self.old byte) result self.new }
    {
        match byte {
            b'\r' => self.hold_return(),
            b'\n' => {
                self.returns = 0;
                self.command.add(b'\n');
            }
            b'#' if self.returns == 0 => self.place = LineState::Comment,
            b' ' | b'\t' if self.returns == 0 => self.go_on(byte),
            _ => return self.begin_line(byte),
        }
        None
    }

    // A byte in a dropped line.
    fn take_dropped(&mut self, byte: u8)
        ensures { in_dropped self.old byte ≡ going self.new }
    {
        if byte == b'\n' {
            self.place = LineState::Start;
            self.returns = 0;
        }
    }

    fn hold_return(&mut self)
        ensures { self.new ≡ hold_return self.old }
    {
        if self.returns <= MAX_COMMAND {
            self.returns += 1;
        }
    }

    // A line that begins with a space or a tab continues the command, if there is one.
    fn go_on(&mut self, byte: u8)
        ensures { self.new ≡ gone_on self.old.framing byte self.old.command }
    {
        self.returns = 0;
        if !self.command.is_there() {
            self.place = LineState::Skipped;
            return;
        }
        self.place = LineState::Kept;
        self.command.add(b'\n');
        self.command.add(byte);
    }

    // A line begins a command. The one before it, if there is one, is complete.
    fn begin_line(&mut self, byte: u8) -> Option<Following>
        ensures { Takes (record { out = self.old.command; left = begun self.old.framing self.old.returns byte }) result self.new }
    {
        let returns = self.returns;
        if self.command.is_there() {
            return Some(Following::Begun { returns, byte });
        }
        self.begin(returns, byte);
        None
    }

    // A byte in a line of the command.
    fn take_kept(&mut self, byte: u8)
        requires { self.old.place ≡ LineState.Kept }
        ensures { in_line self.old byte ≡ going self.new }
    {
        match byte {
            b'\r' => self.hold_return(),
            b'\n' => {
                self.returns = 0;
                self.place = LineState::Start;
            }
            _ => self.take_more(byte),
        }
    }

    // A byte of the command, after the carriage returns that were held back.
    fn take_more(&mut self, byte: u8)
        requires { self.old.place ≡ LineState.Kept }
        ensures { self.new ≡ longer self.old byte }
    {
        self.command.add_after(self.returns, byte);
        self.returns = 0;
    }

    fn take_own_line(&mut self, byte: u8) -> Option<Following>
        ensures { Takes (own_line_at self.old.place self.old byte) result self.new }
    {
        match self.place {
            LineState::Start => self.take_own_first(byte),
            LineState::Kept => return self.take_own_kept(byte),
            LineState::Comment | LineState::Skipped => {
                if byte == b'\n' {
                    self.forget();
                }
            }
        }
        None
    }

    // A byte at the start of a line that is a command. Blanks are skipped.
    fn take_own_first(&mut self, byte: u8)
        ensures { at_own_start self.old byte ≡ going self.new }
    {
        match byte {
            b'\n' | b' ' | b'\t' | b'\r' => self.forget(),
            b'#' => {
                self.forget();
                self.place = LineState::Comment;
            }
            _ => self.begin(0, byte),
        }
    }

    // A byte in a line that is a command. The line feed completes it.
    fn take_own_kept(&mut self, byte: u8) -> Option<Following>
        requires { self.old.place ≡ LineState.Kept }
        ensures { Takes (in_own_line self.old byte) result self.new }
    {
        match byte {
            b'\r' => self.hold_return(),
            b'\n' => {
                if self.command.is_there() {
                    return Some(Following::Nothing);
                }
                self.forget();
            }
            _ => self.take_more(byte),
        }
        None
    }
}

// The number of bytes of a line of the command before the next line feed or carriage return.
#[tactic(auto, using(crate::proofs::SplitRunLemmas::first_places))]
fn kept_len(bytes: &[u8]) -> usize
    ensures value { result ≡ position_or_len ends_run bytes.now }
    ensures within { result ≤ length bytes.now }
{
    match memchr2(b'\n', b'\r', bytes) {
        Some(place) => place,
        None => bytes.len(),
    }
}

// The number of bytes of a dropped line before its line feed.
#[tactic(auto, using(crate::proofs::SplitRunLemmas::first_places))]
fn dropped_len(bytes: &[u8]) -> usize
    ensures value { result ≡ position_or_len is_line_feed bytes.now }
    ensures within { result ≤ length bytes.now }
{
    match memchr(b'\n', bytes) {
        Some(place) => place,
        None => bytes.len(),
    }
}
