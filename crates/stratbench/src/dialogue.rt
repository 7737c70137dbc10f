//! Prompts at a terminal.

ghost use Rattle.std.specs.Prelude.{◌≡◌};

use script_core::{Failed, Source};
use std::cell::Cell;
use std::io::Write;

// The most bytes of a line that a terminal hands on, and what is said of a line with so many.
const TYPED: u64 = 4_095;

const MAYBE_CUT: &[u8] =
    b"stratbench: warning: the line has 4095 bytes, and a terminal cuts longer ones; load a file\n";

/// A source that shows a prompt before it reads the start of a line, and reads a byte at a time, so
/// that each line is answered before the next is read. A prompt that can't be shown is left out.
#[derive(Drop)]
pub struct Prompting<'a, I, W> {
    lines: I,
    screen: W,
    // Whether a group is open; the observer of the run sets it.
    in_group: &'a Cell<bool>,
    starts: bool,
    // How many bytes of the line were read.
    read: u64,
}

impl<'a, I, W> Prompting<'a, I, W> {
    /// One that reads from these lines and shows its prompts on this screen.
    pub fn new(lines: I, screen: W, in_group: &'a Cell<bool>) -> Prompting<'a, I, W>
        ensures { result.lines ≡ lines }
    {
        Prompting {
            lines,
            screen,
            in_group,
            starts: true,
            read: 0,
        }
    }
}

impl<I, W: Write> Prompting<'_, I, W> {
    fn show(&mut self, text: &[u8])
        ensures { self.new.lines ≡ self.old.lines }
    {
        let _ = self.screen.write_all(text);
    }

    fn prompt(&mut self)
        ensures { self.new.lines ≡ self.old.lines }
    {
        if self.starts {
            let in_group = self.in_group.get();
            self.show(if in_group { b">> " } else { b"> " });
        }
        self.starts = false;
    }

    fn note(&mut self, byte: u8)
        ensures { self.new.lines ≡ self.old.lines }
    {
        self.read = self.read.saturating_add(1);
        if byte != b'\n' {
            return;
        }
        if self.read == TYPED + 1 {
            self.show(MAYBE_CUT);
        }
        self.read = 0;
        self.starts = true;
    }
}

impl<I: Source, W: Write> Source for Prompting<'_, I, W> {
    ghost left = { λ p. I.left p.lines };

    ghost failed = { λ p. I.failed p.lines };

    fn read(&mut self, piece: &mut [u8]) -> Result<usize, Failed> {
        self.prompt();
        let most = piece.len().min(1);
        let given = self.lines.read(&mut piece[..most])?;
        match piece.first() {
            Some(byte) if given > 0 => self.note(*byte),
            _ => self.show(b"\n"),
        }
        Ok(given)
    }

    fn failures(&self) -> u64 {
        self.lines.failures()
    }
}
