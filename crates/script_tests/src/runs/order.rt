//! The order of reads and flushes, as somebody sees it who types.

use super::{new_session, settings};
use script_core::{Counted, Framing, Settings, Source, run};
use std::alloc::Global;
use std::cell::Cell;
use std::io::{self, Read, Write};
use std::test::Fail;

// What a reader and a writer that belong together have recorded.
#[derive(Drop)]
struct Order {
    written: Cell<usize>,
    flushed: Cell<usize>,
    reads: Cell<usize>,
    // whether before each read the answers to all commands complete by then were flushed
    is_kept: Cell<bool>,
}

// The number of bytes of answers due before this read, if each answer has one byte: a command is
// complete with the first byte of the next.
fn due_before(read: usize) -> usize {
    match read {
        0..=9 => 0,
        10..=16 => 3,
        17..=23 => 5,
        _ => 23,
    }
}

// One byte at a time, like somebody who types.
#[derive(Drop)]
struct TypedReader<'a> {
    rest: &'a [u8],
    order: &'a Order,
    // By how many bytes a command is complete before the first byte of the next.
    early: usize,
}

impl Read for TypedReader<'_> {
    fn read(&mut self, buf: &mut [u8]) -> io::Result<usize> {
        let read = self.order.reads.get();
        if self.order.flushed.get() != due_before(read.saturating_add(self.early)) {
            self.order.is_kept.set(false);
        }
        self.order.reads.set(read.saturating_add(1));
        let Some((byte, rest)) = self.rest.split_first() else {
            return Ok(0);
        };
        let Some(first) = buf.first_mut() else {
            return Ok(0);
        };
        *first = *byte;
        self.rest = rest;
        Ok(1)
    }
}

#[derive(Drop)]
struct SeenWriter<'a> {
    order: &'a Order,
}

impl Write for SeenWriter<'_> {
    fn write(&mut self, buf: &[u8]) -> io::Result<usize> {
        self.order
            .written
            .set(self.order.written.get().saturating_add(buf.len()));
        Ok(buf.len())
    }

    fn flush(&mut self) -> io::Result<()> {
        self.order.flushed.set(self.order.written.get());
        Ok(())
    }
}

// The bytes that are written and flushed at the end, and whether the order is kept.
fn order_of(
    alloc: Global,
    script: &[u8],
    settings: Settings,
    early: usize,
) -> Result<(usize, usize, bool), Fail> {
    let mut session = new_session(alloc)?;
    let order = Order {
        written: Cell::new(0),
        flushed: Cell::new(0),
        reads: Cell::new(0),
        is_kept: Cell::new(true),
    };
    let mut source = Counted::new(TypedReader {
        rest: script,
        order: &order,
        early,
    });
    let mut sink = Counted::new(SeenWriter { order: &order });
    let outcome = run(alloc, &mut session, &mut source, &mut sink, settings);
    let is_kept = order.is_kept.get() && outcome.is_ok() && source.failures() == 0;
    Ok((order.written.get(), order.flushed.get(), is_kept))
}

// Each answer is flushed before the next read, and the last at the end. A line that is a command is
// answered when its line feed was read.
#[test]
fn flushes_before_reads(rt: HostRuntime) -> Result<(), Fail> {
    let script = b"tree t a\nshow t\nundo 2\ntrees".as_slice();
    for (settings, early) in [
        (settings(Framing::Continued, false), 0),
        (settings(Framing::Lines, false), 1),
    ] {
        let seen = order_of(rt.alloc(), script, settings, early)?;
        assert!(rt; seen == (3 + 2 + 18 + 8, 31, true));
    }
    Ok(())
}
