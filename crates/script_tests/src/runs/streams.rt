//! Readers and writers that fail in mid-stream, or are interrupted.

use super::devices::{INTERRUPTED, Narrow, Reader, UNDISTURBED, WIDE, Writer};
use super::{Outcome, ends, new_session, settings};
use prim_core::NoPrimitives;
use script_core::{Counted, Framing, RunFault, Sink, Source, run};
use session_core::Session;
use std::alloc::Global;
use std::test::Fail;

// What a run is to write, how many steps its session is to have then, and how it is to end.
#[derive(Clone, Copy)]
struct Wanted<'a> {
    written: &'a [u8],
    steps: u64,
    ended: Outcome,
}

// How a run ends, and how many failures its reader and its writer then had.
fn ended_between(
    alloc: Global,
    session: &mut Session<NoPrimitives>,
    reader: Reader<'_>,
    writer: Writer<'_>,
    stop: bool,
) -> (Outcome, u64, u64) {
    let mut source = Counted::new(reader);
    let mut sink = Counted::new(writer);
    let settings = settings(Framing::Continued, stop);
    let ended = run(alloc, session, &mut source, &mut sink, settings);
    (ended, source.failures(), sink.failures())
}

// Whether a run goes as wanted. Nothing has failed in one that ends well.
fn goes(
    alloc: Global,
    reader: Reader<'_>,
    narrow: Narrow,
    stop: bool,
    wanted: Wanted<'_>,
) -> Result<bool, Fail> {
    let mut session = new_session(alloc)?;
    let mut held = Vec::new(alloc);
    let writer = Writer {
        held: &mut held,
        narrow,
    };
    let (ended, reads, writes) = ended_between(alloc, &mut session, reader, writer, stop);
    Ok(
        ended == wanted.ended
            && held.as_slice() == wanted.written
            && session.counts().0 == wanted.steps
            && (ended.is_err() || (reads == 0 && writes == 0)),
    )
}

fn reader(rest: &[u8], most: usize, fails: bool) -> Reader<'_> {
    Reader {
        rest,
        most,
        fails,
        turns: UNDISTURBED,
    }
}

// A script, its answers, the number of its commands, and the steps of the session if its first
// answer isn't written, and if it is.
#[derive(Clone, Copy)]
struct Script<'a> {
    text: &'a [u8],
    answers: &'a [u8],
    commands: u64,
    steps: (u64, u64),
}

const JOINED: Script = Script {
    text: b"tree t f(\n  a)\n# note\n\nshow t\n",
    answers: b"ok\nf(a)\n",
    commands: 2,
    steps: (1, 1),
};

const CHANGED: Script = Script {
    text: b"tree t a\ntree t b\nshow t\n",
    answers: b"ok\nok\nb\n",
    commands: 3,
    steps: (1, 2),
};

// Every front of a script, after which the reader fails: the first command is complete once the
// first byte of the next has come.
#[test]
fn answers_complete_commands_before_a_read_fault(rt: HostRuntime) -> Result<(), Fail> {
    for k in 0..=JOINED.text.len() {
        let is_complete = k >= 24;
        let wanted = Wanted {
            written: if is_complete {
                &JOINED.answers[..3]
            } else {
                &[]
            },
            steps: if is_complete { 1 } else { 0 },
            ended: Err(RunFault::Read),
        };
        for most in [1, 4096] {
            let reader = reader(&JOINED.text[..k], most, true);
            assert!(rt; goes(rt.alloc(), reader, WIDE, false, wanted)?, "{k}");
        }
    }
    Ok(())
}

// A run that stops doesn't read on.
#[test]
fn stops_before_a_read_fault(rt: HostRuntime) -> Result<(), Fail> {
    let script = b"undo\nhistory\n".as_slice();
    let stopped = Wanted {
        written: b"refused 15 noundo\n",
        steps: 0,
        ended: ends(0, 1),
    };
    let all = reader(script, 4096, true);
    assert!(rt; goes(rt.alloc(), all, WIDE, true, stopped)?);
    let failed = Wanted {
        written: b"",
        steps: 0,
        ended: Err(RunFault::Read),
    };
    let first = reader(&script[..5], 4096, true);
    assert!(rt; goes(rt.alloc(), first, WIDE, true, failed)?);
    Ok(())
}

// Whether a run breaks off at the answer for which the writer has no room, and ends well if all
// fits.
fn breaks_off(alloc: Global, script: Script<'_>, narrow: Narrow) -> Result<bool, Fail> {
    let length = script.answers.len();
    let wanted = Wanted {
        written: &script.answers[..narrow.room.min(length)],
        steps: if narrow.room < 3 {
            script.steps.0
        } else {
            script.steps.1
        },
        ended: if narrow.room < length {
            Err(RunFault::Write)
        } else {
            ends(script.commands, 0)
        },
    };
    goes(
        alloc,
        reader(script.text, 4096, false),
        narrow,
        false,
        wanted,
    )
}

// The session is the one after the command whose answer couldn't be written whole, also if a writer
// takes a byte at a time.
#[test]
fn breaks_off_at_a_write_fault(rt: HostRuntime) -> Result<(), Fail> {
    for most in [1, 2, 4096] {
        for room in 0..9 {
            for fails in [true, false] {
                let narrow = Narrow {
                    most,
                    room,
                    fails,
                    ..WIDE
                };
                assert!(rt; breaks_off(rt.alloc(), JOINED, narrow)?, "{room}");
                assert!(rt; breaks_off(rt.alloc(), CHANGED, narrow)?, "{room}");
            }
        }
    }
    Ok(())
}

// Interrupted reads and writes are retried and don't count as failures; a flush that fails does.
#[test]
fn tries_again_and_flushes(rt: HostRuntime) -> Result<(), Fail> {
    for flush_fails in [false, true] {
        let reader = Reader {
            turns: INTERRUPTED,
            ..reader(CHANGED.text, 3, false)
        };
        let narrow = Narrow {
            flush_fails,
            turns: INTERRUPTED,
            ..WIDE
        };
        let wanted = Wanted {
            written: if flush_fails { &[] } else { CHANGED.answers },
            steps: if flush_fails { 0 } else { 2 },
            ended: if flush_fails {
                Err(RunFault::Write)
            } else {
                ends(3, 0)
            },
        };
        assert!(rt; goes(rt.alloc(), reader, narrow, false, wanted)?);
    }
    Ok(())
}
