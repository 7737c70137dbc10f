//! Writing a whole answer.
#![tactic(auto, using(crate::proofs::WriteLemmas::known_bytes))]

ghost use Rattle.std.specs.Prelude.{◌≡◌, ◌<◌, ◌+◌, ◌^◌, ℕ, List, length, OnOk, OnErr};
ghost use Rattle.std.specs.Io.KnownBytes.{Appends};
ghost use Rattle.script_text.specs.Run.{WritesFront};

use crate::sink::Sink;
use crate::source::Failed;

/// Writes all of the bytes. After a failure a prefix of them is written and the rest is lost.
pub fn write_whole<O: Sink>(sink: &mut O, bytes: &[u8]) -> Result<(), Failed>
    requires { O.failed sink.old + 1 < 2 ^ 64 }
    ensures ok { OnOk result (Appends (O.held sink.old) (O.held sink.new) bytes.now) }
    ensures same { OnOk result (O.failed sink.new ≡ O.failed sink.old) }
    ensures err { OnErr result ((lost : List ℕ)
        × WritesFront (O.held sink.old) (O.held sink.new) bytes.now lost) }
    ensures count { OnErr result (O.failed sink.new ≡ O.failed sink.old + 1) }
{
    let mut rest = bytes;
    while !rest.is_empty() {
        let taken = sink.write(rest)?;
        rest = &rest[taken..];
    }
    Ok(())
}
