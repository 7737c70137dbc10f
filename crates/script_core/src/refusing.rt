//! Writing refusals.

ghost use Rattle.std.specs.Prelude.{◌≡◌, ◌≤◌, ◌++◌, ◌∷◌, [], OnOk, OnErr, true, false, codes, decimal, length};
ghost use Rattle.session_modules.specs.Refusal.{number_of};
ghost use Rattle.script_text.specs.Replies.{line, reason, refused as refused_text};
ghost use Rattle.script_text.specs.Answer.{TellsRefusal, is_fault};

use crate::buffer::Answer;
use itoa::Buffer;
use session_core::Refusal;
use strategy_check::FaultKind;
use term_core::{Name, NoMemory};

impl Answer {
    /// Replaces the answer by a refusal: `refused 5 notree` and a line feed, for example. If there
    /// is no memory for a name in it, the refusal written is the one for memory.
    pub fn refuse(&mut self, refusal: &Refusal)
        ensures { TellsRefusal self.new refusal.now }
    {
        let Err(NoMemory) = self.write_refusal(refusal) else {
            return;
        };
        self.write_short(&Refusal::Memory);
    }

    // Only a refusal that reports a fault may need memory, for the name in it.
    fn write_refusal(&mut self, refusal: &Refusal) -> Result<(), NoMemory>
        ensures ok { OnOk result (self.new ≡ line (refused_text refusal.now)) }
        ensures fault { OnErr result (is_fault refusal.now ≡ true) }
    {
        let Refusal::Check(kind, name, first, second) = refusal else {
            self.write_short(refusal);
            return Ok(());
        };
        self.write_number(refusal);
        self.append_fault(*kind, name, *first, *second)
    }

    // Writes a refusal that reports no fault. There is always room for it.
    fn write_short(&mut self, refusal: &Refusal)
        requires { is_fault refusal.now ≡ false }
        ensures { self.new ≡ line (refused_text refusal.now) }
    {
        self.write_number(refusal);
        self.append_short(refusal.word().as_bytes());
        self.append_short(b"\n");
    }

    fn write_number(&mut self, refusal: &Refusal)
        ensures text { self.new ≡ codes "refused " ++ decimal (number_of refusal.now) ++ 32 ∷ [] }
        ensures short { length self.new ≤ 64 }
    {
        let mut number = Buffer::new();
        self.clear();
        self.append_short(b"refused ");
        self.append_short(number.format(refusal.number()).as_bytes());
        self.append_short(b" ");
    }

    // Appends the description of a fault and ends the line.
    fn append_fault(
        &mut self,
        kind: FaultKind,
        name: &Name,
        first: u64,
        second: u64,
    ) -> Result<(), NoMemory>
        ensures { OnOk result (self.new ≡ self.old ++ line (reason (Refusal.Check kind name.now first second))) }
    {
        self.append(kind.word().as_bytes())?;
        self.push(b' ')?;
        self.append_name(name)?;
        self.push(b' ')?;
        self.append_number(first)?;
        self.push(b' ')?;
        self.append_number(second)?;
        self.push(b'\n')
    }
}
