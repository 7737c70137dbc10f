//! The modules that a session checked last, while its texts change.

ghost use Rattle.std.specs.Prelude.{◌≡◌, ◌⊎◌, Some, Err, OnOk, IfErr, OnErr, IfSome, IsSome, option_copied, option_map};
ghost use Rattle.term_changes.specs.Slots.{contents};
ghost use Rattle.strategy_check.specs.Faults as faults;
ghost use Rattle.session_modules.specs.Modules as modules;
ghost use Rattle.session_modules.specs.Modules.{AreRefused, Checks, changed_text};
ghost use Rattle.session_modules.specs.Kept.{Belong, IsCurrent, IsKept, program_in};

use crate::Refusal;
use crate::checked::CheckedTexts;
use crate::reading::ReadModule;
use change_log::Store;
use prim_core::{Meaning, Primitives};
use std::alloc::Global;
use strategy_check::Program;
use term_core::Label;

/// The modules that were checked last, each with the text that it was read from. They are those of
/// the session's texts, unless these have changed since.
#[derive(Drop)]
pub struct ModuleCache {
    kept: Option<CheckedTexts>,
    // Whether the session's texts may be others.
    is_stale: bool,
    // Modules that were read in an open group and wait for its end.
    read: Vec<ReadModule>,
}

impl ModuleCache {
    /// No modules. It takes no memory.
    pub fn new(alloc: Global) -> ModuleCache
        ensures { (ps : faults.Primitives) (texts : modules.Texts) → IsKept ps texts result }
    {
        ModuleCache {
            kept: None,
            is_stale: true,
            read: Vec::new(alloc),
        }
    }

    /// Notes that texts of the session may have changed.
    pub fn note_change(&mut self)
        ensures { (ps : faults.Primitives) (old now : modules.Texts) → IsKept ps old self.old
            → IsKept ps now self.new }
    {
        self.is_stale = true;
    }

    /// Notes that a text was put in an open group, and keeps its module until the next check. If
    /// memory can't grow, the text is read again then.
    pub fn remember(&mut self, read: ReadModule)
        ensures { (ps : faults.Primitives) (old now : modules.Texts) → IsKept ps old self.old
            → IsKept ps now self.new }
    {
        self.note_change();
        let Ok(()) = self.read.push(read) else {
            return;
        };
    }

    /// The program of the modules that were checked last, or `None` if none were.
    pub fn last_program(&self) -> Option<&Program>
        ensures { option_copied result ≡ program_in self.now }
    {
        match &self.kept {
            Some(kept) => Some(kept.checked.program()),
            None => None,
        }
    }

    /// The modules that were checked last, with their texts, or `None` if none were.
    pub fn last_modules(&self) -> Option<&CheckedTexts>
        ensures value { option_copied result ≡ self.now.kept }
        ensures belong { (ps : faults.Primitives) (texts : modules.Texts) → IsKept ps texts self.now
            → IfSome result (λ kept. Belong ps kept.now) }
    {
        self.kept.as_ref()
    }

    /// The modules that were read in an open group since the last check, or some of them.
    pub fn waiting(&self) -> &[ReadModule]
        ensures { result.now ≡ self.now.read.items }
    {
        &self.read
    }

    /// The program of the checked modules.
    pub fn program(&self) -> &Program
        requires { IsSome self.now.kept }
        ensures { Some result.now ≡ program_in self.now }
    {
        match &self.kept {
            Some(kept) => kept.checked.program(),
            None => unreachable!(),
        }
    }

    /// Checks the modules of the session, unless that was done since their texts changed. The texts
    /// are compared with those that were read, and only those between the first and the last that
    /// differ are read.
    pub fn check<M: Meaning>(
        &mut self,
        store: &Store,
        primitives: &Primitives<M>,
    ) -> Result<(), Refusal>
        requires { IsKept primitives.now (contents store.now).modules self.old }
        ensures ok { OnOk result (IsCurrent primitives.now (contents store.now).modules self.new) }
        ensures refused { IfErr result (AreRefused primitives.now (contents store.now).modules) }
        ensures kept { IsKept primitives.now (contents store.now).modules self.new }
    {
        if !self.is_stale {
            return Ok(());
        }
        if self.kept.is_none() {
            self.kept = Some(CheckedTexts::new(*self.read.allocator(), primitives)?);
        }
        let checked = match &mut self.kept {
            Some(kept) => kept.renew(store, primitives, &mut self.read),
            None => unreachable!(),
        };
        match &checked {
            Ok(()) => {
                self.is_stale = false;
                self.read.clear();
            }
            Err(refusal) => self.drop_broken(refusal),
        }
        checked
    }

    /// Replaces the module of this name, or removes it, if the checker then finds no fault. Else
    /// nothing changes.
    pub fn replace<M: Meaning>(
        &mut self,
        store: &Store,
        primitives: &Primitives<M>,
        name: &Label,
        read: Option<ReadModule>,
    ) -> Result<(), Refusal>
        requires kept { IsKept primitives.now (contents store.now).modules self.old }
        requires named { IfSome read (λ r. r.1.0 ≡ name.now) }
        ensures ok { OnOk result (IsCurrent primitives.now (changed_text (contents store.now).modules
            name.now (option_map (λ r. r.0) read)) self.new) }
        ensures refused { IfErr result (λ refusal. (refusal ≡ Refusal.Memory)
            ⊎ Checks primitives.now (changed_text (contents store.now).modules name.now
            (option_map (λ r. r.0) read)) (Err refusal)) }
        ensures err { OnErr result (IsKept primitives.now (contents store.now).modules self.new) }
    {
        // The modules of a session without an open group have no fault, so only memory can be
        // missing.
        let Ok(()) = self.check(store, primitives) else {
            return Err(Refusal::Memory);
        };
        let replaced = match &mut self.kept {
            Some(kept) => kept.replace(primitives, name, read),
            None => unreachable!(),
        };
        if let Err(refusal) = &replaced {
            self.drop_broken(refusal);
        }
        replaced
    }

    // Drops modules whose change was refused, if they may not belong together any more.
    fn drop_broken(&mut self, refusal: &Refusal)
        ensures { (ps : faults.Primitives) (texts : modules.Texts)
            → (refusal.now ≡ Refusal.Memory) ⊎ IsKept ps texts self.old → IsKept ps texts self.new }
    {
        if let Refusal::Memory = refusal {
            self.kept = None;
            self.is_stale = true;
        }
    }
}
