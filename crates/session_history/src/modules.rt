//! Changes of modules: what is put is read and checked first.
#![tactic(auto, using(crate::proofs::CheckLemmas::module_acts))]

ghost use Rattle.std.specs.Prelude.{◌≡◌, IfOk};
ghost use Rattle.term_changes.specs.Slots.{contents};
ghost use Rattle.session_modules.specs.Modules.{AreReadable};
ghost use Rattle.session_modules.specs.Kept.{IsKept};
ghost use Rattle.session_history.specs.Acts.{set_module, unload, commit};
ghost use Rattle.session_history.specs.Moving.{PerformsBy};

use crate::Timeline;
use crate::finding::find_text;
use change_log::{Entry, Text};
use prim_core::{Meaning, Primitives};
use session_modules::{ModuleCache, Refusal, read_module};
use std::alloc::Global;
use term_core::{Label, NoMemory};

impl Timeline {
    /// Sets the text of the module of this name. Outside a group the checker must then find no
    /// fault in the modules; in a group this check waits for its end.
    pub fn set_module<M: Meaning>(
        &mut self,
        primitives: &Primitives<M>,
        cache: &mut ModuleCache,
        name: &Label,
        text: &[u8],
    ) -> Result<(), Refusal>
        requires { IsKept primitives.now (contents self.old.store).modules cache.old }
        ensures performs { PerformsBy primitives.now (set_module name.now text.now) self.old self.new result }
        ensures kept { IsKept primitives.now (contents self.new.store).modules cache.new }
    {
        let most = self.limits().max_tokens as u64;
        let read = read_module(self.allocator(), name, text, most)?;
        let copy = copied(self.allocator(), text)?;
        let slot = self.module_slot(name)?;
        if self.in_group() {
            self.change_in_group(Entry::text(slot, Some(copy)))?;
            cache.remember(read);
            return Ok(());
        }
        self.change_text(
            primitives,
            cache,
            name,
            slot,
            Some(Text::new(copy)),
            Some(read),
        )
    }

    /// Removes the module of this name. Outside a group the checker must then find no fault in the
    /// modules that are left.
    pub fn unload<M: Meaning>(
        &mut self,
        primitives: &Primitives<M>,
        cache: &mut ModuleCache,
        name: &Label,
    ) -> Result<(), Refusal>
        requires { IsKept primitives.now (contents self.old.store).modules cache.old }
        ensures performs { PerformsBy primitives.now (unload name.now) self.old self.new result }
        ensures kept { IsKept primitives.now (contents self.new.store).modules cache.new }
    {
        let Some((slot, _)) = find_text(self.store(), name) else {
            return Err(Refusal::NoModule);
        };
        if self.in_group() {
            self.change_in_group(Entry::text(slot, None))?;
            cache.note_change();
            return Ok(());
        }
        self.change_text(primitives, cache, name, slot, None, None)
    }

    /// Makes the changes of the open group one step and closes it, if the checker finds no fault in
    /// the modules, which are kept then, even if there is no memory for the step.
    pub fn commit<M: Meaning>(
        &mut self,
        primitives: &Primitives<M>,
        cache: &mut ModuleCache,
    ) -> Result<(), Refusal>
        requires readable { AreReadable self.old.limits.max_tokens (contents self.old.store).modules }
        requires kept { IsKept primitives.now (contents self.old.store).modules cache.old }
        ensures performs { PerformsBy primitives.now commit self.old self.new result }
        ensures kept { IsKept primitives.now (contents self.new.store).modules cache.new }
    {
        if !self.in_group() {
            return Err(Refusal::NoGroup);
        }
        match cache.check(self.store(), primitives) {
            Ok(()) => Ok(self.close_group()?),
            Err(refusal) => Err(refusal),
        }
    }
}

fn copied(alloc: Global, text: &[u8]) -> Result<Vec<u8>, NoMemory>
    ensures { IfOk result (λ copy. copy.items ≡ text.now) }
{
    Ok(Vec::from_slice(alloc, text)?)
}
