//! Checked modules, each with the text that it was read from.

ghost use Rattle.std.specs.Prelude.{◌≡◌, ◌⊎◌, ◌≤◌, ◌<◌, ◌+◌, ◌-◌, ◌++◌, true, length, take, drop, slice_get, Some, Err, IfOk, OnOk, IfErr, IfSome, IsSome, option_copied, option_map};
ghost use Rattle.std.specs.List.{AllByRecursion};
ghost use Rattle.std.specs.FinMap as finmap;
ghost use Rattle.term_changes.specs.Slots.{contents};
ghost use Rattle.strategy_check.specs.Faults.{faults, first};
ghost use Rattle.strategy_check.specs.Checking.{IsChecked, with_modules};
ghost use Rattle.strategy_check.specs.Tables.{Modules};
ghost use Rattle.session_modules.specs.Modules as modules;
ghost use Rattle.session_modules.specs.Modules.{AreModules, AreRead, AreRefused, Checks, IsUnread, Reports, changed_text};
ghost use Rattle.session_modules.specs.Kept.{AreReadFrom, Belong};
ghost use Rattle.session_modules.specs.inside.Replaced.{AreGiven, with_module};

use crate::Refusal;
use crate::reading::{NewModules, ReadModule, module_text, read_module, take_read};
use change_log::{Store, Text};
use prim_core::{Meaning, Primitives};
use std::alloc::Global;
use std::cmp::Ordering;
use strategy_check::{Checked, NamedModule, Program};
use strategy_parse::MODULE_TOKENS;
use term_core::{Label, NoMemory};

/// Checked modules, with the text that each was read from, in the same order. Each text has a number
/// that no other text of the session had before; it stays while the module isn't replaced.
#[derive(Drop)]
pub struct CheckedTexts {
    pub(crate) checked: Checked,
    pub(crate) texts: Vec<Text>,
    // The greatest number that a text was given.
    last: u32,
}

impl CheckedTexts {
    /// No modules.
    pub(crate) fn new<M: Meaning>(
        alloc: Global,
        primitives: &Primitives<M>,
    ) -> Result<CheckedTexts, Refusal>
        ensures ok { IfOk result (Belong primitives.now) }
        ensures memory { IfErr result (λ refusal. refusal ≡ Refusal.Memory) }
    {
        match Checked::new(alloc, Vec::new(alloc), primitives) {
            Ok(checked) => Ok(CheckedTexts {
                checked,
                texts: Vec::new(alloc),
                last: 0,
            }),
            // No modules have no fault.
            Err(_) => Err(Refusal::Memory),
        }
    }

    /// The checked modules, in the order of their names.
    pub fn modules(&self) -> &[NamedModule]
        ensures { result.now ≡ self.now.checked.modules }
    {
        self.checked.modules()
    }

    /// Their program.
    pub fn program(&self) -> &Program
        ensures { result.now ≡ self.now.checked.program }
    {
        self.checked.program()
    }

    /// The text that the module of this index was read from, or `None` if there is no such module.
    pub fn text(&self, index: usize) -> Option<&[u8]>
        ensures { option_copied result ≡ slice_get self.now.texts.items index }
    {
        match self.texts.get(index) {
            Some(text) => Some(text.bytes()),
            None => None,
        }
    }

    /// The index of the module whose text has this number, as the parts of its definitions have it.
    pub fn index_of(&self, number: u32) -> Option<usize>
        ensures { IfSome result (λ index. index < length self.now.checked.modules) }
    {
        for (index, named) in self.modules().iter().enumerate() {
            if named.text() == number {
                return Some(index);
            }
        }
        None
    }

    /// Makes them the modules of the store, if the checker finds no fault in these. Of the texts
    /// between the first and the last that differ, those that weren't read before are read.
    ///
    /// After `Memory` they needn't belong together any more: drop them. Else a refusal changes
    /// nothing.
    pub(crate) fn renew<M: Meaning>(
        &mut self,
        store: &Store,
        primitives: &Primitives<M>,
        read: &mut Vec<ReadModule>,
    ) -> Result<(), Refusal>
        requires { Belong primitives.now self.old }
        ensures belong { OnOk result (Belong primitives.now self.new) }
        ensures are { OnOk result (AreModules (contents store.now).modules self.new.checked.modules) }
        ensures refused { IfErr result (AreRefused primitives.now (contents store.now).modules) }
        ensures err { IfErr result (λ refusal. (refusal ≡ Refusal.Memory) ⊎ (self.new ≡ self.old)) }
    {
        let names = store.module_names(*self.texts.allocator())?;
        let modules = self.checked.modules();
        let front = same_front(store, &names, modules, &self.texts);
        let back = same_back(store, &names, modules, &self.texts, front);
        let gone = modules.len() - back - front;
        let changed = between(&names, front, names.len() - back);
        let new = read_all(store, changed, read, self.last)?;
        self.put(primitives, front, gone, new)
    }

    /// Replaces the module of this name, or removes it, if the checker finds no fault then.
    ///
    /// After `Memory` they needn't belong together any more: drop them. Else a refusal changes
    /// nothing.
    pub(crate) fn replace<M: Meaning>(
        &mut self,
        primitives: &Primitives<M>,
        name: &Label,
        read: Option<ReadModule>,
    ) -> Result<(), Refusal>
        requires belong { Belong primitives.now self.old }
        requires named { IfSome read (λ r. r.1.0 ≡ name.now) }
        ensures belong { OnOk result (Belong primitives.now self.new) }
        ensures are { OnOk result ((texts : modules.Texts) → AreModules texts self.old.checked.modules
            → AreModules (changed_text texts name.now (option_map (λ r. r.0) read))
            self.new.checked.modules) }
        ensures refused { IfErr result (λ refusal. (refusal ≡ Refusal.Memory)
            ⊎ ((texts : modules.Texts) → AreModules texts self.old.checked.modules
            → Checks primitives.now (changed_text texts name.now (option_map (λ r. r.0) read))
            (Err refusal))) }
        ensures err { IfErr result (λ refusal. (refusal ≡ Refusal.Memory) ⊎ (self.new ≡ self.old)) }
    {
        let new = at_most_one(*self.texts.allocator(), name, read, self.last)?;
        let (at, gone) = place_among(self.checked.modules(), name);
        self.put(primitives, at, gone, new)
    }

    // Puts these modules in the places of `gone` others, from index `at` on.
    fn put<M: Meaning>(
        &mut self,
        primitives: &Primitives<M>,
        at: usize,
        gone: usize,
        new: NewModules,
    ) -> Result<(), Refusal>
        requires belong { Belong primitives.now self.old }
        requires read { AreReadFrom new.texts.items new.modules.items }
        requires within { at + gone ≤ length self.old.checked.modules }
        ensures belong { OnOk result (Belong primitives.now self.new) }
        ensures modules { OnOk result (self.new.checked.modules
            ≡ with_modules at gone new.modules.items self.old.checked.modules) }
        ensures refused { IfErr result (λ refusal. (refusal ≡ Refusal.Memory)
            ⊎ Reports (first (faults (with_modules at gone new.modules.items
            self.old.checked.modules) primitives.now)) refusal) }
        ensures err { IfErr result (λ refusal. (refusal ≡ Refusal.Memory) ⊎ (self.new ≡ self.old)) }
    {
        let NewModules {
            modules,
            texts,
            last,
        } = new;
        let alloc = *self.texts.allocator();
        match self.checked.replace(alloc, primitives, at, gone, modules) {
            Ok(()) => {
                self.last = last;
                Ok(exchange(&mut self.texts, at, gone, texts)?)
            }
            Err(fault) => Err(Refusal::from(fault)),
        }
    }
}

// The module that was read for this name, or none.
fn at_most_one(
    alloc: Global,
    name: &Label,
    read: Option<ReadModule>,
    last: u32,
) -> Result<NewModules, NoMemory>
    requires { IfSome read (λ r. r.1.0 ≡ name.now) }
    ensures given { IfOk result (λ new. AreGiven name.now (option_map (λ r. r.0) read) new.modules.items) }
    ensures read { IfOk result (λ new. AreReadFrom new.texts.items new.modules.items) }
{
    let mut new = NewModules::new(alloc, last);
    match read {
        Some(read) => new.push(read)?,
        None => {}
    }
    Ok(new)
}

// Puts these texts in the places of `gone` others, from index `at` on.
fn exchange(
    texts: &mut Vec<Text>,
    at: usize,
    gone: usize,
    mut new: Vec<Text>,
) -> Result<(), NoMemory>
    requires { at + gone ≤ length texts.old.items }
    ensures { OnOk result (texts.new.items
        ≡ take at texts.old.items ++ (new.items ++ drop (at + gone) texts.old.items)) }
{
    let mut after = texts.split_off(at + gone)?;
    texts.truncate(at);
    texts.append(&mut new)?;
    texts.append(&mut after)?;
    Ok(())
}

// How many of the first names are those of the first modules, with the texts that these were read
// from.
fn same_front(store: &Store, names: &[Label], modules: &[NamedModule], texts: &[Text]) -> usize
    requires { AreReadFrom texts.now modules.now }
    ensures names { result ≤ length names.now }
    ensures modules { result ≤ length modules.now }
    ensures read { AreRead (contents store.now).modules (take result names.now)
        (take result modules.now) }
{
    let most = names.len().min(modules.len());
    for at in 0..most {
        if !is_same(store, &names[at], &modules[at], &texts[at]) {
            return at;
        }
    }
    most
}

// How many of the last names are those of the last modules, with the texts that these were read
// from. The first ones, so many, don't count.
fn same_back(
    store: &Store,
    names: &[Label],
    modules: &[NamedModule],
    texts: &[Text],
    front: usize,
) -> usize
    requires read { AreReadFrom texts.now modules.now }
    requires in_names { front ≤ length names.now }
    requires in_modules { front ≤ length modules.now }
    ensures names { front + result ≤ length names.now }
    ensures modules { front + result ≤ length modules.now }
    ensures read { AreRead (contents store.now).modules (drop (length names.now - result) names.now)
        (drop (length modules.now - result) modules.now) }
{
    let most = names.len().min(modules.len()) - front;
    for back in 0..most {
        let name = &names[names.len() - 1 - back];
        let at = modules.len() - 1 - back;
        if !is_same(store, name, &modules[at], &texts[at]) {
            return back;
        }
    }
    most
}

// Whether this is the module of the name, and the text in the store is the one it was read from.
fn is_same(store: &Store, name: &Label, named: &NamedModule, text: &Text) -> bool
    ensures named { result ≡ true → named.now.0 ≡ name.now }
    ensures text { result ≡ true → finmap.get (contents store.now).modules name.now ≡ Some text.now }
{
    if named.name().bytes() != name.bytes() {
        return false;
    }
    match module_text(store, name) {
        Some(now) => now == text.bytes(),
        None => false,
    }
}

// The names from one index to before another.
fn between(names: &[Label], from: usize, to: usize) -> &[Label]
    requires order { from ≤ to }
    requires within { to ≤ length names.now }
    ensures { result.now ≡ take (to - from) (drop from names.now) }
{
    &names[from..to]
}

// The modules of these names, which have texts in the store.
fn read_all(
    store: &Store,
    names: &[Label],
    read: &mut Vec<ReadModule>,
    last: u32,
) -> Result<NewModules, Refusal>
    requires { AllByRecursion (λ name. IsSome (finmap.get (contents store.now).modules name)) names.now }
    ensures ok { IfOk result (λ new. AreRead (contents store.now).modules names.now new.modules.items) }
    ensures read { IfOk result (λ new. AreReadFrom new.texts.items new.modules.items) }
    ensures refused { IfErr result (λ refusal. (refusal ≡ Refusal.Memory)
        ⊎ IsUnread (contents store.now).modules refusal) }
{
    let mut new = NewModules::new(*read.allocator(), last);
    for name in names {
        let module = read_once(store, name, read)?;
        new.push(module)?;
    }
    Ok(new)
}

// The module of this name, which has a text in the store. That is read, unless it was before.
fn read_once(store: &Store, name: &Label, read: &mut Vec<ReadModule>) -> Result<ReadModule, Refusal>
    requires { IsSome (finmap.get (contents store.now).modules name.now) }
    ensures named { IfOk result (λ read. read.1.0 ≡ name.now) }
    ensures text { IfOk result (λ read. finmap.get (contents store.now).modules name.now
        ≡ Some read.0) }
    ensures refused { IfErr result (λ refusal. (refusal ≡ Refusal.Memory)
        ⊎ IsUnread (contents store.now).modules refusal) }
{
    let Some(text) = module_text(store, name) else {
        unreachable!()
    };
    match take_read(read, name, text) {
        Some(module) => Ok(module),
        None => read_module(*read.allocator(), name, text, MODULE_TOKENS),
    }
}

// Where the module of this name is, or goes: the index of the first module whose name isn't below,
// and the number of modules of the name.
fn place_among(modules: &[NamedModule], name: &Label) -> (usize, usize)
    ensures within { result.0 + result.1 ≤ length modules.now }
    ensures place { (new : Modules) → with_modules result.0 result.1 new modules.now
        ≡ with_module name.now new modules.now }
{
    let mut at = 0;
    for named in modules {
        match name.cmp(named.name()) {
            Ordering::Less => return (at, 0),
            Ordering::Equal => return (at, 1),
            Ordering::Greater => at += 1,
        }
    }
    (at, 0)
}
