//! Steps over one store: the logs that lead back from each, or forward again.

ghost use Rattle.std.specs.Prelude.{◌≡◌, ◌⊎◌, ◌<◌, ◌≤◌, ◌+◌, ◌-◌, ◌++◌, List, [], ◌∷◌, length, take, slice_get, vec_capacity, IfOk, IfSome, IfNone, OnOk, OnErr, Some, None, Ok, Err, IsSome, true, false, option_copied, option_map, IfErr};
ghost use Rattle.std.specs.Bool.{OnFalse};
ghost use Rattle.std.specs.Option.{option_map_or};
ghost use Rattle.std.specs.FinMap as finmap;
ghost use Rattle.std.specs.declared.option.Option.{Option};
ghost use Rattle.term_core.specs.declared.TheConstants.{MAX_ROOM};
ghost use Rattle.prim_core.specs.Signature.{Signature};
ghost use Rattle.term_changes.specs.Slots.{Store, contents, slot_of, HaveDistinctLabels};
ghost use Rattle.term_changes.specs.Compact.{IsCompact};
ghost use Rattle.term_changes.specs.Entries.{Entry, HasPlace, slot_text, before, after, FitsForward};
ghost use Rattle.term_changes.specs.PatchLaws.{patch_entries};
ghost use Rattle.session_history.specs.History.{empty_within, step_back, step_forward, undone, redone};
ghost use Rattle.session_history.specs.Acts.{begin, abandon};
ghost use Rattle.session_modules.specs.Modules.{Checks, changed_text};
ghost use Rattle.session_modules.specs.Kept.{IsCurrent, IsKept};
ghost use Rattle.session_history.specs.Unfolded.{unfolded, past_contents, later_contents, AllCompact};
ghost use Rattle.session_history.specs.Differences.{base_of};
ghost use Rattle.session_history.specs.inside.Adding.{AddsStep};
ghost use Rattle.session_history.specs.Leading.{LeadsToBase};
ghost use Rattle.session_history.specs.Moving.{KeepsHistory, Changes, Puts, Moves, Leads, Commits};

use crate::finding::{find_text, find_tree};
use crate::limits::Limits;
use change_log::{Entry, Log, Plan, Step, Store, Text};
use prim_core::{Meaning, Primitives};
use session_modules::{ModuleCache, ReadModule, Refusal};
use std::alloc::Global;
use std::marker::Model;
use std::mem;
use term_changes::Patch;
use term_core::{Label, NoMemory, Term};

/// The current contents, and the steps that lead back and forward from them.
#[derive(Drop)]
pub struct Timeline {
    store: Store,
    // The steps, the oldest first. Those before the position lead back; the others are undone and
    // lead forward.
    logs: Vec<Step>,
    position: usize,
    group: Option<OpenGroup>,
    // The changes since the open group began; empty outside a group.
    current: Log,
    limits: Limits,
}

impl Model for Timeline {
    ghost use Rattle.session_history.specs.Unfolded.{Logged};
    ghost use Rattle.session_history.specs.inside.Codes.{logged_code};

    ghost Value = { Logged };

    ghost coded = { logged_code };

    ghost use Rattle.session_history.specs.Unfolded.{IsPlaced};
    ghost use Rattle.session_history.specs.inside.View.{logged};

    ghost view = { logged };

    ghost invariant = { λ a. IsPlaced (logged a) };
}

/// An open group.
#[derive(Clone, Copy)]
pub struct OpenGroup {
    // Whether a change was accepted since it began.
    changed: bool,
}

impl Timeline {
    /// A timeline with these limits, without contents and steps. It takes no memory.
    pub fn new(alloc: Global, limits: Limits) -> Timeline
        requires { limits.max_terms ≤ MAX_ROOM }
        ensures { (ps : List Signature) → unfolded ps result ≡ empty_within limits ps }
    {
        Timeline {
            store: Store::new(alloc),
            logs: Vec::new(alloc),
            position: 0,
            group: None,
            current: Log::new(alloc),
            limits,
        }
    }

    /// The limits of terms and budgets.
    pub fn limits(&self) -> Limits
        ensures value { result ≡ self.now.limits }
        ensures room { result.max_terms ≤ MAX_ROOM }
    {
        self.limits
    }

    /// The allocator of everything kept.
    pub fn allocator(&self) -> Global {
        *self.logs.allocator()
    }

    /// The trees and module texts now.
    pub fn store(&self) -> &Store
        ensures { result.now ≡ self.now.store }
    {
        &self.store
    }

    /// The log of each step is compact. It does nothing.
    pub fn steps_are_compact(&self)
        ensures { AllCompact self.now.logs }
    {
        let _ = &self.logs;
    }

    /// The number of steps to undo.
    #[tactic(auto, using(crate::proofs::PlaceLemmas::past_count))]
    pub fn past(&self) -> usize
        ensures value { length (past_contents self.now) ≡ result }
        ensures position { result ≡ self.now.position }
    {
        self.position
    }

    /// The number of steps to redo.
    #[tactic(auto, using(crate::proofs::PlaceLemmas::later_count))]
    pub fn later(&self) -> usize
        ensures value { length (later_contents self.now) ≡ result }
        ensures rest { self.now.position + result ≡ length self.now.logs }
    {
        self.logs.len() - self.position
    }

    /// Whether the last of the steps to undo has no changes. It is false where there is no such
    /// step, and in an open group.
    pub fn last_is_empty(&self) -> bool
        ensures { result ≡ true → (0 < self.now.position) × (self.now.group ≡ None)
            × (slice_get self.now.logs (self.now.position - 1) ≡ Some []) }
    {
        if self.position == 0 || self.in_group() {
            return false;
        }
        self.logs[self.position - 1].is_empty()
    }

    /// The last of the steps to undo, if there is one. Outside a group it leads back to the contents
    /// before that step.
    pub fn newest(&self) -> Option<&Step>
        ensures base { self.now.group ≡ None → IfSome result (λ step. LeadsToBase step.now self.now) }
        ensures compact { IfSome result (λ step. IsCompact step.now) }
        ensures none { self.now.group ≡ None → IfNone result ((ps : List Signature)
            → base_of (unfolded ps self.now) ≡ Err Refusal.NoUndo) }
    {
        if self.position == 0 {
            return None;
        }
        Some(&self.logs[self.position - 1])
    }

    /// The changes of the open group, if one is open. They lead back to the contents where it began.
    pub fn group_log(&self) -> Option<&Log>
        ensures is { option_copied result ≡ option_map (λ g. self.now.current) self.now.group }
        ensures base { IfSome result (λ log. LeadsToBase log.now self.now) }
    {
        match self.group {
            Some(_) => Some(&self.current),
            None => None,
        }
    }

    /// Compacts the changes of the open group to disjoint places. They lead back to the same
    /// contents. It takes no memory.
    pub fn compact_group(&mut self)
        ensures same { KeepsHistory self.old self.new }
        ensures store { self.new.store ≡ self.old.store }
        ensures group { self.new.group ≡ self.old.group }
        ensures steps { (self.new.logs ≡ self.old.logs) × (self.new.position ≡ self.old.position) }
        ensures before { before self.new.current self.new.store ≡ before self.old.current self.old.store }
        ensures compact { IsCompact self.new.current }
    {
        self.current.compact();
    }

    /// Whether a group is open.
    pub fn in_group(&self) -> bool
        ensures inside { result ≡ true → IsSome self.now.group }
        ensures closed { result ≡ false → self.now.group ≡ None }
    {
        self.group.is_some()
    }

    /// The tree of this name, or `None` if there is none.
    pub fn tree(&self, name: &Label) -> Option<&Term>
        ensures { option_copied result ≡ finmap.get (contents self.now.store).trees name.now }
    {
        let (_, tree) = find_tree(&self.store, name)?;
        Some(tree)
    }

    /// The names of the trees, in byte order.
    pub fn tree_names(&self) -> Result<Vec<Label>, NoMemory>
        ensures { IfOk result (λ names. names.items
            ≡ finmap.keys (contents self.now.store).trees) }
    {
        self.store.tree_names(*self.logs.allocator())
    }

    /// The module text of this name, or `None` if there is none.
    pub fn module_text(&self, name: &Label) -> Option<&[u8]>
        ensures { option_copied result ≡ finmap.get (contents self.now.store).modules name.now }
    {
        let (_, text) = find_text(&self.store, name)?;
        Some(text)
    }

    /// The names of the modules, in byte order.
    pub fn module_names(&self) -> Result<Vec<Label>, NoMemory>
        ensures { IfOk result (λ names. names.items
            ≡ finmap.keys (contents self.now.store).modules) }
    {
        self.store.module_names(*self.logs.allocator())
    }

    /// The slot for the tree of this name. It is made if there is none.
    pub fn tree_slot(&mut self, name: &Label) -> Result<usize, NoMemory>
        ensures same { KeepsHistory self.old self.new }
        ensures slot { IfOk result (λ i. slot_of self.new.store.trees name.now ≡ Some i) }
        ensures within { IfOk result (λ i. i < length self.new.store.trees) }
    {
        self.store.tree_slot(name)
    }

    /// The slot for the module of this name. It is made if there is none.
    pub fn module_slot(&mut self, name: &Label) -> Result<usize, NoMemory>
        ensures same { KeepsHistory self.old self.new }
        ensures slot { IfOk result (λ i. slot_of self.new.store.modules name.now ≡ Some i) }
        ensures within { IfOk result (λ i. i < length self.new.store.modules) }
        ensures apart { HaveDistinctLabels self.new.store.modules }
        ensures group { self.new.group ≡ self.old.group }
    {
        self.store.module_slot(name)
    }

    /// Makes a change, as a step or as part of the open group. If memory can't grow, nothing
    /// changes.
    pub fn change(&mut self, entry: Entry<'_>) -> Result<(), NoMemory>
        requires { HasPlace entry self.old.store }
        ensures ok { OnOk result (Puts entry.entry self.old self.new) }
        ensures err { OnErr result (KeepsHistory self.old self.new) }
    {
        if self.in_group() {
            self.change_in_group(entry)
        } else {
            self.change_as_step(entry)
        }
    }

    pub fn change_in_group(&mut self, entry: Entry<'_>) -> Result<(), NoMemory>
        requires place { HasPlace entry self.old.store }
        requires inside { IsSome self.old.group }
        ensures ok { OnOk result (Puts entry.entry self.old self.new) }
        ensures err { OnErr result (KeepsHistory self.old self.new) }
    {
        self.current.push(&mut self.store, entry)?;
        self.group = Some(OpenGroup { changed: true });
        Ok(())
    }

    // The place in the list of steps is reserved before anything changes.
    fn change_as_step(&mut self, entry: Entry<'_>) -> Result<(), NoMemory>
        requires place { HasPlace entry self.old.store }
        requires outside { self.old.group ≡ None }
        ensures ok { OnOk result (Puts entry.entry self.old self.new) }
        ensures err { OnErr result (KeepsHistory self.old self.new) }
    {
        self.logs.reserve(1)?;
        let step = Step::make(*self.logs.allocator(), &mut self.store, entry)?;
        add(&mut self.logs, &mut self.position, step);
        Ok(())
    }

    /// Exchanges a patch in the subterm that the path leads to in a slot's tree, as a step. If
    /// memory can't grow, nothing changes.
    pub fn patch_as_step(
        &mut self,
        slot: usize,
        path: Vec<usize>,
        patch: Patch,
    ) -> Result<(), NoMemory>
        requires outside { self.old.group ≡ None }
        requires places { FitsForward (patch_entries slot path.items patch) self.old.store }
        ensures ok { OnOk result (Changes self.old self.new) }
        ensures store { OnOk result (self.new.store
            ≡ after (patch_entries slot path.items patch) self.old.store) }
        ensures err { OnErr result (KeepsHistory self.old self.new) }
    {
        self.logs.reserve(1)?;
        let step = Step::patched(&mut self.store, slot, path, patch);
        add(&mut self.logs, &mut self.position, step);
        Ok(())
    }

    /// Makes the planned changes in order, as part of the open group. If memory can't grow, nothing
    /// changes.
    pub fn plan_in_group(&mut self, plan: Plan) -> Result<(), NoMemory>
        requires inside { IsSome self.old.group }
        requires places { FitsForward plan self.old.store }
        ensures ok { OnOk result (Changes self.old self.new) }
        ensures store { OnOk result (self.new.store ≡ after plan self.old.store) }
        ensures err { OnErr result (KeepsHistory self.old self.new) }
    {
        self.current.make(&mut self.store, plan)?;
        self.group = Some(OpenGroup { changed: true });
        Ok(())
    }

    /// Puts a text into the slot of the module of this name, or none, as a step, if the checker
    /// then finds no fault in the modules. The text was read before. Else nothing changes.
    pub fn change_text<M: Meaning>(
        &mut self,
        primitives: &Primitives<M>,
        cache: &mut ModuleCache,
        name: &Label,
        slot: usize,
        text: Option<Text>,
        read: Option<ReadModule>,
    ) -> Result<(), Refusal>
        requires outside { self.old.group ≡ None }
        requires slot { slot_of self.old.store.modules name.now ≡ Some slot }
        requires text { option_map (λ r. r.0) read ≡ text }
        requires named { IfSome read (λ r. r.1.0 ≡ name.now) }
        requires kept { IsKept primitives.now (contents self.old.store).modules cache.old }
        ensures ok { OnOk result (Puts (slot_text slot text) self.old self.new) }
        ensures current { OnOk result (IsCurrent primitives.now (changed_text
            (contents self.old.store).modules name.now text) cache.new) }
        ensures refused { IfErr result (λ refusal. (refusal ≡ Refusal.Memory)
            ⊎ Checks primitives.now (changed_text (contents self.old.store).modules name.now
            text) (Err refusal)) }
        ensures err { OnErr result (KeepsHistory self.old self.new) }
        ensures kept { OnErr result (IsKept primitives.now (contents self.old.store).modules cache.new) }
    {
        let Ok(()) = self.logs.reserve(1) else {
            return Err(Refusal::Memory);
        };
        cache.replace(&self.store, primitives, name, read)?;
        let step = Step::of_text(&mut self.store, slot, text);
        add(&mut self.logs, &mut self.position, step);
        Ok(())
    }

    /// Goes one step back. Returns whether module texts may have changed.
    pub fn back(&mut self) -> bool
        requires some { 0 < self.old.position }
        requires outside { self.old.group ≡ None }
        ensures outside { self.new.group ≡ None }
        ensures position { self.new.position ≡ self.old.position - 1 }
        ensures moves { Moves step_back result self.old self.new }
    {
        self.position -= 1;
        let step = &mut self.logs[self.position];
        let has_text = step.has_text();
        step.flip_back(&mut self.store);
        has_text
    }

    /// Goes this many steps back. Returns whether module texts may have changed.
    pub fn back_by(&mut self, steps: usize) -> bool
        requires enough { steps ≤ self.old.position }
        requires outside { self.old.group ≡ None }
        ensures { Moves (undone steps) result self.old self.new }
    {
        let mut touched = false;
        let mut left = steps;
        while left > 0 {
            left -= 1;
            let has_text = self.back();
            touched = touched || has_text;
        }
        touched
    }

    /// Goes one step forward. Returns whether module texts may have changed.
    pub fn forward(&mut self) -> bool
        requires some { self.old.position < length self.old.logs }
        requires outside { self.old.group ≡ None }
        ensures outside { self.new.group ≡ None }
        ensures position { self.new.position ≡ self.old.position + 1 }
        ensures count { length self.new.logs ≡ length self.old.logs }
        ensures moves { Moves step_forward result self.old self.new }
    {
        let step = &mut self.logs[self.position];
        let has_text = step.has_text();
        step.flip_forward(&mut self.store);
        self.position += 1;
        has_text
    }

    /// Goes this many steps forward. Returns whether module texts may have changed.
    pub fn forward_by(&mut self, steps: usize) -> bool
        requires enough { self.old.position + steps ≤ length self.old.logs }
        requires outside { self.old.group ≡ None }
        ensures { Moves (redone steps) result self.old self.new }
    {
        let mut touched = false;
        let mut left = steps;
        while left > 0 {
            left -= 1;
            let has_text = self.forward();
            touched = touched || has_text;
        }
        touched
    }

    /// Opens a group. It takes no memory.
    pub fn open_group(&mut self)
        requires outside { self.old.group ≡ None }
        ensures value { Leads begin self.old self.new }
    {
        self.group = Some(OpenGroup { changed: false });
    }

    /// Makes the changes of the open group one step and closes it. If memory can't grow, nothing
    /// changes.
    pub fn close_group(&mut self) -> Result<(), NoMemory>
        requires inside { IsSome self.old.group }
        ensures ok { OnOk result (Commits self.old self.new) }
        ensures err { OnErr result (KeepsHistory self.old self.new) }
    {
        if !self.has_changed() {
            self.group = None;
            return Ok(());
        }
        self.logs.reserve(1)?;
        let log = mem::replace(&mut self.current, Log::new(*self.logs.allocator()));
        add_log(&mut self.logs, &mut self.position, log);
        self.group = None;
        Ok(())
    }

    // Whether the open group has changes.
    fn has_changed(&self) -> bool
        ensures { result ≡ option_map_or (λ g. g.changed) self.now.group false }
    {
        self.group.is_some_and(|group| group.changed)
    }

    /// Undoes the changes of the open group and closes it. Returns whether module texts may have
    /// changed. It takes no memory.
    pub fn leave_group(&mut self) -> bool
        requires inside { IsSome self.old.group }
        ensures value { Leads abandon self.old self.new }
        ensures texts { OnFalse result (self.new.store.modules ≡ self.old.store.modules) }
    {
        let has_text = self.current.has_text();
        self.current.roll_back(0, &mut self.store);
        self.group = None;
        has_text
    }
}

// Appends a step, for which there is room, at this position, and drops the undone steps.
#[inline(always)]
fn add(logs: &mut Vec<Step>, position: &mut usize, step: Step)
    requires within { position.old ≤ length logs.old.items }
    requires room { length logs.old.items < vec_capacity logs.old }
    ensures logs { logs.new.items ≡ take position.old logs.old.items ++ step ∷ [] }
    ensures position { position.new ≡ position.old + 1 }
{
    logs.truncate(*position);
    logs.push_reserved(step);
    *position += 1;
}

// Appends the step of the compacted log, as `add` does.
fn add_log(logs: &mut Vec<Step>, position: &mut usize, log: Log)
    requires within { position.old ≤ length logs.old.items }
    requires room { length logs.old.items < vec_capacity logs.old }
    ensures logs { AddsStep (take position.old logs.old.items) log logs.new.items }
    ensures position { position.new ≡ position.old + 1 }
{
    add(logs, position, Step::of(log));
}
