//! Sessions: contents that change in steps, which can be undone and redone.

ghost use Rattle.std.specs.Prelude.{◌≡◌, ◌⊎◌, ◌≤◌, ◌++◌, vec_capacity, OnOk, OnErr, IfOk, IfErr, IfSome, Err, length, option_copied};
ghost use Rattle.std.specs.FinMap as finmap;
ghost use Rattle.term_core.specs.declared.TheConstants.{MAX_ROOM};
ghost use Rattle.session_history.specs.History.{empty_history, empty_within, HasSoundContents};
ghost use Rattle.session_history.specs.Acts.{Performs, PerformsSurely, set_tree, copy_tree, drop_tree, put, annotate, set_module, unload, apply, undo, redo, begin, commit, abandon};
ghost use Rattle.session_core.specs.Previewing.{AnswersPreview};
ghost use Rattle.session_history.specs.Differences.{base_of, TellsChanges};
ghost use Rattle.session_history.specs.Dump.{dumped, AreNamedTerms};
ghost use Rattle.session_history.specs.Unfolded.{unfolded};
ghost use Rattle.session_modules.specs.Kept.{Belong};

use crate::applying::apply_strategy;
use crate::preview::{Preview, preview_strategy};
use prim_core::{Meaning, Primitives};
use session_changes::diff;
use session_history::{CheckedTexts, Limits, ModuleCache, ReadModule, Refusal, Timeline};
use std::alloc::Global;
use std::marker::Model;
use strategy_check::Program;
use strategy_meaning::laws::heights_are_kept;
use strategy_run::Stop;
use term_core::{Label, NoMemory, Term};
use term_paths::Path;

/// Named trees and modules, with the contents from before each step and those that were undone. A
/// step is an accepted change, or a group of them. Of a change only what it replaced is kept.
#[derive(Drop)]
pub struct Session<M: Meaning> {
    primitives: Primitives<M>,
    timeline: Timeline,
    cache: ModuleCache,
    // What its runs heed.
    stop: Option<Stop>,
}

impl<M: Meaning> Model for Session<M> {
    ghost use Rattle.session_history.specs.History.{History};
    ghost use Rattle.session_history.specs.inside.Codes.{history_code};

    ghost Value = { History };

    ghost coded = { history_code };

    ghost use Rattle.session_history.specs.Unfolded.{unfolded};
    ghost use Rattle.session_core.specs.inside.Held.{IsSession};

    ghost view = { λ a. unfolded a.primitives a.timeline };

    ghost invariant = { λ a. IsSession a.primitives a.timeline a.cache };
}

impl<M: Meaning> Session<M> {
    /// A session with these primitives and the limits by default, without trees and modules, in
    /// which nothing can be undone or redone. It takes no memory.
    pub fn new(alloc: Global, primitives: Primitives<M>) -> Session<M>
        ensures { result ≡ empty_history primitives }
    {
        Session::with_limits(alloc, primitives, Limits::default())
    }

    /// The same with these limits: the greatest size of a term is at most 1,000,000,000.
    pub fn with_limits(alloc: Global, primitives: Primitives<M>, limits: Limits) -> Session<M>
        requires { limits.max_terms ≤ MAX_ROOM }
        ensures { result ≡ empty_within limits primitives }
    {
        Session {
            primitives,
            timeline: Timeline::new(alloc, limits),
            cache: ModuleCache::new(alloc),
            stop: None,
        }
    }

    /// Has runs heed this stop, in place of the one before: once it is asked for, an apply or a
    /// preview ends before its next turn. It is refused with `Memory` then, so all stays. A session
    /// that heeds none pays nothing for this.
    pub fn heed(&mut self, stop: Stop)
        ensures { self.new ≡ self.old }
    {
        self.stop = Some(stop);
    }

    /// What its runs heed, if anything.
    pub fn stop(&self) -> Option<&Stop> {
        self.stop.as_ref()
    }

    /// The limits of terms and budgets, which stay the same.
    pub fn limits(&self) -> Limits
        ensures value { result ≡ self.now.limits }
        ensures room { result.max_terms ≤ MAX_ROOM }
    {
        self.timeline.limits()
    }

    /// All contents of the session are sound, those before and after each step included. It does
    /// nothing.
    pub fn contents_are_sound(&self)
        ensures { HasSoundContents self.now }
    {
        let _ = &self.timeline;
    }

    /// The history as it is kept, to be read.
    pub fn timeline(&self) -> &Timeline
        ensures { unfolded self.now.primitives result.now ≡ self.now }
    {
        &self.timeline
    }

    /// The primitives that strategies call.
    pub fn primitives(&self) -> &Primitives<M>
        ensures { result.now ≡ self.now.primitives }
    {
        &self.primitives
    }

    /// The program of the modules that were checked last, if it is kept. After an apply or a
    /// preview that ran, these are the current modules.
    pub fn kept_program(&self) -> Option<&Program> {
        self.cache.last_program()
    }

    /// The modules that were checked last, each with the text that it was read from, if they are
    /// kept. After an apply or a preview that ran, these are the current modules.
    pub fn kept_modules(&self) -> Option<&CheckedTexts>
        ensures { IfSome result (λ kept. Belong self.now.primitives kept.now) }
    {
        self.cache.last_modules()
    }

    /// The modules that were read in an open group since the modules were checked last, or some of
    /// them, each with its text.
    pub fn waiting_modules(&self) -> &[ReadModule] {
        self.cache.waiting()
    }

    /// The tree of this name, or `None` if there is none.
    pub fn tree(&self, name: &Label) -> Option<&Term>
        ensures value { option_copied result ≡ finmap.get self.now.now.trees name.now }
    {
        self.timeline.tree(name)
    }

    /// The names of the trees, in byte order.
    pub fn tree_names(&self) -> Result<Vec<Label>, NoMemory>
        ensures names { IfOk result (λ names. names.items ≡ finmap.keys self.now.now.trees) }
    {
        self.timeline.tree_names()
    }

    /// The text of the module of this name, or `None` if there is none.
    pub fn module_text(&self, name: &Label) -> Option<&[u8]>
        ensures value { option_copied result ≡ finmap.get self.now.now.modules name.now }
    {
        self.timeline.module_text(name)
    }

    /// The names of the modules, in byte order.
    pub fn module_names(&self) -> Result<Vec<Label>, NoMemory>
        ensures names { IfOk result (λ names. names.items ≡ finmap.keys self.now.now.modules) }
    {
        self.timeline.module_names()
    }

    /// The number of steps that can be undone, and of those that can be redone: (2, 1), for
    /// example, after three changes and `undo(1)`. In a group these are the numbers from outside
    /// it.
    pub fn counts(&self) -> (u64, u64)
        ensures undo { result.0 ≡ length self.now.past }
        ensures redo { result.1 ≡ length self.now.later }
    {
        (self.timeline.past() as u64, self.timeline.later() as u64)
    }

    /// Appends a line for each tree, in byte order of the names: `tree`, the name and the tree. If
    /// there are modules, a group of commands follows that restores them, with `module`, the name
    /// and the text of each. If memory can't grow, `out` is unchanged, except that its capacity may
    /// have grown.
    ///
    /// For example, `tree t f(a)`, `begin`, `module m strategies g = id` and `commit`, a line each.
    pub fn dump(&self, out: &mut Vec<u8>) -> Result<(), NoMemory>
        ensures ok { OnOk result (out.new.items ≡ out.old.items ++ dumped self.now.now) }
        ensures terms { OnOk result (AreNamedTerms self.now.now) }
        ensures err { OnErr result (out.new.items ≡ out.old.items) }
        ensures room { vec_capacity out.old ≤ vec_capacity out.new }
    {
        self.timeline.dump(out)
    }

    /// Sets the tree of this name, whether or not it has one. That is a step, which can be undone;
    /// after it nothing can be redone. In a group it is part of the group's step. The tree has to
    /// fit at level 0, else the refusal is `Big`.
    ///
    /// A refusal leaves the session as it was, and the tree is dropped.
    #[inline(always)]
    pub fn set_tree(&mut self, name: &Label, tree: Term) -> Result<(), Refusal>
        ensures { Performs (set_tree name.now tree) self.old self.new result }
    {
        self.timeline.set_tree(name, tree)
    }

    /// Sets the tree of `copy` to a copy of the tree of `name`, whether or not `copy` has a tree,
    /// and even if the two are the same name. If there is no tree of `name`, the refusal is
    /// `NoTree`. A refusal leaves the session as it was.
    pub fn copy_tree(&mut self, name: &Label, copy: &Label) -> Result<(), Refusal>
        ensures { Performs (copy_tree name.now copy.now) self.old self.new result }
    {
        self.timeline.copy_tree(name, copy)
    }

    /// Removes the tree of this name. If there is none, the refusal is `NoTree`. A refusal leaves
    /// the session as it was.
    pub fn drop_tree(&mut self, name: &Label) -> Result<(), Refusal>
        ensures { Performs (drop_tree name.now) self.old self.new result }
    {
        self.timeline.drop_tree(name)
    }

    /// Replaces the subterm at the path of the name's tree, annotations included. If there is no
    /// such tree, the refusal is `NoTree`; if it has no subterm there, `Path`; if the term doesn't
    /// fit at the level that is the length of the path, `Big`.
    ///
    /// For example, `c` at the path `/1` of `f(a,b)` makes it `f(a,c)`.
    ///
    /// A refusal leaves the session as it was, and the term is dropped.
    pub fn put(&mut self, name: &Label, path: &Path, part: Term) -> Result<(), Refusal>
        ensures { Performs (put name.now path.now part) self.old self.new result }
    {
        self.timeline.put(name, path, part)
    }

    /// Replaces the annotations of the subterm at the path of the name's tree; an empty vector
    /// removes them. The refusals are those of `put`; each annotation has to fit one level below
    /// the subterm.
    ///
    /// For example, 1 and 2 at the path `/0` of `f(a{3})` make it `f(a{1,2})`.
    ///
    /// A refusal leaves the session as it was, and the annotations are dropped.
    pub fn annotate(
        &mut self,
        name: &Label,
        path: &Path,
        annotations: Vec<Term>,
    ) -> Result<(), Refusal>
        ensures { Performs (annotate name.now path.now annotations.items) self.old self.new result }
    {
        self.timeline.annotate(name, path, annotations)
    }

    /// Sets the text of the module of this name, whether or not it has one. That is a step, as with
    /// `set_tree`. The text has at most 4,000 tokens, else the refusal is `Deep`; it is a module,
    /// else `Syntax`. Outside a group the checker must then find no fault in all modules, else the
    /// refusal is `Check` with the first fault; in a group this check waits for `commit`.
    ///
    /// For example, `strategies f = g` is refused with `Check(Unknown, g, 0, 0)` where no module
    /// defines `g`.
    ///
    /// A refusal leaves the session as it was.
    pub fn set_module(&mut self, name: &Label, text: &[u8]) -> Result<(), Refusal>
        ensures { Performs (set_module name.now text.now) self.old self.new result }
    {
        self.timeline
            .set_module(&self.primitives, &mut self.cache, name, text)
    }

    /// Removes the module of this name. If there is none, the refusal is `NoModule`. Outside a
    /// group the checker must find no fault in the remaining modules, else the refusal is `Check`.
    /// A refusal leaves the session as it was.
    pub fn unload(&mut self, name: &Label) -> Result<(), Refusal>
        ensures { Performs (unload name.now) self.old self.new result }
    {
        self.timeline
            .unload(&self.primitives, &mut self.cache, name)
    }

    /// Replaces the subterm at the path of the name's tree by the result of a strategy, given as
    /// text, within a budget of steps. That is a step, as with `set_tree`, even if the term stays
    /// the same. The strategy may call what the current modules define; their program is cached
    /// until they change.
    ///
    /// For example, `all(!1)` at the path `/` of `f(a,b)` makes it `f(1,1)`.
    ///
    /// The refusals, in the order of their tests: `NoTree` if there is no such tree; `Path` if it
    /// has no subterm there; `Deep` if the text has more than 4,000 tokens; `Syntax` if it is no
    /// strategy; `Check` with the first fault if the checker finds one in the modules, which
    /// happens only in a group, or in the strategy. Then, as the run goes: `Fails` if the strategy
    /// fails; `Spent` if no step is left; `Big` if a term doesn't fit at its level. A refusal
    /// leaves the session as it was.
    pub fn apply(
        &mut self,
        name: &Label,
        path: &Path,
        budget: u32,
        text: &[u8],
    ) -> Result<(), Refusal>
        ensures { Performs (apply M.meaning name.now path.now budget text.now) self.old self.new result }
    {
        // Called for its contract: no tree becomes too high.
        heights_are_kept();
        apply_strategy(
            &mut self.timeline,
            &self.primitives,
            &mut self.cache,
            self.stop.as_ref(),
            name,
            path,
            budget,
            text,
        )
    }

    /// What [`Session::apply`] would replace with the same arguments: the outermost places that the
    /// strategy replaces, in their order in the tree, also where the new term is equal to the old
    /// one, and the number of steps that it takes. Nothing changes.
    ///
    /// For example, for `all(!1)` at the path `/` of `f(a,b)` these are `/0` and `/1`, with 1 for
    /// each, and 3 steps.
    ///
    /// The refusals are those of `apply`, in the same order.
    pub fn preview(
        &mut self,
        name: &Label,
        path: &Path,
        budget: u32,
        text: &[u8],
    ) -> Result<Preview, Refusal>
        ensures answers { AnswersPreview M.meaning name.now path.now budget text.now self.old result }
        ensures same { self.new ≡ self.old }
    {
        preview_strategy(
            &self.timeline,
            &self.primitives,
            &mut self.cache,
            self.stop.as_ref(),
            name,
            path,
            budget,
            text,
        )
    }

    /// Appends what the last step changed, in a group what that changed so far: `changes` and the
    /// number of lines that follow; a line for each outermost place where a tree differs in head or
    /// number of children from the one before, and one for each place where these are the same but
    /// the annotations differ, with what was there and what is there now; and one for each module
    /// that changed. Trees come before modules, each in byte order of the names. With a name these
    /// are the lines of that name. Nothing changes.
    ///
    /// For example, `changes 1` and `t/0 a => b` after `put t /0 b` over `f(a)`.
    ///
    /// The refusal is `NoUndo` if no group is open and there is no step to undo. A refusal leaves
    /// `out` as it was.
    pub fn diff(&mut self, name: Option<&Label>, out: &mut Vec<u8>) -> Result<(), Refusal>
        ensures same { self.new ≡ self.old }
        ensures ok { OnOk result (TellsChanges (option_copied name.entry) self.old out.old.items out.new.items) }
        ensures refused { IfErr result (λ refusal. (refusal ≡ Refusal.Memory) ⊎ (base_of self.old ≡ Err refusal)) }
        ensures err { OnErr result (out.new.items ≡ out.old.items) }
        ensures room { vec_capacity out.old ≤ vec_capacity out.new }
    {
        diff(&mut self.timeline, name, out)
    }

    /// Goes `n` steps back: the contents become those from before the last `n` steps; 0 changes
    /// nothing. In a group the refusal is `Group`; if there are fewer steps, `NoUndo`. A refusal
    /// leaves the session as it was. It takes no memory.
    pub fn undo(&mut self, n: u32) -> Result<(), Refusal>
        ensures { PerformsSurely (undo n) self.old self.new result }
    {
        let touched = self.timeline.undo(n)?;
        if touched {
            self.cache.note_change();
        }
        Ok(())
    }

    /// Goes `n` steps forward again after `undo`. In a group the refusal is `Group`; if fewer steps
    /// were undone since the last change, `NoRedo`. A refusal leaves the session as it was. It
    /// takes no memory.
    pub fn redo(&mut self, n: u32) -> Result<(), Refusal>
        ensures { PerformsSurely (redo n) self.old self.new result }
    {
        let touched = self.timeline.redo(n)?;
        if touched {
            self.cache.note_change();
        }
        Ok(())
    }

    /// Opens a group: all changes until `commit` are one step. If a group is open, the refusal is
    /// `Group`, and the session stays as it was. It takes no memory.
    pub fn begin(&mut self) -> Result<(), Refusal>
        ensures { PerformsSurely begin self.old self.new result }
    {
        self.timeline.begin()
    }

    /// Closes the group. Its changes are one step, and nothing can be redone after it; a group
    /// without changes is no step and leaves what can be redone. If no group is open, the refusal
    /// is `NoGroup`; if the checker finds a fault in the modules, `Check` with the first. A refusal
    /// leaves the session as it was, with the group open.
    pub fn commit(&mut self) -> Result<(), Refusal>
        ensures { Performs commit self.old self.new result }
    {
        self.timeline.commit(&self.primitives, &mut self.cache)
    }

    /// Closes the group and undoes its changes; what can be undone and redone is the same as before
    /// the group. If no group is open, the refusal is `NoGroup`, and the session stays as it was.
    /// It takes no memory.
    pub fn abandon(&mut self) -> Result<(), Refusal>
        ensures { PerformsSurely abandon self.old self.new result }
    {
        let touched = self.timeline.abandon()?;
        if touched {
            self.cache.note_change();
        }
        Ok(())
    }
}
