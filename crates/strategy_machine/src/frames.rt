//! Frames, which wait for an answer, and what to do next.

ghost use Rattle.std.specs.Prelude.{◌≡◌};

use strategy_syntax::ResolvedStrategy;
use term_match::Mark;
use term_values::{Part, Value};

/// The strategies for the children from some index on.
#[derive(Clone, Copy)]
pub enum Acts<'t> {
    /// The same strategy for each child.
    Same(&'t ResolvedStrategy),
    /// One strategy for each child.
    List(&'t [ResolvedStrategy]),
}

/// A node whose child is the focus.
#[derive(Drop)]
pub struct Walk<'t> {
    pub node: Part<'t>,
    /// While children are visited, only the prefix up to the last changed child is held here.
    pub parts: Vec<Part<'t>>,
    /// The index of the child.
    pub index: usize,
    /// The level of the node.
    pub level: u64,
    /// How many edits there were when the child's turn came.
    pub edits: usize,
}

/// Continuations: each waits for the answer of the focus. Scopes are indices into the table; a
/// count of edits is the one from when the frame was made. Contracts speak of frames; the machine
/// keeps each as a slot, with what is large beside it.
#[derive(Drop)]
pub enum Frame<'t> {
    /// The second strategy of a sequence.
    Then {
        strategy: &'t ResolvedStrategy,
        scope: usize,
    },
    /// The other two branches of a guarded choice, with the focus at the start, and the mark of the
    /// cells.
    Choose {
        then: &'t ResolvedStrategy,
        otherwise: &'t ResolvedStrategy,
        scope: usize,
        start: Part<'t>,
        edits: usize,
        mark: Mark,
    },
    /// The focus that a test goes back to.
    Restore {
        start: Part<'t>,
        edits: usize,
    },
    /// Strategies for the children after this one: of `all`, a congruence or a selected child.
    Each {
        acts: Acts<'t>,
        scope: usize,
        walk: Walk<'t>,
    },
    /// The strategy of `one`: after a failure the next child's turn comes, with the cells of the
    /// mark.
    Leftmost {
        strategy: &'t ResolvedStrategy,
        scope: usize,
        walk: Walk<'t>,
        mark: Mark,
    },
    /// The strategy of `some`, and whether it has succeeded on any child.
    Those {
        strategy: &'t ResolvedStrategy,
        scope: usize,
        walk: Walk<'t>,
        mark: Mark,
        any: bool,
    },
    /// The strategy for the list of the elements after the first `count`.
    Tail {
        tail: &'t ResolvedStrategy,
        scope: usize,
        count: usize,
    },
    /// A list whose elements after the first `count` are the focus, as a list of their own, with
    /// the parts in the places of the first elements.
    Rest {
        node: Part<'t>,
        parts: Vec<Part<'t>>,
        count: usize,
        edits: usize,
    },
    /// The strategy for the list of the elements after the first, which is the focus.
    Head {
        tail: &'t ResolvedStrategy,
        scope: usize,
        walk: Walk<'t>,
    },
    /// A list whose elements after the first are the focus, as a list of their own, with the part
    /// in the place of the first if that has changed.
    After {
        node: Part<'t>,
        first: Option<Part<'t>>,
        edits: usize,
    },
    /// End all scopes but the first ones.
    Leave {
        scopes: usize,
    },
    /// End all cells and scopes but the first ones.
    Cut {
        cells: usize,
        scopes: usize,
    },
}

/// What to do next with the focus.
#[derive(Clone, Copy)]
pub enum Next<'t> {
    /// Start this strategy, in this scope.
    Begin(&'t ResolvedStrategy, usize),
    /// A strategy succeeded with it.
    Done,
    /// A strategy failed.
    Failed,
}

/// The outcome of a turn.
#[derive(Clone, Copy, Drop)]
pub enum Turned {
    On,
    Done,
    Failed,
    Spent,
    Big,
}

// Small functions drop what owns memory: a drop is proved again at each place that has one, and
// each way out of a function is such a place for everything it holds.

#[inline(always)]
pub(crate) fn drop_value(value: Value<'_>) {}

#[inline(always)]
pub(crate) fn drop_part(part: Part<'_>) {}

#[inline(always)]
pub(crate) fn drop_changed(part: Option<Part<'_>>) {}

#[inline(always)]
pub(crate) fn drop_parts(parts: Vec<Part<'_>>) {}

#[inline(always)]
pub(crate) fn drop_walk(walk: Walk<'_>) {
    let Walk { node, parts, .. } = walk;
    drop_parts(parts);
    drop_part(node);
}

/// Replaces a part, and drops the old one here.
#[inline(always)]
pub(crate) fn put<'t>(place: &mut Part<'t>, part: Part<'t>)
    ensures { place.new ≡ part.entry }
{
    *place = part;
}

/// Replaces parts, and drops the old ones here.
#[inline(always)]
pub(crate) fn put_parts<'t>(place: &mut Vec<Part<'t>>, parts: Vec<Part<'t>>)
    ensures { place.new ≡ parts.entry }
{
    *place = parts;
}
