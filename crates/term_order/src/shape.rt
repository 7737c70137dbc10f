//! How tables are written as terms.
#![tactic(auto, using(crate::proofs::PartLemmas::term_parts))]

ghost use Rattle.std.specs.Prelude.{◌≡◌, ◌≢◌, ◌≤◌, ◌<◌, ◌^◌, ◌↔◌, ◌∷◌, [], length, IsTrue, IfOk, IfSome, IfNone, MatchOption, false};
ghost use Rattle.term_core.specs.Tree.{children, tuple_term};
ghost use Rattle.term_core.specs.Size.{size};
ghost use Rattle.term_values.specs.Seen.{seen_tree};
ghost use Rattle.term_order.specs.Tables.{balanced, is_half as half_of, joined, node, parted, table_of, turned_left, turned_right, weight as weight_of};
ghost use Rattle.term_order.specs.inside.Parts.{is_empty as is_empty_table, is_node, natural_of};

use std::alloc::Global;
use term_core::{Kind, NoMemory};
use term_values::{Elements, Seen, Value};

/// The parts of a table that isn't empty.
#[derive(Clone, Copy)]
pub(crate) struct Node<'a, 't> {
    pub(crate) count: u64,
    pub(crate) lesser: Seen<'a, 't>,
    pub(crate) key: Seen<'a, 't>,
    pub(crate) value: Seen<'a, 't>,
    pub(crate) greater: Seen<'a, 't>,
}

/// An entry of a table.
#[derive(Drop)]
pub(crate) struct Entry<'t> {
    pub(crate) key: Value<'t>,
    pub(crate) value: Value<'t>,
}

/// Whether the term is the empty table.
#[tactic(auto, using(crate::proofs::ShapeLemmas::emptiness))]
pub(crate) fn is_empty(table: Seen<'_, '_>) -> bool
    ensures { result ≡ is_empty_table (table_of (seen_tree table.entry)) }
{
    is_plain_tuple(table) && table.child(0).is_none()
}

// Whether it is a tuple without annotations.
fn is_plain_tuple(table: Seen<'_, '_>) -> bool
    ensures { IsTrue result ↔ (seen_tree table.entry ≡ tuple_term (children (seen_tree table.entry))) }
{
    matches!(table.kind(), Kind::Tuple) && table.annotations().next().is_none()
}

/// The parts of a table that isn't empty; nothing of any other term.
pub(crate) fn parts<'a, 't>(table: Seen<'a, 't>) -> Option<Node<'a, 't>>
    ensures some { IfSome result (λ n. table_of (seen_tree table.entry)
        ≡ node n.count (table_of (seen_tree n.lesser)) (seen_tree n.key) (seen_tree n.value) (table_of (seen_tree n.greater))) }
    ensures smaller { IfSome result (λ n. (size (seen_tree n.lesser) < size (seen_tree table.entry)) × (size (seen_tree n.greater) < size (seen_tree table.entry))) }
    ensures none { IfNone result (is_node (table_of (seen_tree table.entry)) ≡ false) }
{
    if !is_plain_tuple(table) {
        return None;
    }
    let five = five(table.elements())?;
    let count = natural(five.0)?;
    Some(Node {
        count,
        lesser: five.1,
        key: five.2,
        value: five.3,
        greater: five.4,
    })
}

type Five<'a, 't> = (
    Seen<'a, 't>,
    Seen<'a, 't>,
    Seen<'a, 't>,
    Seen<'a, 't>,
    Seen<'a, 't>,
);

// The terms, if they are five.
fn five<'a, 't>(terms: Elements<'a, 't>) -> Option<Five<'a, 't>>
    ensures { MatchOption result (length terms.entry ≢ 5)
        (λ p. terms.entry ≡ seen_tree p.0 ∷ seen_tree p.1 ∷ seen_tree p.2 ∷ seen_tree p.3 ∷ seen_tree p.4 ∷ []) }
{
    let mut left = terms;
    let five = (
        left.next()?,
        left.next()?,
        left.next()?,
        left.next()?,
        left.next()?,
    );
    match left.next() {
        Some(_) => None,
        None => Some(five),
    }
}

// The number that a term is, if it is a natural one without annotations.
fn natural(term: Seen<'_, '_>) -> Option<u64>
    ensures { result ≡ natural_of (seen_tree term.entry) }
{
    match term.kind() {
        Kind::Integer(value) if value >= 0 && term.annotations().next().is_none() => {
            Some(value.unsigned_abs())
        }
        _ => None,
    }
}

/// The number of entries that a table says, as far as it counts.
#[tactic(auto, using(crate::proofs::ShapeLemmas::no_nodes))]
fn weight(table: Seen<'_, '_>) -> u64
    ensures value { result ≡ weight_of (table_of (seen_tree table.entry)) }
    ensures bound { result ≤ 2 ^ 32 }
{
    match parts(table) {
        Some(root) => root.count.min(1 << 32),
        None => 0,
    }
}

impl<'a, 't> Node<'a, 't> {
    /// Its own entry.
    pub(crate) fn entry(self) -> Result<Entry<'t>, NoMemory>
        ensures key { IfOk result (λ entry. entry.key ≡ seen_tree self.entry.key) }
        ensures value { IfOk result (λ entry. entry.value ≡ seen_tree self.entry.value) }
    {
        Ok(Entry {
            key: self.key.share()?,
            value: self.value.share()?,
        })
    }
}

// The table of these parts.
fn with_count<'t>(
    alloc: Global,
    count: u64,
    lesser: Value<'t>,
    root: Entry<'t>,
    greater: Value<'t>,
) -> Result<Value<'t>, NoMemory>
    requires { count ≤ 2 ^ 40 }
    ensures { IfOk result (λ table. table_of table
        ≡ node count (table_of lesser.entry) root.entry.key root.entry.value (table_of greater.entry)) }
{
    let count = Value::leaf(Kind::Integer(count as i64));
    let Entry { key, value } = root;
    let children = vec![in alloc; count, lesser, key, value, greater]?;
    Value::build(alloc, Kind::Tuple, children)
}

/// The table of these parts.
pub(crate) fn join<'t>(
    alloc: Global,
    lesser: Value<'t>,
    root: Entry<'t>,
    greater: Value<'t>,
) -> Result<Value<'t>, NoMemory>
    ensures { IfOk result (λ table. table_of table
        ≡ joined (table_of lesser.entry) root.entry.key root.entry.value (table_of greater.entry)) }
{
    let count = weight(lesser.seen()) + weight(greater.seen()) + 1;
    with_count(alloc, count, lesser, root, greater)
}

// Two entries with three tables; the entry in the middle becomes the root.
#[tactic(auto, using(crate::proofs::ShapeLemmas::no_nodes))]
fn part<'t>(
    alloc: Global,
    low: Value<'t>,
    first: Entry<'t>,
    middle: Value<'t>,
    second: Entry<'t>,
    high: Value<'t>,
) -> Result<Value<'t>, NoMemory>
    ensures { IfOk result (λ table. table_of table
        ≡ parted (table_of low.entry) first.entry.key first.entry.value (table_of middle.entry) second.entry.key second.entry.value (table_of high.entry)) }
{
    let Some(root) = parts(middle.seen()) else {
        let lesser = join(alloc, low, first, middle)?;
        return join(alloc, lesser, second, high);
    };
    let lesser = join(alloc, low, first, root.lesser.share()?)?;
    let greater = join(alloc, root.greater.share()?, second, high)?;
    join(alloc, lesser, root.entry()?, greater)
}

// The greater table is the heavier one.
#[tactic(auto, using(crate::proofs::ShapeLemmas::no_nodes))]
fn turn_left<'t>(
    alloc: Global,
    lesser: Value<'t>,
    root: Entry<'t>,
    greater: Value<'t>,
) -> Result<Value<'t>, NoMemory>
    ensures { IfOk result (λ table. table_of table
        ≡ turned_left (table_of lesser.entry) root.entry.key root.entry.value (table_of greater.entry)) }
{
    let Some(heavy) = parts(greater.seen()) else {
        return join(alloc, lesser, root, greater);
    };
    let middle = heavy.lesser.share()?;
    let second = heavy.entry()?;
    let high = heavy.greater.share()?;
    if is_half(heavy.greater, heavy.lesser) {
        return part(alloc, lesser, root, middle, second, high);
    }
    join(alloc, join(alloc, lesser, root, middle)?, second, high)
}

// The lesser table is the heavier one.
#[tactic(auto, using(crate::proofs::ShapeLemmas::no_nodes))]
fn turn_right<'t>(
    alloc: Global,
    lesser: Value<'t>,
    root: Entry<'t>,
    greater: Value<'t>,
) -> Result<Value<'t>, NoMemory>
    ensures { IfOk result (λ table. table_of table
        ≡ turned_right (table_of lesser.entry) root.entry.key root.entry.value (table_of greater.entry)) }
{
    let Some(heavy) = parts(lesser.seen()) else {
        return join(alloc, lesser, root, greater);
    };
    let low = heavy.lesser.share()?;
    let first = heavy.entry()?;
    let middle = heavy.greater.share()?;
    if is_half(heavy.lesser, heavy.greater) {
        return part(alloc, low, first, middle, root, greater);
    }
    join(alloc, low, first, join(alloc, middle, root, greater)?)
}

// Whether the first table has at most half the weight of the second one, with one added to each.
fn is_half(table: Seen<'_, '_>, other: Seen<'_, '_>) -> bool
    ensures { result ≡ half_of (table_of (seen_tree table.entry)) (table_of (seen_tree other.entry)) }
{
    (weight(table) + 1) * 2 < weight(other) + 2
}

/// The table of these parts, turned if one of the two is much heavier.
pub(crate) fn balance<'t>(
    alloc: Global,
    lesser: Value<'t>,
    root: Entry<'t>,
    greater: Value<'t>,
) -> Result<Value<'t>, NoMemory>
    ensures { IfOk result (λ table. table_of table
        ≡ balanced (table_of lesser.entry) root.entry.key root.entry.value (table_of greater.entry)) }
{
    let low = weight(lesser.seen());
    let high = weight(greater.seen());
    if (low + 1) * 3 < high + 1 {
        return turn_left(alloc, lesser, root, greater);
    }
    if (high + 1) * 3 < low + 1 {
        return turn_right(alloc, lesser, root, greater);
    }
    with_count(alloc, low + high + 1, lesser, root, greater)
}
