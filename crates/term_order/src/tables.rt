//! Tables: maps from terms to terms, as balanced search trees that are terms themselves.
#![tactic(auto, using(crate::proofs::PartLemmas::term_parts))]

ghost use Rattle.std.specs.Prelude.{◌≡◌, ◌++◌, IfOk, IsTrue, map, option_map};
ghost use Rattle.term_values.specs.Seen.{seen_tree};
ghost use Rattle.term_order.specs.Tables.{balanced, entries, first_taken as first_taken_of, get, is_whole, joined, keys as keys_of, merged as merged_of, put as put_into, removed as removed_from, table_of, term_of};

use crate::order::compare;
use crate::shape::{Entry, Node, balance, is_empty, join, parts};
use std::alloc::Global;
use std::cmp::Ordering;
use term_core::NoMemory;
use term_values::{Seen, Value};

/// What a table has at a key. It takes no memory.
#[tactic(auto, using(crate::proofs::ShapeLemmas::no_nodes))]
#[cycle(value_at)]
pub fn value_at<'a, 't>(table: Seen<'a, 't>, key: Seen<'_, '_>) -> Option<Seen<'a, 't>>
    ensures { option_map seen_tree result ≡ get (seen_tree key.entry) (table_of (seen_tree table.entry)) }
{
    let root = parts(table)?;
    match compare(key, root.key) {
        Ordering::Less => value_at(root.lesser, key),
        Ordering::Equal => Some(root.value),
        Ordering::Greater => value_at(root.greater, key),
    }
}

/// The table with this value at the key, which shares with the one before. Nothing where another
/// term stands in a table's place on the way.
///
/// Errors: `NoMemory` if memory can't grow.
#[tactic(auto, using(crate::proofs::ShapeLemmas::as_term))]
pub fn put<'t>(
    alloc: Global,
    table: Seen<'_, 't>,
    key: Seen<'_, 't>,
    value: Seen<'_, 't>,
) -> Result<Option<Value<'t>>, NoMemory>
    ensures { IfOk result (λ found. found
        ≡ option_map term_of (put_into (seen_tree key.entry) (seen_tree value.entry) (table_of (seen_tree table.entry)))) }
{
    put_in(alloc, table, key, value)
}

#[tactic(auto, using(crate::proofs::ShapeLemmas::puts))]
#[cycle(put_in)]
fn put_in<'t>(
    alloc: Global,
    table: Seen<'_, 't>,
    key: Seen<'_, 't>,
    value: Seen<'_, 't>,
) -> Result<Option<Value<'t>>, NoMemory>
    ensures { IfOk result (λ found. option_map table_of found
        ≡ put_into (seen_tree key.entry) (seen_tree value.entry) (table_of (seen_tree table.entry))) }
{
    let Some(root) = parts(table) else {
        if !is_empty(table) {
            return Ok(None);
        }
        return Ok(Some(with_value(alloc, table, key, value, table)?));
    };
    match compare(key, root.key) {
        Ordering::Less => match put_in(alloc, root.lesser, key, value)? {
            Some(lesser) => Ok(Some(with_lesser(alloc, lesser, root)?)),
            None => Ok(None),
        },
        Ordering::Equal => {
            let made = with_value(alloc, root.lesser, root.key, value, root.greater)?;
            Ok(Some(made))
        }
        Ordering::Greater => match put_in(alloc, root.greater, key, value)? {
            Some(greater) => Ok(Some(with_greater(alloc, root, greater)?)),
            None => Ok(None),
        },
    }
}

// The table of these parts.
fn with_value<'t>(
    alloc: Global,
    lesser: Seen<'_, 't>,
    key: Seen<'_, 't>,
    value: Seen<'_, 't>,
    greater: Seen<'_, 't>,
) -> Result<Value<'t>, NoMemory>
    ensures { IfOk result (λ table. table_of table
        ≡ joined (table_of (seen_tree lesser.entry)) (seen_tree key.entry) (seen_tree value.entry) (table_of (seen_tree greater.entry))) }
{
    let root = Entry {
        key: key.share()?,
        value: value.share()?,
    };
    join(alloc, lesser.share()?, root, greater.share()?)
}

// The table with another one of the lesser keys.
fn with_lesser<'t>(
    alloc: Global,
    lesser: Value<'t>,
    root: Node<'_, 't>,
) -> Result<Value<'t>, NoMemory>
    ensures { IfOk result (λ table. table_of table
        ≡ balanced (table_of lesser.entry) (seen_tree root.entry.key) (seen_tree root.entry.value) (table_of (seen_tree root.entry.greater))) }
{
    balance(alloc, lesser, root.entry()?, root.greater.share()?)
}

// The table with another one of the greater keys.
fn with_greater<'t>(
    alloc: Global,
    root: Node<'_, 't>,
    greater: Value<'t>,
) -> Result<Value<'t>, NoMemory>
    ensures { IfOk result (λ table. table_of table
        ≡ balanced (table_of (seen_tree root.entry.lesser)) (seen_tree root.entry.key) (seen_tree root.entry.value) (table_of greater.entry)) }
{
    balance(alloc, root.lesser.share()?, root.entry()?, greater)
}

/// The table without the key, which shares with the one before. Nothing where another term stands in
/// a table's place on the way.
///
/// Errors: `NoMemory` if memory can't grow.
#[tactic(auto, using(crate::proofs::ShapeLemmas::as_term))]
pub fn removed<'t>(
    alloc: Global,
    table: Seen<'_, 't>,
    key: Seen<'_, '_>,
) -> Result<Option<Value<'t>>, NoMemory>
    ensures { IfOk result (λ found. found
        ≡ option_map term_of (removed_from (seen_tree key.entry) (table_of (seen_tree table.entry)))) }
{
    removed_in(alloc, table, key)
}

#[tactic(auto, using(crate::proofs::ShapeLemmas::removals))]
#[cycle(removed_in)]
fn removed_in<'t>(
    alloc: Global,
    table: Seen<'_, 't>,
    key: Seen<'_, '_>,
) -> Result<Option<Value<'t>>, NoMemory>
    ensures { IfOk result (λ found. option_map table_of found
        ≡ removed_from (seen_tree key.entry) (table_of (seen_tree table.entry))) }
{
    let Some(root) = parts(table) else {
        if !is_empty(table) {
            return Ok(None);
        }
        return Ok(Some(table.share()?));
    };
    match compare(key, root.key) {
        Ordering::Less => match removed_in(alloc, root.lesser, key)? {
            Some(lesser) => Ok(Some(with_lesser(alloc, lesser, root)?)),
            None => Ok(None),
        },
        Ordering::Equal => merged(alloc, root.lesser, root.greater),
        Ordering::Greater => match removed_in(alloc, root.greater, key)? {
            Some(greater) => Ok(Some(with_greater(alloc, root, greater)?)),
            None => Ok(None),
        },
    }
}

// The entries of two tables, those of the first before those of the second.
#[tactic(auto, using(crate::proofs::ShapeLemmas::merges))]
fn merged<'t>(
    alloc: Global,
    lesser: Seen<'_, 't>,
    greater: Seen<'_, 't>,
) -> Result<Option<Value<'t>>, NoMemory>
    ensures { IfOk result (λ found. option_map table_of found
        ≡ merged_of (table_of (seen_tree lesser.entry)) (table_of (seen_tree greater.entry))) }
{
    let lesser = lesser.share()?;
    if is_empty(greater) {
        return Ok(Some(lesser));
    }
    match first_taken(alloc, greater)? {
        Some(taken) => {
            let Taken { first, others } = taken;
            Ok(Some(balance(alloc, lesser, first, others)?))
        }
        None => Ok(None),
    }
}

// The first entry of a table and the table of the others.
#[derive(Drop)]
struct Taken<'t> {
    first: Entry<'t>,
    others: Value<'t>,
}

#[tactic(auto, using(crate::proofs::ShapeLemmas::firsts))]
#[cycle(first_taken)]
fn first_taken<'t>(alloc: Global, table: Seen<'_, 't>) -> Result<Option<Taken<'t>>, NoMemory>
    ensures { IfOk result (λ found. option_map (λ t. ((t.first.key, t.first.value), table_of t.others)) found
        ≡ first_taken_of (table_of (seen_tree table.entry))) }
{
    let Some(root) = parts(table) else {
        return Ok(None);
    };
    if is_empty(root.lesser) {
        return Ok(Some(Taken {
            first: root.entry()?,
            others: root.greater.share()?,
        }));
    }
    match first_taken(alloc, root.lesser)? {
        Some(taken) => {
            let Taken { first, others } = taken;
            let others = with_lesser(alloc, others, root)?;
            Ok(Some(Taken { first, others }))
        }
        None => Ok(None),
    }
}

/// The keys of a table in order. Nothing where another term stands in the place of a table.
///
/// Errors: `NoMemory` if memory can't grow.
pub fn keys<'t>(alloc: Global, table: Seen<'_, 't>) -> Result<Option<Vec<Value<'t>>>, NoMemory>
    ensures { IfOk result (λ found. option_map (λ all. all.items) found ≡ keys_of (table_of (seen_tree table.entry))) }
{
    let mut all = Vec::new(alloc);
    if !add_keys(table, &mut all)? {
        return Ok(None);
    }
    Ok(Some(all))
}

#[tactic(auto, using(crate::proofs::ShapeLemmas::wholes))]
#[cycle(add_keys)]
fn add_keys<'t>(table: Seen<'_, 't>, all: &mut Vec<Value<'t>>) -> Result<bool, NoMemory>
    ensures whole { IfOk result (λ whole. whole ≡ is_whole (table_of (seen_tree table.entry))) }
    ensures keys { IfOk result (λ whole. IsTrue whole
        → all.new.items ≡ all.old.items ++ map (λ e. e.0) (entries (table_of (seen_tree table.entry)))) }
{
    let Some(root) = parts(table) else {
        return Ok(is_empty(table));
    };
    if !add_keys(root.lesser, all)? {
        return Ok(false);
    }
    all.push(root.key.share()?)?;
    add_keys(root.greater, all)
}
