//! What frames show of the focus, for an observer. Nothing is promised of it but that calls return.

use crate::frames::Walk;
use crate::stack::{First, Frames, Slot};
use std::alloc::Global;
use std::ops::Range;
use term_core::NoMemory;
use term_values::Part;

/// Where the focus is in the whole term.
#[derive(Drop)]
pub struct Spot {
    /// A list that was taken apart counts as whole: an element of its rest has the index that it
    /// has there.
    pub path: Vec<usize>,
    /// If the focus is the rest of a list, how many elements are before it, and else 0. The path is
    /// that of the list.
    pub before: usize,
}

impl<'t> Frames<'t> {
    /// Whether a failure of the focus stays within the frames: one of them has another branch or
    /// another child to go on with.
    pub fn catches(&self) -> bool {
        let mut inner = self.walks.len();
        for slot in self.slots.iter().rev() {
            match slot {
                Slot::Choose { .. } => return true,
                Slot::Those { any: true, .. } => return true,
                Slot::Leftmost { .. } | Slot::Those { .. } => {
                    inner = inner.saturating_sub(1);
                    if has_next(self.walks.get(inner)) {
                        return true;
                    }
                }
                Slot::Each { .. } | Slot::Head { .. } => inner = inner.saturating_sub(1),
                _ => {}
            }
        }
        false
    }

    /// Where the focus is.
    pub fn spot(&self, alloc: Global) -> Result<Spot, NoMemory> {
        let mut path = Vec::new(alloc);
        let mut before = 0usize;
        let mut walks = 0usize;
        for slot in &self.slots {
            match slot {
                Slot::Rest { count, .. } => before = before.saturating_add(*count),
                Slot::After { .. } => before = before.saturating_add(1),
                _ if has_walk(slot) => {
                    if let Some(walk) = self.walks.get(walks) {
                        path.push(walk.index.saturating_add(before))?;
                    }
                    walks = walks.saturating_add(1);
                    before = 0;
                }
                _ => {}
            }
        }
        Ok(Spot { path, before })
    }

    /// How many terms are around the focus: the nodes above it, and all that is below these beside
    /// it, as it is now.
    pub fn size_around(&self, alloc: Global) -> Result<u64, NoMemory> {
        let mut size = 0u64;
        for walk in &self.walks {
            size = size.saturating_add(size_beside(alloc, walk)?);
        }
        for first in &self.firsts {
            size = size.saturating_add(size_of_first(alloc, first)?);
        }
        let mut fronts = 0usize;
        for slot in &self.slots {
            if let Slot::Rest { count, .. } = slot {
                if let Some(front) = self.fronts.get(fronts) {
                    let around = size_of_children(alloc, &front.node, &front.parts, 0..*count)?;
                    size = size.saturating_add(around);
                }
                fronts = fronts.saturating_add(1);
            }
        }
        Ok(size)
    }
}

fn has_walk(slot: &Slot<'_>) -> bool {
    matches!(
        slot,
        Slot::Each { .. } | Slot::Leftmost { .. } | Slot::Those { .. } | Slot::Head { .. }
    )
}

// Whether the node of the walk has a child after the one in focus.
fn has_next(walk: Option<&Walk<'_>>) -> bool {
    match walk {
        Some(walk) => walk.index.saturating_add(1) < walk.node.child_count(),
        None => false,
    }
}

// The node of the walk and all its children but the one in focus.
fn size_beside(alloc: Global, walk: &Walk<'_>) -> Result<u64, NoMemory> {
    let count = walk.node.child_count();
    let left = size_of_children(alloc, &walk.node, &walk.parts, 0..walk.index)?;
    let after = walk.index.saturating_add(1)..count;
    let right = size_of_children(alloc, &walk.node, &walk.parts, after)?;
    Ok(left.saturating_add(right).saturating_add(1))
}

fn size_of_children(
    alloc: Global,
    node: &Part<'_>,
    parts: &[Part<'_>],
    indices: Range<usize>,
) -> Result<u64, NoMemory> {
    let mut size = 0u64;
    for index in indices {
        let child = match parts.get(index) {
            Some(part) => size_of(alloc, part)?,
            None => match node.child(index)? {
                Some(part) => size_of(alloc, &part)?,
                None => 0,
            },
        };
        size = size.saturating_add(child);
    }
    Ok(size)
}

fn size_of_first(alloc: Global, first: &First<'_>) -> Result<u64, NoMemory> {
    match &first.part {
        Some(part) => size_of(alloc, part),
        None => size_of_children(alloc, &first.node, &[], 0..1),
    }
}

fn size_of(alloc: Global, part: &Part<'_>) -> Result<u64, NoMemory> {
    Ok(part.value()?.to_term(alloc)?.size())
}
