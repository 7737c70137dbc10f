//! The rest of a list after its first elements.

ghost use Rattle.std.specs.Prelude.{◌≡◌, ◌++◌, ◌∷◌, cond, map, take, IfOk, Some, None};
ghost use Rattle.term_core.specs.Tree.{children, with_children};
ghost use Rattle.term_changes.specs.Standing.{standing_tree};
ghost use Rattle.strategy_meaning.specs.Matching.{elements};
ghost use Rattle.strategy_meaning.specs.Meaning.{rest_of};
ghost use Rattle.strategy_machine.specs.Leading.{all_parts, parts_now};

use crate::children::child_now;
use crate::frames::drop_value;
use std::alloc::Global;
use term_core::{Kind, NoMemory};
use term_match::is_list;
use term_values::{Part, Value};

/// The children of a part after the first `count`, as a list without annotations.
#[inline(always)]
pub(crate) fn rest_of_part<'t>(
    alloc: Global,
    part: &Part<'t>,
    count: usize,
) -> Result<Value<'t>, NoMemory>
    ensures { IfOk result (λ rest. rest ≡ rest_of count (standing_tree part.now)) }
{
    if count > part.child_count() {
        return Ok(Value::leaf(Kind::List));
    }
    part.rest(alloc, count)
}

/// The value's root over these children followed by those of a list.
pub(crate) fn with_rest_after<'t>(
    alloc: Global,
    value: &Value<'t>,
    front: Vec<Value<'t>>,
    rest: &Value<'t>,
) -> Result<Value<'t>, NoMemory>
    ensures { IfOk result (λ whole. whole ≡ with_children value.now (front.entry.items ++ children rest.now)) }
{
    if is_list(value) && front.len().checked_add(rest.child_count()).is_some() {
        let list = Value::join(alloc, front, rest)?;
        return list.with_annotations_of(alloc, value);
    }
    let mut all = front;
    let mut after = rest.share_children(alloc)?;
    all.append(&mut after)?;
    value.with_children(alloc, all)
}

/// The list's root over the part of its first child followed by the children of `rest`.
#[inline(always)]
pub(crate) fn in_front<'t>(
    alloc: Global,
    list: &Part<'t>,
    first: Part<'t>,
    rest: Part<'t>,
) -> Result<Value<'t>, NoMemory>
    requires { elements (standing_tree list.now) ≡ Some (children (standing_tree list.now)) }
    ensures { IfOk result (λ whole. whole
        ≡ with_children (standing_tree list.now) (standing_tree first.entry ∷ children (standing_tree rest.entry))) }
{
    let first = first.into_value();
    let rest = rest.into_value();
    if rest.child_count() == usize::MAX {
        drop_value(rest);
        drop_value(first);
        return Err(NoMemory);
    }
    let whole = Value::cons_owned(alloc, first, rest)?;
    if list.annotation_count() == 0 {
        return Ok(whole);
    }
    match list.value() {
        Ok(list) => {
            let all = whole.with_annotations_of(alloc, &list);
            drop_value(list);
            all
        }
        Err(error) => {
            drop_value(whole);
            Err(error)
        }
    }
}

/// The parts in the places of the first `count` children, or of all if there are fewer.
pub(crate) fn first_values<'t>(
    alloc: Global,
    node: &Part<'t>,
    parts: &[Part<'t>],
    count: usize,
) -> Result<Vec<Value<'t>>, NoMemory>
    ensures { IfOk result (λ all. all.items ≡ take count (map standing_tree (parts_now node.now (all_parts node.now parts.now)))) }
{
    let mut all = Vec::new(alloc);
    'each: for i in 0..count {
        let Some(child) = child_now(node, parts, i)? else {
            return Ok(all);
        };
        all.push(child.into_value())?;
    }
    Ok(all)
}
