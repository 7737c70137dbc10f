//! Names without duplicates.
#![tactic(auto)]

ghost use Rattle.std.specs.Prelude.{◌≡◌, IfOk};
ghost use Rattle.strategy_syntax.specs.Lists.{first_ones};
ghost use Rattle.term_core.specs.Tree.{same_name};

use crate::parser::lists::ItemList;
use std::alloc::Global;
use std::collections::HashSet;
use term_core::{Name, NoMemory};

/// Each of the names once, at its first occurrence, without the others. It takes linear time.
pub fn first_ones(
    alloc: Global,
    names: &[Name],
    others: &[Name],
) -> Result<ItemList<Name>, NoMemory>
    ensures { IfOk result (λ kept. kept ≡ first_ones same_name others.now names.now) }
{
    let mut seen = HashSet::new(alloc);
    for other in others {
        seen.insert(other)?;
    }
    let mut kept = ItemList::new(alloc);
    for name in names {
        if seen.insert(name)? {
            kept = kept.with(name.try_clone()?)?;
        }
    }
    Ok(kept)
}
