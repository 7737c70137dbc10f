//! Sorts, as signatures name them.
#![tactic(auto, using(crate::proofs::SortLemmas::sort_parts))]

ghost use Rattle.std.specs.Prelude.{◌≡◌, ◌↔◌, IsTrue, IfOk};
ghost use Rattle.term_sorts.specs.Sorts.{sort, sorts_of, name_of, arguments_of, plain, tuple_sort, IsListSort, AreAlike};

use crate::words::{LIST, TUPLE, is_named, named};
use std::alloc::Global;
use std::marker::Model;
use term_core::{Name, NoMemory};

/// A sort: a name with sorts as its arguments, as `list(exp)`.
#[cycle(sort)]
pub struct Sort {
    name: Name,
    arguments: Vec<Sort>,
}

impl Model for Sort {
    ghost use Rattle.term_sorts.specs.Sorts.{Sort};
    ghost use Rattle.term_sorts.specs.inside.SortCode.{sort_code};

    ghost Value = { Sort };

    ghost coded = { sort_code };

    ghost use Rattle.std.proofs.Common.{arith};
    ghost use Rattle.term_sorts.specs.inside.SortView.{sort_of, depth, most_le-depths};

    ghost view = { sort_of };

    ghost size = { depth };

    ghost size_decreases = { λ a h. omega (arith, most_le-depths a.arguments.items) };
}

// By hand: a derived drop is proved anew in each crate that drops it.
impl Drop for Sort {
    #[cycle(sort)]
    fn drop(self) {
        let Sort {
            name: _,
            arguments: _,
        } = self;
    }
}

impl Sort {
    /// The sort of this name with these arguments. `string` and `List` are read as `str` and `list`.
    pub fn new(alloc: Global, name: Name, arguments: Vec<Sort>) -> Result<Sort, NoMemory>
        ensures { IfOk result (λ made. made ≡ sort (plain name) (sorts_of arguments.items)) }
    {
        Ok(Sort {
            name: plain_name(alloc, name)?,
            arguments,
        })
    }

    /// The sort of tuples of terms of these sorts.
    pub fn tuple(alloc: Global, parts: Vec<Sort>) -> Result<Sort, NoMemory>
        ensures { IfOk result (λ made. made ≡ tuple_sort parts.items) }
    {
        Ok(Sort {
            name: named(alloc, TUPLE)?,
            arguments: parts,
        })
    }

    pub fn name(&self) -> &Name
        ensures { result.now ≡ name_of self.now }
    {
        &self.name
    }

    pub fn arguments(&self) -> &[Sort]
        ensures { result.now ≡ arguments_of self.now }
    {
        self.arguments.as_slice()
    }

    /// Whether it is one of lists.
    pub fn is_list(&self) -> bool
        ensures { IsTrue result ↔ IsListSort self.now }
    {
        if self.arguments.len() > 1 {
            return false;
        }
        is_named(&self.name, LIST)
    }

    /// Whether it is one of tuples, of as many terms as it has arguments.
    pub fn is_tuple(&self) -> bool
        ensures { IsTrue result ↔ (self.now ≡ tuple_sort (arguments_of self.now)) }
    {
        is_named(&self.name, TUPLE)
    }

    /// Whether both are sorts of lists, or of tuples of as many terms.
    pub fn is_like(&self, other: &Sort) -> bool
        ensures { IsTrue result ↔ AreAlike self.now other.now }
    {
        if self.is_list() {
            return other.is_list();
        }
        if !self.is_tuple() || !other.is_tuple() {
            return false;
        }
        self.arguments.len() == other.arguments.len()
    }

    /// Whether the two sorts are equal.
    #[cycle(same_sort)]
    pub fn equals(&self, other: &Sort) -> bool
        ensures { IsTrue result ↔ (self.now ≡ other.now) }
    {
        self.name.equals(&other.name) && same_sorts(&self.arguments, &other.arguments)
    }

    /// An equal sort.
    #[cycle(clone_sort)]
    pub fn try_clone(&self) -> Result<Sort, NoMemory>
        ensures { IfOk result (λ made. made ≡ self.now) }
    {
        Ok(Sort {
            name: self.name.try_clone()?,
            arguments: clone_sorts(*self.arguments.allocator(), &self.arguments)?,
        })
    }
}

/// Whether the lists have equal sorts in the same order.
#[cycle(same_sort)]
pub fn same_sorts(sorts: &[Sort], others: &[Sort]) -> bool
    ensures { IsTrue result ↔ (sorts.now ≡ others.now) }
{
    if sorts.len() != others.len() {
        return false;
    }
    for (sort, other) in sorts.iter().zip(others) {
        if !sort.equals(other) {
            return false;
        }
    }
    true
}

/// Equal sorts in the same order.
#[cycle(clone_sort)]
pub fn clone_sorts(alloc: Global, sorts: &[Sort]) -> Result<Vec<Sort>, NoMemory>
    ensures { IfOk result (λ made. made.items ≡ sorts.now) }
{
    let mut made = Vec::with_capacity(alloc, sorts.len())?;
    for sort in sorts {
        made.reserve(1)?;
        made.push_reserved(sort.try_clone()?);
    }
    Ok(made)
}

fn plain_name(alloc: Global, name: Name) -> Result<Name, NoMemory>
    ensures { IfOk result (λ made. made ≡ plain name) }
{
    if is_named(&name, b"string") {
        return named(alloc, b"str");
    }
    if is_named(&name, b"List") {
        return named(alloc, b"list");
    }
    Ok(name)
}
