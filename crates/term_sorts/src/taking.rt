//! What the places that want sorts of a table take.

ghost use Rattle.std.specs.Prelude.{◌≡◌, ◌↔◌, List, length, IsTrue, IfSome, IfNone};
ghost use Rattle.std.specs.declared.option.Option.{Option};
ghost use Rattle.term_sorts.specs.Sorts.{Sort, TakeNoneAlike, list_sort, tuple_sort};
ghost use Rattle.term_sorts.specs.Signatures.{wanted_sort};
ghost use Rattle.term_sorts.specs.inside.Tables.{IsNumber};
ghost use Rattle.term_sorts.specs.inside.Wanting.{Allows, IsRowOf, ElementsAre, PartsWanted, ArePartsOf};

use crate::numbers::{at, is_among};
use crate::table::{Row, SortTable};
use crate::wanted::Wanted;

/// The sorts of the parts of a tuple.
#[derive(Clone, Copy)]
pub(crate) enum Parts<'t> {
    /// The place takes no such tuple.
    Refused,
    /// They may be of any sorts.
    Any,
    /// Those of these numbers.
    Of(&'t [usize]),
}

impl SortTable {
    // The row of the wanted sort; none where any is wanted.
    pub(crate) fn row(&self, wanted: Wanted) -> Option<&Row>
        ensures row { IsRowOf self.now wanted result }
        ensures agreed { TakeNoneAlike self.now.injections }
    {
        at(&self.rows, wanted.number?)
    }

    /// Whether terms of the sort of this number are taken.
    pub(crate) fn takes(&self, wanted: Wanted, taken: usize) -> bool
        ensures { (r : Sort) → IsNumber self.now.sorts taken r
            → IsTrue result ↔ Allows self.now.injections (wanted_sort self.now.sorts wanted) r }
    {
        match self.row(wanted) {
            Some(row) => is_among(&row.taken, taken),
            None => true,
        }
    }

    /// What a list at the place wants of its elements. None if the place takes no lists.
    pub(crate) fn elements(&self, wanted: Wanted) -> Option<Wanted>
        ensures { ElementsAre self.now.injections self.now.sorts (wanted_sort self.now.sorts wanted) result }
    {
        let Some(row) = self.row(wanted) else {
            return Some(Wanted { number: None });
        };
        for taken in &row.taken {
            if let Some(element) = self.element_of(*taken) {
                return Some(element);
            }
        }
        None
    }

    /// The sorts of the parts of a tuple of so many at the place.
    pub(crate) fn parts(&self, wanted: Wanted, count: usize) -> Parts<'_>
        ensures { PartsWanted self.now.injections self.now.sorts (wanted_sort self.now.sorts wanted) count result }
    {
        let Some(row) = self.row(wanted) else {
            return Parts::Any;
        };
        for taken in &row.taken {
            if let Some(parts) = self.parts_of(*taken, count) {
                return Parts::Of(parts);
            }
        }
        Parts::Refused
    }

    // What the sort of this number says of elements, if it is one of lists.
    fn element_of(&self, number: usize) -> Option<Wanted>
        ensures some { IfSome result (λ w. IsNumber self.now.sorts number (list_sort (wanted_sort self.now.sorts w))) }
        ensures none { IfNone result ((element : Option Sort) → IsNumber self.now.sorts number (list_sort element) → ⊥) }
    {
        let row = self.row(Wanted {
            number: Some(number),
        })?;
        if !row.sort.is_list() {
            return None;
        }
        Some(Wanted {
            number: row.arguments.first().copied(),
        })
    }

    // The sorts of the parts, if the sort of this number is one of tuples of so many.
    fn parts_of(&self, number: usize, count: usize) -> Option<&[usize]>
        ensures some { IfSome result (λ numbers. ArePartsOf self.now.sorts number count numbers.now) }
        ensures none { IfNone result ((parts : List Sort) → length parts ≡ count
            → IsNumber self.now.sorts number (tuple_sort parts) → ⊥) }
    {
        let row = self.row(Wanted {
            number: Some(number),
        })?;
        if !row.sort.is_tuple() || row.arguments.len() != count {
            return None;
        }
        Some(row.arguments.as_slice())
    }
}
