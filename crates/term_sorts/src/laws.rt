//! Laws over definitions alone.

ghost use Rattle.term_sorts.specs.Laws.{FreeListsAndTuples, ReplacedPlacesDecide, MoreDeclareNoLess};

/// Lists and tuples that are in no constructor may hold terms of any sorts.
pub fn free_lists_and_tuples()
    ensures { FreeListsAndTuples }
{}

/// If something else is put at a place of a term that conforms, the term does so afterwards exactly if
/// that is what the place wants.
pub fn replaced_places_decide()
    ensures { ReplacedPlacesDecide }
{}

/// More declarations leave a term what it is.
pub fn more_declare_no_less()
    ensures { MoreDeclareNoLess }
{}
