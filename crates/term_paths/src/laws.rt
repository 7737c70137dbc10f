//! Laws over the definitions of paths and edits alone. Each is the contract of a function that does
//! nothing.

ghost use Rattle.term_paths.specs.Laws.{PuttingBack, PuttingAnnotationsBack, SetIsThere, SetAnnotationsAreThere, LastSetStays, LastAnnotationsStay, SubtermAfterAnnotations, SwappingTwiceIsNothing, SwappingAnnotationsTwiceIsNothing, AtAfter, SetAfter, SetAnnotationsAfter, ApartIsLeft, ApartIsLeftByAnnotations, ApartCommute, ApartAnnotationsCommute, ApartMixedCommute, SetAround, SetAroundAnnotations, SetInside, SetAnnotationsInside, LeadsAround, LeadsAroundAnnotations, BelowIsLeftByAnnotations, AnnotationsAndBelowCommute, AnnotationsBelowCommute, EditsMakeTheTree, EditsAfterEdits, EditsOfASubterm, EditsLeadBack, OutermostAreEnough};

/// Putting back what was there restores the tree.
pub fn putting_back()
    ensures subterm { PuttingBack }
    ensures annotations { PuttingAnnotationsBack }
{}

/// A subterm set at a path that leads to one is there afterwards.
pub fn what_was_set_is_there()
    ensures subterm { SetIsThere }
    ensures annotations { SetAnnotationsAreThere }
{}

/// Of two subterms set at one path only the last remains.
pub fn the_last_set_stays()
    ensures subterm { LastSetStays }
    ensures annotations { LastAnnotationsStay }
    ensures subterm_after_annotations { SubtermAfterAnnotations }
{}

/// Swapping twice at one path changes nothing.
pub fn swapping_twice_is_nothing()
    ensures subterm { SwappingTwiceIsNothing }
    ensures annotations { SwappingAnnotationsTwiceIsNothing }
{}

/// A concatenated path leads on from the subterm at its first part, and sets in that subterm.
pub fn one_path_after_another()
    ensures at { AtAfter }
    ensures subterm { SetAfter }
    ensures annotations { SetAnnotationsAfter }
{}

/// Setting at a path doesn't change what is at a disjoint path, and the order of the two doesn't
/// matter.
pub fn paths_apart_are_independent()
    ensures left { ApartIsLeft }
    ensures left_by_annotations { ApartIsLeftByAnnotations }
    ensures order { ApartCommute }
    ensures order_of_annotations { ApartAnnotationsCommute }
    ensures order_of_both { ApartMixedCommute }
{}

/// Setting at a path overwrites what was set within it; what is set within it afterwards can as
/// well be set in the subterm before that is put there. Whether the path leads to a subterm stays
/// the same.
pub fn one_path_within_another()
    ensures around { SetAround }
    ensures around_annotations { SetAroundAnnotations }
    ensures inside { SetInside }
    ensures annotations_inside { SetAnnotationsInside }
    ensures leads { LeadsAround }
    ensures leads_by_annotations { LeadsAroundAnnotations }
{}

/// Setting annotations doesn't change the subterms below them, and the order of the two doesn't
/// matter.
pub fn annotations_and_what_stands_below()
    ensures left { BelowIsLeftByAnnotations }
    ensures order { AnnotationsAndBelowCommute }
    ensures order_of_annotations { AnnotationsBelowCommute }
{}

/// Edits made one after the other, and the edits of a subterm, are edits of the tree.
pub fn edits_replace()
    ensures tree { EditsMakeTheTree }
    ensures more { EditsAfterEdits }
    ensures inside { EditsOfASubterm }
{}

/// Edits can be undone at the same places, the last one first.
pub fn edits_lead_back()
    ensures { EditsLeadBack }
{}

/// The outermost of the edits, each with the final subterm, make the same tree.
pub fn outermost_edits_are_enough()
    ensures { OutermostAreEnough }
{}
