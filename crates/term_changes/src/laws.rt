//! Laws of changes and of patches. Each is the contract of a function that does nothing.

ghost use Rattle.term_changes.specs.EditChanges.{EditsComeTo};
ghost use Rattle.term_changes.specs.Follows.{FollowsItself, FollowsOn, FollowersCanStand, SameRootFollows, TreesOfChildren, FollowersAreTheChange, TreeOverChildren};
ghost use Rattle.term_changes.specs.Putting.{PlacesLieApart, PlacesMakeTheChange, PlacesPutTheChange, PlacesAreThere, AllLeadBack, AllFit};
ghost use Rattle.term_changes.specs.PatchLaws.{TwiceIsNothing, TakenIsThere, EitherOrder, PlacesStay, LeadsBothWays, KeepsBothWays, FitsBothWays, PatchesAreCompact};

/// The places of a change are disjoint. Setting them one by one makes the change, in a tree and in
/// any store that has the places.
pub fn places_of_changes()
    ensures apart { PlacesLieApart }
    ensures make { PlacesMakeTheChange }
    ensures put { PlacesPutTheChange }
    ensures there { PlacesAreThere }
{}

/// A log of several changes, made one after the other, takes them all back.
pub fn logs_of_changes()
    ensures back { AllLeadBack }
    ensures fit { AllFit }
{}

/// What may stand in the place of a subterm after a run.
pub fn followers()
    ensures itself { FollowsItself }
    ensures on { FollowsOn }
    ensures stand { FollowersCanStand }
    ensures root { SameRootFollows }
    ensures trees { TreesOfChildren }
    ensures change { FollowersAreTheChange }
    ensures over { TreeOverChildren }
{}

/// A sequence of edits amounts to one change.
pub fn edits()
    ensures { EditsComeTo }
{}

/// Exchanging twice changes nothing.
pub fn patches_taken_twice()
    ensures { TwiceIsNothing }
{}

/// What an exchange takes is what stands at the places, in whatever order they are set; the places
/// stay.
pub fn places_of_patches()
    ensures taken { TakenIsThere }
    ensures order { EitherOrder }
    ensures stay { PlacesStay }
{}

/// A patch in a slot's tree, as entries of a log.
pub fn entries_of_patches()
    ensures leads { LeadsBothWays }
    ensures keeps { KeepsBothWays }
    ensures fits { FitsBothWays }
    ensures compact { PatchesAreCompact }
{}
