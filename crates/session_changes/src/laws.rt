//! Laws of what a step changed. Each is the contract of a function that does nothing.

ghost use Rattle.session_changes.specs.DifferenceLaws.{DifferencesLeadBack, EqualTreesDontDiffer, DifferencesAreInOrder, EachPlaceDiffers, NothingListedIsNothingChanged};

/// What was there, put back at the places where a tree differs from the one before, gives that one;
/// equal trees don't differ; the places are in order, none within that of a subterm; what is listed
/// at each stands there and differs; and nothing is listed exactly where nothing changed.
pub fn differences_lead_back()
    ensures back { DifferencesLeadBack }
    ensures equal { EqualTreesDontDiffer }
    ensures order { DifferencesAreInOrder }
    ensures each { EachPlaceDiffers }
    ensures nothing { NothingListedIsNothingChanged }
{}
