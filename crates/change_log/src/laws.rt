//! Laws of logs and stores, over every log and every store. Each is the contract of a function that
//! does nothing.

ghost use Rattle.term_changes.specs.Laws.{FlipsForward, FlipsBack, StoreFromAfter, StoreFromBefore, FlippedBackFits, FlippedForwardFits, PushedFits, RolledBackFits, PushedLeadsBack, RolledBackLeadsBack, FlippedBackIsCompact, FlippedForwardIsCompact, BeforeKeepsTexts, AfterKeepsTexts, NewSlotsAreEmpty, TreePut, TreeTaken, ModulePut, ModuleTaken, SubtermPut, AnnotationsPut, TreeOfName, ModuleOfName, FitsWithMore, FitsForwardWithMore, FitsWithMoreModules, FitsForwardWithMoreModules};

/// The two flips are inverse: each restores the store and the log from before the other.
pub fn flips_are_inverse()
    ensures forward { FlipsForward }
    ensures back { FlipsBack }
    ensures after { StoreFromAfter }
    ensures before { StoreFromBefore }
{}

/// A log that fits its store still fits after a push of a change at an existing place, and after
/// that change is rolled back. Flipped back it fits the store forward, and flipped forward it fits
/// it again.
pub fn logs_fit()
    ensures pushed { PushedFits }
    ensures rolled_back { RolledBackFits }
    ensures flipped_back { FlippedBackFits }
    ensures flipped_forward { FlippedForwardFits }
{}

/// A log leads back to the same store after a push, whether or not the place exists, and after a
/// part of it is rolled back.
pub fn logs_lead_back()
    ensures pushed { PushedLeadsBack }
    ensures rolled_back { RolledBackLeadsBack }
{}

/// Flips keep the places of a log: a compact log stays compact.
pub fn flips_keep_places()
    ensures back { FlippedBackIsCompact }
    ensures forward { FlippedForwardIsCompact }
{}

/// A log without module texts leads back and forward without changing those of the store. Any other
/// changes only those that it concerns, and two changes only those that either may change.
pub fn texts_stay()
    ensures back { BeforeKeepsTexts }
    ensures forward { AfterKeepsTexts }
{}

/// The contents of a store by name: new slots are empty; a put in the slot of a name is seen under
/// that name, and nothing else changes; a put at a path changes the tree there.
pub fn contents_by_name()
    ensures new_slots { NewSlotsAreEmpty }
    ensures tree_put { TreePut }
    ensures tree_taken { TreeTaken }
    ensures module_put { ModulePut }
    ensures module_taken { ModuleTaken }
    ensures subterm_put { SubtermPut }
    ensures annotations_put { AnnotationsPut }
    ensures tree { TreeOfName }
    ensures text { ModuleOfName }
{}

/// A log that fits a store also fits it with one more slot, and leads to the same store with that
/// slot.
pub fn slots_stay()
    ensures trees { FitsWithMore }
    ensures trees_forward { FitsForwardWithMore }
    ensures modules { FitsWithMoreModules }
    ensures modules_forward { FitsForwardWithMoreModules }
{}
