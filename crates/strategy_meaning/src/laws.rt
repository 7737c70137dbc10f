//! Laws of what strategies do. Each is the contract of a function that does nothing.

ghost use Rattle.strategy_meaning.specs.Closed.{ClosedRunsAreTheSame};
ghost use Rattle.strategy_meaning.specs.Laws.{SameIsEqual, OneStepIsOneForm, MoreStepsGiveTheSame, MoreStepsApplyTheSame, MoreRoomGivesTheSame, MoreRoomAppliesTheSame, HeightsAreKept, AppliedKeepsHeights, EditsReplace, AppliedEditsReplace, NoEditsNoChange, IdFirst, IdLast, FailFirst, ChoiceGoesOn, WhereLeaves, TraversalsKeepAnnotations};

/// The test for equal terms is equality.
pub fn same_is_equal()
    ensures { SameIsEqual }
{}

/// With a step left, an answer is that of one line of the table.
pub fn one_step_is_one_form()
    ensures { OneStepIsOneForm }
{}

/// If the steps don't run out, more steps give the same answer.
pub fn more_steps_give_the_same()
    ensures run { MoreStepsGiveTheSame }
    ensures applied { MoreStepsApplyTheSame }
{}

/// If every built term fits, more room gives the same answer.
pub fn more_room_gives_the_same()
    ensures run { MoreRoomGivesTheSame }
    ensures applied { MoreRoomAppliesTheSame }
{}

/// A strategy that needs no cell of its caller has the same answer wherever it runs, unless a term
/// that it builds is too high there.
pub fn closed_runs_are_the_same()
    ensures { ClosedRunsAreTheSame }
{}

/// If a term isn't too high at its level, neither is the result.
pub fn heights_are_kept()
    ensures run { HeightsAreKept }
    ensures applied { AppliedKeepsHeights }
{}

/// The edits of an answer, made one after the other, lead from the old term to the new one.
pub fn edits_replace()
    ensures run { EditsReplace }
    ensures applied { AppliedEditsReplace }
    ensures none { NoEditsNoChange }
{}

/// `id` is neutral in a sequence, and `fail` ends it.
pub fn sequences()
    ensures id_first { IdFirst }
    ensures id_last { IdLast }
    ensures fail_first { FailFirst }
{}

/// If the first branch of a guard fails, or the left side of a choice, the rest starts from the
/// original term and bindings.
pub fn choices()
    ensures { ChoiceGoesOn }
{}

/// `where(s)` leaves the term unchanged.
pub fn tests()
    ensures { WhereLeaves }
{}

/// Congruences, `all`, `one`, `some` and the selection of a child keep the annotations at the root.
pub fn traversals_keep_annotations()
    ensures { TraversalsKeepAnnotations }
{}
