//! Laws of undo and redo over every history, and of the logs that a session keeps.

ghost use Rattle.std.specs.Prelude.{◌≡◌};
ghost use Rattle.session_history.specs.Laws.{ChangeIsToContents, ChangeIsUndone, GroupIsUndone, RedoTakesUndoBack, UndoTakesRedoBack};
ghost use Rattle.session_history.specs.Unfolded.{unfolded, AllCompact};

use crate::Session;
use prim_core::Meaning;
use session_history::Timeline;

/// Each accepted change makes new contents; undo takes that change, or a group of changes, back,
/// and redo makes it again. Undo and redo are inverse over the same number of steps, and restore
/// the whole history.
pub fn undo_and_redo_are_inverse()
    ensures contents { ChangeIsToContents }
    ensures change { ChangeIsUndone }
    ensures group { GroupIsUndone }
    ensures redo { RedoTakesUndoBack }
    ensures undo { UndoTakesRedoBack }
{}

/// The steps that a session keeps: they unfold to its history, and the log of each is compact. So a
/// change costs only what it replaced, at disjoint places.
pub fn steps_are_compact<M: Meaning>(session: &Session<M>) -> &Timeline
    ensures history { unfolded session.now.primitives result.now ≡ session.now }
    ensures compact { AllCompact result.now.logs }
{
    let timeline = session.timeline();
    timeline.steps_are_compact();
    timeline
}
