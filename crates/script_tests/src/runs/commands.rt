//! Single commands, without a script.

use super::new_session;
use script_core::{Answer, Piece, answer_text};
use session_core::MAX_BUDGET;
use std::alloc::Global;
use std::test::Fail;

// Whether a new session gives these answers to the first command, and to one that is too long.
fn answers(alloc: Global, command: &[u8], first: &[u8], second: &[u8]) -> Result<bool, Fail> {
    let mut session = new_session(alloc)?;
    let mut answer = Answer::new(alloc)?;
    let is_accepted = answer_text(
        alloc,
        &mut session,
        Piece::Text(command),
        MAX_BUDGET,
        &mut answer,
    );
    let is_first = is_accepted && answer.bytes() == first;
    let is_long = answer_text(alloc, &mut session, Piece::Long, MAX_BUDGET, &mut answer);
    Ok(is_first && !is_long && answer.bytes() == second)
}

#[test]
fn answers_commands(rt: HostRuntime) -> Result<(), Fail> {
    let (first, second) = (b"undo 0 redo 0\n", b"refused 3 long\n");
    assert!(rt; answers(rt.alloc(), b"history", first, second)?);
    Ok(())
}
