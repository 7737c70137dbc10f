//! Seeing what a run does.

use prim_core::Meaning;
use script_text::Piece;
use session_core::{Refusal, Session};

/// Sees what a run reads, and how it answers. It changes nothing of the run: a session is lent for
/// reading, and the contract of `run_watched` holds with any observer.
pub trait Watch<M: Meaning> {
    /// Called with each run of the script's bytes, in order. A run ends with the byte that
    /// completes a command, or with the last one that was read; the run that completes a command
    /// comes before its `expected`.
    fn consumed(&mut self, bytes: &[u8]);

    /// Called with each command before it is answered, and the session as it is then.
    fn expected(&mut self, session: &Session<M>, command: Piece<'_>);

    /// Called with each command that was accepted, and the session after it.
    fn accepted(&mut self, session: &Session<M>, command: Piece<'_>);

    /// Called with each command that was refused, and the session, which is as it was before it.
    fn refused(&mut self, session: &Session<M>, command: Piece<'_>, refusal: &Refusal);
}

/// Sees nothing.
#[derive(Drop)]
pub struct Unwatched;

impl<M: Meaning> Watch<M> for Unwatched {
    #[inline(always)]
    fn consumed(&mut self, _bytes: &[u8]) {}

    #[inline(always)]
    fn expected(&mut self, _session: &Session<M>, _command: Piece<'_>) {}

    #[inline(always)]
    fn accepted(&mut self, _session: &Session<M>, _command: Piece<'_>) {}

    #[inline(always)]
    fn refused(&mut self, _session: &Session<M>, _command: Piece<'_>, _refusal: &Refusal) {}
}
