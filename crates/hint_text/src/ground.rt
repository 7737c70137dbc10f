//! What the commands of a session are run with.

use prim_core::{Meaning, Primitives};
use session_history::{CheckedTexts, ReadModule, Timeline};

/// What a session runs commands with: its history, the modules that were checked last, if they are
/// kept, those that were read since in an open group, and its primitives.
#[derive(Drop)]
pub struct Ground<'a, M: Meaning> {
    pub history: &'a Timeline,
    pub kept: Option<&'a CheckedTexts>,
    pub waiting: &'a [ReadModule],
    pub primitives: &'a Primitives<M>,
}
