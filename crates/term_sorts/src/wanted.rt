//! What places want.

/// What a place wants: a term of one sort of a signature, or of any.
#[derive(Clone, Copy, Debug, PartialEq, Eq)]
pub struct Wanted {
    pub(crate) number: Option<usize>,
}
