//! The root of a term.

use crate::Name;

/// What a term is, apart from its children and annotations.
#[derive(Clone, Copy)]
pub enum Kind<'a> {
    /// An integer. It has no children.
    Integer(i64),
    /// A name applied to the children.
    Application(&'a Name),
    /// A list of the children.
    List,
    /// A tuple of the children.
    Tuple,
}
