//! Parts of a text with their place, which contracts don't see.

ghost use Rattle.std.specs.Prelude.{◌≡◌};

use crate::Place;
use std::marker::Model;

/// An item that was read from a text, and its place there. Contracts see the item alone.
#[derive(Drop)]
pub struct Placed<T: Drop> {
    item: T,
    place: Place,
}

impl<T: Drop> Model for Placed<T> {
    ghost Value = { T };

    ghost coded = { T.code };

    ghost view = { λ p. p.item };
}

impl<T: Drop> Placed<T> {
    /// The item at this place.
    pub fn new(item: T, place: Place) -> Placed<T>
        ensures { result ≡ item }
    {
        Placed { item, place }
    }

    pub fn item(&self) -> &T
        ensures { result.now ≡ self.now }
    {
        &self.item
    }

    /// Where it stands in its text.
    pub fn place(&self) -> Place {
        self.place
    }
}
