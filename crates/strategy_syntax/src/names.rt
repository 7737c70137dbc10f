//! Lists of names.

ghost use Rattle.std.specs.Prelude.{◌≡◌, ◌↔◌, IsTrue};

use term_core::Name;

/// Whether the two lists are equal.
pub fn same_names(names: &[Name], others: &[Name]) -> bool
    ensures { IsTrue result ↔ (names.now ≡ others.now) }
{
    if names.len() != others.len() {
        return false;
    }
    for (name, other) in names.iter().zip(others) {
        if !name.equals(other) {
            return false;
        }
    }
    true
}
