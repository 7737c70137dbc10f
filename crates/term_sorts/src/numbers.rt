//! Lists of numbers, and what is at a number of a list.

ghost use Rattle.std.specs.Prelude.{◌≡◌, ◌↔◌, ◌⊎◌, ℕ, IsTrue, OnOk, slice_get, option_copied};
ghost use Rattle.std.specs.List.{Contains};

use term_core::NoMemory;

/// Whether the number is among these.
pub(crate) fn is_among(numbers: &[usize], number: usize) -> bool
    ensures { IsTrue result ↔ Contains numbers.now number }
{
    for one in numbers {
        if *one == number {
            return true;
        }
    }
    false
}

/// Adds the others that aren't among the numbers.
pub(crate) fn add_all(numbers: &mut Vec<usize>, others: &[usize]) -> Result<(), NoMemory>
    ensures { OnOk result ((n : ℕ) →
        Contains numbers.new.items n ↔ (Contains numbers.old.items n ⊎ Contains others.now n)) }
{
    for other in others {
        if !is_among(numbers, *other) {
            numbers.push(*other)?;
        }
    }
    Ok(())
}

/// The item at the index, if there is one.
pub(crate) fn at<T>(items: &[T], index: usize) -> Option<&T>
    ensures { option_copied result ≡ slice_get items.now index }
{
    if index < items.len() {
        Some(&items[index])
    } else {
        None
    }
}
