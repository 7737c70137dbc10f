//! The cells of variables.

ghost use Rattle.std.specs.Prelude.{◌≡◌, ℕ, List, slice_get};

/// The cells of the variables of a scope.
pub trait VariableCells {
    // the cell of each variable, by its number
    ghost cells: { Self → List ℕ };

    /// The cell of a variable, if there is such a variable.
    fn cell(&self, variable: usize) -> Option<usize>
        ensures { result ≡ slice_get (cells self.now) variable };
}

/// A scope as the list of the cells of its variables.
#[derive(Clone, Copy)]
pub struct InSlice<'a> {
    pub cells: &'a [usize],
}

impl<'a> VariableCells for InSlice<'a> {
    ghost cells = { λ s. s.cells.now };

    fn cell(&self, variable: usize) -> Option<usize> {
        self.cells.get(variable).copied()
    }
}
