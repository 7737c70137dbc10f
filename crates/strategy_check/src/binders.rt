//! Where names stand that are bound together.

use strategy_syntax::{Definition, Place, Strategy};

/// What binds names that have to be distinct.
#[derive(Drop)]
pub enum Binding<'a> {
    /// `{x1,..,xn: s}`, the variables of a scope.
    Scope(&'a Strategy),
    /// The strategy parameters of a definition.
    Strategies(&'a Definition),
    /// The term parameters of a definition.
    Terms(&'a Definition),
}

impl Binding<'_> {
    /// Where the name of this index stands, or what binds it if the name stands nowhere.
    pub fn place(&self, index: usize) -> Place {
        match self {
            Binding::Scope(strategy) => known(strategy.binder_place(index), strategy.place()),
            Binding::Strategies(definition) => known(
                definition.strategy_parameter_place(index),
                definition.place(),
            ),
            Binding::Terms(definition) => {
                known(definition.term_parameter_place(index), definition.place())
            }
        }
    }
}

fn known(place: Place, whole: Place) -> Place {
    if place.is_nowhere() { whole } else { place }
}
