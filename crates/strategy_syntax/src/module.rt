//! Modules: what they declare, and their definitions.

ghost use Rattle.std.specs.Prelude.{◌≡◌, ◌↔◌, ◌<◌, length, IfSome, IsTrue};

use crate::names::same_names;
use crate::{Place, Placed, Strategy};
use std::marker::Model;
use term_core::Name;
use term_sorts::{Declaration, Injection};

/// A constructor that a signature declares, with the number of its arguments.
#[derive(PartialEq, Eq, Hash)]
pub struct Constructor {
    name: Name,
    arity: usize,
}

impl Model for Constructor {
    ghost use Rattle.strategy_syntax.specs.Modules.{Constructor};
    ghost use Rattle.strategy_syntax.specs.inside.ModuleCodes.{constructor_code};

    ghost Value = { Constructor };

    ghost coded = { constructor_code };

    ghost view = { λ c. record { name = c.name; arity = c.arity } };

    ghost inverse = { λ c. record { name = c.name; arity = c.arity } };
}

// By hand: a derived drop is proved anew in each crate that drops it.
impl Drop for Constructor {
    fn drop(self) {
        let Constructor { name: _, arity: _ } = self;
    }
}

/// A definition `f(s1,..,sn|x1,..,xm) = s`. A rule is one too, with its body in core forms.
pub struct Definition {
    name: Name,
    strategy_parameters: Vec<Name>,
    term_parameters: Vec<Name>,
    body: Strategy,
    // Where it stands in its text. Contracts don't see it.
    place: Place,
}

impl Model for Definition {
    ghost use Rattle.strategy_syntax.specs.Modules.{Definition};
    ghost use Rattle.strategy_syntax.specs.inside.ModuleCodes.{definition_code};

    ghost Value = { Definition };

    ghost coded = { definition_code };

    ghost view = { λ d. record {
      name = d.name;
      strategy_parameters = d.strategy_parameters.items;
      term_parameters = d.term_parameters.items;
      body = d.body;
    } };
}

// By hand: a derived drop is proved anew in each crate that drops it.
impl Drop for Definition {
    fn drop(self) {
        let Definition {
            name: _,
            strategy_parameters: _,
            term_parameters: _,
            body: _,
            place: _,
        } = self;
    }
}

/// The declarations and definitions of a module, in the order of its text.
pub struct Module {
    constructors: Vec<Placed<Constructor>>,
    declarations: Vec<Declaration>,
    injections: Vec<Injection>,
    definitions: Vec<Definition>,
}

impl Model for Module {
    ghost use Rattle.strategy_syntax.specs.Modules.{Module};
    ghost use Rattle.strategy_syntax.specs.inside.ModuleCodes.{module_code};

    ghost Value = { Module };

    ghost coded = { module_code };

    ghost view = { λ m. record {
      constructors = m.constructors.items;
      declarations = m.declarations.items;
      injections = m.injections.items;
      definitions = m.definitions.items;
    } };
}

// By hand: a derived drop is proved anew in each crate that drops it.
impl Drop for Module {
    fn drop(self) {
        let Module {
            constructors: _,
            declarations: _,
            injections: _,
            definitions: _,
        } = self;
    }
}

impl Constructor {
    /// The constructor with this name and number of arguments.
    pub fn new(name: Name, arity: usize) -> Constructor
        ensures { result ≡ record { name = name; arity = arity } }
    {
        Constructor { name, arity }
    }

    pub fn name(&self) -> &Name
        ensures { result.now ≡ self.now.name }
    {
        &self.name
    }

    /// The number of arguments.
    pub fn arity(&self) -> usize
        ensures { result ≡ self.now.arity }
    {
        self.arity
    }

    /// Whether the two constructors are equal.
    pub fn equals(&self, other: &Constructor) -> bool
        ensures { IsTrue result ↔ (self.now ≡ other.now) }
    {
        self.arity == other.arity && self.name.equals(&other.name)
    }
}

impl Definition {
    /// The definition with this name, these parameters and this body, which stands in no text.
    pub fn new(
        name: Name,
        strategy_parameters: Vec<Name>,
        term_parameters: Vec<Name>,
        body: Strategy,
    ) -> Definition
        ensures { result ≡ record {
          name = name;
          strategy_parameters = strategy_parameters.items;
          term_parameters = term_parameters.items;
          body = body;
        } }
    {
        Definition {
            name,
            strategy_parameters,
            term_parameters,
            body,
            place: Place::nowhere(),
        }
    }

    /// The same definition, at this place of its text.
    pub fn at(mut self, place: Place) -> Definition
        ensures { result ≡ self }
    {
        self.place = place;
        self
    }

    /// Where it stands in its text, from its name on.
    pub fn place(&self) -> Place {
        self.place
    }

    pub fn name(&self) -> &Name
        ensures { result.now ≡ self.now.name }
    {
        &self.name
    }

    /// The names of the strategy parameters.
    pub fn strategy_parameters(&self) -> &[Name]
        ensures { result.now ≡ self.now.strategy_parameters }
    {
        self.strategy_parameters.as_slice()
    }

    /// The names of the term parameters.
    pub fn term_parameters(&self) -> &[Name]
        ensures { result.now ≡ self.now.term_parameters }
    {
        self.term_parameters.as_slice()
    }

    /// Where the strategy parameter of this index stands, counted from 0.
    pub fn strategy_parameter_place(&self, index: usize) -> Place {
        if index >= self.strategy_parameters.len() {
            return Place::nowhere();
        }
        // the name and `(`, and each parameter with a comma after it
        self.place.token(index.saturating_mul(2).saturating_add(2))
    }

    /// Where the term parameter of this index stands, counted from 0.
    pub fn term_parameter_place(&self, index: usize) -> Place {
        if index >= self.term_parameters.len() {
            return Place::nowhere();
        }
        // before the first one, the strategy parameters with commas between them, and `|`
        let strategies = self.strategy_parameters.len().saturating_mul(2);
        let first = strategies.max(1).saturating_add(2);
        self.place
            .token(index.saturating_mul(2).saturating_add(first))
    }

    pub fn body(&self) -> &Strategy
        ensures { result.now ≡ self.now.body }
    {
        &self.body
    }

    /// Whether the two definitions are equal, names of parameters included.
    pub fn equals(&self, other: &Definition) -> bool
        ensures { IsTrue result ↔ (self.now ≡ other.now) }
    {
        self.name.equals(&other.name)
            && same_names(&self.strategy_parameters, &other.strategy_parameters)
            && same_names(&self.term_parameters, &other.term_parameters)
            && self.body.equals(&other.body)
    }
}

impl Module {
    /// The module with these declarations and definitions, in this order.
    pub fn new(
        constructors: Vec<Placed<Constructor>>,
        declarations: Vec<Declaration>,
        injections: Vec<Injection>,
        definitions: Vec<Definition>,
    ) -> Module
        ensures { result ≡ record {
          constructors = constructors.items;
          declarations = declarations.items;
          injections = injections.items;
          definitions = definitions.items;
        } }
    {
        Module {
            constructors,
            declarations,
            injections,
            definitions,
        }
    }

    pub fn constructors(&self) -> &[Placed<Constructor>]
        ensures { result.now ≡ self.now.constructors }
    {
        self.constructors.as_slice()
    }

    /// The constructors with the sorts of their arguments and of their terms.
    pub fn declarations(&self) -> &[Declaration]
        ensures { result.now ≡ self.now.declarations }
    {
        self.declarations.as_slice()
    }

    /// The sorts whose terms are of another sort, too.
    pub fn injections(&self) -> &[Injection]
        ensures { result.now ≡ self.now.injections }
    {
        self.injections.as_slice()
    }

    pub fn definitions(&self) -> &[Definition]
        ensures { result.now ≡ self.now.definitions }
    {
        self.definitions.as_slice()
    }

    /// The index of the definition that this place is in, if there is one.
    pub fn definition_at(&self, place: Place) -> Option<usize>
        ensures { IfSome result (λ index. index < length self.now.definitions) }
    {
        for (index, definition) in self.definitions.iter().enumerate() {
            if definition.place().contains(place) {
                return Some(index);
            }
        }
        None
    }

    /// Whether the two modules are equal, in the same order.
    pub fn equals(&self, other: &Module) -> bool
        ensures { IsTrue result ↔ (self.now ≡ other.now) }
    {
        same_constructors(&self.constructors, &other.constructors)
            && same_declarations(&self.declarations, &other.declarations)
            && same_injections(&self.injections, &other.injections)
            && same_definitions(&self.definitions, &other.definitions)
    }
}

fn same_constructors(constructors: &[Placed<Constructor>], others: &[Placed<Constructor>]) -> bool
    ensures { IsTrue result ↔ (constructors.now ≡ others.now) }
{
    if constructors.len() != others.len() {
        return false;
    }
    for (constructor, other) in constructors.iter().zip(others) {
        if !constructor.item().equals(other.item()) {
            return false;
        }
    }
    true
}

fn same_declarations(declarations: &[Declaration], others: &[Declaration]) -> bool
    ensures { IsTrue result ↔ (declarations.now ≡ others.now) }
{
    if declarations.len() != others.len() {
        return false;
    }
    for (declaration, other) in declarations.iter().zip(others) {
        if !declaration.equals(other) {
            return false;
        }
    }
    true
}

fn same_injections(injections: &[Injection], others: &[Injection]) -> bool
    ensures { IsTrue result ↔ (injections.now ≡ others.now) }
{
    if injections.len() != others.len() {
        return false;
    }
    for (injection, other) in injections.iter().zip(others) {
        if !injection.equals(other) {
            return false;
        }
    }
    true
}

fn same_definitions(definitions: &[Definition], others: &[Definition]) -> bool
    ensures { IsTrue result ↔ (definitions.now ≡ others.now) }
{
    if definitions.len() != others.len() {
        return false;
    }
    for (definition, other) in definitions.iter().zip(others) {
        if !definition.equals(other) {
            return false;
        }
    }
    true
}
