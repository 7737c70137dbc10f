//! Faults that were found, each with its place.
#![tactic(auto)]

ghost use Rattle.std.specs.Prelude.{◌≡◌, IfOk};

use crate::{CheckFault, FaultKind};
use std::marker::Model;
use strategy_syntax::Place;
use term_core::{Name, NoMemory};

/// A definition of several modules.
#[derive(Clone, Copy, Debug, PartialEq, Eq)]
pub struct DefinitionIndex {
    /// The index of its module among the modules.
    pub module: usize,
    /// Its index among the definitions of the module.
    pub definition: usize,
}

/// A fault, and where it is. Contracts see the fault alone.
#[derive(Drop)]
pub struct FoundFault {
    kind: FaultKind,
    name: Name,
    first: u64,
    second: u64,
    place: Place,
    definition: Option<DefinitionIndex>,
}

impl Model for FoundFault {
    ghost use Rattle.strategy_check.specs.Faults.{Fault};

    ghost Value = { Fault };

    ghost view = { λ f. record { kind = f.kind; name = f.name; first = f.first; second = f.second } };
}

impl FoundFault {
    /// The fault with a copy of the name, at this place of the definition, or of a strategy that is
    /// in none.
    pub(crate) fn new(
        kind: FaultKind,
        name: &Name,
        first: usize,
        second: usize,
        place: Place,
        definition: Option<DefinitionIndex>,
    ) -> Result<FoundFault, NoMemory>
        ensures { IfOk result (λ found. found
            ≡ record { kind = kind; name = name.now; first = first; second = second }) }
    {
        let name = name.try_clone()?;
        Ok(FoundFault {
            kind,
            name,
            first: first as u64,
            second: second as u64,
            place,
            definition,
        })
    }

    pub fn kind(&self) -> FaultKind
        ensures { result ≡ self.now.kind }
    {
        self.kind
    }

    /// The name that the fault is about. If it comes from a text, it is quoted for `Primitive`, else
    /// a word.
    pub fn name(&self) -> &Name
        ensures { result.now ≡ self.now.name }
    {
        &self.name
    }

    /// The first of its numbers, usually that of strategies.
    pub fn first(&self) -> u64
        ensures { result ≡ self.now.first }
    {
        self.first
    }

    /// The second of its numbers, usually that of terms.
    pub fn second(&self) -> u64
        ensures { result ≡ self.now.second }
    {
        self.second
    }

    /// Where the smallest form with the fault stands in the text of its module, or in that of the
    /// strategy: the use of a name, the pattern, the repeated name, or the name of the definition.
    pub fn place(&self) -> Place {
        self.place
    }

    /// The definition with the fault; `None` in a strategy that is in no module.
    pub fn definition(&self) -> Option<DefinitionIndex> {
        self.definition
    }

    /// The fault alone, as a refusal.
    pub fn into_fault(self) -> CheckFault
        ensures { result ≡ CheckFault.Fault self.kind self.name self.first self.second }
    {
        CheckFault::Fault(self.kind, self.name, self.first, self.second)
    }
}
