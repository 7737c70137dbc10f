//! The faults that a walk over modules or a strategy has found.
#![tactic(auto)]

ghost use Rattle.std.specs.Prelude.{◌≡◌, ◌∷◌, ◌==◌, [], IfErr, OnOk};
ghost use Rattle.strategy_check.specs.Faults.{IsTold, fault_if, first};
ghost use Rattle.strategy_check.specs.inside.FaultLists.{with_faults};

use crate::found::{DefinitionIndex, FoundFault};
use crate::{CheckFault, FaultKind};
use std::alloc::Global;
use std::marker::Model;
use strategy_syntax::Place;
use term_core::{Name, NoMemory};

/// The first faults that were found, and how many more are wanted.
#[derive(Drop)]
pub struct FaultList {
    found: Vec<FoundFault>,
    room: usize,
    // The definition that the walk is in. Contracts don't see it.
    definition: Option<DefinitionIndex>,
}

impl Model for FaultList {
    ghost use Rattle.strategy_check.specs.inside.FaultLists.{FaultList};

    ghost Value = { FaultList };

    ghost view = { λ l. record { items = l.found.items; room = l.room } };
}

impl FaultList {
    /// No faults, of which so many are wanted. It takes no memory.
    pub fn new(alloc: Global, most: usize) -> FaultList
        ensures { result ≡ record { items = []; room = most } }
    {
        FaultList {
            found: Vec::new(alloc),
            room: most,
            definition: None,
        }
    }

    /// Notes that the walk comes to the definition of this index of a module.
    pub fn enter(&mut self, module: usize, definition: usize)
        ensures { self.new ≡ self.old }
    {
        self.definition = Some(DefinitionIndex { module, definition });
    }

    /// Whether no more faults are wanted.
    pub fn is_full(&self) -> bool
        ensures { result ≡ (self.now.room == 0) }
    {
        self.room == 0
    }

    /// Adds this fault, if it is one and wanted.
    pub fn add_if(
        &mut self,
        is_fault: bool,
        kind: FaultKind,
        name: &Name,
        first: usize,
        second: usize,
        place: Place,
    ) -> Result<(), NoMemory>
        ensures { OnOk result (self.new
            ≡ with_faults self.old (fault_if is_fault kind name.now first second)) }
    {
        if !is_fault {
            return Ok(());
        }
        self.add(kind, name, first, second, place)
    }

    /// Adds a fault, if it is wanted.
    pub fn add(
        &mut self,
        kind: FaultKind,
        name: &Name,
        first: usize,
        second: usize,
        place: Place,
    ) -> Result<(), NoMemory>
        ensures { OnOk result (self.new ≡ with_faults self.old
            (record { kind = kind; name = name.now; first = first; second = second } ∷ [])) }
    {
        if self.room == 0 {
            return Ok(());
        }
        let found = FoundFault::new(kind, name, first, second, place, self.definition)?;
        self.found.push(found)?;
        self.room -= 1;
        Ok(())
    }

    /// The faults that were found.
    pub fn into_found(self) -> Vec<FoundFault>
        ensures { result.items ≡ self.items }
    {
        self.found
    }

    /// The first fault as a refusal, if one was found.
    pub fn into_first(self) -> Result<(), CheckFault>
        ensures none { OnOk result (self.items ≡ []) }
        ensures first { IfErr result (λ told. IsTold told (first self.items)) }
    {
        match self.found.into_iter().next() {
            Some(found) => Err(found.into_fault()),
            None => Ok(()),
        }
    }
}
