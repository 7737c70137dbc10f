//! What the signatures of all modules declare.

use crate::sorts::{EmptySort, Sort, Sorts};
use std::alloc::Global;
use std::cmp::Ordering;
use term_core::{Name, NoMemory};

/// A constructor with the sorts of its arguments and of its terms.
#[derive(Drop)]
pub struct Declared {
    name: Name,
    pub arguments: Vec<Sort>,
    pub result: Sort,
    // Whether all its declarations say the same.
    is_agreed: bool,
}

impl Declared {
    fn order(&self, name: &[u8], arity: usize) -> Ordering {
        match self.name.bytes().cmp(name) {
            Ordering::Equal => self.arguments.len().cmp(&arity),
            other => other,
        }
    }
}

/// The declarations of modules.
#[derive(Drop)]
pub struct Signature {
    pub sorts: Sorts,
    // In the order of their names and numbers of arguments, each once.
    constructors: Vec<Declared>,
    // The modules that were read, in the order in which they were.
    modules: Vec<Vec<u8>>,
    // Whether too much was declared, so that nothing is known.
    is_given_up: bool,
}

impl Signature {
    /// One without declarations.
    ///
    /// Errors: `NoMemory` if memory can't grow.
    pub fn new(alloc: Global) -> Result<Signature, NoMemory> {
        Ok(Signature {
            sorts: Sorts::new(alloc)?,
            constructors: Vec::new(alloc),
            modules: Vec::new(alloc),
            is_given_up: false,
        })
    }

    /// Whether the module of this name was read.
    pub fn has_module(&self, name: &[u8]) -> bool {
        self.modules.iter().any(|it| it.as_slice() == name)
    }

    /// Notes that the module of this name is read now. Returns its number.
    ///
    /// Errors: `NoMemory` if memory can't grow.
    pub fn add_module(&mut self, name: &[u8]) -> Result<usize, NoMemory> {
        let number = self.modules.len();
        let alloc = *self.modules.allocator();
        self.modules.push(Vec::from_slice(alloc, name)?)?;
        Ok(number)
    }

    /// Notes that too much was declared. From now on nothing is known.
    pub fn give_up(&mut self) {
        self.is_given_up = true;
    }

    /// Whether too much was declared.
    pub fn is_given_up(&self) -> bool {
        self.is_given_up
    }

    /// The sorts without terms that no module before this one names.
    ///
    /// Errors: `NoMemory` if memory can't grow.
    pub fn empty_sorts(&self, module: &[u8]) -> Result<Vec<EmptySort>, NoMemory> {
        let alloc = *self.modules.allocator();
        let named = self.modules.iter().position(|it| it.as_slice() == module);
        match named {
            Some(number) if !self.is_given_up => self.sorts.empty_ones(alloc, number),
            _ => Ok(Vec::new(alloc)),
        }
    }

    /// Adds a declaration of a constructor.
    ///
    /// Errors: `NoMemory` if memory can't grow.
    pub fn declare(
        &mut self,
        name: &Name,
        arguments: Vec<Sort>,
        given: Sort,
    ) -> Result<(), NoMemory> {
        self.sorts.build(given);
        let arity = arguments.len();
        match self.search(name.bytes(), arity) {
            Ok(index) => {
                if let Some(known) = self.constructors.get_mut(index)
                    && (known.result != given
                        || known.arguments.as_slice() != arguments.as_slice())
                {
                    known.is_agreed = false;
                }
                Ok(())
            }
            Err(index) => {
                let new = Declared {
                    name: name.try_clone()?,
                    arguments,
                    result: given,
                    is_agreed: true,
                };
                let index = index.min(self.constructors.len());
                Ok(self.constructors.insert(index, new)?)
            }
        }
    }

    /// Whether no constructor is known.
    pub fn is_empty(&self) -> bool {
        self.is_given_up || self.constructors.is_empty()
    }

    /// The constructor of this name with so many arguments; none where it isn't declared, or its
    /// declarations don't agree.
    pub fn constructor(&self, name: &Name, arity: usize) -> Option<&Declared> {
        if self.is_given_up || name.is_quoted() {
            return None;
        }
        let found = self.search(name.bytes(), arity).ok()?;
        self.constructors.get(found).filter(|it| it.is_agreed)
    }

    fn search(&self, name: &[u8], arity: usize) -> Result<usize, usize> {
        let by_name = |it: &Declared| it.order(name, arity);
        self.constructors.binary_search_by(by_name)
    }
}
