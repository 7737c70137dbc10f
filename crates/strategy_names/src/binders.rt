//! Names with the numbers of their binders; the innermost binder counts.
#![tactic(auto)]

ghost use Rattle.std.specs.Prelude.{◌≡◌, ◌+◌, ◌∷◌, [], drop, length, IfOk, OnOk};
ghost use Rattle.strategy_names.specs.Binders.{binder_number, bound_from, names_of};

use std::alloc::Global;
use std::collections::HashMap;
use std::marker::Model;
use term_core::{Name, NoMemory};

/// Nested binders: names with numbers. A name stands for the number of its innermost binder, which
/// is found through a map.
#[derive(Drop)]
pub struct Binders {
    entries: Vec<OpenBinder>,
    // what each name stands for, or `None` if its binders are closed
    numbers: HashMap<Name, Option<usize>>,
}

#[derive(Drop)]
struct OpenBinder {
    name: Name,
    number: usize,
    // what the name stands for outside this binder
    hidden: Option<usize>,
}

impl Model for Binders {
    ghost use Rattle.std.specs.Prelude.{List};
    ghost use Rattle.strategy_names.specs.Binders.{Binder};
    ghost use Rattle.strategy_names.specs.inside.BinderView.{binders_of, IsKept};

    ghost Value = { List Binder };

    ghost view = { λ b. binders_of b.entries.items };

    ghost invariant = { λ b. IsKept b.numbers b.entries.items };
}

impl Binders {
    /// No binders.
    pub fn new(alloc: Global) -> Binders
        ensures { result ≡ [] }
    {
        Binders {
            entries: Vec::new(alloc),
            numbers: HashMap::new(alloc),
        }
    }

    /// The number of binders.
    pub fn len(&self) -> usize
        ensures { result ≡ length self.now }
    {
        self.entries.len()
    }

    /// The names of the binders, the outermost first.
    pub fn names(&self) -> Result<Vec<Name>, NoMemory>
        ensures { IfOk result (λ names. names.items ≡ names_of self.now) }
    {
        let mut names = Vec::new(*self.entries.allocator());
        let entries = self.entries.as_slice();
        for entry in entries {
            names.push(entry.name.try_clone()?)?;
        }
        Ok(names)
    }

    /// The number that the name stands for, or `None` if it has no binder.
    pub fn number(&self, name: &Name) -> Option<usize>
        ensures { result ≡ binder_number name.now self.now }
    {
        self.numbers.get(name).copied().flatten()
    }

    /// Opens a binder with this name and number inside the others.
    pub fn open(&mut self, name: &Name, number: usize) -> Result<(), NoMemory>
        ensures { OnOk result (self.new
            ≡ record { name = name.now; number = number } ∷ self.old) }
    {
        let key = name.try_clone()?;
        let name = name.try_clone()?;
        self.entries.reserve(1)?;
        let hidden = self.numbers.insert(key, Some(number))?.flatten();
        let entry = OpenBinder {
            name,
            number,
            hidden,
        };
        self.entries.push_reserved(entry);
        Ok(())
    }

    /// Opens binders with these names, numbered from `first` on. Returns the next number.
    pub fn open_all(&mut self, names: &[Name], first: usize) -> Result<usize, NoMemory>
        ensures binders { OnOk result (self.new ≡ bound_from first names.now self.old) }
        ensures next { IfOk result (λ next. next ≡ first + length names.now) }
    {
        let mut number = first;
        for name in names {
            self.open(name, number)?;
            number = number.checked_add(1).ok_or(NoMemory)?;
        }
        Ok(number)
    }

    /// Closes the innermost binder, if there is one.
    pub fn close(&mut self) -> Result<(), NoMemory>
        ensures { OnOk result (self.new ≡ drop 1 self.old) }
    {
        let Some(last) = self.entries.last() else {
            return Ok(());
        };
        let key = last.name.try_clone()?;
        self.numbers.insert(key, last.hidden)?;
        self.entries.pop();
        Ok(())
    }

    /// Closes the innermost binders, this many.
    pub fn close_all(&mut self, count: usize) -> Result<(), NoMemory>
        ensures { OnOk result (self.new ≡ drop count self.old) }
    {
        for _ in 0..count {
            self.close()?;
        }
        Ok(())
    }
}
