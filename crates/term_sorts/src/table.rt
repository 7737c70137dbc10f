//! The sorts that declarations name, by numbers, with those that each takes.

ghost use Rattle.std.specs.Prelude.{◌≡◌, ◌↔◌, IsTrue, IfOk, IfSome, IfNone, None, Some, []};
ghost use Rattle.term_sorts.specs.Sorts.{sort, arguments_of};
ghost use Rattle.term_sorts.specs.inside.Tables.{Extends, IsNumber, AreNumbers, HasNumber};

use crate::{Injection, Sort};
use std::alloc::Global;
use std::marker::Model;
use term_core::NoMemory;

/// A sort, and what is known of it, by numbers.
#[derive(Drop)]
pub(crate) struct Row {
    pub(crate) sort: Sort,
    pub(crate) arguments: Vec<usize>,
    /// The sorts that it takes, its own first.
    pub(crate) taken: Vec<usize>,
}

/// The sorts, each once, and the injections between them.
#[derive(Drop)]
pub(crate) struct SortTable {
    pub(crate) rows: Vec<Row>,
    pub(crate) injections: Vec<Injection>,
}

impl Model for SortTable {
    ghost use Rattle.term_sorts.specs.inside.Tables.{Table, table_code};

    ghost Value = { Table };

    ghost coded = { table_code };

    ghost use Rattle.term_sorts.specs.inside.TableView.{sorts_in, IsTable};

    ghost view = { λ t. record { sorts = sorts_in t.rows.items; injections = t.injections.items } };

    ghost invariant = { λ t. IsTable t.rows.items t.injections.items };
}

impl SortTable {
    /// No sorts. It takes no memory.
    pub(crate) fn new(alloc: Global) -> SortTable
        ensures { result ≡ record { sorts = []; injections = [] } }
    {
        SortTable {
            rows: Vec::new(alloc),
            injections: Vec::new(alloc),
        }
    }

    /// The number of the sort, if it has one.
    fn find(&self, sort: &Sort) -> Option<usize>
        ensures some { IfSome result (λ n. IsNumber self.now.sorts n sort.now) }
        ensures none { IfNone result (¬ HasNumber self.now.sorts sort.now) }
    {
        for (number, row) in self.rows.iter().enumerate() {
            if row.sort.equals(sort) {
                return Some(number);
            }
        }
        None
    }

    /// The number of the sort. It is added, with its arguments, if it has none.
    #[cycle(number)]
    pub(crate) fn number_of(&mut self, sort: &Sort) -> Result<usize, NoMemory>
        ensures kept { Extends self.old self.new }
        ensures number { IfOk result (λ n. IsNumber self.new.sorts n sort.now) }
    {
        let arguments = self.numbers_of(sort.arguments())?;
        match self.find(sort) {
            Some(number) => Ok(number),
            None => self.add(sort.try_clone()?, arguments),
        }
    }

    /// The numbers of the sorts.
    #[cycle(number)]
    pub(crate) fn numbers_of(&mut self, sorts: &[Sort]) -> Result<Vec<usize>, NoMemory>
        ensures kept { Extends self.old self.new }
        ensures numbers { IfOk result (λ ns. AreNumbers self.new.sorts ns.items sorts.now) }
    {
        let mut numbers = Vec::new(*self.rows.allocator());
        for sort in sorts {
            numbers.push(self.number_of(sort)?)?;
        }
        Ok(numbers)
    }

    // Adds a sort that has no number.
    fn add(&mut self, sort: Sort, arguments: Vec<usize>) -> Result<usize, NoMemory>
        requires new { ¬ HasNumber self.old.sorts sort }
        requires arguments { AreNumbers self.old.sorts arguments.items (arguments_of sort) }
        ensures kept { Extends self.old self.new }
        ensures number { IfOk result (λ n. IsNumber self.new.sorts n sort) }
    {
        let number = self.rows.len();
        let mut taken = Vec::new(*self.rows.allocator());
        taken.push(number)?;
        self.rows.push(Row {
            sort,
            arguments,
            taken,
        })?;
        Ok(number)
    }
}
