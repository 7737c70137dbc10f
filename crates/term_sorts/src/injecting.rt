//! One more injection for a table of sorts.

ghost use Rattle.std.specs.Prelude.{◌≡◌, ◌↔◌, ◌++◌, ◌∷◌, [], IsTrue, IfOk, IfSome, IfNone, OnOk, None, Some};
ghost use Rattle.std.specs.List.{AllZip};
ghost use Rattle.term_sorts.specs.Sorts.{TakeNoneAlike};
ghost use Rattle.term_sorts.specs.inside.Tables.{IsNumber, KeepNumbers};
ghost use Rattle.term_sorts.specs.inside.Gaining.{Gains, NumbersAreAlike, ClashesWith, HasClash, RowClashes, HaveClash};
ghost use Rattle.term_sorts.specs.inside.TableView.{sorts_in};

use crate::Injection;
use crate::numbers::{add_all, at, is_among};
use crate::table::{Row, SortTable};
use std::alloc::Global;
use term_core::NoMemory;

impl SortTable {
    /// The table with one more injection. None if a sort would then take two sorts of lists, or two of
    /// tuples of as many terms.
    pub(crate) fn with_injection(
        mut self,
        alloc: Global,
        injection: &Injection,
    ) -> Result<Option<SortTable>, NoMemory>
        ensures injections { IfOk result (λ made. IfSome made (λ table.
            table.injections ≡ self.injections ++ injection.now ∷ [])) }
        ensures numbers { IfOk result (λ made. IfSome made (λ table. KeepNumbers self.sorts table.sorts)) }
        ensures agreed { IfOk result (λ made. IfSome made (λ table. TakeNoneAlike table.injections)) }
        ensures none { IfOk result (λ made. IfNone made
            (¬ TakeNoneAlike (self.injections ++ injection.now ∷ []))) }
    {
        let from = self.number_of(injection.from())?;
        let to = self.number_of(injection.to())?;
        self.joined(alloc, injection, from, to)
    }

    // The same, where these are the numbers of its sorts.
    fn joined(
        self,
        alloc: Global,
        injection: &Injection,
        from: usize,
        to: usize,
    ) -> Result<Option<SortTable>, NoMemory>
        requires from { IsNumber self.sorts from injection.now.from }
        requires to { IsNumber self.sorts to injection.now.to }
        ensures injections { IfOk result (λ made. IfSome made (λ table.
            table.injections ≡ self.injections ++ injection.now ∷ [])) }
        ensures sorts { IfOk result (λ made. IfSome made (λ table. table.sorts ≡ self.sorts)) }
        ensures agreed { IfOk result (λ made. IfSome made (λ table. TakeNoneAlike table.injections)) }
        ensures none { IfOk result (λ made. IfNone made
            (¬ TakeNoneAlike (self.injections ++ injection.now ∷ []))) }
    {
        let SortTable {
            mut rows,
            mut injections,
        } = self;
        let Some(row) = at(&rows, from) else {
            unreachable!()
        };
        let gained = Vec::from_slice(alloc, &row.taken)?;
        if have_clash(&rows, to, &gained) {
            return Ok(None);
        }
        gain_all(&mut rows, to, &gained)?;
        injections.push(injection.try_clone()?)?;
        Ok(Some(SortTable { rows, injections }))
    }
}

// Adds the gained sorts to those that take the one of this number.
fn gain_all(rows: &mut Vec<Row>, to: usize, gained: &[usize]) -> Result<(), NoMemory>
    ensures { OnOk result (AllZip (Gains to gained.now) rows.old.items rows.new.items) }
{
    for i in 0..rows.len() {
        let row = &mut rows[i];
        if is_among(&row.taken, to) {
            add_all(&mut row.taken, gained)?;
        }
    }
    Ok(())
}

// Whether a sort that takes the one of this number takes another one that is like a gained one.
fn have_clash(rows: &[Row], to: usize, gained: &[usize]) -> bool
    ensures { IsTrue result ↔ HaveClash rows.now to gained.now }
{
    for row in rows {
        if row_clashes(rows, row, to, gained) {
            return true;
        }
    }
    false
}

fn row_clashes(rows: &[Row], row: &Row, to: usize, gained: &[usize]) -> bool
    ensures { IsTrue result ↔ RowClashes (sorts_in rows.now) row.now to gained.now }
{
    is_among(&row.taken, to) && has_clash(rows, &row.taken, gained)
}

// Whether one of the taken sorts is like another one that is gained.
fn has_clash(rows: &[Row], taken: &[usize], gained: &[usize]) -> bool
    ensures { IsTrue result ↔ HasClash (sorts_in rows.now) taken.now gained.now }
{
    for number in taken {
        if clashes(rows, *number, gained) {
            return true;
        }
    }
    false
}

fn clashes(rows: &[Row], number: usize, gained: &[usize]) -> bool
    ensures { IsTrue result ↔ ClashesWith (sorts_in rows.now) number gained.now }
{
    for other in gained {
        if *other != number && are_alike(rows, number, *other) {
            return true;
        }
    }
    false
}

fn are_alike(rows: &[Row], number: usize, other: usize) -> bool
    ensures { IsTrue result ↔ NumbersAreAlike (sorts_in rows.now) number other }
{
    let Some(row) = at(rows, number) else {
        return false;
    };
    let Some(another) = at(rows, other) else {
        return false;
    };
    row.sort.is_like(&another.sort)
}
