//! Laws over definitions alone.

ghost use Rattle.term_order.specs.Laws.{TermsAreOrdered};
ghost use Rattle.term_order.specs.TableLaws.{EmptyIsTable, PutPuts, RemovedRemoves, TermsAreTheirTables};

/// Terms are in a total order, in which only equal terms tie.
pub fn terms_are_ordered()
    ensures { TermsAreOrdered }
{}

/// What a table is written as is the term that was read as it.
pub fn terms_are_their_tables()
    ensures { TermsAreTheirTables }
{}

/// The empty table has nothing.
pub fn empty_is_table()
    ensures { EmptyIsTable }
{}

/// A table with an entry put in has this value at the key, and else what it had.
pub fn put_puts()
    ensures { PutPuts }
{}

/// A table without a key has nothing at the key, and else what it had.
pub fn removed_removes()
    ensures { RemovedRemoves }
{}
