//! The extended primitives as values, and their table.

ghost use Rattle.std.specs.Prelude.{◌≡◌, ◌++◌, ◌∷◌, [], length, IfOk, OnOk};
ghost use Rattle.prim_extended.specs.Extended.{extended};
ghost use Rattle.prim_extended.specs.declared.operations.ExtendedOperation.TheVariants.{OnTerms};
ghost use Rattle.prim_extended.specs.ExtendedTable.{arity_of, extended_signatures, name_of};

use crate::annotations::{eq_ignore_annos, strip_annos};
use crate::comparing::compare;
use crate::constructors::{explode_term, mkterm};
use crate::greatest::greatest_number;
use crate::integers::modi;
use crate::lists::{
    list_concat, list_index, list_length, list_lookup, list_reverse, list_sort, list_without,
};
use crate::strings::{explode_string, gts, implode_string};
use crate::tables::{table_get, table_keys, table_put, table_remove};
use crate::texts::{
    lower_case, string_characters, string_join, string_search, string_split, upper_case,
};
use prim_core::{
    Meaning, Operation, Primitive, addi, as_value, divi, gti, int_to_string, muli, own_terms,
    strcat, string_to_int, strlen, subti,
};
use std::alloc::Global;
use term_core::{NoMemory, Term};
use term_values::Value;

/// One of the extended primitives, by its name. The first ones take owned terms; the others look at
/// values, and take no copies.
#[derive(Clone, Copy, Debug, Drop)]
pub enum ExtendedOperation {
    OnTerms(TermOperation),
    Compare,
    TablePut,
    TableGet,
    TableRemove,
    TableKeys,
    ListLength,
    ListReverse,
    ListSort,
    ListWithout,
    ListConcat,
    ListIndex,
    ListLookup,
}

/// One of the primitives that take owned terms.
#[derive(Clone, Copy, Debug, Drop)]
pub enum TermOperation {
    Addi,
    Subti,
    Muli,
    Divi,
    Gti,
    Strcat,
    Strlen,
    IntToString,
    StringToInt,
    ExplodeString,
    ImplodeString,
    Gts,
    Modi,
    StripAnnos,
    EqIgnoreAnnos,
    ExplodeTerm,
    Mkterm,
    GreatestNumber,
    StringSearch,
    StringSplit,
    StringJoin,
    StringCharacters,
    UpperCase,
    LowerCase,
}

use ExtendedOperation::{
    Compare, ListConcat, ListIndex, ListLength, ListLookup, ListReverse, ListSort, ListWithout,
    OnTerms, TableGet, TableKeys, TablePut, TableRemove,
};
use TermOperation::{
    Addi, Divi, EqIgnoreAnnos, ExplodeString, ExplodeTerm, GreatestNumber, Gti, Gts, ImplodeString,
    IntToString, LowerCase, Mkterm, Modi, Muli, Strcat, StringCharacters, StringJoin, StringSearch,
    StringSplit, StringToInt, StripAnnos, Strlen, Subti, UpperCase,
};

impl Operation for ExtendedOperation {
    ghost may_run = { λ operation terms. length terms ≡ arity_of operation };

    ghost answers = { λ operation terms found. found ≡ extended (name_of operation) terms };

    fn run<'t>(
        &self,
        alloc: Global,
        arguments: &[Value<'t>],
    ) -> Result<Option<Value<'t>>, NoMemory> {
        match self {
            OnTerms(operation) => {
                let terms = own_terms(alloc, arguments)?;
                as_value(alloc, operation.run(alloc, &terms)?)
            }
            Compare => Ok(Some(compare(arguments))),
            TablePut => table_put(alloc, arguments),
            TableGet => table_get(arguments),
            TableRemove => table_remove(alloc, arguments),
            TableKeys => table_keys(alloc, arguments),
            ListLength => Ok(list_length(arguments)),
            ListReverse => list_reverse(alloc, arguments),
            ListSort => list_sort(alloc, arguments),
            ListWithout => list_without(alloc, arguments),
            ListConcat => list_concat(alloc, arguments),
            ListIndex => Ok(list_index(arguments)),
            ListLookup => list_lookup(arguments),
        }
    }
}

impl TermOperation {
    fn run(&self, alloc: Global, arguments: &[Term]) -> Result<Option<Term>, NoMemory>
        requires { length arguments.now ≡ arity_of (OnTerms self.now) }
        ensures { IfOk result (λ found. found ≡ extended (name_of (OnTerms self.now)) arguments.now) }
    {
        match self {
            Addi => addi(alloc, arguments),
            Subti => subti(alloc, arguments),
            Muli => muli(alloc, arguments),
            Divi => divi(alloc, arguments),
            Gti => gti(alloc, arguments),
            Strcat => strcat(alloc, arguments),
            Strlen => strlen(alloc, arguments),
            IntToString => int_to_string(alloc, arguments),
            StringToInt => string_to_int(alloc, arguments),
            ExplodeString => explode_string(alloc, arguments),
            ImplodeString => implode_string(alloc, arguments),
            Gts => gts(alloc, arguments),
            Modi => modi(alloc, arguments),
            StripAnnos => strip_annos(alloc, arguments),
            EqIgnoreAnnos => eq_ignore_annos(alloc, arguments),
            ExplodeTerm => explode_term(alloc, arguments),
            Mkterm => mkterm(alloc, arguments),
            GreatestNumber => greatest_number(alloc, arguments),
            StringSearch => Ok(string_search(alloc, arguments)),
            StringSplit => string_split(alloc, arguments),
            StringJoin => string_join(alloc, arguments),
            StringCharacters => string_characters(alloc, arguments),
            UpperCase => upper_case(alloc, arguments),
            LowerCase => lower_case(alloc, arguments),
        }
    }
}

/// The meaning of the extended primitives. It is that of the standard ones on their names.
pub struct Extended;

impl Meaning for Extended {
    ghost use Rattle.prim_extended.specs.Extended.{extended};

    type Operation = ExtendedOperation;

    ghost meaning = { extended };
}

/// The extended primitives, the standard ones first.
pub fn extended_primitives(alloc: Global) -> Result<Vec<Primitive<Extended>>, NoMemory>
    ensures { IfOk result (λ primitives. primitives.items ≡ extended_signatures) }
{
    let mut primitives = Vec::new(alloc);
    add_on_terms(alloc, &mut primitives, b"addi", 2, Addi)?;
    add_on_terms(alloc, &mut primitives, b"subti", 2, Subti)?;
    add_on_terms(alloc, &mut primitives, b"muli", 2, Muli)?;
    add_on_terms(alloc, &mut primitives, b"divi", 2, Divi)?;
    add_on_terms(alloc, &mut primitives, b"gti", 2, Gti)?;
    add_on_terms(alloc, &mut primitives, b"strcat", 2, Strcat)?;
    add_on_terms(alloc, &mut primitives, b"strlen", 1, Strlen)?;
    add_on_terms(alloc, &mut primitives, b"int-to-string", 1, IntToString)?;
    add_on_terms(alloc, &mut primitives, b"string-to-int", 1, StringToInt)?;
    add_on_terms(alloc, &mut primitives, b"explode-string", 1, ExplodeString)?;
    add_on_terms(alloc, &mut primitives, b"implode-string", 1, ImplodeString)?;
    add_on_terms(alloc, &mut primitives, b"gts", 2, Gts)?;
    add_on_terms(alloc, &mut primitives, b"modi", 2, Modi)?;
    add_on_terms(alloc, &mut primitives, b"strip-annos", 1, StripAnnos)?;
    add_on_terms(alloc, &mut primitives, b"eq-ignore-annos", 2, EqIgnoreAnnos)?;
    add_on_terms(alloc, &mut primitives, b"explode-term", 1, ExplodeTerm)?;
    add_on_terms(alloc, &mut primitives, b"mkterm", 2, Mkterm)?;
    add_on_terms(
        alloc,
        &mut primitives,
        b"greatest-number",
        2,
        GreatestNumber,
    )?;
    add(alloc, &mut primitives, b"compare", 2, Compare)?;
    add(alloc, &mut primitives, b"table-put", 3, TablePut)?;
    add(alloc, &mut primitives, b"table-get", 2, TableGet)?;
    add(alloc, &mut primitives, b"table-remove", 2, TableRemove)?;
    add(alloc, &mut primitives, b"table-keys", 1, TableKeys)?;
    add(alloc, &mut primitives, b"list-length", 1, ListLength)?;
    add(alloc, &mut primitives, b"list-reverse", 1, ListReverse)?;
    add(alloc, &mut primitives, b"list-sort", 1, ListSort)?;
    add(alloc, &mut primitives, b"list-concat", 1, ListConcat)?;
    add(alloc, &mut primitives, b"list-without", 2, ListWithout)?;
    add(alloc, &mut primitives, b"list-index", 2, ListIndex)?;
    add(alloc, &mut primitives, b"list-lookup", 2, ListLookup)?;
    add_on_terms(alloc, &mut primitives, b"string-search", 2, StringSearch)?;
    add_on_terms(alloc, &mut primitives, b"string-split", 2, StringSplit)?;
    add_on_terms(alloc, &mut primitives, b"string-join", 2, StringJoin)?;
    add_on_terms(
        alloc,
        &mut primitives,
        b"string-characters",
        1,
        StringCharacters,
    )?;
    add_on_terms(alloc, &mut primitives, b"upper-case", 1, UpperCase)?;
    add_on_terms(alloc, &mut primitives, b"lower-case", 1, LowerCase)?;
    Ok(primitives)
}

fn add_on_terms(
    alloc: Global,
    primitives: &mut Vec<Primitive<Extended>>,
    name: &[u8],
    arity: usize,
    operation: TermOperation,
) -> Result<(), NoMemory>
    requires name { name.now ≡ name_of (OnTerms operation) }
    requires arity { arity ≡ arity_of (OnTerms operation) }
    ensures { OnOk result (primitives.new.items
        ≡ primitives.old.items ++ record { name = name.now; arity = arity } ∷ []) }
{
    add(alloc, primitives, name, arity, OnTerms(operation))
}

fn add(
    alloc: Global,
    primitives: &mut Vec<Primitive<Extended>>,
    name: &[u8],
    arity: usize,
    operation: ExtendedOperation,
) -> Result<(), NoMemory>
    requires name { name.now ≡ name_of operation }
    requires arity { arity ≡ arity_of operation }
    ensures { OnOk result (primitives.new.items
        ≡ primitives.old.items ++ record { name = name.now; arity = arity } ∷ []) }
{
    let name = Vec::from_slice(alloc, name)?;
    primitives.push(Primitive::new(name, arity, operation))?;
    Ok(())
}
