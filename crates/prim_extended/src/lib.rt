//! The standard primitives and twenty-seven more: strings as lists of bytes, the order of strings,
//! remainders, terms without annotations, equality but for these, terms as constructors with
//! children, the greatest number after a beginning of strings, the order on terms, tables, lists,
//! and searches in strings, their parts, characters and letters.
#![tactic(auto)]

pub mod annotations;
mod arguments;
pub mod comparing;
pub mod constructors;
pub mod greatest;
pub mod integers;
pub mod laws;
pub mod lists;
pub mod operations;
pub mod strings;
pub mod tables;
pub mod texts;

pub use annotations::{eq_ignore_annos, strip_annos};
pub use comparing::compare;
pub use constructors::{explode_term, mkterm};
pub use greatest::greatest_number;
pub use integers::modi;
pub use lists::{
    list_concat, list_index, list_length, list_lookup, list_reverse, list_sort, list_without,
};
pub use operations::{Extended, ExtendedOperation, TermOperation, extended_primitives};
pub use strings::{explode_string, gts, implode_string};
pub use tables::{table_get, table_keys, table_put, table_remove};
pub use texts::{
    lower_case, string_characters, string_join, string_search, string_split, upper_case,
};
