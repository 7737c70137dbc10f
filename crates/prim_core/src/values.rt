//! Values as terms and terms as values, for operations that take owned terms.

ghost use Rattle.std.specs.Prelude.{◌≡◌, IfOk};

use std::alloc::Global;
use term_core::{NoMemory, Term};
use term_values::Value;

/// Owned terms of the same trees.
///
/// Errors: `NoMemory` if memory can't grow.
pub fn own_terms(alloc: Global, values: &[Value<'_>]) -> Result<Vec<Term>, NoMemory>
    ensures { IfOk result (λ terms. terms.items ≡ values.now) }
{
    let mut terms = Vec::with_capacity(alloc, values.len())?;
    for value in values {
        terms.push(value.to_term(alloc)?)?;
    }
    Ok(terms)
}

/// The same answer as a value.
///
/// Errors: `NoMemory` if memory can't grow.
pub fn as_value<'t>(alloc: Global, found: Option<Term>) -> Result<Option<Value<'t>>, NoMemory>
    ensures { IfOk result (λ value. value ≡ found) }
{
    match found {
        Some(term) => Ok(Some(Value::from_term(alloc, &term)?)),
        None => Ok(None),
    }
}
