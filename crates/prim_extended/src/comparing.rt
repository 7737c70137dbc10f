//! The order on terms as a primitive.

ghost use Rattle.std.specs.Prelude.{◌≡◌, length, Some, codes};
ghost use Rattle.prim_extended.specs.Comparing.{sign};
ghost use Rattle.prim_extended.specs.Extended.{extended};

use std::cmp::Ordering;
use term_core::Kind;
use term_values::Value;

/// `compare`: -1, 0 or 1 where the term a comes before the term b in the order on terms, is equal to
/// it, or comes after it.
pub fn compare<'t>(arguments: &[Value<'t>]) -> Value<'t>
    requires { length arguments.now ≡ 2 }
    ensures { Some result ≡ extended (codes "compare") arguments.now }
{
    let order = term_order::compare(arguments[0].seen(), arguments[1].seen());
    Value::leaf(Kind::Integer(sign(order)))
}

fn sign(order: Ordering) -> i64
    ensures { result ≡ sign order }
{
    match order {
        Ordering::Less => -1,
        Ordering::Equal => 0,
        Ordering::Greater => 1,
    }
}
