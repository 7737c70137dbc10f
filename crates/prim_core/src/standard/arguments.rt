//! The values of arguments, whose annotations are ignored, for this and other sets of primitives.

ghost use Rattle.std.specs.Prelude.{◌≡◌, length, IfSome, IfNone, Some, None};
ghost use Rattle.std.specs.Option.{option_copied};
ghost use Rattle.prim_core.specs.Values.{integer_value, string_value, one, two};

use term_core::{Kind, Term};

/// The integer, if the term is one.
pub fn integer(term: &Term) -> Option<i64>
    ensures { result ≡ integer_value term.now }
{
    match term.kind() {
        Kind::Integer(value) => Some(value),
        _ => None,
    }
}

/// The bytes, if the term is a string.
pub fn string(term: &Term) -> Option<&[u8]>
    ensures { option_copied result ≡ string_value term.now }
{
    match term.kind() {
        Kind::Application(name) if name.is_quoted() && term.child_count() == 0 => {
            Some(name.bytes())
        }
        _ => None,
    }
}

/// The only argument, if it is an integer.
pub fn one_integer(arguments: &[Term]) -> Option<i64>
    requires { length arguments.now ≡ 1 }
    ensures { result ≡ one integer_value arguments.now }
{
    integer(&arguments[0])
}

/// The two arguments, if both are integers.
pub fn two_integers(arguments: &[Term]) -> Option<(i64, i64)>
    requires { length arguments.now ≡ 2 }
    ensures { result ≡ two integer_value arguments.now }
{
    match (integer(&arguments[0]), integer(&arguments[1])) {
        (Some(a), Some(b)) => Some((a, b)),
        _ => None,
    }
}

/// The bytes of the only argument, if it is a string.
pub fn one_string(arguments: &[Term]) -> Option<&[u8]>
    requires { length arguments.now ≡ 1 }
    ensures { option_copied result ≡ one string_value arguments.now }
{
    string(&arguments[0])
}

/// The bytes of the two arguments, if both are strings.
pub fn two_strings(arguments: &[Term]) -> Option<(&[u8], &[u8])>
    requires { length arguments.now ≡ 2 }
    ensures some { IfSome result (λ both. two string_value arguments.now
        ≡ Some (both.0.now, both.1.now)) }
    ensures none { IfNone result (two string_value arguments.now ≡ None) }
{
    match (string(&arguments[0]), string(&arguments[1])) {
        (Some(a), Some(b)) => Some((a, b)),
        _ => None,
    }
}
