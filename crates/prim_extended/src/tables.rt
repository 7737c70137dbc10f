//! Tables as primitives.

ghost use Rattle.std.specs.Prelude.{◌≡◌, length, IfOk, codes};
ghost use Rattle.prim_extended.specs.Extended.{extended};

use std::alloc::Global;
use term_core::{Kind, NoMemory};
use term_values::Value;

/// `table-put`: the table a with the value c at the key b.
pub fn table_put<'t>(alloc: Global, arguments: &[Value<'t>]) -> Result<Option<Value<'t>>, NoMemory>
    requires { length arguments.now ≡ 3 }
    ensures { IfOk result (λ found. found ≡ extended (codes "table-put") arguments.now) }
{
    term_order::put(
        alloc,
        arguments[0].seen(),
        arguments[1].seen(),
        arguments[2].seen(),
    )
}

/// `table-get`: what the table a has at the key b; nothing where it has nothing there.
pub fn table_get<'t>(arguments: &[Value<'t>]) -> Result<Option<Value<'t>>, NoMemory>
    requires { length arguments.now ≡ 2 }
    ensures { IfOk result (λ found. found ≡ extended (codes "table-get") arguments.now) }
{
    match term_order::value_at(arguments[0].seen(), arguments[1].seen()) {
        Some(found) => Ok(Some(found.share()?)),
        None => Ok(None),
    }
}

/// `table-remove`: the table a without the key b.
pub fn table_remove<'t>(
    alloc: Global,
    arguments: &[Value<'t>],
) -> Result<Option<Value<'t>>, NoMemory>
    requires { length arguments.now ≡ 2 }
    ensures { IfOk result (λ found. found ≡ extended (codes "table-remove") arguments.now) }
{
    term_order::removed(alloc, arguments[0].seen(), arguments[1].seen())
}

/// `table-keys`: the keys of the table a as a list, in order.
pub fn table_keys<'t>(alloc: Global, arguments: &[Value<'t>]) -> Result<Option<Value<'t>>, NoMemory>
    requires { length arguments.now ≡ 1 }
    ensures { IfOk result (λ found. found ≡ extended (codes "table-keys") arguments.now) }
{
    match term_order::keys(alloc, arguments[0].seen())? {
        Some(keys) => Ok(Some(Value::build(alloc, Kind::List, keys)?)),
        None => Ok(None),
    }
}
