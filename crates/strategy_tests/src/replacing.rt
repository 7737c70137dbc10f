//! Several modules that are replaced at once: commands replace one at a time.

ghost use Rattle.std.specs.Prelude.{OnOk};
ghost use Rattle.strategy_check.specs.Checking.{IsChecked};

use prim_core::{NoPrimitives, Primitives};
use std::alloc::Global;
use std::test::Fail;
use strategy_check::{CheckFault, Checked, FaultKind, NamedModule};
use strategy_parse::{MAX_TOKENS, parse_module};
use term_core::Label;

fn read_module(alloc: Global, text: &str) -> Result<NamedModule, Fail> {
    let name = Label::read(alloc, b"m")?;
    let module = parse_module(alloc, text.as_bytes(), MAX_TOKENS)?;
    Ok(NamedModule::new(alloc, name, module)?)
}

fn add_modules(alloc: Global, texts: &str, modules: &mut Vec<NamedModule>) -> Result<(), Fail> {
    for text in texts.split('%') {
        modules.push(read_module(alloc, text)?)?;
    }
    Ok(())
}

/// The modules whose texts are separated by `%`.
pub fn modules_of(alloc: Global, texts: &str) -> Result<Vec<NamedModule>, Fail> {
    let mut modules = Vec::new(alloc);
    match add_modules(alloc, texts, &mut modules) {
        Ok(()) => Ok(modules),
        Err(fail) => {
            drop(modules);
            Err(fail)
        }
    }
}

// Whether the program then has so many modules and definitions.
fn has(checked: &Checked, modules: usize, definitions: usize) -> bool {
    checked.modules().len() == modules && checked.program().definitions().len() == definitions
}

fn is_unknown_f(told: &CheckFault) -> bool {
    match told {
        CheckFault::Fault(FaultKind::Unknown, name, 0, 0) => name.bytes() == b"f".as_slice(),
        _ => false,
    }
}

// Puts `new` in the place of the first two modules.
fn replaced(
    alloc: Global,
    primitives: &Primitives<NoPrimitives>,
    checked: &mut Checked,
    new: &str,
) -> Result<Option<CheckFault>, Fail>
    requires { IsChecked primitives.now checked.old }
    ensures { OnOk result (IsChecked primitives.now checked.new) }
{
    if checked.modules().len() < 2 {
        return Err("no such modules".into());
    }
    let new = modules_of(alloc, new)?;
    match checked.replace(alloc, primitives, 0, 2, new) {
        Ok(()) => Ok(None),
        Err(CheckFault::Memory) => Err("memory".into()),
        Err(told) => Ok(Some(told)),
    }
}

// `f` and `g` go, and two others come in their places; the others do without `f`, or keep it.
fn are_replaced(
    alloc: Global,
    primitives: &Primitives<NoPrimitives>,
    checked: &mut Checked,
) -> Result<bool, Fail>
    requires { IsChecked primitives.now checked.old }
{
    let told = replaced(alloc, primitives, checked, "strategies i = id%rules")?;
    let is_refused = told.is_some_and(|told| is_unknown_f(&told)) && has(checked, 3, 3);
    let told = replaced(
        alloc,
        primitives,
        checked,
        "strategies i = g f = id%strategies g = f%rules",
    )?;
    Ok(is_refused && told.is_none() && has(checked, 4, 4))
}

fn are_replaced_from(alloc: Global) -> Result<bool, Fail> {
    let primitives = Primitives::new(Vec::new(alloc));
    let all = modules_of(
        alloc,
        "strategies f = !1%strategies g = f; !2%strategies h = f",
    )?;
    match Checked::new(alloc, all, &primitives) {
        Ok(mut checked) => are_replaced(alloc, &primitives, &mut checked),
        Err(_) => Err("a fault before".into()),
    }
}

#[test]
fn several_modules_are_replaced(rt: HostRuntime) -> Result<(), Fail> {
    assert!(rt; are_replaced_from(rt.alloc())?);
    Ok(())
}
