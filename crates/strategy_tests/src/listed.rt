//! All faults of modules and of strategies, with the places that no contract sees. A row is the texts
//! of modules, separated by `%`, or of a strategy, and then a line for each fault: its kind, name and
//! numbers, the indices of its module and definition, and the number and text of its first token up
//! to its last one.

use crate::replacing::modules_of;
use prim_core::{NoPrimitives, Primitives};
use std::alloc::{AllocError, Global};
use std::test::Fail;
use strategy_check::{DefinitionIndex, FoundFault, all_faults, all_strategy_faults, check};
use strategy_parse::{bytes_of, parse_strategy, token_count};

// The text from the first token of the fault up to its last one, after the number of the first.
fn add_place(
    alloc: Global,
    text: &str,
    found: &FoundFault,
    line: &mut Vec<u8>,
) -> Result<(), AllocError> {
    let text = text.as_bytes();
    let Some(tokens) = found.place().tokens(token_count(text) as usize) else {
        return Ok(line.extend_from_slice(b" nowhere")?);
    };
    let number = format!(in alloc; " {} ", tokens.first)?;
    line.extend_from_slice(number.as_bytes())?;
    if let Some(bytes) = bytes_of(text, tokens.first, tokens.end) {
        line.extend_from_slice(text.get(bytes.start..bytes.end).unwrap_or(&[]))?;
    }
    Ok(())
}

fn add_fault(
    alloc: Global,
    texts: &str,
    found: &FoundFault,
    lines: &mut Vec<u8>,
) -> Result<(), AllocError> {
    lines.extend_from_slice(b"\n    ")?;
    lines.extend_from_slice(found.kind().word().as_bytes())?;
    lines.extend_from_slice(b" ")?;
    lines.extend_from_slice(found.name().bytes())?;
    let numbers = format!(in alloc; " {} {}", found.first(), found.second())?;
    lines.extend_from_slice(numbers.as_bytes())?;
    let text = match found.definition() {
        None => texts,
        Some(DefinitionIndex { module, definition }) => {
            let at = format!(in alloc; " {module}.{definition}")?;
            lines.extend_from_slice(at.as_bytes())?;
            texts.split('%').nth(module).unwrap_or("")
        }
    };
    add_place(alloc, text, found, lines)
}

fn lines_of(alloc: Global, texts: &str, all: &[FoundFault]) -> Result<Vec<u8>, AllocError> {
    let mut lines = Vec::new(alloc);
    lines.extend_from_slice(texts.as_bytes())?;
    for found in all {
        add_fault(alloc, texts, found, &mut lines)?;
    }
    Ok(lines)
}

const MODULES: &str = r#"
strategies f(s,t,s|x,x) = s(id); t g = h; !(_,y@1,C(y)); ?(_,z@D()); prim("p",y)%signature sorts A constructors G : A strategies g = id G = fail
    parameter s 0 0 0.0 7 s
    parameter x 0 0 0.0 11 x
    parameter s 1 0 0.0 14 s(id)
    unknown h 0 0 0.1 22 h
    wild _ 0 0 0.1 26 _
    wild y 0 0 0.1 28 y@1
    undeclared C 1 0 0.1 32 C(y)
    undeclared D 0 0 0.1 44 D()
    primitive p 1 0 0.1 49 prim("p",y)
    twice g 0 0 1.0 8 g
    clash G 0 0 1.1 11 G
"#;

// The third fault, of `x(id)`, isn't wanted.
const STRATEGY: &str = r#"
{x,x: f}; rec x(x(id))
    parameter x 0 0 3 x
    unknown f 0 0 5 f
"#;

// Whether the texts in the first line of the row and the faults make the row.
fn is_row(alloc: Global, row: &str, found: &[FoundFault]) -> Result<bool, Fail> {
    let lines = lines_of(alloc, row.lines().next().unwrap_or(""), found)?;
    Ok(lines.as_slice() == row.as_bytes())
}

#[test]
fn faults_of_modules(rt: HostRuntime) -> Result<(), Fail> {
    let alloc = rt.alloc();
    let primitives: Primitives<NoPrimitives> = Primitives::new(Vec::new(alloc));
    let row = MODULES.trim();
    let modules = modules_of(alloc, row.lines().next().unwrap_or(""))?;
    let first = modules.get(..1).unwrap_or(&[]);
    let rest = modules.get(1..).unwrap_or(&[]);
    let found = all_faults(alloc, first, rest, &[], &primitives, 20)?;
    assert!(rt; is_row(alloc, row, &found)?);
    Ok(())
}

#[test]
fn faults_of_a_strategy(rt: HostRuntime) -> Result<(), Fail> {
    let alloc = rt.alloc();
    let primitives: Primitives<NoPrimitives> = Primitives::new(Vec::new(alloc));
    let row = STRATEGY.trim();
    let program = check(alloc, &[], &primitives)?;
    let strategy = parse_strategy(alloc, row.lines().next().unwrap_or("").as_bytes())?;
    let found = all_strategy_faults(alloc, &program, &primitives, &strategy, 2)?;
    assert!(rt; is_row(alloc, row, &found)?);
    Ok(())
}
