//! Where the definitions of a module are. A row is a text with a `^` before each definition that is
//! found and a `~` after it.

use std::alloc::{AllocError, Global};
use std::test::Fail;
use strategy_parse::{DefinitionTokens, definition_tokens};
use strategy_tokens::token_place;

fn without_marks(alloc: Global, row: &str) -> Result<Vec<u8>, AllocError> {
    let mut text = Vec::new(alloc);
    for byte in row.as_bytes().iter() {
        if *byte != b'^' && *byte != b'~' {
            text.push(*byte)?;
        }
    }
    Ok(text)
}

// The bytes of the definition, from its name on.
fn place(text: &[u8], found: DefinitionTokens) -> Option<(usize, usize)> {
    let first = token_place(text, found.first)?;
    let last = token_place(text, found.end.saturating_sub(1))?;
    Some((first.start, last.end))
}

fn with_marks(alloc: Global, text: &[u8]) -> Result<Vec<u8>, AllocError> {
    let mut whole = Vec::new(alloc);
    let mut done = 0usize;
    let found = definition_tokens(alloc, text).unwrap_or(Vec::new(alloc));
    for definition in found.iter() {
        let (start, end) = place(text, *definition).unwrap_or((0, 0));
        whole.extend_from_slice(text.get(done..start).unwrap_or(&[]))?;
        whole.extend_from_slice(b"^")?;
        whole.extend_from_slice(text.get(start..end).unwrap_or(&[]))?;
        whole.extend_from_slice(b"~")?;
        done = end;
    }
    whole.extend_from_slice(text.get(done..).unwrap_or(&[]))?;
    Ok(whole)
}

const ROWS: &str = r#"
module m
rules ^f = id~
module m signature sorts A constructors F : A rules ^f : F() -> G()~ ^g(s|x) : x -> y where s => y~
strategies ^f() = if id then fail end~ rules ^g = /* in g */ fail~ /* after g */ ^h : x -> x~
rules ^f = id~ g = )
rules ^f = id~ ^g = f; f~ module
sorts A rules f = id
module rules f = id
"#;

#[test]
fn definitions(rt: HostRuntime) -> Result<(), Fail> {
    let alloc = rt.alloc();
    for row in ROWS.trim().lines() {
        let text = without_marks(alloc, row)?;
        if with_marks(alloc, &text)?.as_slice() != row.as_bytes() {
            return Err(Fail::new(format_args!("at {row}")));
        }
    }
    Ok(())
}
