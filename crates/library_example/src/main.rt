//! Reads a term, shows what a strategy replaces in it, makes the change, and takes it back.
#![tactic(auto)]

use anyhow::Result;
use aterm_text::{print, read};
use prim_core::{NoPrimitives, Primitives};
use session_core::{Preview, Session};
use std::io::{Read, Write};
use term_core::{Label, Term};
use term_paths::Path;

const MODULE: &[u8] = b"signature constructors Plus : e * e -> e
  rules Unit : Plus(x,0) -> x
  strategies simplify = Unit <+ all(simplify)";

fn main(rt: HostRuntime) -> Result<()> {
    let alloc = rt.alloc();
    let mut session = Session::new(alloc, Primitives::new(Vec::new(alloc)));
    run(&rt, &mut session)
}

fn run(rt: &HostRuntime, session: &mut Session<NoPrimitives>) -> Result<()> {
    let sum = Label::read(rt.alloc(), b"sum")?;
    session.set_module(&sum, MODULE)?;
    session.set_tree(&sum, read_term(rt)?)?;
    simplify(rt, session, &sum)
}

fn read_term(rt: &HostRuntime) -> Result<Term> {
    let mut text = Vec::new(rt.alloc());
    let _ = rt.stdin().read_to_end(&mut text)?;
    Ok(read(rt.alloc(), &text)?)
}

fn simplify(rt: &HostRuntime, session: &mut Session<NoPrimitives>, sum: &Label) -> Result<()> {
    let root = Path::root(rt.alloc());
    show_places(rt, &session.preview(sum, &root, 1000, b"simplify")?)?;
    session.apply(sum, &root, 1000, b"simplify")?;
    show_tree(rt, session.tree(sum))?;
    session.undo(1)?;
    show_tree(rt, session.tree(sum))
}

fn show_places(rt: &HostRuntime, preview: &Preview) -> Result<()> {
    let mut places = preview.places();
    for _ in 0..places.count() {
        if let Some((path, term)) = places.next() {
            print!(rt; "{path:?} => ")?;
            show_tree(rt, Some(term))?;
        }
    }
    Ok(())
}

fn show_tree(rt: &HostRuntime, tree: Option<&Term>) -> Result<()> {
    let mut line = Vec::new(rt.alloc());
    if let Some(term) = tree {
        print(term, &mut line)?;
    }
    line.push(b'\n')?;
    rt.stdout().write_all(&line)?;
    Ok(())
}
