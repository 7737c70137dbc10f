//! Numbers that stand for nothing: the parts that contain them fail. No text leads to them.

use crate::calls::{Case, is_so};
use crate::rows::checked;
use prim_core::{NoPrimitives, Primitives};
use std::alloc::Global;
use std::test::Fail;
use strategy_syntax::{
    Resolved, ResolvedForm, ResolvedPattern, ResolvedPatternForm, ResolvedStrategy,
};
use term_core::{NoMemory, Term};

fn unknown_variable() -> ResolvedPattern {
    ResolvedPattern::new(ResolvedPatternForm::Variable(1))
}

// In a box, whose drop is a call.
fn whole(alloc: Global, form: ResolvedForm) -> Result<Box<Resolved>, NoMemory> {
    let strategy = Resolved {
        variables: 1,
        strategy: ResolvedStrategy::new(form),
    };
    Ok(Box::new(alloc, strategy)?)
}

// Whether it fails in one step, with one variable and no definition.
fn fails(alloc: Global, form: ResolvedForm) -> Result<bool, Fail> {
    let strategy = whole(alloc, form)?;
    fails_on_zero(alloc, &strategy)
}

fn fails_on_zero(alloc: Global, strategy: &Resolved) -> Result<bool, Fail> {
    let primitives: Primitives<NoPrimitives> = Primitives::new(Vec::new(alloc));
    let program = checked(alloc, &primitives)?;
    let term = Term::integer(alloc, 0);
    let tree = Term::tuple(
        alloc,
        vec![in alloc; Term::integer(alloc, 1), Term::integer(alloc, 0)]?,
    );
    let case = Case {
        program: &program,
        strategy,
        steps: 1,
        term: &term,
        tree: &tree,
        word: "fails",
        term_after: &term,
        tree_after: &tree,
        edits: 0,
        places: 0,
    };
    is_so(alloc, &primitives, &case)
}

fn child_zero(alloc: Global) -> Result<ResolvedForm, NoMemory> {
    let id = ResolvedStrategy::new(ResolvedForm::Id);
    Ok(ResolvedForm::Child(0, Box::new(alloc, id)?))
}

#[test]
fn unknown_numbers_fail(rt: HostRuntime) -> Result<(), Fail> {
    let alloc = rt.alloc();
    assert!(rt; fails(alloc, ResolvedForm::Match(unknown_variable()))?);
    assert!(rt; fails(alloc, ResolvedForm::Build(unknown_variable()))?);
    assert!(rt; fails(alloc, ResolvedForm::Param(0))?);
    assert!(rt;
        fails(
            alloc,
            ResolvedForm::Call(0, Vec::new(alloc), Vec::new(alloc))
        )?
    );
    assert!(rt; fails(alloc, ResolvedForm::Prim(0, Vec::new(alloc)))?);
    assert!(rt; fails(alloc, child_zero(alloc)?)?);
    Ok(())
}
