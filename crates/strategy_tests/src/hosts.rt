//! A host's own primitives, `pick` and `wants`.

ghost use Rattle.std.specs.Prelude.{◌≡◌, length, codes};
ghost use Rattle.prim_core.specs.Computes.{Computes};
ghost use Rattle.host_example.specs.Pick.{choices as three_choices};

use crate::rows::is_row;
use host_example::{Picking, choices, pick, want};
use prim_core::{BoxedOperation, Meaning, Primitive, Primitives};
use std::alloc::Global;
use std::test::Fail;
use term_core::{NoMemory, Term};

// The operations are arbitrary, as long as they compute what their names mean.
fn first_wrong_by<M: Meaning>(
    alloc: Global,
    picks: M::Operation,
    wants: M::Operation,
) -> Result<Option<&'static str>, Fail>
    requires first { Computes M.Operation.may_run M.Operation.answers picks 1
        (M.meaning (codes "pick")) }
    requires second { Computes M.Operation.may_run M.Operation.answers wants 0
        (M.meaning (codes "wants")) }
{
    let pick = Vec::from_slice(alloc, b"pick")?;
    let want = Vec::from_slice(alloc, b"wants")?;
    let mut primitives = Vec::new(alloc);
    primitives.push(Primitive::<M>::new(pick, 1, picks))?;
    primitives.push(Primitive::<M>::new(want, 0, wants))?;
    first_wrong_among(alloc, &Primitives::new(primitives))
}

fn first_wrong_among<M: Meaning>(
    alloc: Global,
    primitives: &Primitives<M>,
) -> Result<Option<&'static str>, Fail> {
    for line in ROWS.trim().lines() {
        if !is_row(alloc, primitives, line)? {
            return Ok(Some(line));
        }
    }
    Ok(None)
}

// The first row that fails, with a closure that owns its choices.
fn first_wrong(alloc: Global) -> Result<Option<&'static str>, Fail> {
    let choices = choices(alloc)?;
    let picks: BoxedOperation = Box::new(
        alloc,
        move |_alloc: Global, arguments: &[Term]| -> Result<Option<Term>, NoMemory>
            requires choices { choices.items ≡ three_choices }
            requires one { length arguments.now ≡ 1 }
        { pick(&choices, arguments) },
    )?;
    let wants: BoxedOperation = Box::new(alloc, want)?;
    first_wrong_by::<Picking>(alloc, picks, wants)
}

#[test]
fn hosts_have_primitives_of_their_own(rt: HostRuntime) -> Result<(), Fail> {
    assert_eq!(rt; first_wrong(rt.alloc())?, None);
    Ok(())
}

const ROWS: &str = r#"
prim("pick",0) ;; Z ;; 1 ;; gives ;; a ;; 1 ;; 1
prim("pick",1) ;; Z ;; 1 ;; gives ;; b ;; 1 ;; 1
?x; prim("pick",x) ;; 2 ;; 3 ;; gives ;; c ;; 1 ;; 1
?x; prim("pick",x) ;; 3 ;; 3 ;; fails ;; 3 ;; 0 ;; 0
?x; prim("pick",x) ;; a ;; 3 ;; fails ;; a ;; 0 ;; 0
all({x: ?x; prim("pick",x)}) ;; [0,1,2]{3} ;; 13 ;; gives ;; [a,b,c]{3} ;; 3 ;; 3
all({x: ?x; prim("pick",x)}) ;; [0,1,3] ;; 13 ;; fails ;; [0,1,3] ;; 0 ;; 0
some(?x; prim("pick",x)) ;; [0,1] ;; 6 ;; gives ;; [a,1] ;; 1 ;; 1
some({x: ?x; prim("pick",x)}) ;; [0,7,1] ;; 13 ;; gives ;; [a,7,b] ;; 2 ;; 2
prim("wants") ;; Z ;; 1 ;; memory ;; Z ;; 0 ;; 0
prim("wants") <+ id ;; Z ;; 2 ;; memory ;; Z ;; 0 ;; 0
not(prim("wants")) ;; Z ;; 2 ;; memory ;; Z ;; 0 ;; 0
test(prim("wants")) ;; Z ;; 2 ;; memory ;; Z ;; 0 ;; 0
fail; prim("wants") ;; Z ;; 2 ;; fails ;; Z ;; 0 ;; 0
all(prim("wants")) ;; [] ;; 1 ;; gives ;; [] ;; 0 ;; 0
all(prim("wants")) ;; [Z] ;; 2 ;; memory ;; [Z] ;; 0 ;; 0
[prim("pick",0),prim("wants")] ;; [Z,Z] ;; 3 ;; memory ;; [Z,Z] ;; 0 ;; 0
!5; prim("wants"); !6 ;; Z ;; 4 ;; memory ;; Z ;; 0 ;; 0
some(?0; prim("wants")) ;; [1,0] ;; 6 ;; memory ;; [1,0] ;; 0 ;; 0
rec x(1(x) <+ prim("wants")) ;; [[Z]] ;; 12 ;; memory ;; [[Z]] ;; 0 ;; 0
"#;
