//! A host's primitives: `pick`, and the standard ones, each in a box.

ghost use Rattle.std.specs.Prelude.{◌≡◌, length, codes};
ghost use Rattle.prim_core.specs.Computes.{Computes};
ghost use Rattle.prim_core.specs.StandardTable.{ComputeStandard};
ghost use Rattle.host_example.specs.Pick.{choices as three_choices};

use super::settings;
use host_example::{Picking, choices, pick};
use prim_core::{
    BoxedOperation, Meaning, Primitive, Primitives, Standard, StandardOperations, addi, divi, gti,
    int_to_string, muli, standard_primitives, strcat, string_to_int, strlen, subti,
};
use script_core::{Bytes, Framing, Held, run};
use session_core::Session;
use std::alloc::Global;
use std::test::Fail;
use term_core::{NoMemory, Term};

// Whether a new session with these primitives gives these answers.
fn is_answered<M: Meaning>(
    alloc: Global,
    primitives: Vec<Primitive<M>>,
    script: &[u8],
    answers: &[u8],
) -> Result<bool, Fail> {
    let session = Session::new(alloc, Primitives::new(primitives));
    let mut session = Box::new(alloc, session)?;
    let mut source = Bytes::new(script);
    let mut sink = Held::new(alloc);
    let settings = settings(Framing::Continued, false);
    let ended = run(alloc, &mut session, &mut source, &mut sink, settings);
    Ok(ended.is_ok() && sink.bytes() == answers)
}

// The operation is arbitrary, as long as it computes what its name means.
fn is_answered_by_pick<M: Meaning>(
    alloc: Global,
    pick: M::Operation,
    script: &[u8],
    answers: &[u8],
) -> Result<bool, Fail>
    requires { Computes M.Operation.may_run M.Operation.answers pick 1
        (M.meaning (codes "pick")) }
{
    let name = Vec::from_slice(alloc, b"pick")?;
    let mut primitives = Vec::new(alloc);
    primitives.push(Primitive::<M>::new(name, 1, pick))?;
    is_answered(alloc, primitives, script, answers)
}

// Whether a session with `pick` gives these answers. The closure owns its choices.
fn is_picked(alloc: Global, script: &[u8], answers: &[u8]) -> Result<bool, Fail> {
    let choices = choices(alloc)?;
    let operation: BoxedOperation = Box::new(
        alloc,
        move |_alloc: Global, arguments: &[Term]| -> Result<Option<Term>, NoMemory>
            requires choices { choices.items ≡ three_choices }
            requires one { length arguments.now ≡ 1 }
        { pick(&choices, arguments) },
    )?;
    is_answered_by_pick::<Picking>(alloc, operation, script, answers)
}

const PICKS: &[u8] = b"tree t [0,1,2]
apply t do all({x: ?x; prim(\"pick\",x)})
show t
tree t [3,a]
apply t do one({x: ?x; prim(\"pick\",x)})
apply t do ?x; prim(\"addi\",x,x)
";

const PICKED: &[u8] = b"ok
ok
[a,b,c]
ok
refused 12 fails
refused 11 primitive \"addi\" 2 0
";

#[test]
fn hosts_have_primitives_of_their_own(rt: HostRuntime) -> Result<(), Fail> {
    assert!(rt; is_picked(rt.alloc(), PICKS, PICKED)?);
    Ok(())
}

// The operations are arbitrary, as long as they compute what their names mean.
fn is_answered_by_standard<M: Meaning>(
    alloc: Global,
    operations: StandardOperations<M::Operation>,
    script: &[u8],
    answers: &[u8],
) -> Result<bool, Fail>
    requires { ComputeStandard M.Operation.may_run M.Operation.answers M.meaning operations }
{
    let primitives = standard_primitives::<M>(alloc, operations)?;
    is_answered(alloc, primitives, script, answers)
}

// Whether a session with the standard primitives, in boxes, gives these answers.
fn is_standard(alloc: Global, script: &[u8], answers: &[u8]) -> Result<bool, Fail> {
    let operations: StandardOperations<BoxedOperation> = StandardOperations {
        addi: Box::new(alloc, addi)?,
        subti: Box::new(alloc, subti)?,
        muli: Box::new(alloc, muli)?,
        divi: Box::new(alloc, divi)?,
        gti: Box::new(alloc, gti)?,
        strcat: Box::new(alloc, strcat)?,
        strlen: Box::new(alloc, strlen)?,
        int_to_string: Box::new(alloc, int_to_string)?,
        string_to_int: Box::new(alloc, string_to_int)?,
    };
    is_answered_by_standard::<Standard>(alloc, operations, script, answers)
}

const CALLS: &[u8] = b"tree t 7
apply t do ?a; prim(\"addi\",a,1); ?b; prim(\"muli\",b,3); ?c; prim(\"subti\",c,4); ?d; prim(\"divi\",d,2)
apply t do ?a; prim(\"gti\",a,9); ?(b,_); prim(\"int-to-string\",b); ?c; prim(\"strcat\",c,\"5\")
apply t do ?a; prim(\"string-to-int\",a); ?b; prim(\"strlen\",a); ?c; !(c,b)
show t
";

const CALLED: &[u8] = b"ok
ok
ok
ok
(3,105)
";

#[test]
fn hosts_have_the_standard_primitives(rt: HostRuntime) -> Result<(), Fail> {
    assert!(rt; is_standard(rt.alloc(), CALLS, CALLED)?);
    Ok(())
}
