//! Worked rows of the program, on `run` and `status`: scripts with their answers and exit status.

use prim_core::Primitives;
use prim_extended::{Extended, extended_primitives};
use script_core::{Bytes, Framing, Held, Settings, run, status};
use session_core::{MAX_BUDGET, Session};
use session_loading::load_library;
use std::alloc::Global;
use std::test::Fail;

// Commands with their answers, and the exit status of the run. The commands that the row begins with
// are accepted before, and so is the library.
#[derive(Clone, Copy)]
struct Row {
    number: u32,
    library: bool,
    begins: &'static [&'static str],
    lines: &'static [(&'static str, &'static str)],
    status: u8,
}

const SIGNATURE: &str = "module sig signature constructors
  A : t B : t Z : t S : t -> t G : t -> t
  F : t * t -> t D : t * t -> t Plus : t * t -> t";

const ARITHMETIC: &str = "module arith rules
  P : Plus(x,y) -> z where <add> (x,y) => z
 strategies
  add = ?(x,y); prim(\"addi\",x,y)";

const ROWS: &[Row] = &[
    Row {
        number: 1,
        begins: &[],
        library: false,
        lines: &[
            ("tree t f(a,[1,2])", "ok"),
            ("show t", "f(a,[1,2])"),
            ("tree t g", "ok"),
            ("undo", "ok"),
            ("show t", "f(a,[1,2])"),
        ],
        status: 0,
    },
    Row {
        number: 2,
        begins: &[],
        library: false,
        lines: &[
            ("tree t  f ( \"x\\n\\101\" , -007 ) { a }", "ok"),
            ("show t", "f(\"x\\nA\",-7){a}"),
        ],
        status: 0,
    },
    Row {
        number: 3,
        begins: &[],
        library: false,
        lines: &[
            ("tree t f(a,)", "refused 7 term"),
            ("tree t f(a) b", "refused 7 term"),
            ("tree t 1.5", "refused 7 term"),
            ("tree t 9223372036854775808", "refused 7 term"),
            ("tree t", "refused 7 term"),
        ],
        status: 1,
    },
    Row {
        number: 3,
        begins: &[],
        library: false,
        lines: &[
            ("tree t \"abc", "refused 7 term"),
            ("tree t a{1}{2}", "refused 7 term"),
        ],
        status: 1,
    },
    Row {
        number: 3,
        begins: &[],
        library: false,
        lines: &[("tree t -0", "ok"), ("show t", "0")],
        status: 0,
    },
    Row {
        number: 5,
        begins: &[],
        library: false,
        lines: &[("undo", "refused 15 noundo"), ("history", "undo 0 redo 0")],
        status: 1,
    },
    Row {
        number: 6,
        begins: &[],
        library: false,
        lines: &[
            ("tree t a", "ok"),
            ("tree t b", "ok"),
            ("undo", "ok"),
            ("tree t c", "ok"),
            ("redo", "refused 16 noredo"),
            ("show t", "c"),
            ("undo 3", "refused 15 noundo"),
            ("undo 2", "ok"),
            ("trees", "trees"),
        ],
        status: 1,
    },
    Row {
        number: 7,
        begins: &[],
        library: false,
        lines: &[
            ("tree t f(a)", "ok"),
            ("apply t do (!b; fail) <+ id", "ok"),
            ("show t", "f(a)"),
            ("history", "undo 2 redo 0"),
        ],
        status: 0,
    },
    Row {
        number: 8,
        begins: &[SIGNATURE],
        library: false,
        lines: &[
            ("tree t F(A,A)", "ok"),
            ("apply t do (F(!B(), id); !A(); fail) <+ F(id, !B())", "ok"),
            ("show t", "F(A,B)"),
            ("undo", "ok"),
            ("show t", "F(A,A)"),
        ],
        status: 0,
    },
    Row {
        number: 9,
        begins: &[],
        library: false,
        lines: &[
            ("tree t A", "ok"),
            ("apply t do (?x; fail) <+ !x", "refused 12 fails"),
            ("apply t do id < fail + id", "refused 12 fails"),
        ],
        status: 1,
    },
    Row {
        number: 10,
        begins: &[],
        library: false,
        lines: &[
            ("tree t A", "ok"),
            ("apply t do all(fail)", "ok"),
            ("apply t do one(id)", "refused 12 fails"),
            ("apply t do some(id)", "refused 12 fails"),
        ],
        status: 1,
    },
    Row {
        number: 11,
        begins: &[SIGNATURE],
        library: true,
        lines: &[
            ("tree t A", "ok"),
            ("apply t do try(?x); !F(x,x)", "ok"),
            ("show t", "F(A,A)"),
        ],
        status: 0,
    },
    Row {
        number: 12,
        begins: &[SIGNATURE],
        library: true,
        lines: &[
            ("tree t G(A)", "ok"),
            ("apply t within 9 do topdown(id)", "refused 13 spent"),
            ("apply t within 10 do topdown(id)", "ok"),
        ],
        status: 1,
    },
    Row {
        number: 12,
        begins: &[],
        library: false,
        lines: &[
            ("tree t a", "ok"),
            ("apply t within 1 do fail; id", "refused 13 spent"),
            ("apply t within 2 do fail; id", "refused 12 fails"),
        ],
        status: 1,
    },
    Row {
        number: 13,
        begins: &[SIGNATURE, ARITHMETIC],
        library: true,
        lines: &[
            ("tree t Plus(1,Plus(2,3))", "ok"),
            ("apply t do innermost(P)", "ok"),
            ("show t", "6"),
        ],
        status: 0,
    },
    Row {
        number: 13,
        begins: &[SIGNATURE, ARITHMETIC],
        library: true,
        lines: &[
            ("tree t Plus(9223372036854775807,1)", "ok"),
            ("apply t do innermost(P)", "ok"),
            ("show t", "Plus(9223372036854775807,1)"),
        ],
        status: 0,
    },
    Row {
        number: 14,
        begins: &[SIGNATURE],
        library: true,
        lines: &[
            ("tree t Z", "ok"),
            ("apply t do repeat(\\ x -> S(x) \\)", "refused 14 big"),
            ("apply t do repeat(\\ x -> D(x,x) \\)", "refused 14 big"),
            ("show t", "Z"),
            ("apply t do repeat(?x; !S(x))", "ok"),
            ("show t", "S(Z)"),
        ],
        status: 1,
    },
    Row {
        number: 15,
        begins: &[],
        library: false,
        lines: &[
            ("module m strategies f = id", "ok"),
            ("unload m", "ok"),
            ("undo", "ok"),
            ("tree t a", "ok"),
            ("apply t do f", "ok"),
            ("module n strategies g = f", "ok"),
            ("unload m", "refused 11 unknown f 0 0"),
            ("modules", "modules m n"),
            ("text m", "strategies f = id"),
        ],
        status: 1,
    },
    Row {
        number: 16,
        begins: &[SIGNATURE],
        library: false,
        lines: &[
            ("tree t A{1}", "ok"),
            ("apply t do ?A()", "ok"),
            ("apply t do ?A(){2}", "refused 12 fails"),
            ("tree u F(A{1},A)", "ok"),
            ("apply u do ?F(x,x)", "refused 12 fails"),
        ],
        status: 1,
    },
    Row {
        number: 17,
        begins: &[],
        library: false,
        lines: &[
            ("tree t f(a)", "ok"),
            ("annotate t /0 {\"k\"}", "ok"),
            ("show t", "f(a{\"k\"})"),
            ("undo", "ok"),
            ("show t", "f(a)"),
            ("redo", "ok"),
            ("put t /0 b", "ok"),
            ("undo", "ok"),
            ("show t at /0", "a{\"k\"}"),
            ("annotate t /7 {}", "refused 9 path"),
        ],
        status: 1,
    },
    Row {
        number: 19,
        begins: &[],
        library: false,
        lines: &[
            ("tree t f(a,b)", "ok"),
            ("put t /1 g([])", "ok"),
            ("show t", "f(a,g([]))"),
            ("show t at /1/0", "[]"),
        ],
        status: 0,
    },
    Row {
        number: 20,
        begins: &[],
        library: false,
        lines: &[
            ("tree b x", "ok"),
            ("tree a y", "ok"),
            ("copy a c", "ok"),
            ("drop b", "ok"),
            ("trees", "trees a c"),
            ("undo", "ok"),
            ("dump", "tree a y\ntree b x\ntree c y"),
        ],
        status: 0,
    },
    Row {
        number: 21,
        begins: &[SIGNATURE],
        library: true,
        lines: &[
            ("tree t [A,A]{1}", "ok"),
            ("apply t do map(!B())", "ok"),
            ("show t", "[B,B]{1}"),
            ("apply t do [id|!A()]", "refused 12 fails"),
            ("tree u G(G(A))", "ok"),
            ("apply u do rec x(G(x) <+ !B())", "ok"),
            ("show u", "G(G(B))"),
        ],
        status: 1,
    },
    Row {
        number: 22,
        begins: &[],
        library: false,
        lines: &[
            ("frob", "refused 2 line"),
            ("undo 0", "refused 2 line"),
            ("show", "refused 2 line"),
            ("show t at 0", "refused 2 line"),
            ("tree 9 a", "refused 4 name"),
            ("show zz", "refused 5 notree"),
            ("put zz /0 f(", "refused 5 notree"),
        ],
        status: 1,
    },
    Row {
        number: 22,
        begins: &[],
        library: false,
        lines: &[("text zz", "refused 6 nomodule")],
        status: 1,
    },
    Row {
        number: 23,
        begins: &[],
        library: false,
        lines: &[
            ("tree t a", "ok"),
            ("apply t do id;", "refused 10 syntax"),
            ("apply t do !Q()", "refused 11 undeclared Q 0 0"),
            ("apply t do !_", "refused 11 wild _ 0 0"),
            (
                "apply t do prim(\"addi\",1)",
                "refused 11 primitive \"addi\" 1 0",
            ),
            ("apply t do {x,x: id}", "refused 11 parameter x 0 0"),
        ],
        status: 1,
    },
    Row {
        number: 23,
        begins: &[],
        library: false,
        lines: &[
            ("tree t a", "ok"),
            ("apply t do g(id|1)", "refused 11 unknown g 1 1"),
        ],
        status: 1,
    },
    Row {
        number: 24,
        begins: &[],
        library: false,
        lines: &[
            ("module a strategies f = fail f = id", "ok"),
            ("module b strategies f = id", "refused 11 twice f 0 0"),
            (
                "module c signature constructors H : t -> t strategies H(s) = s",
                "refused 11 clash H 1 0",
            ),
            ("tree t x", "ok"),
            ("apply t within 3 do f", "refused 13 spent"),
            ("apply t within 4 do f", "ok"),
        ],
        status: 1,
    },
];

// A text that is another text this many times.
#[derive(Clone, Copy)]
struct Times(&'static str, usize);

// A script of pieces, its answers, and the exit status.
#[derive(Clone, Copy)]
struct Long {
    number: u32,
    script: &'static [Times],
    answers: &'static [Times],
    status: u8,
}

const LONG: &[Long] = &[
    Long {
        number: 4,
        script: &[Times("tree t ", 1), Times("[", 1001), Times("\n", 1)],
        answers: &[Times("refused 8 deep\n", 1)],
        status: 1,
    },
    Long {
        number: 4,
        script: &[
            Times("tree t ", 1),
            Times("[", 1000),
            Times("]", 1000),
            Times("\nshow t\n", 1),
        ],
        answers: &[
            Times("ok\n", 1),
            Times("[", 1000),
            Times("]", 1000),
            Times("\n", 1),
        ],
        status: 0,
    },
    Long {
        number: 4,
        script: &[
            Times("tree t ", 1),
            Times("[", 1000),
            Times("a", 1),
            Times("]", 1000),
            Times("\n", 1),
        ],
        answers: &[Times("refused 14 big\n", 1)],
        status: 1,
    },
    Long {
        number: 5,
        script: &[],
        answers: &[],
        status: 0,
    },
    Long {
        number: 18,
        script: &[
            Times("tree t \"", 1),
            Times("x", 65_528),
            Times("\"\ntrees\n", 1),
        ],
        answers: &[Times("refused 3 long\ntrees\n", 1)],
        status: 1,
    },
    Long {
        number: 18,
        script: &[
            Times("tree t \"", 1),
            Times("x", 65_527),
            Times("\"\ntrees\n", 1),
        ],
        answers: &[Times("ok\ntrees t\n", 1)],
        status: 0,
    },
    Long {
        number: 19,
        script: &[
            Times("tree t f(a,b)\nput t /0 ", 1),
            Times("[", 1000),
            Times("]", 1000),
            Times("\n", 1),
        ],
        answers: &[Times("ok\nrefused 14 big\n", 1)],
        status: 1,
    },
    Long {
        number: 23,
        script: &[
            Times("tree t a\napply t do id", 1),
            Times(";id", 2000),
            Times("\n", 1),
        ],
        answers: &[Times("ok\nrefused 8 deep\n", 1)],
        status: 1,
    },
    Long {
        number: 25,
        script: &[Times("tree t f(\n  a)\n# note\n\nshow t\n", 1)],
        answers: &[Times("ok\nf(a)\n", 1)],
        status: 0,
    },
];

fn settings(stop: bool) -> Settings {
    Settings {
        steps: MAX_BUDGET,
        stop,
        framing: Framing::Continued,
    }
}

// A new session, as the program has it.
fn new_session(alloc: Global) -> Result<Box<Session<Extended>>, Fail> {
    let session = Session::new(alloc, Primitives::new(extended_primitives(alloc)?));
    Ok(Box::new(alloc, session)?)
}

// Whether a run of the script gives these answers and this exit status.
fn goes(
    alloc: Global,
    session: &mut Session<Extended>,
    script: &[u8],
    stop: bool,
    answers: &[u8],
    wanted: u8,
) -> bool {
    let mut held = Held::new(alloc);
    let ended = run(
        alloc,
        session,
        &mut Bytes::new(script),
        &mut held,
        settings(stop),
    );
    status(&ended) == wanted && held.bytes() == answers
}

fn repeated(alloc: Global, pieces: &[Times]) -> Result<Vec<u8>, Fail> {
    let mut all = Vec::new(alloc);
    for Times(text, times) in pieces {
        for _ in 0..*times {
            all.extend_from_slice(text.as_bytes())?;
        }
    }
    Ok(all)
}

fn row_goes(alloc: Global, row: &Row) -> Result<bool, Fail> {
    let mut session = new_session(alloc)?;
    if row.library && load_library(alloc, &mut session).is_err() {
        return Ok(false);
    }
    let mut script = Vec::new(alloc);
    let mut answers = Vec::new(alloc);
    for command in row.begins {
        append_line(&mut script, command)?;
        append_line(&mut answers, "ok")?;
    }
    for (command, answer) in row.lines {
        append_line(&mut script, command)?;
        append_line(&mut answers, answer)?;
    }
    Ok(goes(alloc, &mut session, &script, false, &answers, row.status))
}

fn append_line(all: &mut Vec<u8>, text: &str) -> Result<(), Fail> {
    all.extend_from_slice(text.as_bytes())?;
    all.push(b'\n')?;
    Ok(())
}

fn long_goes(alloc: Global, row: &Long) -> Result<bool, Fail> {
    let script = repeated(alloc, row.script)?;
    let answers = repeated(alloc, row.answers)?;
    let mut session = new_session(alloc)?;
    Ok(goes(alloc, &mut session, &script, false, &answers, row.status))
}

#[test]
fn rows_go(rt: HostRuntime) -> Result<(), Fail> {
    for row in ROWS {
        assert!(rt; row_goes(rt.alloc(), row)?, "row {}", row.number);
    }
    Ok(())
}

#[test]
fn long_rows_go(rt: HostRuntime) -> Result<(), Fail> {
    for row in LONG {
        assert!(rt; long_goes(rt.alloc(), row)?, "row {}", row.number);
    }
    Ok(())
}

#[test]
fn a_refusal_stops(rt: HostRuntime) -> Result<(), Fail> {
    let mut session = new_session(rt.alloc())?;
    let (script, answers) = (b"undo\nhistory\n", b"refused 15 noundo\n");
    assert!(rt; goes(rt.alloc(), &mut session, script, true, answers, 1));
    Ok(())
}
