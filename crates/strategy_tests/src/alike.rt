//! Texts that are parsed as the same strategy or module, and texts that aren't. A row has ` == ` or
//! ` != ` between its two texts; one of them writes out what the other says in short.

use std::alloc::Global;
use std::test::Fail;
use strategy_parse::{MAX_TOKENS, parse_module, parse_strategy};
use strategy_syntax::{Module, Strategy};

// In a box, here and below: a box is dropped by a call, while the drop of its content is proved
// anew on each way out.
fn strategy(alloc: Global, text: &[u8]) -> Result<Box<Strategy>, Fail> {
    Ok(Box::new(alloc, parse_strategy(alloc, text)?)?)
}

fn module(alloc: Global, text: &str) -> Result<Box<Module>, Fail> {
    Ok(Box::new(alloc, parse_module(alloc, text.as_bytes(), MAX_TOKENS)?)?)
}

fn are_alike(alloc: Global, one: &[u8], other: &[u8]) -> Result<bool, Fail> {
    let one = strategy(alloc, one)?;
    let other = strategy(alloc, other)?;
    Ok(one.equals(&other))
}

fn are_alike_as_modules(alloc: Global, one: &str, other: &str) -> Result<bool, Fail> {
    let one = module(alloc, one)?;
    let other = module(alloc, other)?;
    Ok(one.equals(&other))
}

// The two texts of a row, and whether they are alike.
fn parts(row: &str) -> Result<(&str, &str, bool), Fail> {
    if let Some((one, other)) = row.split_once(" == ") {
        return Ok((one, other, true));
    }
    let (one, other) = row.split_once(" != ").ok_or("no row")?;
    Ok((one, other, false))
}

fn is_row(alloc: Global, row: &str) -> Result<bool, Fail> {
    let (one, other, alike) = parts(row)?;
    Ok(are_alike(alloc, one.as_bytes(), other.as_bytes())? == alike)
}

fn is_row_of_modules(alloc: Global, row: &str) -> Result<bool, Fail> {
    let (one, other, alike) = parts(row)?;
    Ok(are_alike_as_modules(alloc, one, other)? == alike)
}

const STRATEGIES: &str = r#"
a < b + c <+ d == a < b + (c < id + d)
a <+ b <+ c == a < id + (b < id + c)
id; fail; id == id; (fail; id)
(id; fail); id != id; (fail; id)
?x; !x => y == ?x; (!x; ?y)
a => x => y == (a; ?x); ?y
<f> x => y == (!x; f); ?y
if id then fail end == test(id) < fail + id
if id then fail else a end == test(id) < fail + a
not(id) == id < fail + id
where(id); test(id) == test(id); test(id)
all(one(some(id))) == all ( one ( some ( id ) ) )
all(one(some(id))) != all(some(one(id)))
rec x(x) == rec x (x())
rec x(x) != rec y(x)
2(id) == 2 (id)
2(id) != 1(id)
{:id} != id
{x,y:?x;!y} == {x, y: (?x; !y)}
{x,y:?x;!y} != {y,x:?x;!y}
\ F(x) -> x where id \ == {x: ?F(x); (test(id); !x)}
\ (x,y{x,z}) -> x \ == {x,y,z: ?(x,y{x,z}); !x}
/* /* */ id // fail == id
((id)) == id
(a) == a
() != []
(a,b) == ( a , (b) )
(a,b) != [a,b]
[a] != [a|a]
[a,b|c] == [a,b|(c)]
[a,b|c] != [a,b,c]
f(s|) == f(s)
f(|) == f
f(|x) != f(x)
f(a,b|x,1) == f(a(),(b)|x,01)
f(a,b|x,1) != f(a,b|1,x)
prim("addi",x,y) == prim ( "addi" , x , y )
prim("addi",x,y) != prim("addi",y,x)
prim("p") != prim("q")
?_ != ?x
?x@y@_ == ? x @ y @ _
?x@y@_ != ?y@x@_
?-07 == ?-7
?f() != ?f
?f(x,_) != ?f(_,x)
?[] != ?()
?[x,y|z] != ?[x,y,z]
?(x) != ?x
?x{} != ?x
!f(x){y,1} != !f(x){1,y}
?x@f{y} != ?x@f
?"s\n" == ?"s\012"
?"s" != ?s()
"#;

#[test]
fn strategies_are_alike(rt: HostRuntime) -> Result<(), Fail> {
    for row in STRATEGIES.trim().lines() {
        assert!(rt; is_row(rt.alloc(), row)?, "at {row}");
    }
    Ok(())
}

// The middle with so many of the others before and after it.
fn nested(
    alloc: Global,
    before: &[u8],
    middle: &[u8],
    after: &[u8],
    count: usize,
) -> Result<Vec<u8>, Fail> {
    let mut text = Vec::new(alloc);
    for _ in 0..count {
        text.extend_from_slice(before)?;
    }
    text.extend_from_slice(middle)?;
    for _ in 0..count {
        text.extend_from_slice(after)?;
    }
    Ok(text)
}

// The deepest syntax that 4,000 tokens spell, compared and dropped on a stack of 8 MiB: a closure
// with a condition has six tokens and stands for four levels.
fn deepest_are_alike(alloc: Global) -> Result<bool, Fail> {
    let strategy = nested(alloc, b"\\x -> x where ", b"id", b"\\ ", 666)?;
    let pattern = nested(alloc, b"[", b"x", b"]", 1999)?;
    let pattern = nested(alloc, b"?", &pattern, b"", 1)?;
    Ok(are_alike(alloc, &strategy, &strategy)? && are_alike(alloc, &pattern, &pattern)?)
}

#[test]
fn deep_strategies_are_alike(rt: HostRuntime) -> Result<(), Fail> {
    assert!(rt; deepest_are_alike(rt.alloc())?);
    Ok(())
}

const MODULES: &str = r#"
// nothing == module m signature signature sorts sorts constructors rules strategies rules
strategies f = id == module m rules f(|) = id
module a strategies f = fail f = id != strategies f = id f = fail
rules f = g g = id signature constructors A : t == signature constructors A : t strategies f = g g = id
strategies R : x -> x f = id rules g = f == strategies R = {x: ?x; !x} f = id g = f
signature constructors A : t S : t -> t F : t * t -> t != signature constructors A : a S : b -> c F : c(a) * b -> a
signature constructors F : a * b -> a != signature constructors F : b * a -> a
signature constructors F : a(b,c) -> a != signature constructors F : a(c,b) -> a
signature constructors : a -> b != signature constructors : b -> a
signature constructors F : string * List(List(a)) -> a : List -> string == signature constructors F : str * list(list(a)) -> a : list -> str
signature constructors F : t * t -> t != signature constructors F : t -> t
signature sorts A B(C) constructors F : A * B(C) -> A G : A : A -> A == signature constructors F : A * B(C) -> A : A -> A G : A
signature sorts A(B(C,D),E) constructors : A * B -> C H : A(B(C),D) * E -> A == signature constructors H : A(B(C),D) * E -> A : tuple(A,B) -> C
signature constructors H : t -> t strategies H(s) = s == signature constructors H : t -> t strategies H(s|) = s()
strategies f() = id == strategies f = id
strategies f(a,b|) = a == strategies f(a,b) = a
strategies f(a,b) = a != strategies f(b,a) = a
strategies f(|x,y) = !x != strategies f(x,y) = !x
strategies f(a|x) = a; !x g = f(f|g) == strategies f(a|x) = (a; !x) g = f(f()|g)
rules P : F(x,y) -> z where <add> (x,y) => z == rules P = {x,y,z: ?F(x,y); (test((!(x,y); add); ?z); !z)}
rules R(s|y) : x -> (y,x) S : a@_ -> a == rules R(s|y) = {x: ?x; !(y,x)} S = {a: ?a@_; !a}
rules R : F(x) -> G(z,y) where <f> x => y; <g> y => z == rules R = {x,z,y: ?F(x); (test(((!x; f); ?y); ((!y; g); ?z)); !G(z,y))}
rules R : F(x) -> G(z,y) where <f> x => y; <g> y => z != rules R = {x,y,z: ?F(x); (test(((!x; f); ?y); ((!y; g); ?z)); !G(z,y))}
rules R : x -> y where <f(!u)> w == rules R = {x,y,u,w: ?x; (test(!w; f(!u)); !y)}
rules R : x -> y where <f(!u)> w != rules R = {x,w,u,y: ?x; (test(!w; f(!u)); !y)}
rules R : x -> x where {y: ?y; !z} == rules R = {x,z: ?x; (test({y: ?y; !z}); !x)}
rules R : x -> x where \ y -> C(y,z) where <?v> w \ == rules R = {x,z,v,w: ?x; (test({y: ?y; (test(!w; ?v); !C(y,z))}); !x)}
rules R : x -> x where \ y -> C(y,z) where <?v> w \ != rules R = {x,w,v,z: ?x; (test({y: ?y; (test(!w; ?v); !C(y,z))}); !x)}
rules R : 1 -> "a" == rules R = {: ?1; !"a"}
strategies try(s) = s <+ id map(s) = [] <+ [s | map(s)] == rules try(s) = s < id + id map(s) = [] < id + [s|map(s())]
"#;

#[test]
fn modules_are_alike(rt: HostRuntime) -> Result<(), Fail> {
    for row in MODULES.trim().lines() {
        assert!(rt; is_row_of_modules(rt.alloc(), row)?, "at {row}");
    }
    Ok(())
}

// Whether it has the constructor `Plus` of two terms, and the definition `f(s|x)`.
fn is_as_written(module: &Module) -> bool {
    let (Some(plus), Some(f)) = (module.constructors().first(), module.definitions().first()) else {
        return false;
    };
    let plus = plus.item();
    plus.name().bytes() == b"Plus".as_slice()
        && plus.arity() == 2
        && plus.equals(plus)
        && f.name().bytes() == b"f".as_slice()
        && f.strategy_parameters().len() == 1
        && f.term_parameters().len() == 1
        && f.body().equals(f.body())
        && f.equals(f)
}

fn module_is_as_written(alloc: Global) -> Result<bool, Fail> {
    let module = module(
        alloc,
        "signature constructors Plus : t * t -> t rules f(s|x) = s",
    )?;
    Ok(is_as_written(&module))
}

#[test]
fn parts_are_as_written(rt: HostRuntime) -> Result<(), Fail> {
    assert!(rt; module_is_as_written(rt.alloc())?);
    Ok(())
}
