//! Rows of strategies by each call of the evaluator. More of them, by `apply` and `preview`, are in
//! `rows/strategies` at the top of the repository.

use crate::calls::{Case, is_so};
use aterm_text::read;
use prim_core::{Meaning, NoPrimitives, Primitives};
use std::alloc::Global;
use std::test::Fail;
use strategy_check::{Program, check, resolve};
use strategy_parse::parse_strategy;
use strategy_syntax::{Resolved, Strategy};
use term_core::Term;

// A column of a row: the strategy, the term, the fewest steps that suffice, a word for the outcome,
// the term afterwards, and the numbers of edits and of outermost places.
fn column(row: &str, index: usize) -> &str {
    row.split(" ;; ").nth(index).unwrap_or("")
}

fn number(row: &str, index: usize) -> usize {
    column(row, index).parse().unwrap_or(usize::MAX)
}

// What is read is held in boxes, whose drops are calls: that of a strategy or a program is proved
// anew on each way out.
fn parsed(alloc: Global, text: &str) -> Result<Box<Strategy>, Fail> {
    Ok(Box::new(alloc, parse_strategy(alloc, text.as_bytes())?)?)
}

fn term_of(alloc: Global, text: &str) -> Result<Box<Term>, Fail> {
    Ok(Box::new(alloc, read(alloc, text.as_bytes())?)?)
}

fn tree_of(alloc: Global, text: &str) -> Result<Box<Term>, Fail> {
    let text = format!(in alloc; "(0,{text})")?;
    term_of(alloc, text.as_str())
}

/// The program of no modules.
pub fn checked<M: Meaning>(
    alloc: Global,
    primitives: &Primitives<M>,
) -> Result<Box<Program>, Fail> {
    match check(alloc, &[], primitives) {
        Ok(program) => Ok(Box::new(alloc, program)?),
        Err(_) => Err("a fault".into()),
    }
}

fn resolved<M: Meaning>(
    alloc: Global,
    program: &Program,
    primitives: &Primitives<M>,
    strategy: &Strategy,
) -> Result<Box<Resolved>, Fail> {
    match resolve(alloc, program, primitives, strategy) {
        Ok(whole) => Ok(Box::new(alloc, whole)?),
        Err(_) => Err("a fault in a strategy".into()),
    }
}

/// Whether the row holds, for each call, and the steps run out with one less.
pub fn is_row<M: Meaning>(
    alloc: Global,
    primitives: &Primitives<M>,
    row: &str,
) -> Result<bool, Fail> {
    let strategy = parsed(alloc, column(row, 0))?;
    let program = checked(alloc, primitives)?;
    let whole = resolved(alloc, &program, primitives, &strategy)?;
    is_row_of(alloc, primitives, &program, &whole, row)
}

fn is_row_of<M: Meaning>(
    alloc: Global,
    primitives: &Primitives<M>,
    program: &Program,
    strategy: &Resolved,
    row: &str,
) -> Result<bool, Fail> {
    let steps = number(row, 2) as u64;
    let term = term_of(alloc, column(row, 1))?;
    let tree = tree_of(alloc, column(row, 1))?;
    let term_after = term_of(alloc, column(row, 4))?;
    let tree_after = tree_of(alloc, column(row, 4))?;
    let case = Case {
        program,
        strategy,
        steps,
        term: &term,
        tree: &tree,
        word: column(row, 3),
        term_after: &term_after,
        tree_after: &tree_after,
        edits: number(row, 5),
        places: number(row, 6),
    };
    let with_less = Case {
        program,
        strategy,
        steps: steps.saturating_sub(1),
        term: &term,
        tree: &tree,
        word: "spent",
        term_after: &term,
        tree_after: &tree,
        edits: 0,
        places: 0,
    };
    Ok(is_so(alloc, primitives, &case)? && is_so(alloc, primitives, &with_less)?)
}

const ROWS: &str = "
id ;; F(A,[1]){B} ;; 1 ;; gives ;; F(A,[1]){B} ;; 0 ;; 0
all(id) ;; (1,2) ;; 3 ;; gives ;; (1,2) ;; 0 ;; 0
test(all(!7)) ;; (1,2) ;; 4 ;; gives ;; (1,2) ;; 0 ;; 0
?x; ![x] ;; 5{6} ;; 3 ;; gives ;; [5{6}] ;; 1 ;; 1
(!7; fail) <+ (id,!7) ;; (1,2) ;; 7 ;; gives ;; (1,7) ;; 1 ;; 1
all(!7) ;; (1,2) ;; 3 ;; gives ;; (7,7) ;; 2 ;; 2
all(!7); (!8,id) ;; (1,2) ;; 7 ;; gives ;; (8,7) ;; 3 ;; 2
all(all(!7)); 1(!8) ;; ([1],[2]) ;; 8 ;; gives ;; (8,[7]) ;; 3 ;; 2
[!7|id] ;; [1,2]{5} ;; 3 ;; gives ;; [7,2]{5} ;; 2 ;; 1
all(!7); !8 ;; (1,2) ;; 5 ;; gives ;; 8 ;; 3 ;; 1
fail; !7 ;; 1 ;; 2 ;; fails ;; 1 ;; 0 ;; 0
some(?3) ;; (1,2) ;; 3 ;; fails ;; (1,2) ;; 0 ;; 0
rec x(x; id) ;; 1 ;; 100 ;; spent ;; 1 ;; 0 ;; 0
rec x({y: ?y; !(y,y); x}) ;; 0 ;; 111 ;; big ;; 0 ;; 0 ;; 0
";

fn is_plain_row(alloc: Global, line: &str) -> Result<bool, Fail> {
    let primitives: Primitives<NoPrimitives> = Primitives::new(Vec::new(alloc));
    is_row(alloc, &primitives, line)
}

#[test]
fn each_call_runs_strategies(rt: HostRuntime) -> Result<(), Fail> {
    for line in ROWS.trim().lines() {
        assert!(rt; is_plain_row(rt.alloc(), line)?, "at {line}");
    }
    Ok(())
}
