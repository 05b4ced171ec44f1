//! Each public function once, on a small value. What blocks are filled to is worked out, place by
//! place, in the lemmas of `param_meaning` (`proofs/Examples.antt`); that the functions answer it is their contract.

use param_meaning::{fill, fill_expr, fill_exprs, fill_name, fill_test};
use program_examples::{instance, rule};
use std::alloc::Global;
use std::test::Fail;
use toy_imp::{Block, Expr, Instance, Name, Test};

// A rule, and what stands for its parameters.
const RULE: &str =
    "name X; expr E; test B; stmt S; left { S; X := E; while B { skip; } } right { }";

const TEXTS: [&str; 4] = ["x", "5", "1 < 2", "x := 1; y := 2;"];

// How many statements a block has, filled, if it is a program then.
fn filled_block(alloc: Global, block: &Block, by: &Instance) -> Option<usize> {
    let filled = fill(alloc, block, by).ok()?;
    if filled.is_program() {
        Some(filled.stmts.len())
    } else {
        None
    }
}

fn fills_expr(alloc: Global, by: &Instance) -> Option<bool> {
    let filled = fill_expr(alloc, &Expr::par(1), by).ok()?;
    Some(filled.is_closed())
}

fn fills_exprs(alloc: Global, by: &Instance) -> Option<bool> {
    let filled = fill_exprs(alloc, &[Expr::par(1)], by).ok()?;
    Some(filled.len() == 1)
}

fn fills_test(alloc: Global, by: &Instance) -> Option<bool> {
    let filled = fill_test(alloc, &Test::par(2), by).ok()?;
    Some(filled.is_closed())
}

fn fills_name(alloc: Global, by: &Instance) -> Option<bool> {
    let filled = fill_name(alloc, &Name::Par(0), by).ok()?;
    Some(filled.is_own())
}

// Whether each of these fills the parameter of its kind.
fn fills_each(alloc: Global, by: &Instance) -> bool {
    fills_expr(alloc, by) == Some(true)
        && fills_exprs(alloc, by) == Some(true)
        && fills_test(alloc, by) == Some(true)
        && fills_name(alloc, by) == Some(true)
}

fn filled(alloc: Global) -> Option<(usize, bool)> {
    let rule = rule(alloc, RULE)?;
    let by = instance(alloc, rule.params.as_slice(), &TEXTS)?;
    let statements = filled_block(alloc, &rule.left, &by)?;
    Some((statements, fills_each(alloc, &by)))
}

#[test]
fn each_is_filled(rt: HostRuntime) -> Result<(), Fail> {
    assert_eq!(rt; filled(rt.alloc()), Some((4, true)));
    Ok(())
}
