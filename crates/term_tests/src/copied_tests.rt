//! Copies of paths, and the value of an expression with parameters at a store term.

ghost use Rattle.std.specs.Prelude.{◌≡◌, true, IfOk};
ghost use Rattle.rule_terms.specs.ValueAt.{names_are_open};

use rule_terms::{Literal, Path, Stop, StoreTerm, ValueTerm, value_at};
use sqlite_items::Items;
use std::alloc::Global;
use std::test::Fail;
use term_examples::{literals, store, value};
use toy_imp::{Expr, Name, NoMemory};

fn path(literals: Option<Items<Literal>>, store: Option<StoreTerm>) -> Option<Path> {
    Some(Path {
        literals: literals?,
        store: store?,
        stop: Stop::At(3),
    })
}

fn is_copied(alloc: Global, path: Option<Path>) -> Option<bool> {
    let path = path?;
    let copy = path.copy(alloc).ok()?;
    Some(copy.same(&path))
}

#[test]
fn a_copy_is_the_same_path(rt: HostRuntime) -> Result<(), Fail> {
    let literals = literals(rt.alloc(), "+holds3 L -ends run2 put0 L 7");
    let path = path(literals, store(rt.alloc(), "run2 put0 L 7"));
    assert_eq!(rt; is_copied(rt.alloc(), path), Some(true));
    Ok(())
}

// `X[e]`, with X as the parameter 0.
fn cell(alloc: Global, index: Expr) -> Result<Expr, NoMemory>
    requires { names_are_open index ≡ true }
    ensures { IfOk result (λ e. names_are_open e ≡ true) }
{
    let mut indices = Items::new(alloc);
    indices.push(index)?;
    Ok(Expr::at(Name::Par(0), indices))
}

// `2 - X[E + 1]`, with X and E as the parameters 0 and 4.
fn expression(alloc: Global) -> Result<Expr, NoMemory>
    ensures { IfOk result (λ e. names_are_open e ≡ true) }
{
    let index = Expr::add(alloc, Expr::par(4), Expr::num(1))?;
    let cell = cell(alloc, index)?;
    Expr::sub(alloc, Expr::num(2), cell)
}

fn value_in(alloc: Global, s: Option<StoreTerm>) -> Option<ValueTerm> {
    let s = s?;
    let e = expression(alloc).ok()?;
    value_at(alloc, &e, &s).ok()
}

fn are_same(found: Option<ValueTerm>, wanted: Option<ValueTerm>) -> Option<bool> {
    let found = found?;
    Some(found.same(&wanted?))
}

#[test]
fn an_expression_has_its_value_at_a_store(rt: HostRuntime) -> Result<(), Fail> {
    let found = value_in(rt.alloc(), store(rt.alloc(), "run2 L"));
    let wanted = value(rt.alloc(), "sub 2 get0/1 add ev4 run2 L 1 run2 L");
    assert_eq!(rt; are_same(found, wanted), Some(true));
    Ok(())
}
