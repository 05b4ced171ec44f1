//! Nestings of deep texts, worked out by hand; those of short ones are lemmas of `toy_imp` (`proofs/CanonicalExamples.antt`).
//! They also show that a walk over 4,097 levels ends well on an ordinary stack.

use sqlite_items::Items;
use std::alloc::Global;
use std::test::Fail;
use toy_imp::{Block, Expr, Name, NoMemory, Stmt};

// `1 + 1 + .. + 1` of so many operators
fn left_sum(alloc: Global, operators: u32) -> Result<Expr, NoMemory> {
    let mut e = Expr::num(1);
    for _ in 0..operators {
        e = Expr::add(alloc, e, Expr::num(1))?;
    }
    Ok(e)
}

// `1 - (1 - (.. - 1))` of so many operators
fn right_difference(alloc: Global, operators: u32) -> Result<Expr, NoMemory> {
    let mut e = Expr::num(1);
    for _ in 0..operators {
        e = Expr::sub(alloc, Expr::num(1), e)?;
    }
    Ok(e)
}

// The nesting of `x := e;`.
fn nesting(alloc: Global, e: Expr) -> Result<u64, NoMemory> {
    let mut b = Block::new(alloc);
    b.push(Stmt::put(Name::Par(0), Items::new(alloc), e))?;
    Ok(b.nesting())
}

#[test]
fn nestings(rt: HostRuntime) -> Result<(), Fail> {
    let alloc = rt.alloc();
    let table = [(4_096u32, 64u64, 4_095u64), (4_097, 65, 4_096)];
    for (operators, left, right) in table {
        assert!(rt; nesting(alloc, left_sum(alloc, operators)?)? == left);
        assert!(rt; nesting(alloc, right_difference(alloc, operators)?)? == right);
    }
    Ok(())
}
