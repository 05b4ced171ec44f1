//! Tests filled by an instance.
//! The answer is `fill_test` of `toy_imp`'s `specs/Fill.antt`.

ghost use Rattle.std.specs.Prelude.{◌≡◌, IfOk};
ghost use Rattle.toy_imp.specs.Fill.{fill_expr, fill_test};
ghost use Rattle.toy_imp.specs.Test.{less, less_eq, equal};

use crate::expr::fill_expr;
use crate::standing::test_at;
use std::alloc::Global;
use toy_imp::{Expr, Instance, NoMemory, Test, TestNode};

/// The test with each parameter, also those for expressions and names, replaced by what stands for it.
#[tactic(auto, unfolding(toy_imp::specs::Fill::fill_test))]
pub fn fill_test(alloc: Global, t: &Test, by: &Instance) -> Result<Test, NoMemory>
    ensures { IfOk result (λ filled. filled ≡ fill_test by.now t.now) }
{
    match &t.node {
        TestNode::Less(a, b) => fill_less(alloc, a, b, by),
        TestNode::LessEq(a, b) => fill_less_eq(alloc, a, b, by),
        TestNode::Equal(a, b) => fill_equal(alloc, a, b, by),
        TestNode::Not(t) => {
            let t = fill_test(alloc, t.get(), by)?;
            Test::not(alloc, t)
        }
        TestNode::And(t, u) => {
            let t = fill_test(alloc, t.get(), by)?;
            let u = fill_test(alloc, u.get(), by)?;
            Test::and(alloc, t, u)
        }
        TestNode::Or(t, u) => {
            let t = fill_test(alloc, t.get(), by)?;
            let u = fill_test(alloc, u.get(), by)?;
            Test::or(alloc, t, u)
        }
        TestNode::Par(k) => test_at(alloc, *k, by),
    }
}

// The comparisons that `fill_test` builds.

fn fill_less(alloc: Global, a: &Expr, b: &Expr, by: &Instance) -> Result<Test, NoMemory>
    ensures { IfOk result (λ t. t ≡ less (fill_expr by.now a.now) (fill_expr by.now b.now)) }
{
    let a = fill_expr(alloc, a, by)?;
    let b = fill_expr(alloc, b, by)?;
    Ok(Test::less(a, b))
}

fn fill_less_eq(alloc: Global, a: &Expr, b: &Expr, by: &Instance) -> Result<Test, NoMemory>
    ensures { IfOk result (λ t. t ≡ less_eq (fill_expr by.now a.now) (fill_expr by.now b.now)) }
{
    let a = fill_expr(alloc, a, by)?;
    let b = fill_expr(alloc, b, by)?;
    Ok(Test::less_eq(a, b))
}

fn fill_equal(alloc: Global, a: &Expr, b: &Expr, by: &Instance) -> Result<Test, NoMemory>
    ensures { IfOk result (λ t. t ≡ equal (fill_expr by.now a.now) (fill_expr by.now b.now)) }
{
    let a = fill_expr(alloc, a, by)?;
    let b = fill_expr(alloc, b, by)?;
    Ok(Test::equal(a, b))
}
