//! Tests: comparisons of expressions, `not`, `and`, `or`, and parameters of rules.
//! A contract sees a `Test` as the plain tree of `specs/Test.antt`; its truth is in `specs/Truth.antt`.

ghost use Rattle.std.specs.Prelude.{◌≡◌, IfOk};
ghost use Rattle.toy_imp.specs.Program.{is_closed_test};
ghost use Rattle.toy_imp.specs.Test.{less, less_eq, equal, not_of, and_of, or_of, par_test};

use crate::expr::Expr;
use crate::no_memory::NoMemory;
use sqlite_items::Boxed;
use std::alloc::Global;
use std::marker::Model;

/// A test. It is pure and total.
#[cycle(tests)]
#[derive(Drop)]
pub struct Test {
    pub node: TestNode,
}

/// The top of a test.
#[cycle(tests)]
#[derive(Drop)]
pub enum TestNode {
    Less(Expr, Expr),
    LessEq(Expr, Expr),
    Equal(Expr, Expr),
    Not(Boxed<Test>),
    And(Boxed<Test>, Boxed<Test>),
    Or(Boxed<Test>, Boxed<Test>),
    /// The number of a parameter of kind `Test`.
    Par(u32),
}

impl Model for Test {
    ghost use Rattle.toy_imp.specs.Test.{Test, test_depth};
    ghost use Rattle.toy_imp.specs.TestCode.{test_code};

    ghost Value = { Test };

    ghost coded = { test_code };

    ghost use Rattle.toy_imp.specs.TestView.{test_of};

    ghost view = { λ a. test_of a.node };

    ghost size = { test_depth };

    ghost use Rattle.toy_imp.specs.TestFalls.{test_falls};

    ghost size_decreases = { λ a h. test_falls a.node };
}

impl Test {
    /// The test `a < b`.
    pub fn less(a: Expr, b: Expr) -> Test
        ensures { result ≡ less a b }
    {
        Test {
            node: TestNode::Less(a, b),
        }
    }

    /// The test `a <= b`.
    pub fn less_eq(a: Expr, b: Expr) -> Test
        ensures { result ≡ less_eq a b }
    {
        Test {
            node: TestNode::LessEq(a, b),
        }
    }

    /// The test `a == b`.
    pub fn equal(a: Expr, b: Expr) -> Test
        ensures { result ≡ equal a b }
    {
        Test {
            node: TestNode::Equal(a, b),
        }
    }

    /// The test `not t`.
    pub fn not(alloc: Global, t: Test) -> Result<Test, NoMemory>
        ensures { IfOk result (λ q. q ≡ not_of t) }
    {
        let t = Boxed::new(alloc, t)?;
        Ok(Test {
            node: TestNode::Not(t),
        })
    }

    /// The test `t and u`.
    pub fn and(alloc: Global, t: Test, u: Test) -> Result<Test, NoMemory>
        ensures { IfOk result (λ q. q ≡ and_of t u) }
    {
        let t = Boxed::new(alloc, t)?;
        let u = Boxed::new(alloc, u)?;
        Ok(Test {
            node: TestNode::And(t, u),
        })
    }

    /// The test `t or u`.
    pub fn or(alloc: Global, t: Test, u: Test) -> Result<Test, NoMemory>
        ensures { IfOk result (λ q. q ≡ or_of t u) }
    {
        let t = Boxed::new(alloc, t)?;
        let u = Boxed::new(alloc, u)?;
        Ok(Test {
            node: TestNode::Or(t, u),
        })
    }

    /// The test parameter of the number `k`.
    pub fn par(k: u32) -> Test
        ensures { result ≡ par_test k }
    {
        Test {
            node: TestNode::Par(k),
        }
    }

    /// An equal test.
    pub fn copy(&self, alloc: Global) -> Result<Test, NoMemory>
        ensures { IfOk result (λ t. t ≡ self.now) }
    {
        match &self.node {
            TestNode::Less(a, b) => copy_less(alloc, a, b),
            TestNode::LessEq(a, b) => copy_less_eq(alloc, a, b),
            TestNode::Equal(a, b) => copy_equal(alloc, a, b),
            TestNode::Not(t) => {
                let left = t.get().copy(alloc)?;
                Test::not(alloc, left)
            }
            TestNode::And(t, u) => {
                let left = t.get().copy(alloc)?;
                let right = u.get().copy(alloc)?;
                Test::and(alloc, left, right)
            }
            TestNode::Or(t, u) => {
                let left = t.get().copy(alloc)?;
                let right = u.get().copy(alloc)?;
                Test::or(alloc, left, right)
            }
            TestNode::Par(k) => Ok(Test::par(*k)),
        }
    }

    /// Whether it holds no parameter, of a test, of an expression or of a name.
    pub fn is_closed(&self) -> bool
        ensures { result ≡ is_closed_test self.now }
    {
        match &self.node {
            TestNode::Less(a, b) => a.is_closed() && b.is_closed(),
            TestNode::LessEq(a, b) => a.is_closed() && b.is_closed(),
            TestNode::Equal(a, b) => a.is_closed() && b.is_closed(),
            TestNode::Not(t) => t.get().is_closed(),
            TestNode::And(t, u) => t.get().is_closed() && u.get().is_closed(),
            TestNode::Or(t, u) => t.get().is_closed() && u.get().is_closed(),
            TestNode::Par(_) => false,
        }
    }
}

// The comparisons that `Test::copy` builds.

fn copy_less(alloc: Global, a: &Expr, b: &Expr) -> Result<Test, NoMemory>
    ensures { IfOk result (λ t. t ≡ less a.now b.now) }
{
    let a = a.copy(alloc)?;
    let b = b.copy(alloc)?;
    Ok(Test::less(a, b))
}

fn copy_less_eq(alloc: Global, a: &Expr, b: &Expr) -> Result<Test, NoMemory>
    ensures { IfOk result (λ t. t ≡ less_eq a.now b.now) }
{
    let a = a.copy(alloc)?;
    let b = b.copy(alloc)?;
    Ok(Test::less_eq(a, b))
}

fn copy_equal(alloc: Global, a: &Expr, b: &Expr) -> Result<Test, NoMemory>
    ensures { IfOk result (λ t. t ≡ equal a.now b.now) }
{
    let a = a.copy(alloc)?;
    let b = b.copy(alloc)?;
    Ok(Test::equal(a, b))
}
