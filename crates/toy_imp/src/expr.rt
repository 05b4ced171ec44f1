//! Expressions: whole numbers, cells, sums, differences and products, and parameters of rules.
//! A contract sees an `Expr` as the plain tree of `specs/Expr.antt`; its value is in `specs/Value.antt`.

ghost use Rattle.std.specs.Prelude.{◌≡◌, IfOk};
ghost use Rattle.toy_imp.specs.Expr.{num, at, add, sub, mul, par_expr};
ghost use Rattle.toy_imp.specs.ExprView.{exprs_of};
ghost use Rattle.toy_imp.specs.Program.{is_closed, are_closed};

use crate::name::Name;
use crate::no_memory::NoMemory;
use sqlite_items::{Boxed, Items};
use std::alloc::Global;
use std::marker::Model;

/// An expression. It is pure and total, and its value is a whole number of any size.
#[cycle(expr)]
#[derive(Drop)]
pub struct Expr {
    pub node: ExprNode,
}

/// The top of an expression.
#[cycle(expr)]
#[derive(Drop)]
pub enum ExprNode {
    /// A constant; programs as text have those strictly between -2^63 and 2^63.
    Num(i64),
    /// A cell: its name and its indices, outermost first; a variable has none. Text has at most three.
    At(Name, Items<Expr>),
    Add(Boxed<Expr>, Boxed<Expr>),
    Sub(Boxed<Expr>, Boxed<Expr>),
    Mul(Boxed<Expr>, Boxed<Expr>),
    /// The number of a parameter of kind `Expr`.
    Par(u32),
}

impl Model for Expr {
    ghost use Rattle.toy_imp.specs.Expr.{Expr, depth};
    ghost use Rattle.toy_imp.specs.ExprCode.{expr_code};

    ghost Value = { Expr };

    ghost coded = { expr_code };

    ghost use Rattle.toy_imp.specs.ExprView.{expr_of};

    ghost view = { λ a. expr_of a.node };

    ghost size = { depth };

    ghost use Rattle.toy_imp.specs.ExprFalls.{expr_falls};

    ghost size_decreases = { λ a h. expr_falls a.node };
}

impl Expr {
    /// The constant `z`.
    pub fn num(z: i64) -> Expr
        ensures { result ≡ num z }
    {
        Expr {
            node: ExprNode::Num(z),
        }
    }

    /// The cell of a name at indices, of which a variable has none.
    pub fn at(name: Name, indices: Items<Expr>) -> Expr
        ensures { result ≡ at name (exprs_of indices) }
    {
        Expr {
            node: ExprNode::At(name, indices),
        }
    }

    /// The sum `a + b`.
    pub fn add(alloc: Global, a: Expr, b: Expr) -> Result<Expr, NoMemory>
        ensures { IfOk result (λ e. e ≡ add a b) }
    {
        let a = Boxed::new(alloc, a)?;
        let b = Boxed::new(alloc, b)?;
        Ok(Expr {
            node: ExprNode::Add(a, b),
        })
    }

    /// The difference `a - b`.
    pub fn sub(alloc: Global, a: Expr, b: Expr) -> Result<Expr, NoMemory>
        ensures { IfOk result (λ e. e ≡ sub a b) }
    {
        let a = Boxed::new(alloc, a)?;
        let b = Boxed::new(alloc, b)?;
        Ok(Expr {
            node: ExprNode::Sub(a, b),
        })
    }

    /// The product `a * b`.
    pub fn mul(alloc: Global, a: Expr, b: Expr) -> Result<Expr, NoMemory>
        ensures { IfOk result (λ e. e ≡ mul a b) }
    {
        let a = Boxed::new(alloc, a)?;
        let b = Boxed::new(alloc, b)?;
        Ok(Expr {
            node: ExprNode::Mul(a, b),
        })
    }

    /// The expression parameter of the number `k`.
    pub fn par(k: u32) -> Expr
        ensures { result ≡ par_expr k }
    {
        Expr {
            node: ExprNode::Par(k),
        }
    }

    /// An equal expression.
    #[cycle(copy)]
    pub fn copy(&self, alloc: Global) -> Result<Expr, NoMemory>
        ensures { IfOk result (λ e. e ≡ self.now) }
    {
        match &self.node {
            ExprNode::Num(z) => Ok(Expr::num(*z)),
            ExprNode::At(x, indices) => {
                let indices = copy_all(alloc, indices.as_slice())?;
                let x = x.copy(alloc)?;
                Ok(Expr::at(x, indices))
            }
            ExprNode::Add(a, b) => {
                let a = a.get().copy(alloc)?;
                let b = b.get().copy(alloc)?;
                Expr::add(alloc, a, b)
            }
            ExprNode::Sub(a, b) => {
                let a = a.get().copy(alloc)?;
                let b = b.get().copy(alloc)?;
                Expr::sub(alloc, a, b)
            }
            ExprNode::Mul(a, b) => {
                let a = a.get().copy(alloc)?;
                let b = b.get().copy(alloc)?;
                Expr::mul(alloc, a, b)
            }
            ExprNode::Par(k) => Ok(Expr::par(*k)),
        }
    }

    /// Whether it holds no parameter, of an expression or of a name.
    #[cycle(is_closed)]
    pub fn is_closed(&self) -> bool
        ensures { result ≡ is_closed self.now }
    {
        match &self.node {
            ExprNode::Num(_) => true,
            ExprNode::At(x, indices) => x.is_own() && are_closed(indices.as_slice()),
            ExprNode::Add(a, b) => a.get().is_closed() && b.get().is_closed(),
            ExprNode::Sub(a, b) => a.get().is_closed() && b.get().is_closed(),
            ExprNode::Mul(a, b) => a.get().is_closed() && b.get().is_closed(),
            ExprNode::Par(_) => false,
        }
    }
}

/// Equal expressions, in the same order.
#[cycle(copy)]
#[tactic(auto, using(crate::specs::ExprFalls::expr_item))]
pub fn copy_all(alloc: Global, items: &[Expr]) -> Result<Items<Expr>, NoMemory>
    ensures { IfOk result (λ all. all ≡ items.now) }
{
    let mut all = Items::new(alloc);
    for e in items {
        let copied = e.copy(alloc)?;
        all.push(copied)?;
    }
    Ok(all)
}

/// Whether none of them holds a parameter.
#[cycle(is_closed)]
#[tactic(auto, using(crate::specs::ExprFalls::expr_item))]
pub fn are_closed(items: &[Expr]) -> bool
    ensures { result ≡ are_closed (exprs_of items.now) }
{
    for e in items {
        if !e.is_closed() {
            return false;
        }
    }
    true
}
