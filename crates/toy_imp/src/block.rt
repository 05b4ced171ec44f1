//! Statements and lists of statements.
//! A contract sees both as the plain trees of `specs/Block.antt`; what they do is in `specs/Run.antt`.

ghost use Rattle.std.specs.Prelude.{◌≡◌, IfOk, OnOk, OnErr};
ghost use Rattle.toy_imp.specs.Block.{skip, put, assert_that, if_then, while_do, for_to, let_in, par_stmt, empty, stmt, append};
ghost use Rattle.toy_imp.specs.ExprView.{exprs_of};
ghost use Rattle.toy_imp.specs.Program.{is_closed_stmt, is_program};

use crate::expr::{Expr, are_closed, copy_all};
use crate::name::Name;
use crate::no_memory::NoMemory;
use crate::test::Test;
use sqlite_items::Items;
use std::alloc::Global;
use std::marker::Model;

/// A list of statements, run in order.
#[cycle(block)]
#[derive(Drop)]
pub struct Block {
    pub stmts: Items<Stmt>,
}

/// A statement.
#[cycle(block)]
#[derive(Drop)]
pub struct Stmt {
    pub node: StmtNode,
}

/// The top of a statement.
#[cycle(block)]
#[derive(Drop)]
pub enum StmtNode {
    Skip,
    /// The cell's name, its indices, and the expression that is written into it.
    Put(Name, Items<Expr>, Expr),
    /// The test that has to be true for the run to go on.
    Assert(Test),
    /// The test, the block where it is true and the block where it is not.
    If(Test, Block, Block),
    While(Test, Block),
    /// The counter, its first value, the bound that it stays below, and the body.
    For(Name, Expr, Expr, Block),
    /// The variable, its value inside, and the body.
    Let(Name, Expr, Block),
    /// The number of a parameter of kind `Stmt`.
    Par(u32),
}

impl Model for Stmt {
    ghost use Rattle.toy_imp.specs.Block.{Stmt, stmt_depth};
    ghost use Rattle.toy_imp.specs.BlockCode.{stmt_code};

    ghost Value = { Stmt };

    ghost coded = { stmt_code };

    ghost use Rattle.toy_imp.specs.BlockView.{stmt_of};

    ghost view = { λ a. stmt_of a.node };

    ghost size = { stmt_depth };

    ghost use Rattle.toy_imp.specs.BlockFalls.{stmt_falls};

    ghost size_decreases = { λ a h. stmt_falls a.node };
}

impl Model for Block {
    ghost use Rattle.toy_imp.specs.Block.{Block, block_depth};
    ghost use Rattle.toy_imp.specs.BlockCode.{block_code};

    ghost Value = { Block };

    ghost coded = { block_code };

    ghost use Rattle.toy_imp.specs.BlockView.{block_of};

    ghost view = { λ a. block_of a.stmts };

    ghost size = { block_depth };

    ghost use Rattle.toy_imp.specs.BlockFalls.{block_falls};

    ghost size_decreases = { λ a h. block_falls a.stmts };
}

impl Block {
    /// A list of no statements.
    pub fn new(alloc: Global) -> Block
        ensures { result ≡ empty }
    {
        Block {
            stmts: Items::new(alloc),
        }
    }

    /// Puts a statement at the end. Where there is no memory the block is as it was, and the
    /// statement is dropped.
    pub fn push(&mut self, s: Stmt) -> Result<(), NoMemory>
        ensures ok { OnOk result (self.new ≡ append self.old (stmt s empty)) }
        ensures err { OnErr result (self.new ≡ self.old) }
    {
        self.stmts.push(s)?;
        Ok(())
    }

    /// An equal block.
    #[cycle(copy)]
    #[tactic(auto, using(crate::specs::BlockFalls::stmt_item))]
    pub fn copy(&self, alloc: Global) -> Result<Block, NoMemory>
        ensures { IfOk result (λ b. b ≡ self.now) }
    {
        let mut stmts = Items::new(alloc);
        for s in self.stmts.as_slice() {
            let copied = s.copy(alloc)?;
            stmts.push(copied)?;
        }
        Ok(Block { stmts })
    }

    /// Whether it holds no parameter, of any kind, at any depth.
    #[cycle(is_program)]
    #[tactic(auto, using(crate::specs::BlockFalls::stmt_item))]
    pub fn is_program(&self) -> bool
        ensures { result ≡ is_program self.now }
    {
        for s in self.stmts.as_slice() {
            if !s.is_closed() {
                return false;
            }
        }
        true
    }
}

impl Stmt {
    /// `skip;`
    pub fn skip() -> Stmt
        ensures { result ≡ skip }
    {
        Stmt {
            node: StmtNode::Skip,
        }
    }

    /// Writes `e` into the cell of the name at the indices, of which a variable has none.
    pub fn put(x: Name, indices: Items<Expr>, e: Expr) -> Stmt
        ensures { result ≡ put x (exprs_of indices) e }
    {
        Stmt {
            node: StmtNode::Put(x, indices, e),
        }
    }

    /// `assert t;`
    pub fn assert_that(t: Test) -> Stmt
        ensures { result ≡ assert_that t }
    {
        Stmt {
            node: StmtNode::Assert(t),
        }
    }

    /// `if t { b } else { c }`
    pub fn if_then(t: Test, b: Block, c: Block) -> Stmt
        ensures { result ≡ if_then t b c }
    {
        Stmt {
            node: StmtNode::If(t, b, c),
        }
    }

    /// `while t { b }`
    pub fn while_do(t: Test, b: Block) -> Stmt
        ensures { result ≡ while_do t b }
    {
        Stmt {
            node: StmtNode::While(t, b),
        }
    }

    /// `for x = low to high { b }`
    pub fn for_to(x: Name, low: Expr, high: Expr, b: Block) -> Stmt
        ensures { result ≡ for_to x low high b }
    {
        Stmt {
            node: StmtNode::For(x, low, high, b),
        }
    }

    /// `let x = e { b }`
    pub fn let_in(x: Name, e: Expr, b: Block) -> Stmt
        ensures { result ≡ let_in x e b }
    {
        Stmt {
            node: StmtNode::Let(x, e, b),
        }
    }

    /// The statement parameter of the number `k`.
    pub fn par(k: u32) -> Stmt
        ensures { result ≡ par_stmt k }
    {
        Stmt {
            node: StmtNode::Par(k),
        }
    }

    /// An equal statement.
    #[cycle(copy)]
    pub fn copy(&self, alloc: Global) -> Result<Stmt, NoMemory>
        ensures { IfOk result (λ s. s ≡ self.now) }
    {
        match &self.node {
            StmtNode::Skip => Ok(Stmt::skip()),
            StmtNode::Put(x, indices, e) => copy_put(alloc, x, indices.as_slice(), e),
            StmtNode::Assert(t) => copy_assert(alloc, t),
            StmtNode::If(t, b, c) => {
                let b = b.copy(alloc)?;
                let c = c.copy(alloc)?;
                copy_if(alloc, t, b, c)
            }
            StmtNode::While(t, b) => {
                let b = b.copy(alloc)?;
                copy_while(alloc, t, b)
            }
            StmtNode::For(x, low, high, b) => {
                let b = b.copy(alloc)?;
                copy_for(alloc, x, low, high, b)
            }
            StmtNode::Let(x, e, b) => {
                let b = b.copy(alloc)?;
                copy_let(alloc, x, e, b)
            }
            StmtNode::Par(k) => Ok(Stmt::par(*k)),
        }
    }

    /// Whether it holds no parameter, of any kind, at any depth.
    #[cycle(is_program)]
    pub fn is_closed(&self) -> bool
        ensures { result ≡ is_closed_stmt self.now }
    {
        match &self.node {
            StmtNode::Skip => true,
            StmtNode::Put(x, indices, e) => {
                x.is_own() && are_closed(indices.as_slice()) && e.is_closed()
            }
            StmtNode::Assert(t) => t.is_closed(),
            StmtNode::If(t, b, c) => t.is_closed() && b.is_program() && c.is_program(),
            StmtNode::While(t, b) => t.is_closed() && b.is_program(),
            StmtNode::For(x, low, high, b) => {
                x.is_own() && low.is_closed() && high.is_closed() && b.is_program()
            }
            StmtNode::Let(x, e, b) => x.is_own() && e.is_closed() && b.is_program(),
            StmtNode::Par(_) => false,
        }
    }
}

// The statements that `Stmt::copy` builds round blocks that are copied already.

fn copy_put(alloc: Global, x: &Name, indices: &[Expr], e: &Expr) -> Result<Stmt, NoMemory>
    ensures { IfOk result (λ s. s ≡ put x.now (exprs_of indices.now) e.now) }
{
    let x = x.copy(alloc)?;
    let indices = copy_all(alloc, indices)?;
    let e = e.copy(alloc)?;
    Ok(Stmt::put(x, indices, e))
}

fn copy_assert(alloc: Global, t: &Test) -> Result<Stmt, NoMemory>
    ensures { IfOk result (λ s. s ≡ assert_that t.now) }
{
    let t = t.copy(alloc)?;
    Ok(Stmt::assert_that(t))
}

fn copy_if(alloc: Global, t: &Test, b: Block, c: Block) -> Result<Stmt, NoMemory>
    ensures { IfOk result (λ s. s ≡ if_then t.now b c) }
{
    let t = t.copy(alloc)?;
    Ok(Stmt::if_then(t, b, c))
}

fn copy_while(alloc: Global, t: &Test, b: Block) -> Result<Stmt, NoMemory>
    ensures { IfOk result (λ s. s ≡ while_do t.now b) }
{
    let t = t.copy(alloc)?;
    Ok(Stmt::while_do(t, b))
}

fn copy_for(alloc: Global, x: &Name, low: &Expr, high: &Expr, b: Block) -> Result<Stmt, NoMemory>
    ensures { IfOk result (λ s. s ≡ for_to x.now low.now high.now b) }
{
    let x = x.copy(alloc)?;
    let low = low.copy(alloc)?;
    let high = high.copy(alloc)?;
    Ok(Stmt::for_to(x, low, high, b))
}

fn copy_let(alloc: Global, x: &Name, e: &Expr, b: Block) -> Result<Stmt, NoMemory>
    ensures { IfOk result (λ s. s ≡ let_in x.now e.now b) }
{
    let x = x.copy(alloc)?;
    let e = e.copy(alloc)?;
    Ok(Stmt::let_in(x, e, b))
}
