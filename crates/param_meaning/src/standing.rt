//! What stands for a parameter: its filling where that is of its kind, and else the parameter itself.
//! `name_at` and its like of `toy_imp`'s `specs/Fill.antt` say so.

ghost use Rattle.std.specs.Prelude.{◌≡◌, IfOk};
ghost use Rattle.toy_imp.specs.Block.{stmt, empty};
ghost use Rattle.toy_imp.specs.Fill.{name_at, expr_at, test_at, block_at, fill_name};

use std::alloc::Global;
use toy_imp::{Block, Expr, Filling, Instance, Name, NoMemory, Stmt, Test};

/// The name, or what stands for it where it is a parameter.
#[tactic(auto, unfolding(toy_imp::specs::Fill::fill_name))]
pub fn fill_name(alloc: Global, x: &Name, by: &Instance) -> Result<Name, NoMemory>
    ensures { IfOk result (λ filled. filled ≡ fill_name by.now x.now) }
{
    match x {
        Name::Own(_) => x.copy(alloc),
        Name::Par(k) => name_at(alloc, *k, by),
    }
}

fn name_at(alloc: Global, k: u32, by: &Instance) -> Result<Name, NoMemory>
    ensures { IfOk result (λ x. x ≡ name_at by.now k) }
{
    match by.fillings.get(k as usize) {
        Some(Filling::Name(x)) => x.copy(alloc),
        _ => Ok(Name::Par(k)),
    }
}

/// What stands for the expression parameter of the number `k`.
pub fn expr_at(alloc: Global, k: u32, by: &Instance) -> Result<Expr, NoMemory>
    ensures { IfOk result (λ e. e ≡ expr_at by.now k) }
{
    match by.fillings.get(k as usize) {
        Some(Filling::Expr(e)) => e.copy(alloc),
        _ => Ok(Expr::par(k)),
    }
}

/// What stands for the test parameter of the number `k`.
pub fn test_at(alloc: Global, k: u32, by: &Instance) -> Result<Test, NoMemory>
    ensures { IfOk result (λ t. t ≡ test_at by.now k) }
{
    match by.fillings.get(k as usize) {
        Some(Filling::Test(t)) => t.copy(alloc),
        _ => Ok(Test::par(k)),
    }
}

/// The statements that stand for the statement parameter of the number `k`.
pub fn block_at(alloc: Global, k: u32, by: &Instance) -> Result<Block, NoMemory>
    ensures { IfOk result (λ b. b ≡ block_at by.now k) }
{
    match by.fillings.get(k as usize) {
        Some(Filling::Stmt(b)) => b.copy(alloc),
        _ => just(alloc, Stmt::par(k)),
    }
}

/// The block of one statement.
pub fn just(alloc: Global, s: Stmt) -> Result<Block, NoMemory>
    ensures { IfOk result (λ b. b ≡ stmt s empty) }
{
    let mut b = Block::new(alloc);
    b.push(s)?;
    Ok(b)
}
