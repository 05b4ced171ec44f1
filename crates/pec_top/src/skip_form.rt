//! The form of rule that can be proved so far, and the test by which such a rule is proved.
//! `specs/SkipForm.antt` says both; where the test holds, the rule is valid (`proofs/SkipSides.antt`).

ghost use Rattle.std.specs.Prelude.{◌≡◌, IfOk};
ghost use Rattle.std.specs.List.{list_all};
ghost use Rattle.toy_imp.specs.BlockView.{block_of};
ghost use Rattle.pec_top.specs.SkipForm as spec;

use crate::no_memory::NoMemory;
use sqlite_items::Items;
use std::alloc::Global;
use toy_imp::{Block, CutList, Kind, Method, Param, Rule, Stmt, StmtNode};

/// Whether a rule is in the form.
pub fn is_skip_rule(rule: &Rule) -> bool
    ensures { result ≡ spec.is_skip_rule rule.now }
{
    if !matches!(rule.method, Method::Simulate) {
        return false;
    }
    if !matches!(rule.cuts, CutList::Default) {
        return false;
    }
    if !rule.conditions.is_empty() {
        return false;
    }
    are_statements(rule.params.as_slice()) && are_sides(rule)
}

/// Whether all parameters are statements.
fn are_statements(params: &[Param]) -> bool
    ensures { result ≡ list_all spec.is_statement params.now }
{
    params.iter().all(|p| is_statement(p))
}

fn is_statement(p: &Param) -> bool
    ensures { result ≡ spec.is_statement p.now }
{
    matches!(p.kind, Kind::Stmt)
}

/// Whether both sides hold `skip;` and statement parameters alone.
fn are_sides(rule: &Rule) -> bool
    ensures { result ≡ spec.are_sides rule.now }
{
    is_side(&rule.left) && is_side(&rule.right)
}

fn is_side(side: &Block) -> bool
    ensures { result ≡ spec.is_side side.now }
{
    for statement in side.stmts.as_slice() {
        if !matches!(&statement.node, StmtNode::Skip | StmtNode::Par(_)) {
            return false;
        }
    }
    true
}

/// Whether both sides run the same statement parameters in the same order.
pub fn sides_agree(alloc: Global, rule: &Rule) -> Result<bool, NoMemory>
    ensures { IfOk result (λ agree. agree ≡ spec.sides_agree rule.now) }
{
    let left = kept(alloc, &rule.left)?;
    let right = kept(alloc, &rule.right)?;
    Ok(left.as_slice() == right.as_slice())
}

/// The numbers of a side's statement parameters in order, `skip;` and the like left out.
fn kept(alloc: Global, side: &Block) -> Result<Items<u32>, NoMemory>
    ensures { IfOk result (λ numbers. numbers ≡ spec.kept side.now) }
{
    let mut numbers = Items::new(alloc);
    for statement in side.stmts.as_slice() {
        if let StmtNode::Par(number) = &statement.node {
            numbers.push(*number)?;
        }
    }
    Ok(numbers)
}
