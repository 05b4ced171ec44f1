//! What kind of statement stands next at each point of a side, for points to be compared.
//! `specs/PointKinds.antt` says which kinds there are.

ghost use Rattle.std.specs.Prelude.{◌≡◌, ◌∷◌, ◌++◌, [], IfOk, OnOk};
ghost use Rattle.entry_pairs.specs.PointKinds.{stmt_kind, stmt_kinds, block_kinds, start_kind, point_kinds, kind_at, alike_kinds};

use sqlite_items::Items;
use std::alloc::Global;
use toy_imp::{Block, NoMemory, Rule, Stmt, StmtNode};

/// What stands next at a point.
#[derive(Clone, Copy, Debug, PartialEq, Eq)]
pub enum PointKind {
    /// A `while`.
    Loop,
    /// The statement parameter of this number.
    Par(u32),
    /// Another statement, or nothing.
    Other,
}

/// The points of both sides of a rule: the kinds of those before the exits, in order, and the exits.
#[derive(Drop)]
pub struct PointTable {
    pub left: Items<PointKind>,
    pub right: Items<PointKind>,
    pub exits: (u32, u32),
}

impl PointTable {
    /// Those of a rule with these exits.
    pub fn of(alloc: Global, rule: &Rule, exits: (u32, u32)) -> Result<PointTable, NoMemory>
        ensures { IfOk result (λ table. table ≡ record { left = point_kinds rule.now.left; right = point_kinds rule.now.right; exits = exits }) }
    {
        let left = point_kinds(alloc, &rule.left)?;
        let right = point_kinds(alloc, &rule.right)?;
        Ok(PointTable { left, right, exits })
    }
}

/// The kind at a point, of the kinds of a side.
pub fn kind_at(kinds: &[PointKind], p: u32) -> PointKind
    ensures { result ≡ kind_at kinds.now p }
{
    match kinds.get(p as usize) {
        Some(kind) => *kind,
        None => PointKind::Other,
    }
}

/// Whether both are statement parameters of one number, or both are `while`s.
pub fn are_alike(a: PointKind, b: PointKind) -> bool
    ensures { result ≡ alike_kinds a b }
{
    match (a, b) {
        (PointKind::Par(j), PointKind::Par(k)) => j == k,
        (PointKind::Loop, PointKind::Loop) => true,
        _ => false,
    }
}

// The kinds of a side.
fn point_kinds(alloc: Global, side: &Block) -> Result<Items<PointKind>, NoMemory>
    ensures { IfOk result (λ all. all ≡ point_kinds side.now) }
{
    let mut all = Items::new(alloc);
    all.push(start_kind(side))?;
    push_kinds(&mut all, side)?;
    Ok(all)
}

// What stands first in a block.
fn start_kind(side: &Block) -> PointKind
    ensures { result ≡ start_kind side.now }
{
    match side.stmts.as_slice() {
        [] => PointKind::Other,
        [s, ..] => stmt_kind(s),
    }
}

fn stmt_kind(s: &Stmt) -> PointKind
    ensures { result ≡ stmt_kind s.now }
{
    match &s.node {
        StmtNode::While(_, _) => PointKind::Loop,
        StmtNode::Par(k) => PointKind::Par(*k),
        _ => PointKind::Other,
    }
}

// Adds the kinds of the points inside a block.
#[cycle(kinds)]
#[tactic(auto, using(toy_imp::specs::BlockFalls::stmt_item))]
fn push_kinds(all: &mut Items<PointKind>, b: &Block) -> Result<(), NoMemory>
    ensures { OnOk result (all.new ≡ all.old ++ block_kinds b.now) }
{
    for s in b.stmts.as_slice() {
        push_stmt_kinds(all, s)?;
    }
    Ok(())
}

// Those of a statement.
#[cycle(kinds)]
fn push_stmt_kinds(all: &mut Items<PointKind>, s: &Stmt) -> Result<(), NoMemory>
    ensures { OnOk result (all.new ≡ all.old ++ stmt_kinds s.now) }
{
    match &s.node {
        StmtNode::If(_, b, c) => {
            push_kinds(all, b)?;
            push_kinds(all, c)?;
        }
        StmtNode::While(_, b) => {
            all.push(PointKind::Loop)?;
            push_kinds(all, b)?;
        }
        StmtNode::Par(k) => all.push(PointKind::Par(*k))?,
        _ => {}
    }
    Ok(())
}
