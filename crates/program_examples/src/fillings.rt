//! Instances of rules, from the texts of what stands for each parameter: a name, an expression, a test, or statements.

use crate::program;
use sqlite_items::Items;
use std::alloc::Global;
use toy_imp::{Block, Expr, Filling, Instance, Kind, Name, Param, StmtNode, Test};

fn written(alloc: Global, block: &Block) -> Option<Expr> {
    match &block.stmts.as_slice().first()?.node {
        StmtNode::Put(_, _, e) => e.copy(alloc).ok(),
        _ => None,
    }
}

fn asserted(alloc: Global, block: &Block) -> Option<Test> {
    match &block.stmts.as_slice().first()?.node {
        StmtNode::Assert(t) => t.copy(alloc).ok(),
        _ => None,
    }
}

/// The expression that a text spells.
pub fn expression(alloc: Global, text: &str) -> Option<Expr> {
    let text = format!(in alloc; "x := {text};").ok()?;
    let block = program(alloc, text.as_str())?;
    written(alloc, &block)
}

/// The test that a text spells.
pub fn test(alloc: Global, text: &str) -> Option<Test> {
    let text = format!(in alloc; "assert {text};").ok()?;
    let block = program(alloc, text.as_str())?;
    asserted(alloc, &block)
}

/// The name of these bytes.
pub fn name(alloc: Global, text: &str) -> Option<Name> {
    Items::from_slice(alloc, text.as_bytes())
        .ok()
        .map(Name::Own)
}

fn filling(alloc: Global, kind: Kind, text: &str) -> Option<Filling> {
    match kind {
        Kind::Name => name(alloc, text).map(Filling::Name),
        Kind::Expr => expression(alloc, text).map(Filling::Expr),
        Kind::Test => test(alloc, text).map(Filling::Test),
        Kind::Stmt => program(alloc, text).map(Filling::Stmt),
    }
}

fn add(by: &mut Instance, filling: Option<Filling>) -> Option<()> {
    by.fillings.push(filling?).ok()
}

fn add_all(alloc: Global, by: &mut Instance, params: &[Param], texts: &[&str]) -> Option<()> {
    for (param, text) in params.iter().zip(texts) {
        add(by, filling(alloc, param.kind, text))?;
    }
    Some(())
}

fn empty(alloc: Global) -> Instance {
    Instance {
        fillings: Items::new(alloc),
    }
}

/// The instance of these parameters by texts, one for each.
pub fn instance(alloc: Global, params: &[Param], texts: &[&str]) -> Option<Instance> {
    let mut by = empty(alloc);
    add_all(alloc, &mut by, params, texts)?;
    Some(by)
}
