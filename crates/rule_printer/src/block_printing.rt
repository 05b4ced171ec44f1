//! Statements and blocks in canonical text: each statement on a line of its own, indented by the number
//! of the blocks round it (`specs/CanonicalText.antt`).

ghost use Rattle.std.specs.Prelude.{◌≡◌, ◌++◌, suc, codes, OnOk};
ghost use Rattle.toy_imp.specs.BlockCanonical.{canonical_stmt, canonical_block};
ghost use Rattle.toy_imp.specs.ExprCanonical.{written_name, canonical_expr, canonical_place};
ghost use Rattle.toy_imp.specs.ExprView.{exprs_of};
ghost use Rattle.toy_imp.specs.TestCanonical.{canonical_test};
ghost use Rattle.rule_printer.specs.CanonicalText.{expr_bytes, place_bytes, test_bytes, indent, in_block, stmt_bytes, stmts_bytes};

use crate::expr_printing::{put_expr, put_place};
use crate::phrase::{deeper, put, put_declared, put_indent, put_name};
use crate::test_printing::put_test;
use toy_imp::{Block, Expr, ExprForm, Name, NoMemory, Param, Stmt, StmtNode, Test, TestForm};

/// Puts the lines of a block's statements, which stand in `d` blocks.
#[cycle(block)]
#[tactic(auto, using(crate::proofs::Blocks::stmt_item, crate::proofs::Blocks::one_line))]
pub fn put_lines(params: &[Param], d: u64, b: &Block, out: &mut Vec<u8>) -> Result<(), NoMemory>
    ensures { OnOk result (out.new.items ≡ out.old.items ++ stmts_bytes d (canonical_block params.now b.now)) }
{
    for s in b.stmts.as_slice() {
        put_line(params, d, s, out)?;
    }
    Ok(())
}

/// Puts the line of a statement.
#[cycle(block)]
fn put_line(params: &[Param], d: u64, s: &Stmt, out: &mut Vec<u8>) -> Result<(), NoMemory>
    ensures { OnOk result (out.new.items ≡ out.old.items ++ (indent d ++ (stmt_bytes d (canonical_stmt params.now s.now) ++ codes "\n"))) }
{
    put_indent(d, out)?;
    put_stmt(params, d, s, out)?;
    put(b"\n", out)
}

/// Puts a statement that stands in `d` blocks.
#[cycle(block)]
fn put_stmt(params: &[Param], d: u64, s: &Stmt, out: &mut Vec<u8>) -> Result<(), NoMemory>
    ensures { OnOk result (out.new.items ≡ out.old.items ++ stmt_bytes d (canonical_stmt params.now s.now)) }
{
    match &s.node {
        StmtNode::Skip => put(b"skip;", out),
        StmtNode::Put(x, indices, e) => put_written(params, x, indices.as_slice(), e, out),
        StmtNode::Assert(t) => put_asserted(params, t, out),
        StmtNode::If(t, b, c) => {
            put_tested(params, b"if ", t, out)?;
            put_block(params, d, b, out)?;
            put(b" else ", out)?;
            put_block(params, d, c, out)
        }
        StmtNode::While(t, b) => {
            put_tested(params, b"while ", t, out)?;
            put_block(params, d, b, out)
        }
        StmtNode::For(x, low, high, b) => {
            put_counted(params, x, low, high, out)?;
            put_block(params, d, b, out)
        }
        StmtNode::Let(x, e, b) => {
            put_bound(params, x, e, out)?;
            put_block(params, d, b, out)
        }
        StmtNode::Par(k) => {
            put_declared(params, *k, out)?;
            put(b";", out)
        }
    }
}

/// Puts a block in braces, which stands in `d` blocks.
#[cycle(block)]
#[tactic(auto, using(crate::proofs::Blocks::no_lines))]
pub fn put_block(params: &[Param], d: u64, b: &Block, out: &mut Vec<u8>) -> Result<(), NoMemory>
    ensures { OnOk result (out.new.items ≡ out.old.items ++ in_block d (stmts_bytes (suc d) (canonical_block params.now b.now))) }
{
    if b.stmts.is_empty() {
        return put(b"{ }", out);
    }
    put_filled(params, d, b, out)
}

/// Puts the lines of a block between the braces, which stand in `d` blocks.
#[cycle(block)]
fn put_filled(params: &[Param], d: u64, b: &Block, out: &mut Vec<u8>) -> Result<(), NoMemory>
    ensures { OnOk result (out.new.items ≡ out.old.items ++ (codes "{\n" ++ (stmts_bytes (suc d) (canonical_block params.now b.now) ++ (indent d ++ codes "}")))) }
{
    let inside = deeper(d)?;
    put(b"{\n", out)?;
    put_lines(params, inside, b, out)?;
    put_indent(d, out)?;
    put(b"}", out)
}

/// Puts a write.
fn put_written(
    params: &[Param],
    x: &Name,
    indices: &[Expr],
    e: &Expr,
    out: &mut Vec<u8>,
) -> Result<(), NoMemory>
    ensures { OnOk result (out.new.items ≡ out.old.items ++ (place_bytes (canonical_place params.now (written_name params.now x.now) (exprs_of indices.now)) ++ (codes " := " ++ (expr_bytes (canonical_expr params.now e.now) ++ codes ";")))) }
{
    put_place(params, x, indices, out)?;
    put(b" := ", out)?;
    put_expr(params, e, ExprForm::Expr, out)?;
    put(b";", out)
}

/// Puts an `assert`.
fn put_asserted(params: &[Param], t: &Test, out: &mut Vec<u8>) -> Result<(), NoMemory>
    ensures { OnOk result (out.new.items ≡ out.old.items ++ (codes "assert " ++ (test_bytes (canonical_test params.now t.now) ++ codes ";"))) }
{
    put(b"assert ", out)?;
    put_test(params, t, TestForm::Test, out)?;
    put(b";", out)
}

/// Puts a word and a test, up to a block.
fn put_tested(params: &[Param], word: &[u8], t: &Test, out: &mut Vec<u8>) -> Result<(), NoMemory>
    ensures { OnOk result (out.new.items ≡ out.old.items ++ (word.now ++ (test_bytes (canonical_test params.now t.now) ++ codes " "))) }
{
    put(word, out)?;
    put_test(params, t, TestForm::Test, out)?;
    put(b" ", out)
}

/// Puts the counter and the values of a `for`, up to its block.
fn put_counted(
    params: &[Param],
    x: &Name,
    low: &Expr,
    high: &Expr,
    out: &mut Vec<u8>,
) -> Result<(), NoMemory>
    ensures { OnOk result (out.new.items ≡ out.old.items ++ (codes "for " ++ (written_name params.now x.now ++ (codes " = " ++ (expr_bytes (canonical_expr params.now low.now) ++ (codes " to " ++ (expr_bytes (canonical_expr params.now high.now) ++ codes " "))))))) }
{
    put_set(params, b"for ", x, out)?;
    put_expr(params, low, ExprForm::Expr, out)?;
    put(b" to ", out)?;
    put_expr(params, high, ExprForm::Expr, out)?;
    put(b" ", out)
}

/// Puts the variable and the value of a `let`, up to its block.
fn put_bound(params: &[Param], x: &Name, e: &Expr, out: &mut Vec<u8>) -> Result<(), NoMemory>
    ensures { OnOk result (out.new.items ≡ out.old.items ++ (codes "let " ++ (written_name params.now x.now ++ (codes " = " ++ (expr_bytes (canonical_expr params.now e.now) ++ codes " "))))) }
{
    put_set(params, b"let ", x, out)?;
    put_expr(params, e, ExprForm::Expr, out)?;
    put(b" ", out)
}

/// Puts a word, the name that it sets, and ` = `.
fn put_set(params: &[Param], word: &[u8], x: &Name, out: &mut Vec<u8>) -> Result<(), NoMemory>
    ensures { OnOk result (out.new.items ≡ out.old.items ++ (word.now ++ (written_name params.now x.now ++ codes " = "))) }
{
    put(word, out)?;
    put_name(params, x, out)?;
    put(b" = ", out)
}
