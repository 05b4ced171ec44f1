//! Expressions in canonical text. One function prints an expression in each form of the grammar, with
//! parentheses where the form asks for them (`specs/CanonicalForms.antt`).

ghost use Rattle.std.specs.Prelude.{◌≡◌, ◌++◌, [], codes, OnOk};
ghost use Rattle.toy_imp.specs.declared.form.ExprForm.TheVariants as expr_form;
ghost use Rattle.toy_imp.specs.ExprCanonical.{written_name, canonical_expr, canonical_place};
ghost use Rattle.toy_imp.specs.ExprView.{exprs_of};
ghost use Rattle.rule_printer.specs.CanonicalForms.{expr_bytes_as, sum_as, product_as};
ghost use Rattle.rule_printer.specs.CanonicalText.{expr_bytes, place_bytes};

use crate::phrase::{put, put_declared, put_name, put_number};
use toy_imp::{Expr, ExprForm, ExprNode, Name, NoMemory, Param};

/// Puts an expression that stands for a form of the grammar.
#[cycle(expr)]
#[tactic(auto, using(crate::proofs::Phrases::expr_forms))]
pub fn put_expr(
    params: &[Param],
    e: &Expr,
    form: ExprForm,
    out: &mut Vec<u8>,
) -> Result<(), NoMemory>
    ensures { OnOk result (out.new.items ≡ out.old.items ++ expr_bytes_as form (canonical_expr params.now e.now)) }
{
    match &e.node {
        ExprNode::Num(z) => put_number(*z, out),
        ExprNode::At(x, indices) => put_place(params, x, indices.as_slice(), out),
        ExprNode::Add(a, b) => put_sum(params, a.get(), b" + ", b.get(), form, out),
        ExprNode::Sub(a, b) => put_sum(params, a.get(), b" - ", b.get(), form, out),
        ExprNode::Mul(a, b) => put_product(params, a.get(), b.get(), form, out),
        ExprNode::Par(k) => put_declared(params, *k, out),
    }
}

/// Puts a sum or difference, in parentheses where it is a right operand or one of a product.
#[cycle(expr)]
fn put_sum(
    params: &[Param],
    a: &Expr,
    sign: &[u8],
    b: &Expr,
    form: ExprForm,
    out: &mut Vec<u8>,
) -> Result<(), NoMemory>
    ensures { OnOk result (out.new.items ≡ out.old.items ++ sum_as form (expr_bytes_as expr_form.Expr (canonical_expr params.now a.now) ++ (sign.now ++ expr_bytes_as expr_form.Term (canonical_expr params.now b.now)))) }
{
    match form {
        ExprForm::Expr => put_terms(params, a, sign, b, out),
        _ => {
            put(b"(", out)?;
            put_terms(params, a, sign, b, out)?;
            put(b")", out)
        }
    }
}

/// Puts a sum or difference as it is.
#[cycle(expr)]
fn put_terms(
    params: &[Param],
    a: &Expr,
    sign: &[u8],
    b: &Expr,
    out: &mut Vec<u8>,
) -> Result<(), NoMemory>
    ensures { OnOk result (out.new.items ≡ out.old.items ++ (expr_bytes_as expr_form.Expr (canonical_expr params.now a.now) ++ (sign.now ++ expr_bytes_as expr_form.Term (canonical_expr params.now b.now)))) }
{
    put_expr(params, a, ExprForm::Expr, out)?;
    put(sign, out)?;
    put_expr(params, b, ExprForm::Term, out)
}

/// Puts a product, in parentheses where it is the right operand of one.
#[cycle(expr)]
fn put_product(
    params: &[Param],
    a: &Expr,
    b: &Expr,
    form: ExprForm,
    out: &mut Vec<u8>,
) -> Result<(), NoMemory>
    ensures { OnOk result (out.new.items ≡ out.old.items ++ product_as form (expr_bytes_as expr_form.Term (canonical_expr params.now a.now) ++ (codes " * " ++ expr_bytes_as expr_form.Factor (canonical_expr params.now b.now)))) }
{
    match form {
        ExprForm::Factor => {
            put(b"(", out)?;
            put_factors(params, a, b, out)?;
            put(b")", out)
        }
        _ => put_factors(params, a, b, out),
    }
}

/// Puts a product as it is.
#[cycle(expr)]
fn put_factors(params: &[Param], a: &Expr, b: &Expr, out: &mut Vec<u8>) -> Result<(), NoMemory>
    ensures { OnOk result (out.new.items ≡ out.old.items ++ (expr_bytes_as expr_form.Term (canonical_expr params.now a.now) ++ (codes " * " ++ expr_bytes_as expr_form.Factor (canonical_expr params.now b.now)))) }
{
    put_expr(params, a, ExprForm::Term, out)?;
    put(b" * ", out)?;
    put_expr(params, b, ExprForm::Factor, out)
}

/// Puts a place: a name and its indices, the first three of them.
#[cycle(expr)]
#[tactic(auto, using(crate::proofs::Phrases::place_joined))]
pub fn put_place(
    params: &[Param],
    x: &Name,
    indices: &[Expr],
    out: &mut Vec<u8>,
) -> Result<(), NoMemory>
    ensures { OnOk result (out.new.items ≡ out.old.items ++ place_bytes (canonical_place params.now (written_name params.now x.now) (exprs_of indices.now))) }
{
    put_name(params, x, out)?;
    put_indices(params, indices, out)
}

/// Puts the indices of a place in brackets, and nothing where there are none.
#[cycle(expr)]
fn put_indices(params: &[Param], indices: &[Expr], out: &mut Vec<u8>) -> Result<(), NoMemory>
    ensures { OnOk result (out.new.items ≡ out.old.items ++ place_bytes (canonical_place params.now [] (exprs_of indices.now))) }
{
    match indices {
        [] => Ok(()),
        [a] => put_one(params, a, out),
        [a, b] => put_two(params, a, b, out),
        [a, b, c, ..] => put_three(params, a, b, c, out),
    }
}

/// Puts one index in brackets.
#[cycle(expr)]
fn put_one(params: &[Param], a: &Expr, out: &mut Vec<u8>) -> Result<(), NoMemory>
    ensures { OnOk result (out.new.items ≡ out.old.items ++ (codes "[" ++ (expr_bytes (canonical_expr params.now a.now) ++ codes "]"))) }
{
    put(b"[", out)?;
    put_expr(params, a, ExprForm::Expr, out)?;
    put(b"]", out)
}

/// Puts two indices in brackets.
#[cycle(expr)]
fn put_two(params: &[Param], a: &Expr, b: &Expr, out: &mut Vec<u8>) -> Result<(), NoMemory>
    ensures { OnOk result (out.new.items ≡ out.old.items ++ (codes "[" ++ (expr_bytes (canonical_expr params.now a.now) ++ (codes ", " ++ (expr_bytes (canonical_expr params.now b.now) ++ codes "]"))))) }
{
    put(b"[", out)?;
    put_expr(params, a, ExprForm::Expr, out)?;
    put(b", ", out)?;
    put_expr(params, b, ExprForm::Expr, out)?;
    put(b"]", out)
}

/// Puts three indices in brackets.
#[cycle(expr)]
fn put_three(
    params: &[Param],
    a: &Expr,
    b: &Expr,
    c: &Expr,
    out: &mut Vec<u8>,
) -> Result<(), NoMemory>
    ensures { OnOk result (out.new.items ≡ out.old.items ++ (codes "[" ++ (expr_bytes (canonical_expr params.now a.now) ++ (codes ", " ++ (expr_bytes (canonical_expr params.now b.now) ++ (codes ", " ++ (expr_bytes (canonical_expr params.now c.now) ++ codes "]"))))))) }
{
    put(b"[", out)?;
    put_expr(params, a, ExprForm::Expr, out)?;
    put_later(params, b, out)?;
    put_later(params, c, out)?;
    put(b"]", out)
}

/// Puts a comma and one more index.
#[cycle(expr)]
fn put_later(params: &[Param], e: &Expr, out: &mut Vec<u8>) -> Result<(), NoMemory>
    ensures { OnOk result (out.new.items ≡ out.old.items ++ (codes ", " ++ expr_bytes (canonical_expr params.now e.now))) }
{
    put(b", ", out)?;
    put_expr(params, e, ExprForm::Expr, out)
}
