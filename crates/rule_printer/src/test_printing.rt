//! Tests in canonical text. One function prints a test in each form of the grammar, with brackets where
//! the form asks for them (`specs/CanonicalForms.antt`).

ghost use Rattle.std.specs.Prelude.{◌≡◌, ◌++◌, codes, OnOk};
ghost use Rattle.toy_imp.specs.declared.form.TestForm.TheVariants as test_form;
ghost use Rattle.toy_imp.specs.ExprCanonical.{canonical_expr};
ghost use Rattle.toy_imp.specs.TestCanonical.{canonical_test};
ghost use Rattle.rule_printer.specs.CanonicalForms.{test_bytes_as, or_as, and_as};
ghost use Rattle.rule_printer.specs.CanonicalText.{expr_bytes};

use crate::expr_printing::put_expr;
use crate::phrase::{put, put_declared};
use toy_imp::{Expr, ExprForm, NoMemory, Param, Test, TestForm, TestNode};

/// Puts a test that stands for a form of the grammar.
#[cycle(tests)]
#[tactic(auto, using(crate::proofs::Phrases::test_forms))]
pub fn put_test(
    params: &[Param],
    t: &Test,
    form: TestForm,
    out: &mut Vec<u8>,
) -> Result<(), NoMemory>
    ensures { OnOk result (out.new.items ≡ out.old.items ++ test_bytes_as form (canonical_test params.now t.now)) }
{
    match &t.node {
        TestNode::Less(a, b) => put_compared(params, a, b" < ", b, out),
        TestNode::LessEq(a, b) => put_compared(params, a, b" <= ", b, out),
        TestNode::Equal(a, b) => put_compared(params, a, b" == ", b, out),
        TestNode::Not(t) => {
            put(b"not ", out)?;
            put_test(params, t.get(), TestForm::One, out)
        }
        TestNode::And(t, u) => put_and(params, t.get(), u.get(), form, out),
        TestNode::Or(t, u) => put_or(params, t.get(), u.get(), form, out),
        TestNode::Par(k) => put_declared(params, *k, out),
    }
}

/// Puts an `and`, in brackets where it is the right operand of one or under `not`.
#[cycle(tests)]
fn put_and(
    params: &[Param],
    t: &Test,
    u: &Test,
    form: TestForm,
    out: &mut Vec<u8>,
) -> Result<(), NoMemory>
    ensures { OnOk result (out.new.items ≡ out.old.items ++ and_as form (test_bytes_as test_form.Both (canonical_test params.now t.now) ++ (codes " and " ++ test_bytes_as test_form.One (canonical_test params.now u.now)))) }
{
    match form {
        TestForm::One => {
            put(b"[", out)?;
            put_both(params, t, u, out)?;
            put(b"]", out)
        }
        _ => put_both(params, t, u, out),
    }
}

/// Puts an `and` as it is.
#[cycle(tests)]
fn put_both(params: &[Param], t: &Test, u: &Test, out: &mut Vec<u8>) -> Result<(), NoMemory>
    ensures { OnOk result (out.new.items ≡ out.old.items ++ (test_bytes_as test_form.Both (canonical_test params.now t.now) ++ (codes " and " ++ test_bytes_as test_form.One (canonical_test params.now u.now)))) }
{
    put_test(params, t, TestForm::Both, out)?;
    put(b" and ", out)?;
    put_test(params, u, TestForm::One, out)
}

/// Puts an `or`, in brackets where it is a right operand, an operand of `and` or under `not`.
#[cycle(tests)]
fn put_or(
    params: &[Param],
    t: &Test,
    u: &Test,
    form: TestForm,
    out: &mut Vec<u8>,
) -> Result<(), NoMemory>
    ensures { OnOk result (out.new.items ≡ out.old.items ++ or_as form (test_bytes_as test_form.Test (canonical_test params.now t.now) ++ (codes " or " ++ test_bytes_as test_form.Both (canonical_test params.now u.now)))) }
{
    match form {
        TestForm::Test => put_either(params, t, u, out),
        _ => {
            put(b"[", out)?;
            put_either(params, t, u, out)?;
            put(b"]", out)
        }
    }
}

/// Puts an `or` as it is.
#[cycle(tests)]
fn put_either(params: &[Param], t: &Test, u: &Test, out: &mut Vec<u8>) -> Result<(), NoMemory>
    ensures { OnOk result (out.new.items ≡ out.old.items ++ (test_bytes_as test_form.Test (canonical_test params.now t.now) ++ (codes " or " ++ test_bytes_as test_form.Both (canonical_test params.now u.now)))) }
{
    put_test(params, t, TestForm::Test, out)?;
    put(b" or ", out)?;
    put_test(params, u, TestForm::Both, out)
}

/// Puts a comparison.
fn put_compared(
    params: &[Param],
    a: &Expr,
    sign: &[u8],
    b: &Expr,
    out: &mut Vec<u8>,
) -> Result<(), NoMemory>
    ensures { OnOk result (out.new.items ≡ out.old.items ++ (expr_bytes (canonical_expr params.now a.now) ++ (sign.now ++ expr_bytes (canonical_expr params.now b.now)))) }
{
    put_expr(params, a, ExprForm::Expr, out)?;
    put(sign, out)?;
    put_expr(params, b, ExprForm::Expr, out)
}
