//! How far an index is from a variable: the constant of `k + c`, by the text.
//! `specs/Offsets.antt` says which forms there are. It takes no memory.

ghost use Rattle.std.specs.Prelude.{◌≡◌, neg_ℤ};
ghost use Rattle.std.specs.Option.{option_map};
ghost use Rattle.side_conditions.specs.Offsets as spec;

use crate::places::{Form, Sought};
use toy_imp::{Expr, ExprNode};

/// The constant c where an index is `k`, `k + c`, `c + k` or `k - d` with c the negative of d, for the
/// variable k of the name of these bytes and constants c and d; none where it is of no such form.
pub fn offset_of(k: &[u8], e: &Expr) -> Option<i128>
    ensures { result ≡ spec.offset_of k.now e.now }
{
    match &e.node {
        ExprNode::At(_, _) => { if is_variable(k, e) { Some(0) } else { None } }
        ExprNode::Add(a, b) => {
            if is_variable(k, a.get()) {
                constant_of(b.get())
            } else if is_variable(k, b.get()) {
                constant_of(a.get())
            } else {
                None
            }
        }
        ExprNode::Sub(a, b) => {
            if is_variable(k, a.get()) {
                negative_of(b.get())
            } else {
                None
            }
        }
        ExprNode::Num(_) | ExprNode::Mul(_, _) | ExprNode::Par(_) => None,
    }
}

/// Whether an expression is the variable of the name of these bytes.
fn is_variable(k: &[u8], e: &Expr) -> bool
    ensures { result ≡ spec.is_variable k.now e.now }
{
    match &e.node {
        ExprNode::At(x, indices) => {
            Sought {
                name: k,
                form: Form::Variable,
            }
            .has(x, indices.as_slice())
        },
        _ => false,
    }
}

/// The number of a constant.
fn constant_of(e: &Expr) -> Option<i128>
    ensures { result ≡ spec.constant_of e.now }
{
    match &e.node {
        ExprNode::Num(z) => Some(*z as i128),
        _ => None,
    }
}

/// The negative of a constant's number.
fn negative_of(e: &Expr) -> Option<i128>
    ensures { result ≡ option_map neg_ℤ (spec.constant_of e.now) }
{
    match &e.node {
        ExprNode::Num(z) => Some(-(*z as i128)),
        _ => None,
    }
}
