//! The summed form of an expression, affine in the counters of a nest and in the symbols of a rule.
//! `specs/Summed.antt` says what it is, and when there is none.

ghost use Rattle.std.specs.Prelude.{◌≡◌, ◌≤◌, ◌<◌, ◌==◌, option_map, length, take, count_by, position, IfSome, IsTrue};
ghost use Rattle.toy_imp.specs.declared.param.Kind.TheVariants as kind;
ghost use Rattle.toy_imp.specs.ExprView.{exprs_of};
ghost use Rattle.toy_imp.specs.Faults.{kind_is, has_kind};
ghost use Rattle.affine_forms.specs.Form.{counter_form, symbol_form, IsSmall, HasUnitCounters};
ghost use Rattle.loop_sides.specs.Small.{IsAffine};
ghost use Rattle.loop_sides.specs.Summed as spec;

use crate::kinds::is_symbol;
use affine_forms::Form;
use toy_imp::{Expr, ExprNode, Kind, Name, Param};

/// The summed form of an expression where the coefficients of its counters are -1, 0 or 1, as the bounds of a loop
/// and the value of a `let` have it; else none. The arguments are those of `summed`.
#[tactic(auto, unfolding(crate::specs::Summed::with_units))]
pub fn affine(params: &[Param], counters: &[u32], renamed: Option<u32>, e: &Expr) -> Option<Form>
    requires { length counters.now ≤ 4 }
    ensures is { result ≡ spec.affine params.now counters.now renamed e.now }
    ensures small { IfSome result IsAffine }
{
    match summed(params, counters, renamed, e) {
        Some(form) if has_units(&form) => Some(form),
        _ => None,
    }
}

/// The summed form of an expression over the name parameters that are `counters`, outermost first, but for the one
/// that an enclosing `let` has `renamed`, and over the expression parameters. None where it is not affine, or where
/// a number in the form of some part of it is 2^31 or more in magnitude.
#[cycle(summed)]
#[tactic(auto, unfolding(crate::specs::Summed::summed))]
pub fn summed(params: &[Param], counters: &[u32], renamed: Option<u32>, e: &Expr) -> Option<Form>
    requires { length counters.now ≤ 4 }
    ensures is { result ≡ spec.summed params.now counters.now renamed e.now }
    ensures small { IfSome result IsSmall }
{
    match &e.node {
        ExprNode::Num(z) => if_small(Form::constant(*z)),
        ExprNode::At(x, indices) => cell_form(counters, renamed, x, indices.as_slice()),
        ExprNode::Add(a, b) => sum_form(
            summed(params, counters, renamed, a.get()),
            summed(params, counters, renamed, b.get()),
        ),
        ExprNode::Sub(a, b) => difference_form(
            summed(params, counters, renamed, a.get()),
            summed(params, counters, renamed, b.get()),
        ),
        ExprNode::Mul(a, b) => product_form(
            summed(params, counters, renamed, a.get()),
            summed(params, counters, renamed, b.get()),
        ),
        ExprNode::Par(k) => symbol_form(params, *k),
    }
}

/// The form, where it is small.
#[tactic(auto, unfolding(crate::specs::Summed::if_small))]
fn if_small(form: Form) -> Option<Form>
    ensures is { result ≡ spec.if_small form }
    ensures small { IfSome result IsSmall }
{
    if is_small(&form) { Some(form) } else { None }
}

// What the tests of forms answer, as the definitions have it.

fn is_small(form: &Form) -> bool
    ensures is { result ≡ spec.is_small form.now }
    ensures told { IsTrue result → IsSmall form.now }
{
    form.is_small()
}

/// Whether the coefficients of the counters are -1, 0 or 1.
pub fn has_units(form: &Form) -> bool
    ensures is { result ≡ spec.has_units form.now }
    ensures told { IsTrue result → HasUnitCounters form.now }
{
    form.has_unit_counters()
}

fn is_constant(form: &Form) -> bool
    ensures { result ≡ spec.is_constant form.now }
{
    form.is_constant()
}

/// The form of a sum.
#[tactic(auto, unfolding(crate::specs::Summed::sum_form))]
fn sum_form(first: Option<Form>, second: Option<Form>) -> Option<Form>
    requires first { IfSome first IsSmall }
    requires second { IfSome second IsSmall }
    ensures is { result ≡ spec.sum_form first second }
    ensures small { IfSome result IsSmall }
{
    match (first, second) {
        (Some(f), Some(g)) => if_small(f.plus(g)),
        _ => None,
    }
}

/// The form of a difference.
#[tactic(auto, unfolding(crate::specs::Summed::difference_form))]
fn difference_form(first: Option<Form>, second: Option<Form>) -> Option<Form>
    requires first { IfSome first IsSmall }
    requires second { IfSome second IsSmall }
    ensures is { result ≡ spec.difference_form first second }
    ensures small { IfSome result IsSmall }
{
    match (first, second) {
        (Some(f), Some(g)) => if_small(f.minus(g)),
        _ => None,
    }
}

/// The form of a product, of which one factor has to be a constant.
#[tactic(auto, unfolding(crate::specs::Summed::product_form))]
fn product_form(first: Option<Form>, second: Option<Form>) -> Option<Form>
    requires first { IfSome first IsSmall }
    requires second { IfSome second IsSmall }
    ensures is { result ≡ spec.product_form first second }
    ensures small { IfSome result IsSmall }
{
    match (first, second) {
        (Some(f), Some(g)) => product_of(f, g),
        _ => None,
    }
}

#[tactic(auto, unfolding(crate::specs::Summed::product_of))]
fn product_of(f: Form, g: Form) -> Option<Form>
    requires first { IsSmall f }
    requires second { IsSmall g }
    ensures is { result ≡ spec.product_of f g }
    ensures small { IfSome result IsSmall }
{
    if is_constant(&f) {
        if_small(g.scaled(f.constant))
    } else if is_constant(&g) {
        if_small(f.scaled(g.constant))
    } else {
        None
    }
}

/// The form of a cell: of a variable that is a counter.
#[tactic(auto, unfolding(crate::specs::Summed::cell_form))]
fn cell_form(counters: &[u32], renamed: Option<u32>, x: &Name, indices: &[Expr]) -> Option<Form>
    requires { length counters.now ≤ 4 }
    ensures is { result ≡ spec.cell_form counters.now renamed x.now (exprs_of indices.now) }
    ensures small { IfSome result IsSmall }
{
    match x {
        Name::Own(_) => None,
        Name::Par(k) => {
            if has_indices(indices) {
                None
            } else {
                counter_form(counters, renamed, *k)
            }
        }
    }
}

fn has_indices(indices: &[Expr]) -> bool
    ensures { result ≡ spec.has_indices (exprs_of indices.now) }
{
    !indices.is_empty()
}

/// The form of a counter.
fn counter_form(counters: &[u32], renamed: Option<u32>, k: u32) -> Option<Form>
    requires { length counters.now ≤ 4 }
    ensures is { result ≡ option_map counter_form (spec.counter_place counters.now renamed k) }
    ensures small { IfSome result IsSmall }
{
    let place = counter_place(counters, renamed, k)?;
    Some(Form::counter(place))
}

/// The place of a name among the counters, of which the renamed one has none.
#[tactic(auto, unfolding(crate::specs::Summed::counter_place))]
fn counter_place(counters: &[u32], renamed: Option<u32>, k: u32) -> Option<usize>
    requires { length counters.now ≤ 4 }
    ensures is { result ≡ spec.counter_place counters.now renamed k }
    ensures within { IfSome result (λ j. j < 4) }
{
    if renamed == Some(k) {
        None
    } else {
        position(counters, k)
    }
}

fn position(counters: &[u32], k: u32) -> Option<usize>
    ensures is { result ≡ position (λ x. x == k) counters.now }
    ensures within { IfSome result (λ j. j < length counters.now) }
{
    counters.iter().position(|x| *x == k)
}

/// The form of an expression parameter.
fn symbol_form(params: &[Param], k: u32) -> Option<Form>
    ensures is { result ≡ option_map symbol_form (spec.symbol_place params.now k) }
    ensures small { IfSome result IsSmall }
{
    let place = symbol_place(params, k)?;
    Some(Form::symbol(place))
}

/// The place of an expression parameter among the symbols.
#[tactic(auto, unfolding(crate::specs::Summed::symbol_place))]
fn symbol_place(params: &[Param], k: u32) -> Option<usize>
    ensures is { result ≡ spec.symbol_place params.now k }
    ensures within { IfSome result (λ j. j < 8) }
{
    if !is_symbol(params, k as usize) {
        return None;
    }
    let place = symbols_among(&params[..k as usize]);
    if place < 8 { Some(place) } else { None }
}

/// How many of the parameters are symbols.
fn symbols_among(params: &[Param]) -> usize
    ensures { result ≡ count_by (λ p. kind_is kind.Expr p.kind) params.now }
{
    params.iter().filter(|p| p.kind == Kind::Expr).count()
}
