//! Affine maps between the counters of two nests: solved from values that agree, and undoing each other.
//! `specs/Maps.antt` says what each is; a map is an affine schedule in the sense of the polyhedral model.

ghost use Rattle.std.specs.Prelude.{◌≡◌, ◌↔◌, ◌≤◌, ◌<◌, ◌^◌, All, IsTrue};
ghost use Rattle.affine_forms.specs.Form.{counter_form, scaled, substitute, IsAtMost, IsWithin, IsSmall, HasUnitCounters};
ghost use Rattle.affine_forms.specs.Maps.{counter_part, is_unit, solved_one, determinant, cross, solved_two, Undoes};

use crate::form::Form;

/// The only counter of a form, by another side's counters, where the form has this value: none where the
/// counter's coefficient is 0.
#[tactic(auto, unfolding(crate::specs::Maps::solved_one))]
pub fn solve_one(form: &Form, value: &Form) -> Option<Form>
    requires form { IsSmall form.now }
    requires unit { HasUnitCounters form.now }
    requires value { IsSmall value.now }
    ensures { result ≡ solved_one form.now value.now }
{
    let coefficient = form.counters[0];
    if is_unit(coefficient) {
        Some(turned(counter_part(*form, *value), coefficient))
    } else {
        None
    }
}

/// The two counters of two forms, by another side's counters, where the forms have these values: none where the
/// determinant of their coefficients is neither 1 nor -1 (Cramer's rule).
#[tactic(auto, unfolding(crate::specs::Maps::solved_two))]
pub fn solve_two(
    first: &Form,
    second: &Form,
    first_value: &Form,
    second_value: &Form,
) -> Option<[Form; 2]>
    requires first { IsSmall first.now }
    requires second { IsSmall second.now }
    requires unit { HasUnitCounters first.now }
    requires second_unit { HasUnitCounters second.now }
    requires first_value { IsSmall first_value.now }
    requires second_value { IsSmall second_value.now }
    ensures { result ≡ solved_two first.now second.now first_value.now second_value.now }
{
    let sign = determinant(first, second);
    if is_unit(sign) {
        let p = counter_part(*first, *first_value);
        let q = counter_part(*second, *second_value);
        let [a, b, ..] = first.counters;
        let [c, d, ..] = second.counters;
        Some([cross(sign, d, p, b, q), cross(sign, a, q, c, p)])
    } else {
        None
    }
}

/// Whether through both maps each of `n` counters is itself again: `there` gives the counters of the forms of
/// `back`.
pub fn undoes(n: usize, back: &[Form; 4], there: &[Form; 4]) -> bool
    requires n { n ≤ 4 }
    requires back { All (IsWithin (2 ^ 40)) back.now }
    requires unit { All HasUnitCounters back.now }
    requires there { All (IsWithin (2 ^ 40)) there.now }
    ensures { IsTrue result ↔ Undoes n back.now there.now }
{
    for k in 0..n {
        if !is_itself(k, &back[k], there) {
            return false;
        }
    }
    true
}

/// Whether a form with forms for its counters is the form of the counter `k`.
fn is_itself(k: usize, form: &Form, by: &[Form; 4]) -> bool
    requires k { k < 4 }
    requires form { IsWithin (2 ^ 40) form.now }
    requires unit { HasUnitCounters form.now }
    requires by { All (IsWithin (2 ^ 40)) by.now }
    ensures { IsTrue result ↔ substitute form.now by.now ≡ counter_form k }
{
    form.substitute(by) == Form::counter(k)
}

/// What the counters of a form come to, where its value is that of another form.
fn counter_part(form: Form, value: Form) -> Form
    requires form { IsSmall form }
    requires value { IsSmall value }
    ensures is { result ≡ counter_part form value }
    ensures within { IsWithin (2 ^ 32) result }
{
    value.minus(form.without_counters())
}

/// The determinant of the coefficients that two forms have at two counters.
fn determinant(first: &Form, second: &Form) -> i64
    requires unit { HasUnitCounters first.now }
    requires second_unit { HasUnitCounters second.now }
    ensures is { result ≡ determinant first.now second.now }
{
    first.counters[0] * second.counters[1] - first.counters[1] * second.counters[0]
}

/// `sign` times the difference of `a` times one form and `b` times another.
fn cross(sign: i64, a: i64, p: Form, b: i64, q: Form) -> Form
    requires sign { IsAtMost 1 sign }
    requires a { IsAtMost 1 a }
    requires b { IsAtMost 1 b }
    requires p { IsWithin (2 ^ 32) p }
    requires q { IsWithin (2 ^ 32) q }
    ensures { result ≡ cross sign a p b q }
{
    turned(turned(p, a).plus_multiple(-b, q), sign)
}

/// A form, or it with all signs exchanged, or nothing of it.
fn turned(form: Form, sign: i64) -> Form
    requires form { IsWithin (2 ^ 40) form }
    requires sign { IsAtMost 1 sign }
    ensures { result ≡ scaled sign form }
{
    Form::constant(0).plus_multiple(sign, form)
}

/// Whether an equation with this coefficient is solved in whole numbers.
fn is_unit(coefficient: i64) -> bool
    ensures { result ≡ is_unit coefficient }
{
    coefficient.unsigned_abs() == 1
}
