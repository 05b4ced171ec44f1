//! A map solved from the values of names: the counters of one place by those of another.
//! `specs/Maps.antt` says by which names.

ghost use Rattle.std.specs.Prelude.{◌≡◌, ◌^◌, All, IfSome, Some};
ghost use Rattle.affine_forms.specs.Form.{IsWithin};
ghost use Rattle.affine_forms.specs.Maps.{solved_one, solved_two};
ghost use Rattle.loop_sides.specs.Below.{first_below};
ghost use Rattle.loop_sides.specs.Small.{IsAffine, IsAffineSpot};
ghost use Rattle.loop_maps.specs.Maps as spec;

use affine_forms::{Form, solve_one, solve_two};
use loop_sides::{Loops, Spot, value_at};

/// The counters of one place by those of another, by the first of the names below `count` that can be solved, or the
/// first pair of them.
pub fn map_of(count: usize, to: &Spot, from: &Spot) -> Option<[Form; 4]>
    requires to { IsAffineSpot to.now }
    requires from { IsAffineSpot from.now }
    ensures is { result ≡ spec.map_of count to.now from.now }
    ensures within { IfSome result (All (IsWithin (2 ^ 40))) }
{
    match to.loops {
        Loops::One(_) => first_name(count, to, from),
        Loops::Two(_, _) => first_pair(count, to, from),
    }
}

fn first_name(count: usize, to: &Spot, from: &Spot) -> Option<[Form; 4]>
    requires to { IsAffineSpot to.now }
    requires from { IsAffineSpot from.now }
    ensures is { result ≡ first_below (spec.by_name to.now from.now) count }
    ensures within { IfSome result (All (IsWithin (2 ^ 40))) }
{
    for x in 0..count {
        let found = by_name(to, from, x);
        if found.is_some() {
            return found;
        }
    }
    None
}

fn first_pair(count: usize, to: &Spot, from: &Spot) -> Option<[Form; 4]>
    requires to { IsAffineSpot to.now }
    requires from { IsAffineSpot from.now }
    ensures is { result ≡ first_below (spec.by_first count to.now from.now) count }
    ensures within { IfSome result (All (IsWithin (2 ^ 40))) }
{
    for x in 0..count {
        let found = by_first(count, to, from, x);
        if found.is_some() {
            return found;
        }
    }
    None
}

fn by_first(count: usize, to: &Spot, from: &Spot, x: usize) -> Option<[Form; 4]>
    requires to { IsAffineSpot to.now }
    requires from { IsAffineSpot from.now }
    ensures is { result ≡ spec.by_first count to.now from.now x }
    ensures within { IfSome result (All (IsWithin (2 ^ 40))) }
{
    for y in 0..count {
        let found = by_names(to, from, x, y);
        if found.is_some() {
            return found;
        }
    }
    None
}

/// By the values of one name.
fn by_name(to: &Spot, from: &Spot, x: usize) -> Option<[Form; 4]>
    requires to { IsAffineSpot to.now }
    requires from { IsAffineSpot from.now }
    ensures is { result ≡ spec.by_name to.now from.now x }
    ensures within { IfSome result (All (IsWithin (2 ^ 40))) }
{
    by_value(value_at(to, x), value_at(from, x))
}

#[tactic(auto, unfolding(crate::specs::Maps::by_value))]
fn by_value(form: Option<Form>, value: Option<Form>) -> Option<[Form; 4]>
    requires form { IfSome form IsAffine }
    requires value { IfSome value IsAffine }
    ensures is { result ≡ spec.by_value form value }
    ensures within { IfSome result (All (IsWithin (2 ^ 40))) }
{
    match (form, value) {
        (Some(form), Some(value)) => alone(solved(&form, &value)),
        _ => None,
    }
}

/// By the values of two names, the first of which has the lesser number.
#[tactic(auto, unfolding(crate::specs::Maps::by_names))]
fn by_names(to: &Spot, from: &Spot, x: usize, y: usize) -> Option<[Form; 4]>
    requires to { IsAffineSpot to.now }
    requires from { IsAffineSpot from.now }
    ensures is { result ≡ spec.by_names to.now from.now x y }
    ensures within { IfSome result (All (IsWithin (2 ^ 40))) }
{
    if x < y {
        by_values(
            value_at(to, x),
            value_at(to, y),
            value_at(from, x),
            value_at(from, y),
        )
    } else {
        None
    }
}

#[tactic(auto, unfolding(crate::specs::Maps::by_values))]
fn by_values(
    first: Option<Form>,
    second: Option<Form>,
    first_value: Option<Form>,
    second_value: Option<Form>,
) -> Option<[Form; 4]>
    requires first { IfSome first IsAffine }
    requires second { IfSome second IsAffine }
    requires first_value { IfSome first_value IsAffine }
    requires second_value { IfSome second_value IsAffine }
    ensures is { result ≡ spec.by_values first second first_value second_value }
    ensures within { IfSome result (All (IsWithin (2 ^ 40))) }
{
    match (first, second, first_value, second_value) {
        (Some(f), Some(g), Some(v), Some(w)) => paired(solved_pair(&f, &g, &v, &w)),
        _ => None,
    }
}

fn solved(form: &Form, value: &Form) -> Option<Form>
    requires form { IsAffine form.now }
    requires value { IsAffine value.now }
    ensures is { result ≡ solved_one form.now value.now }
    ensures within { IfSome result (IsWithin (2 ^ 40)) }
{
    solve_one(form, value)
}

fn solved_pair(
    first: &Form,
    second: &Form,
    first_value: &Form,
    second_value: &Form,
) -> Option<[Form; 2]>
    requires first { IsAffine first.now }
    requires second { IsAffine second.now }
    requires first_value { IsAffine first_value.now }
    requires second_value { IsAffine second_value.now }
    ensures is { result ≡ solved_two first.now second.now first_value.now second_value.now }
    ensures within { IfSome result (All (IsWithin (2 ^ 40))) }
{
    solve_two(first, second, first_value, second_value)
}

#[tactic(auto, unfolding(crate::specs::Maps::alone))]
fn alone(form: Option<Form>) -> Option<[Form; 4]>
    requires { IfSome form (IsWithin (2 ^ 40)) }
    ensures is { result ≡ spec.alone form }
    ensures within { IfSome result (All (IsWithin (2 ^ 40))) }
{
    match form {
        Some(f) => Some(padded(f, Form::constant(0))),
        None => None,
    }
}

#[tactic(auto, unfolding(crate::specs::Maps::paired))]
fn paired(forms: Option<[Form; 2]>) -> Option<[Form; 4]>
    requires { IfSome forms (All (IsWithin (2 ^ 40))) }
    ensures is { result ≡ spec.paired forms }
    ensures within { IfSome result (All (IsWithin (2 ^ 40))) }
{
    match forms {
        Some(pair) => Some(padded_pair(pair)),
        None => None,
    }
}

fn padded_pair(pair: [Form; 2]) -> [Form; 4]
    requires { All (IsWithin (2 ^ 40)) pair }
    ensures is { spec.paired (Some pair) ≡ Some result }
    ensures within { All (IsWithin (2 ^ 40)) result }
{
    padded(pair[0], pair[1])
}

fn padded(f: Form, g: Form) -> [Form; 4]
    requires first { IsWithin (2 ^ 40) f }
    requires second { IsWithin (2 ^ 40) g }
    ensures is { result ≡ spec.padded f g }
    ensures within { All (IsWithin (2 ^ 40)) result }
{
    [f, g, Form::constant(0), Form::constant(0)]
}
