//! That a map and an inverse fit each other and the values of the names.
//! `specs/Maps.antt` says what is asked.

ghost use Rattle.std.specs.Prelude.{◌≡◌, ◌≤◌, ◌^◌, All, IsTrue, IfSome};
ghost use Rattle.affine_forms.specs.Form.{IsWithin, HasUnitCounters, substitute};
ghost use Rattle.loop_sides.specs.Below.{all_below};
ghost use Rattle.loop_sides.specs.Small.{IsAffine, IsAffineSpot};
ghost use Rattle.loop_maps.specs.Maps as spec;

use affine_forms::Form;
use loop_sides::{Spot, has_units, value_at};

/// Whether the coefficients of the counters are -1, 0 or 1, each map undoes the other on so many counters, and each
/// name that is set on both sides has one value.
pub fn fit(
    count: usize,
    loops: usize,
    left: &Spot,
    right: &Spot,
    there: &[Form; 4],
    back: &[Form; 4],
) -> bool
    requires loops { loops ≤ 4 }
    requires left { IsAffineSpot left.now }
    requires right { IsAffineSpot right.now }
    requires there { All (IsWithin (2 ^ 40)) there.now }
    requires back { All (IsWithin (2 ^ 40)) back.now }
    ensures { result ≡ spec.fit count loops left.now right.now there.now back.now }
{
    have_units(there)
        && have_units(back)
        && undoes(loops, back, there)
        && undoes(loops, there, back)
        && all_agree(count, left, right, there)
}

fn have_units(map: &[Form; 4]) -> bool
    ensures is { result ≡ spec.have_units map.now }
    ensures told { IsTrue result → All HasUnitCounters map.now }
{
    all_have_units(map)
}

fn all_have_units(forms: &[Form]) -> bool
    ensures { result ≡ spec.have_units forms.now }
{
    forms.iter().all(|f| has_units(f))
}

/// Whether through both maps each of `loops` counters is itself again.
fn undoes(loops: usize, back: &[Form; 4], there: &[Form; 4]) -> bool
    requires loops { loops ≤ 4 }
    requires back { All (IsWithin (2 ^ 40)) back.now }
    requires unit { All HasUnitCounters back.now }
    requires there { All (IsWithin (2 ^ 40)) there.now }
    ensures { result ≡ spec.undoes loops back.now there.now }
{
    affine_forms::undoes(loops, back, there)
}

/// Whether each name that is set on both sides has the same value by the left counters and by the map.
fn all_agree(count: usize, left: &Spot, right: &Spot, there: &[Form; 4]) -> bool
    requires left { IsAffineSpot left.now }
    requires right { IsAffineSpot right.now }
    requires there { All (IsWithin (2 ^ 40)) there.now }
    ensures { result ≡ all_below (spec.agrees left.now right.now there.now) count }
{
    for x in 0..count {
        if !agrees(left, right, there, x) {
            return false;
        }
    }
    true
}

fn agrees(left: &Spot, right: &Spot, there: &[Form; 4], x: usize) -> bool
    requires left { IsAffineSpot left.now }
    requires right { IsAffineSpot right.now }
    requires there { All (IsWithin (2 ^ 40)) there.now }
    ensures { result ≡ spec.agrees left.now right.now there.now x }
{
    match (value_at(right, x), value_at(left, x)) {
        (Some(form), Some(value)) => has_value(&form, there, &value),
        _ => true,
    }
}

/// Whether a form with the map's forms for its counters is this one.
fn has_value(form: &Form, there: &[Form; 4], value: &Form) -> bool
    requires form { IsAffine form.now }
    requires there { All (IsWithin (2 ^ 40)) there.now }
    ensures { result ≡ spec.same_form (substitute form.now there.now) value.now }
{
    form.substitute(there) == *value
}
