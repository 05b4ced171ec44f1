//! The map of a statement and its inverse, where both exist and fit each other.
//! `specs/Maps.antt` says when they do.

ghost use Rattle.std.specs.Prelude.{◌≡◌, ◌≤◌, ◌^◌, All, IfSome};
ghost use Rattle.affine_forms.specs.Form.{IsWithin};
ghost use Rattle.loop_sides.specs.Small.{IsAffineSpot};
ghost use Rattle.loop_maps.specs.Maps as spec;

use crate::fitting::fit;
use crate::solving::map_of;
use affine_forms::Form;
use loop_sides::{Loops, Spot};

/// The counters of the right side by those of the left, and the other way. A nest of fewer than four loops uses the
/// first forms of each; the others are 0.
#[derive(Clone, Copy)]
pub struct Maps {
    pub there: [Form; 4],
    pub back: [Form; 4],
}

/// The map of a statement that stands at these places, and its inverse, by the names below `count`. None where one
/// of them does not exist, has other coefficients of counters than -1, 0 and 1, the two do not undo each other, the
/// numbers of loops differ, or a name that is set on both sides has two values. The time is that of a solution for
/// each pair of names.
#[tactic(auto, unfolding(crate::specs::Maps::maps_between))]
pub fn maps_between(count: usize, left: &Spot, right: &Spot) -> Option<Maps>
    requires left { IsAffineSpot left.now }
    requires right { IsAffineSpot right.now }
    ensures { result ≡ spec.maps_between count left.now right.now }
{
    if loop_count(&left.loops) == loop_count(&right.loops) {
        let there = map_of(count, right, left);
        let back = map_of(count, left, right);
        if_fit(count, left, right, there, back)
    } else {
        None
    }
}

#[tactic(auto, unfolding(crate::specs::Maps::if_fit))]
fn if_fit(
    count: usize,
    left: &Spot,
    right: &Spot,
    there: Option<[Form; 4]>,
    back: Option<[Form; 4]>,
) -> Option<Maps>
    requires left { IsAffineSpot left.now }
    requires right { IsAffineSpot right.now }
    requires there { IfSome there (All (IsWithin (2 ^ 40))) }
    requires back { IfSome back (All (IsWithin (2 ^ 40))) }
    ensures { result ≡ spec.if_fit count left.now right.now there back }
{
    match (there, back) {
        (Some(there), Some(back)) => {
            if fit(count, loop_count(&left.loops), left, right, &there, &back) {
                Some(Maps { there, back })
            } else {
                None
            }
        }
        _ => None,
    }
}

/// How many loops a nest has.
fn loop_count(loops: &Loops) -> usize
    ensures is { result ≡ spec.loop_count loops.now }
    ensures few { result ≤ 4 }
{
    match loops {
        Loops::One(_) => 1,
        Loops::Two(_, _) => 2,
    }
}
