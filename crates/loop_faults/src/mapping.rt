//! Whether each statement has a map with an inverse.
//! `specs/LoopFaults.antt` says of which rules it is asked.

ghost use Rattle.std.specs.Prelude.{◌≡◌, length, IfSome};
ghost use Rattle.loop_sides.specs.Below.{any_below};
ghost use Rattle.loop_sides.specs.Small.{IsAffineSpot, AreAffineSides};
ghost use Rattle.loop_faults.specs.LoopFaults as spec;

use crate::first::is_permute;
use loop_maps::maps_between;
use loop_sides::{Sides, Spot, sides_of, spot_of};
use toy_imp::Rule;

/// Whether a statement of a rule of method permute has no map with an inverse.
pub fn lacks_map(rule: &Rule) -> bool
    ensures { result ≡ spec.lacks_map rule.now }
{
    is_permute(rule.method) && some_mapless(rule.params.len(), sides_of(rule))
}

fn some_mapless(count: usize, sides: Option<Sides>) -> bool
    requires { IfSome sides AreAffineSides }
    ensures { result ≡ spec.some_mapless count sides }
{
    match sides {
        Some(sides) => any_mapless(count, &sides),
        None => false,
    }
}

fn any_mapless(count: usize, sides: &Sides) -> bool
    requires { AreAffineSides sides.now }
    ensures { result ≡ any_below (spec.statement_mapless count sides.now) count }
{
    for k in 0..count {
        if statement_mapless(count, sides, k) {
            return true;
        }
    }
    false
}

fn statement_mapless(count: usize, sides: &Sides, k: usize) -> bool
    requires { AreAffineSides sides.now }
    ensures { result ≡ spec.statement_mapless count sides.now k }
{
    is_mapless(count, spot_of(k, &sides.left), spot_of(k, &sides.right))
}

fn is_mapless(count: usize, left: Option<Spot>, right: Option<Spot>) -> bool
    requires left { IfSome left IsAffineSpot }
    requires right { IfSome right IsAffineSpot }
    ensures { result ≡ spec.is_mapless count left right }
{
    match (left, right) {
        (Some(left), Some(right)) => maps_between(count, &left, &right).is_none(),
        _ => false,
    }
}
