//! The first item that holds of a rule. It takes no memory.
//! `specs/LoopFaults.antt` has the items in their order.

ghost use Rattle.std.specs.Prelude.{◌≡◌};
ghost use Rattle.toy_imp.specs.Faults as general;
ghost use Rattle.loop_faults.specs.LoopFaults as spec;

use crate::mapping::lacks_map;
use crate::swapping::has_wrong_swaps;
use loop_sides::{lacks_condition, sides_of};
use toy_imp::{Method, Rule};

/// The least number of an item that holds: 1 to 6 and 11 as `Rule::first_fault` has them; 7, a rule of method permute
/// has other sides than nests of loops; 8, it lacks a required condition; 9, a statement has no map with an inverse;
/// 10, a `swaps` condition is wrong. None where none holds. What a rule of method tile is asked of its form is not
/// among them.
pub fn first_fault(rule: &Rule) -> Option<u8>
    ensures { result ≡ spec.first_fault rule.now }
{
    first_fault_after(rule, rule.first_fault())
}

/// The same for whoever knows what `Rule::first_fault` answers.
#[tactic(auto, unfolding(crate::specs::LoopFaults::merged))]
pub fn first_fault_after(rule: &Rule, known: Option<u8>) -> Option<u8>
    requires { known ≡ general.first_fault rule.now }
    ensures { result ≡ spec.first_fault rule.now }
{
    merged(known, first_loop_fault(rule))
}

/// The items of every rule first, but the one on size.
#[tactic(auto, unfolding(crate::specs::LoopFaults::merged))]
fn merged(general: Option<u8>, by_loops: Option<u8>) -> Option<u8>
    ensures { result ≡ spec.merged general by_loops }
{
    match general {
        None => by_loops,
        Some(k) => { if k < 7 { general } else { by_loops.or(general) } }
    }
}

/// The least number of an item 7 to 10 that holds, none where none does.
#[tactic(auto, unfolding(crate::specs::LoopFaults::first_loop_fault))]
pub fn first_loop_fault(rule: &Rule) -> Option<u8>
    ensures { result ≡ spec.first_loop_fault rule.now }
{
    if has_other_sides(rule) {
        Some(7)
    } else if lacks_required(rule) {
        Some(8)
    } else if lacks_map(rule) {
        Some(9)
    } else if has_wrong_swaps(rule) {
        Some(10)
    } else {
        None
    }
}

fn has_other_sides(rule: &Rule) -> bool
    ensures { result ≡ spec.has_other_sides rule.now }
{
    is_permute(rule.method) && sides_of(rule).is_none()
}

fn lacks_required(rule: &Rule) -> bool
    ensures { result ≡ spec.lacks_required rule.now }
{
    is_permute(rule.method) && lacks_condition(rule)
}

pub(crate) fn is_permute(method: Method) -> bool
    ensures { result ≡ spec.is_permute method }
{
    match method {
        Method::Permute => true,
        Method::Simulate | Method::Chain | Method::Tile => false,
    }
}
