//! Whether a condition is listed by which two runs, or a run and a write, may be exchanged.
//! `specs/Listed.antt` says what is looked for.

ghost use Rattle.std.specs.Prelude.{◌≡◌};
ghost use Rattle.rule_terms.specs.Listed.{is_commutes, is_ignores, commute, ignores};

use toy_imp::Condition;

fn is_commutes(c: &Condition, j: u32, k: u32) -> bool
    ensures { result ≡ is_commutes j k c.now }
{
    match c {
        Condition::Commutes(a, b) => (*a == j && *b == k) || (*a == k && *b == j),
        _ => false,
    }
}

/// Whether `commutes` of two statement parameters is listed, in either order.
#[tactic(auto, unfolding(crate::specs::Listed::commute))]
pub fn commute(conditions: &[Condition], j: u32, k: u32) -> bool
    ensures { result ≡ commute conditions.now j k }
{
    for condition in conditions {
        if is_commutes(condition, j, k) {
            return true;
        }
    }
    false
}

fn is_ignores(c: &Condition, k: u32, x: u32) -> bool
    ensures { result ≡ is_ignores k x c.now }
{
    match c {
        Condition::Ignores(a, b) => *a == k && *b == x,
        _ => false,
    }
}

/// Whether `ignores` of a statement parameter and a name parameter is listed.
#[tactic(auto, unfolding(crate::specs::Listed::ignores))]
pub fn ignores(conditions: &[Condition], k: u32, x: u32) -> bool
    ensures { result ≡ ignores conditions.now k x }
{
    for condition in conditions {
        if is_ignores(condition, k, x) {
            return true;
        }
    }
    false
}
