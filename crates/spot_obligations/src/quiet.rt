//! Whether a statement parameter is quiet in a rule. `specs/Owed.antt` says when it is.

ghost use Rattle.std.specs.Prelude.{◌≡◌};
ghost use Rattle.spot_obligations.specs.Owed.{says_quiet, is_quiet};

use toy_imp::Condition;

fn says_quiet(c: &Condition, k: u32) -> bool
    ensures { result ≡ says_quiet k c.now }
{
    match c {
        Condition::Quiet(s) => *s == k,
        Condition::Commutes(s, t) => *s == k || *t == k,
        Condition::Swaps(s, t, _, _) => *s == k || *t == k,
        _ => false,
    }
}

/// Whether some condition says that the statement parameter halts from no store.
#[tactic(auto, unfolding(crate::specs::Owed::is_quiet))]
pub fn is_quiet(conditions: &[Condition], k: u32) -> bool
    ensures { result ≡ is_quiet conditions.now k }
{
    for condition in conditions {
        if says_quiet(condition, k) {
            return true;
        }
    }
    false
}
