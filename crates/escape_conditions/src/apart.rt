//! Whether a name is apart from each name that a parameter ignores by a listed condition, or the rest
//! of the clause has a literal. `specs/Shapes.antt` says what is asked of each condition.

ghost use Rattle.std.specs.Prelude.{◌≡◌};
ghost use Rattle.std.specs.List.{list_all};
ghost use Rattle.escape_conditions.specs.Shapes.{name_apart, names_apart};

use escape_laws::other_name;
use escape_marks::Escape;
use law_clauses::lists_ignores;
use rule_terms::Obligation;
use toy_imp::{Condition, Kind};

fn name_apart(
    ob: &Obligation,
    e: &Escape,
    wanted: Kind,
    k: u32,
    n: u32,
    rest: bool,
    c: &Condition,
) -> bool
    ensures { result ≡ name_apart ob.now e.now wanted k n rest c.now }
{
    match c {
        Condition::Ignores(_, x) => {
            !lists_ignores(ob, wanted, k, *x)
                || (other_name(ob.params.as_slice(), e, n, *x) || rest)
        }
        _ => true,
    }
}

fn apart_from_these(
    ob: &Obligation,
    e: &Escape,
    wanted: Kind,
    k: u32,
    n: u32,
    rest: bool,
    conditions: &[Condition],
) -> bool
    ensures { result ≡ list_all (name_apart ob.now e.now wanted k n rest) conditions.now }
{
    for c in conditions {
        if !name_apart(ob, e, wanted, k, n, rest, c) {
            return false;
        }
    }
    true
}

// Whether each name that the parameter of this kind ignores has another class than n, or the rest is
// true.
#[tactic(auto, unfolding(crate::specs::Shapes::names_apart))]
pub fn names_apart(ob: &Obligation, e: &Escape, wanted: Kind, k: u32, n: u32, rest: bool) -> bool
    ensures { result ≡ names_apart ob.now e.now wanted k n rest }
{
    apart_from_these(ob, e, wanted, k, n, rest, ob.conditions.as_slice())
}
