//! Whether the `swaps` conditions of a rule list their names rightly, and names that are set round both statements.
//! `specs/LoopFaults.antt` says what is asked.

ghost use Rattle.std.specs.Prelude.{◌≡◌, count_by};
ghost use Rattle.std.specs.List.{list_all, list_any};
ghost use Rattle.toy_imp.specs.Faults.{is_swaps};
ghost use Rattle.loop_faults.specs.LoopFaults as spec;

use loop_sides::sets_round;
use toy_imp::{Condition, Method, Region, Rule};

/// Whether a `swaps` condition is wrong, or there are more than two of them.
pub fn has_wrong_swaps(rule: &Rule) -> bool
    ensures { result ≡ spec.has_wrong_swaps rule.now }
{
    some_list_wrongly(rule.conditions.as_slice())
        || (!is_chain(rule.method)
            && (2 < swaps_count(rule.conditions.as_slice())
                || some_unset(rule, rule.conditions.as_slice())))
}

fn is_chain(method: Method) -> bool
    ensures { result ≡ spec.is_chain method }
{
    match method {
        Method::Chain => true,
        Method::Simulate | Method::Permute | Method::Tile => false,
    }
}

fn some_list_wrongly(conditions: &[Condition]) -> bool
    ensures { result ≡ list_any spec.lists_wrongly conditions.now }
{
    conditions.iter().any(|c| lists_wrongly(c))
}

fn lists_wrongly(c: &Condition) -> bool
    ensures { result ≡ spec.lists_wrongly c.now }
{
    match c {
        Condition::Swaps(_, _, names, region) => is_wrong_list(*region, names.as_slice()),
        _ => false,
    }
}

fn is_wrong_list(region: Region, names: &[u32]) -> bool
    ensures { result ≡ spec.is_wrong_list region names.now }
{
    match names {
        [] => true,
        [_] => is_crossing(region),
        [x, y] => *x == *y,
        _ => true,
    }
}

fn is_crossing(region: Region) -> bool
    ensures { result ≡ spec.is_crossing region }
{
    match region {
        Region::Crossing => true,
        Region::Distinct | Region::Earlier => false,
    }
}

fn swaps_count(conditions: &[Condition]) -> usize
    ensures { result ≡ count_by is_swaps conditions.now }
{
    conditions.iter().filter(|c| is_swaps(c)).count()
}

fn is_swaps(c: &Condition) -> bool
    ensures { result ≡ is_swaps c.now }
{
    matches!(c, Condition::Swaps(_, _, _, _))
}

fn some_unset(rule: &Rule, conditions: &[Condition]) -> bool
    ensures { result ≡ list_any (spec.names_unset rule.now) conditions.now }
{
    conditions.iter().any(|c| names_unset(rule, c))
}

fn names_unset(rule: &Rule, c: &Condition) -> bool
    ensures { result ≡ spec.names_unset rule.now c.now }
{
    match c {
        Condition::Swaps(s, t, names, _) => {
            !all_set_round(rule, *s as usize, *t as usize, names.as_slice())
        }
        _ => false,
    }
}

fn all_set_round(rule: &Rule, s: usize, t: usize, names: &[u32]) -> bool
    ensures { result ≡ list_all (spec.is_set_round rule.now s t) names.now }
{
    names.iter().all(|x| is_set_round(rule, s, t, *x as usize))
}

/// Whether a name is set on both sides round both statements.
fn is_set_round(rule: &Rule, s: usize, t: usize, x: usize) -> bool
    ensures { result ≡ spec.is_set_round rule.now s t x }
{
    is_set_round_one(rule, s, x) && is_set_round_one(rule, t, x)
}

fn is_set_round_one(rule: &Rule, s: usize, x: usize) -> bool
    ensures { result ≡ spec.is_set_round_one rule.now s x }
{
    sets_round(x, s, &rule.left) && sets_round(x, s, &rule.right)
}
