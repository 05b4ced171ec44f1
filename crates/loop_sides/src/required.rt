//! The conditions that a rule of loops has to have.
//! `specs/Required.antt` says which they are; nothing here takes memory.

ghost use Rattle.std.specs.Prelude.{◌≡◌, length};
ghost use Rattle.std.specs.List.{list_any};
ghost use Rattle.loop_sides.specs.Below.{any_below};
ghost use Rattle.loop_sides.specs.Required as spec;

use crate::kinds::is_symbol;
use crate::setting::{block_holds, block_sets, sets_round};
use toy_imp::{Condition, Rule};

/// A condition that may be required, by the numbers of its parameters.
#[derive(Clone, Copy)]
pub enum Wanted {
    /// A statement leaves an expression or a name as it is.
    Keeps(usize, usize),
    /// An expression or a statement has nothing to do with a name.
    Ignores(usize, usize),
    /// Two names differ; the condition may have them in either order.
    Distinct(usize, usize),
    /// A statement halts from no store.
    Quiet(usize),
}

/// Whether a condition that the loops of a rule require is missing. The time is that of some walks over both sides
/// for each pair of parameters.
#[tactic(auto, unfolding(crate::specs::Required::lacks_condition))]
pub fn lacks_condition(rule: &Rule) -> bool
    ensures { result ≡ spec.lacks_condition rule.now }
{
    for k in 0..rule.params.len() {
        if lacks_of(rule, k) {
            return true;
        }
    }
    false
}

fn lacks_of(rule: &Rule, k: usize) -> bool
    ensures { result ≡ spec.lacks_of rule.now k }
{
    lacks_quiet(rule, k) || lacks_some(rule, k)
}

#[tactic(auto)]
fn lacks_some(rule: &Rule, a: usize) -> bool
    ensures { result ≡ any_below (spec.lacks_for_pair rule.now a) (length rule.now.params) }
{
    for b in 0..rule.params.len() {
        if lacks_for_pair(rule, a, b) {
            return true;
        }
    }
    false
}

fn lacks_for_pair(rule: &Rule, a: usize, b: usize) -> bool
    ensures { result ≡ spec.lacks_for_pair rule.now a b }
{
    lacks_distinct(rule, a, b)
        || lacks_ignored(rule, a, b)
        || lacks_kept(rule, a, b)
        || lacks_for_name(rule, a, b)
}

fn lacks_distinct(rule: &Rule, a: usize, b: usize) -> bool
    ensures { result ≡ spec.lacks_distinct rule.now a b }
{
    a < b && is_set(rule, a) && is_set(rule, b) && lacks(rule, Wanted::Distinct(a, b))
}

fn lacks_ignored(rule: &Rule, a: usize, b: usize) -> bool
    ensures { result ≡ spec.lacks_ignored rule.now a b }
{
    is_symbol(rule.params.as_slice(), a) && is_set(rule, b) && lacks(rule, Wanted::Ignores(a, b))
}

fn lacks_kept(rule: &Rule, a: usize, b: usize) -> bool
    ensures { result ≡ spec.lacks_kept rule.now a b }
{
    block_holds(a, &rule.left)
        && is_symbol(rule.params.as_slice(), b)
        && lacks(rule, Wanted::Keeps(a, b))
}

fn lacks_for_name(rule: &Rule, a: usize, b: usize) -> bool
    ensures { result ≡ spec.lacks_for_name rule.now a b }
{
    match (sets_round(b, a, &rule.left), sets_round(b, a, &rule.right)) {
        (true, true) => lacks(rule, Wanted::Keeps(a, b)),
        (true, false) | (false, true) => lacks(rule, Wanted::Ignores(a, b)),
        (false, false) => false,
    }
}

fn lacks_quiet(rule: &Rule, k: usize) -> bool
    ensures { result ≡ spec.lacks_quiet rule.now k }
{
    block_holds(k, &rule.left)
        && !some_swaps(rule.conditions.as_slice(), k)
        && lacks(rule, Wanted::Quiet(k))
}

/// Whether some `for` or `let` of a side sets the name.
fn is_set(rule: &Rule, x: usize) -> bool
    ensures { result ≡ spec.is_set rule.now x }
{
    block_sets(x, &rule.left) || block_sets(x, &rule.right)
}

/// Whether the rule does not have this condition.
fn lacks(rule: &Rule, wanted: Wanted) -> bool
    ensures { result ≡ spec.lacks rule.now wanted }
{
    !some_wanted(rule.conditions.as_slice(), wanted)
}

fn some_wanted(conditions: &[Condition], wanted: Wanted) -> bool
    ensures { result ≡ list_any (spec.is_wanted wanted) conditions.now }
{
    conditions.iter().any(|c| is_wanted(wanted, c))
}

fn is_wanted(wanted: Wanted, c: &Condition) -> bool
    ensures { result ≡ spec.is_wanted wanted c.now }
{
    match (wanted, c) {
        (Wanted::Keeps(s, o), Condition::Keeps(t, p)) => s == *t as usize && o == *p as usize,
        (Wanted::Ignores(o, x), Condition::Ignores(p, y)) => o == *p as usize && x == *y as usize,
        (Wanted::Distinct(x, y), Condition::Distinct(a, b)) => {
            (x == *a as usize && y == *b as usize) || (x == *b as usize && y == *a as usize)
        }
        (Wanted::Quiet(s), Condition::Quiet(t)) => s == *t as usize,
        _ => false,
    }
}

fn some_swaps(conditions: &[Condition], k: usize) -> bool
    ensures { result ≡ list_any (spec.swaps_statement k) conditions.now }
{
    conditions.iter().any(|c| swaps_statement(k, c))
}

fn swaps_statement(k: usize, c: &Condition) -> bool
    ensures { result ≡ spec.swaps_statement k c.now }
{
    match c {
        Condition::Swaps(s, t, _, _) => k == *s as usize || k == *t as usize,
        _ => false,
    }
}
