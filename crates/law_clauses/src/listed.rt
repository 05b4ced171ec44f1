//! Whether a side condition is listed of parameters of the kinds that a law names.
//! `specs/Listed.antt` says what is looked for.

ghost use Rattle.std.specs.Prelude.{◌≡◌};
ghost use Rattle.law_clauses.specs.Listed.{is_keeps, is_positive, is_constant, is_distinct};
ghost use Rattle.law_clauses.specs.Listed.{keeps, positive, constant, distinct, has_kind};
ghost use Rattle.law_clauses.specs.Listed.{lists_keeps, lists_ignores, lists_commutes};
ghost use Rattle.law_clauses.specs.Listed.{lists_positive, lists_constant, lists_distinct};

use rule_terms::{Obligation, commute, ignores};
use toy_imp::{Condition, Kind};

fn is_keeps(c: &Condition, k: u32, o: u32) -> bool
    ensures { result ≡ is_keeps k o c.now }
{
    match c {
        Condition::Keeps(a, b) => *a == k && *b == o,
        _ => false,
    }
}

#[tactic(auto, unfolding(crate::specs::Listed::keeps))]
fn keeps(conditions: &[Condition], k: u32, o: u32) -> bool
    ensures { result ≡ keeps conditions.now k o }
{
    for condition in conditions {
        if is_keeps(condition, k, o) {
            return true;
        }
    }
    false
}

fn is_positive(c: &Condition, e: u32) -> bool
    ensures { result ≡ is_positive e c.now }
{
    match c {
        Condition::Positive(a) => *a == e,
        _ => false,
    }
}

#[tactic(auto, unfolding(crate::specs::Listed::positive))]
fn positive(conditions: &[Condition], e: u32) -> bool
    ensures { result ≡ positive conditions.now e }
{
    for condition in conditions {
        if is_positive(condition, e) {
            return true;
        }
    }
    false
}

fn is_constant(c: &Condition, e: u32) -> bool
    ensures { result ≡ is_constant e c.now }
{
    match c {
        Condition::Constant(a) => *a == e,
        _ => false,
    }
}

#[tactic(auto, unfolding(crate::specs::Listed::constant))]
fn constant(conditions: &[Condition], e: u32) -> bool
    ensures { result ≡ constant conditions.now e }
{
    for condition in conditions {
        if is_constant(condition, e) {
            return true;
        }
    }
    false
}

fn is_distinct(c: &Condition, x: u32, y: u32) -> bool
    ensures { result ≡ is_distinct x y c.now }
{
    match c {
        Condition::Distinct(a, b) => (*a == x && *b == y) || (*a == y && *b == x),
        _ => false,
    }
}

// In either order.
#[tactic(auto, unfolding(crate::specs::Listed::distinct))]
fn distinct(conditions: &[Condition], x: u32, y: u32) -> bool
    ensures { result ≡ distinct conditions.now x y }
{
    for condition in conditions {
        if is_distinct(condition, x, y) {
            return true;
        }
    }
    false
}

fn has_kind(params: &[Kind], wanted: Kind, k: u32) -> bool
    ensures { result ≡ has_kind params.now wanted k }
{
    match params.get(k as usize) {
        Some(kind) => *kind == wanted,
        None => false,
    }
}

// ---- the conditions of an obligation, of parameters of these kinds
#[tactic(auto, unfolding(crate::specs::Listed::lists_keeps))]
pub fn lists_keeps(ob: &Obligation, wanted: Kind, k: u32, o: u32) -> bool
    ensures { result ≡ lists_keeps ob.now wanted k o }
{
    let params = ob.params.as_slice();
    has_kind(params, Kind::Stmt, k)
        && has_kind(params, wanted, o)
        && keeps(ob.conditions.as_slice(), k, o)
}

#[tactic(auto, unfolding(crate::specs::Listed::lists_ignores))]
pub fn lists_ignores(ob: &Obligation, wanted: Kind, k: u32, x: u32) -> bool
    ensures { result ≡ lists_ignores ob.now wanted k x }
{
    let params = ob.params.as_slice();
    has_kind(params, wanted, k)
        && has_kind(params, Kind::Name, x)
        && ignores(ob.conditions.as_slice(), k, x)
}

#[tactic(auto, unfolding(crate::specs::Listed::lists_commutes))]
pub fn lists_commutes(ob: &Obligation, j: u32, k: u32) -> bool
    ensures { result ≡ lists_commutes ob.now j k }
{
    let params = ob.params.as_slice();
    has_kind(params, Kind::Stmt, j)
        && has_kind(params, Kind::Stmt, k)
        && commute(ob.conditions.as_slice(), j, k)
}

#[tactic(auto, unfolding(crate::specs::Listed::lists_positive))]
pub fn lists_positive(ob: &Obligation, e: u32) -> bool
    ensures { result ≡ lists_positive ob.now e }
{
    has_kind(ob.params.as_slice(), Kind::Expr, e) && positive(ob.conditions.as_slice(), e)
}

#[tactic(auto, unfolding(crate::specs::Listed::lists_constant))]
pub fn lists_constant(ob: &Obligation, e: u32) -> bool
    ensures { result ≡ lists_constant ob.now e }
{
    has_kind(ob.params.as_slice(), Kind::Expr, e) && constant(ob.conditions.as_slice(), e)
}

#[tactic(auto, unfolding(crate::specs::Listed::lists_distinct))]
pub fn lists_distinct(ob: &Obligation, x: u32, y: u32) -> bool
    ensures { result ≡ lists_distinct ob.now x y }
{
    let params = ob.params.as_slice();
    has_kind(params, Kind::Name, x)
        && has_kind(params, Kind::Name, y)
        && distinct(ob.conditions.as_slice(), x, y)
}
