//! Which literals are a clause of one of the laws that side conditions give.
//! The clauses are those of `specs/ConditionLaws.antt`.

ghost use Rattle.std.specs.Prelude.{◌≡◌, [], ◌∷◌};
ghost use Rattle.law_clauses.specs.Signed.{signed_of, two_signed, three_signed};
ghost use Rattle.law_clauses.specs.ConditionLaws.{law_11, law_12, across_run, law_13, law_14};
ghost use Rattle.law_clauses.specs.ConditionLaws.{written_at, law_15, law_16, law_17};
ghost use Rattle.law_clauses.specs.ConditionLaws.{law_18, law_19, law_20, law_21};

use crate::listed::{
    lists_commutes, lists_constant, lists_distinct, lists_ignores, lists_keeps, lists_positive,
};
use crate::shapes::{count, is_ev, is_get, is_num, is_run};
use rule_terms::{Atom, Literal, Obligation, StoreNode, StoreTerm, ValueNode};
use toy_imp::Kind;

// A run that keeps an expression.
#[tactic(auto, unfolding(crate::specs::ConditionLaws::law_11))]
pub fn keeps_value(ob: &Obligation, x: &Literal, y: &Literal) -> bool
    ensures { result ≡ law_11 ob.now (two_signed x.now y.now) }
{
    match (x.sign, &x.atom, y.sign, &y.atom) {
        (false, Atom::Ends(r), true, Atom::SameValue(v, w)) => match (&r.node, &v.node) {
            (StoreNode::Run(k, s), ValueNode::Ev(e, t)) => {
                lists_keeps(ob, Kind::Expr, *k, *e)
                    && is_run(t.get(), *k, s.get())
                    && is_ev(w, *e, s.get())
            }
            _ => false,
        },
        _ => false,
    }
}

// A run that keeps a variable.
#[tactic(auto, unfolding(crate::specs::ConditionLaws::law_12))]
pub fn keeps_variable(ob: &Obligation, x: &Literal, y: &Literal) -> bool
    ensures { result ≡ law_12 ob.now (two_signed x.now y.now) }
{
    match (x.sign, &x.atom, y.sign, &y.atom) {
        (false, Atom::Ends(r), true, Atom::SameValue(v, w)) => match (&r.node, &v.node) {
            (StoreNode::Run(k, s), ValueNode::Get(p, t)) => {
                count(p) == 0
                    && lists_keeps(ob, Kind::Name, *k, p.name)
                    && is_run(t.get(), *k, s.get())
                    && is_get(w, p, s.get())
            }
            _ => false,
        },
        _ => false,
    }
}

fn across_run(k: u32, s: &StoreTerm, a: &StoreTerm, b: &StoreTerm) -> bool
    ensures { result ≡ across_run k s.now a.now b.now }
{
    (a.same(s) && is_run(b, k, s)) || (is_run(a, k, s) && b.same(s))
}

// A run that keeps a test.
#[tactic(auto, unfolding(crate::specs::ConditionLaws::law_13))]
pub fn keeps_test(ob: &Obligation, x: &Literal, y: &Literal, z: &Literal) -> bool
    ensures { result ≡ law_13 ob.now (three_signed x.now y.now z.now) }
{
    match (x.sign, &x.atom, y.sign, &y.atom, z.sign, &z.atom) {
        (false, Atom::Ends(r), false, Atom::Holds(q, a), true, Atom::Holds(p, b)) => match &r.node {
            StoreNode::Run(k, s) => {
                lists_keeps(ob, Kind::Test, *k, *q) && *p == *q && across_run(*k, s.get(), a, b)
            }
            _ => false,
        },
        _ => false,
    }
}

// An expression that ignores a write.
#[tactic(auto, unfolding(crate::specs::ConditionLaws::law_14))]
pub fn value_ignores(ob: &Obligation, x: &Literal, y: &Literal) -> bool
    ensures { result ≡ law_14 ob.now (two_signed x.now y.now) }
{
    match (x.sign, &x.atom, y.sign, &y.atom) {
        (false, Atom::SameName(n, m), true, Atom::SameValue(v, w)) => match &v.node {
            ValueNode::Ev(e, t) => match &t.get().node {
                StoreNode::Put(s, p, _) => {
                    lists_ignores(ob, Kind::Expr, *e, *m) && *n == p.name && is_ev(w, *e, s.get())
                }
                _ => false,
            },
            _ => false,
        },
        _ => false,
    }
}

fn written_at(n: u32, s: &StoreTerm, t: &StoreTerm) -> bool
    ensures { result ≡ written_at n s.now t.now }
{
    match &t.node {
        StoreNode::Put(u, p, _) => n == p.name && u.get().same(s),
        _ => false,
    }
}

// A test that ignores a write.
#[tactic(auto, unfolding(crate::specs::ConditionLaws::law_15))]
pub fn test_ignores(ob: &Obligation, x: &Literal, y: &Literal, z: &Literal) -> bool
    ensures { result ≡ law_15 ob.now (three_signed x.now y.now z.now) }
{
    match (x.sign, &x.atom, y.sign, &y.atom, z.sign, &z.atom) {
        (false, Atom::SameName(n, m), false, Atom::Holds(q, a), true, Atom::Holds(p, b)) => {
            lists_ignores(ob, Kind::Test, *q, *m)
                && *p == *q
                && (written_at(*n, a, b) || written_at(*n, b, a))
        }
        _ => false,
    }
}

// A run that ignores a write.
#[tactic(auto, unfolding(crate::specs::ConditionLaws::law_16))]
pub fn run_ignores(ob: &Obligation, x: &Literal, y: &Literal) -> bool
    ensures { result ≡ law_16 ob.now (two_signed x.now y.now) }
{
    match (x.sign, &x.atom, y.sign, &y.atom) {
        (false, Atom::SameName(n, m), true, Atom::SameStore(a, b)) => match (&a.node, &b.node) {
            (StoreNode::Run(k, t), StoreNode::Put(u, q, w)) => match &t.get().node {
                StoreNode::Put(s, p, v) => {
                    lists_ignores(ob, Kind::Stmt, *k, *m)
                        && *n == p.name
                        && is_run(u.get(), *k, s.get())
                        && q.same(p)
                        && w.get().same(v.get())
                }
                _ => false,
            },
            _ => false,
        },
        _ => false,
    }
}

// A run that ignores a cell.
#[tactic(auto, unfolding(crate::specs::ConditionLaws::law_17))]
pub fn run_leaves(ob: &Obligation, x: &Literal, y: &Literal, z: &Literal) -> bool
    ensures { result ≡ law_17 ob.now (three_signed x.now y.now z.now) }
{
    match (x.sign, &x.atom, y.sign, &y.atom, z.sign, &z.atom) {
        (false, Atom::Ends(r), false, Atom::SameName(n, m), true, Atom::SameValue(v, w)) => {
            match (&r.node, &v.node) {
                (StoreNode::Run(k, s), ValueNode::Get(p, t)) => {
                    lists_ignores(ob, Kind::Stmt, *k, *m)
                        && *n == p.name
                        && is_run(t.get(), *k, s.get())
                        && is_get(w, p, s.get())
                }
                _ => false,
            }
        }
        _ => false,
    }
}

// Two runs in either order.
#[tactic(auto, unfolding(crate::specs::ConditionLaws::law_18))]
pub fn runs_commute(ob: &Obligation, x: &Literal) -> bool
    ensures { result ≡ law_18 ob.now (signed_of x.now ∷ []) }
{
    match (x.sign, &x.atom) {
        (true, Atom::SameStore(a, b)) => match (&a.node, &b.node) {
            (StoreNode::Run(k, t), StoreNode::Run(i, u)) => match &t.get().node {
                StoreNode::Run(j, s) => {
                    lists_commutes(ob, *j, *k) && *i == *j && is_run(u.get(), *k, s.get())
                }
                _ => false,
            },
            _ => false,
        },
        _ => false,
    }
}

// A positive expression.
#[tactic(auto, unfolding(crate::specs::ConditionLaws::law_19))]
pub fn is_at_least_one(ob: &Obligation, x: &Literal, y: &Literal) -> bool
    ensures { result ≡ law_19 ob.now (two_signed x.now y.now) }
{
    match (x.sign, &x.atom, y.sign, &y.atom) {
        (false, Atom::Ends(s), true, Atom::AtMost(a, v, c)) => match &v.node {
            ValueNode::Ev(e, t) => {
                lists_positive(ob, *e) && is_num(a, 1) && t.get().same(s) && *c == 0
            }
            _ => false,
        },
        _ => false,
    }
}

// A constant expression.
#[tactic(auto, unfolding(crate::specs::ConditionLaws::law_20))]
pub fn is_constant_value(ob: &Obligation, x: &Literal, y: &Literal, z: &Literal) -> bool
    ensures { result ≡ law_20 ob.now (three_signed x.now y.now z.now) }
{
    match (x.sign, &x.atom, y.sign, &y.atom, z.sign, &z.atom) {
        (false, Atom::Ends(a), false, Atom::Ends(c), true, Atom::SameValue(v, w)) => match &v.node {
            ValueNode::Ev(e, b) => lists_constant(ob, *e) && b.get().same(a) && is_ev(w, *e, c),
            _ => false,
        },
        _ => false,
    }
}

// Two names that differ.
#[tactic(auto, unfolding(crate::specs::ConditionLaws::law_21))]
pub fn names_differ(ob: &Obligation, x: &Literal) -> bool
    ensures { result ≡ law_21 ob.now (signed_of x.now ∷ []) }
{
    match (x.sign, &x.atom) {
        (false, Atom::SameName(n, m)) => lists_distinct(ob, *n, *m),
        _ => false,
    }
}
