//! Whether a term is the one that a constructor makes of given arguments, without making it.
//! `specs/Shapes.antt` says what is compared.

ghost use Rattle.std.specs.Prelude.{◌≡◌};
ghost use Rattle.term_meaning.specs.Indices.{count};
ghost use Rattle.law_clauses.specs.Shapes.{is_run, is_put, is_num, is_get, is_ev};
ghost use Rattle.law_clauses.specs.Shapes.{is_add, is_sub, is_mul};

use rule_terms::{Place, StoreNode, StoreTerm, ValueNode, ValueTerm};

/// Whether the term is the run of this statement parameter from the store.
#[tactic(auto, unfolding(crate::specs::Shapes::is_run))]
pub fn is_run(t: &StoreTerm, k: u32, s: &StoreTerm) -> bool
    ensures { result ≡ is_run t.now k s.now }
{
    match &t.node {
        StoreNode::Run(j, u) => *j == k && u.get().same(s),
        _ => false,
    }
}

/// Whether the term is the store `s` with `v` written at `p`.
#[tactic(auto, unfolding(crate::specs::Shapes::is_put))]
pub fn is_put(t: &StoreTerm, s: &StoreTerm, p: &Place, v: &ValueTerm) -> bool
    ensures { result ≡ is_put t.now s.now p.now.name p.now.indices v.now }
{
    match &t.node {
        StoreNode::Put(u, q, w) => u.get().same(s) && q.same(p) && w.get().same(v),
        _ => false,
    }
}

/// Whether the term is this constant.
#[tactic(auto, unfolding(crate::specs::Shapes::is_num))]
pub fn is_num(w: &ValueTerm, z: i64) -> bool
    ensures { result ≡ is_num w.now z }
{
    match &w.node {
        ValueNode::Num(y) => *y == z,
        _ => false,
    }
}

/// Whether the term is what the place holds in the store.
#[tactic(auto, unfolding(crate::specs::Shapes::is_get))]
pub fn is_get(w: &ValueTerm, p: &Place, s: &StoreTerm) -> bool
    ensures { result ≡ is_get w.now p.now.name p.now.indices s.now }
{
    match &w.node {
        ValueNode::Get(q, t) => q.same(p) && t.get().same(s),
        _ => false,
    }
}

/// Whether the term is the value of this expression parameter in the store.
#[tactic(auto, unfolding(crate::specs::Shapes::is_ev))]
pub fn is_ev(w: &ValueTerm, k: u32, s: &StoreTerm) -> bool
    ensures { result ≡ is_ev w.now k s.now }
{
    match &w.node {
        ValueNode::Ev(j, t) => *j == k && t.get().same(s),
        _ => false,
    }
}

/// Whether the term is the sum of the two.
#[tactic(auto, unfolding(crate::specs::Shapes::is_add))]
pub fn is_add(w: &ValueTerm, a: &ValueTerm, b: &ValueTerm) -> bool
    ensures { result ≡ is_add w.now a.now b.now }
{
    match &w.node {
        ValueNode::Add(c, d) => c.get().same(a) && d.get().same(b),
        _ => false,
    }
}

/// Whether the term is the difference of the two.
#[tactic(auto, unfolding(crate::specs::Shapes::is_sub))]
pub fn is_sub(w: &ValueTerm, a: &ValueTerm, b: &ValueTerm) -> bool
    ensures { result ≡ is_sub w.now a.now b.now }
{
    match &w.node {
        ValueNode::Sub(c, d) => c.get().same(a) && d.get().same(b),
        _ => false,
    }
}

/// Whether the term is the product of the two.
#[tactic(auto, unfolding(crate::specs::Shapes::is_mul))]
pub fn is_mul(w: &ValueTerm, a: &ValueTerm, b: &ValueTerm) -> bool
    ensures { result ≡ is_mul w.now a.now b.now }
{
    match &w.node {
        ValueNode::Mul(c, d) => c.get().same(a) && d.get().same(b),
        _ => false,
    }
}

/// How many indices a place has.
#[tactic(auto, using(crate::proofs::Pairs::count_terms))]
pub fn count(p: &Place) -> usize
    ensures { result ≡ count p.now.indices }
{
    p.indices.len()
}
