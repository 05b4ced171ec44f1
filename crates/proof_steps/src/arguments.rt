//! Equalities of terms with the same top, and literals whose terms are replaced by equal ones.
//! `specs/Replaced.antt` says what the arguments of a term are and which steps have to be cited.

ghost use Rattle.std.specs.Prelude.{◌≡◌, ◌&&◌, [], ◌∷◌, Some};
ghost use Rattle.term_meaning.specs.Indices.{count};
ghost use Rattle.rule_terms.specs.Term.{put, get};
ghost use Rattle.law_clauses.specs.Signed.{signed_of};
ghost use Rattle.proof_steps.specs.Cited.{fact};
ghost use Rattle.law_clauses.specs.Arguments.{of_store, of_value, store_arguments, value_arguments, store_top, value_top};
ghost use Rattle.proof_steps.specs.Replaced.{replaced, alike, carried_atom, carried};

use crate::replaced::{is_all_used, place_pairs, store_pair, value_pair};
use law_clauses::count;
use refutations::Step;
use rule_terms::{Atom, Literal, Place, StoreNode, StoreTerm, ValueNode, ValueTerm};

// One store by another.
#[tactic(auto, unfolding(crate::specs::Replaced::left_by_pairs))]
fn is_store_replaced(earlier: &[Step], from: &[u32], s: &StoreTerm, t: &StoreTerm) -> bool
    ensures { result ≡ replaced earlier.now from.now (of_store s.now ∷ []) (of_store t.now ∷ []) }
{
    let at = store_pair(earlier, from, Some(0), s, t);
    is_all_used(from, at)
}

// Two values by two others.
#[tactic(auto, unfolding(crate::specs::Replaced::left_by_pairs))]
fn are_values_replaced(
    earlier: &[Step],
    from: &[u32],
    a: &ValueTerm,
    b: &ValueTerm,
    c: &ValueTerm,
    d: &ValueTerm,
) -> bool
    ensures { result ≡ replaced earlier.now from.now (of_value a.now ∷ of_value b.now ∷ []) (of_value c.now ∷ of_value d.now ∷ []) }
{
    let at = value_pair(earlier, from, Some(0), a, c);
    let at = value_pair(earlier, from, at, b, d);
    is_all_used(from, at)
}

// Two written stores with as many indices.
#[tactic(auto, using(crate::proofs::Arguing::put_replaced))]
fn is_write_replaced(
    earlier: &[Step],
    from: &[u32],
    s: &StoreTerm,
    p: &Place,
    v: &ValueTerm,
    t: &StoreTerm,
    q: &Place,
    w: &ValueTerm,
) -> bool
    requires { count p.now.indices ≡ count q.now.indices }
    ensures { result ≡ replaced earlier.now from.now (store_arguments (put s.now p.now.name p.now.indices v.now)) (store_arguments (put t.now q.now.name q.now.indices w.now)) }
{
    let at = store_pair(earlier, from, Some(0), s, t);
    let at = place_pairs(earlier, from, at, p, q);
    let at = value_pair(earlier, from, at, v, w);
    is_all_used(from, at)
}

// Two reads with as many indices.
#[tactic(auto, using(crate::proofs::Arguing::get_replaced))]
fn is_read_replaced(
    earlier: &[Step],
    from: &[u32],
    p: &Place,
    s: &StoreTerm,
    q: &Place,
    t: &StoreTerm,
) -> bool
    requires { count p.now.indices ≡ count q.now.indices }
    ensures { result ≡ replaced earlier.now from.now (value_arguments (get p.now.name p.now.indices s.now)) (value_arguments (get q.now.name q.now.indices t.now)) }
{
    let at = place_pairs(earlier, from, Some(0), p, q);
    let at = store_pair(earlier, from, at, s, t);
    is_all_used(from, at)
}

#[tactic(auto, using(crate::proofs::Arguing::nothing_replaced), unfolding(law_clauses::specs::Arguments::store_top))]
fn are_stores_alike(earlier: &[Step], from: &[u32], a: &StoreTerm, b: &StoreTerm) -> bool
    ensures { result ≡ (store_top a.now b.now && replaced earlier.now from.now (store_arguments a.now) (store_arguments b.now)) }
{
    match (&a.node, &b.node) {
        (StoreNode::L, StoreNode::L) => is_all_used(from, Some(0)),
        (StoreNode::R, StoreNode::R) => is_all_used(from, Some(0)),
        (StoreNode::Put(s, p, v), StoreNode::Put(t, q, w)) => {
            count(p) == count(q)
                && is_write_replaced(earlier, from, s.get(), p, v.get(), t.get(), q, w.get())
        }
        (StoreNode::Run(j, s), StoreNode::Run(k, t)) => {
            *j == *k && is_store_replaced(earlier, from, s.get(), t.get())
        }
        _ => false,
    }
}

#[tactic(auto, using(crate::proofs::Arguing::nothing_replaced), unfolding(law_clauses::specs::Arguments::value_top))]
fn are_values_alike(earlier: &[Step], from: &[u32], a: &ValueTerm, b: &ValueTerm) -> bool
    ensures { result ≡ (value_top a.now b.now && replaced earlier.now from.now (value_arguments a.now) (value_arguments b.now)) }
{
    match (&a.node, &b.node) {
        (ValueNode::Num(y), ValueNode::Num(z)) => *y == *z && is_all_used(from, Some(0)),
        (ValueNode::Get(p, s), ValueNode::Get(q, t)) => {
            count(p) == count(q) && is_read_replaced(earlier, from, p, s.get(), q, t.get())
        }
        (ValueNode::Ev(j, s), ValueNode::Ev(k, t)) => {
            *j == *k && is_store_replaced(earlier, from, s.get(), t.get())
        }
        (ValueNode::Add(a, b), ValueNode::Add(c, d)) => {
            are_values_replaced(earlier, from, a.get(), b.get(), c.get(), d.get())
        }
        (ValueNode::Sub(a, b), ValueNode::Sub(c, d)) => {
            are_values_replaced(earlier, from, a.get(), b.get(), c.get(), d.get())
        }
        (ValueNode::Mul(a, b), ValueNode::Mul(c, d)) => {
            are_values_replaced(earlier, from, a.get(), b.get(), c.get(), d.get())
        }
        _ => false,
    }
}

// An equality of two terms with the same top, whose arguments are identical or equal by the cited steps.
#[tactic(auto, unfolding(crate::specs::Replaced::alike))]
pub fn is_alike(earlier: &[Step], from: &[u32], x: &Literal) -> bool
    ensures { result ≡ alike earlier.now from.now (signed_of x.now) }
{
    match (x.sign, &x.atom) {
        (true, Atom::SameStore(a, b)) => are_stores_alike(earlier, from, a, b),
        (true, Atom::SameValue(a, b)) => are_values_alike(earlier, from, a, b),
        _ => false,
    }
}

fn is_carried_atom(earlier: &[Step], from: &[u32], a: &Atom, b: &Atom) -> bool
    ensures { result ≡ carried_atom earlier.now from.now a.now b.now }
{
    match (a, b) {
        (Atom::AtMost(a, b, x), Atom::AtMost(c, d, y)) => {
            *x == *y && are_values_replaced(earlier, from, a, b, c, d)
        }
        (Atom::Ends(s), Atom::Ends(t)) => is_store_replaced(earlier, from, s, t),
        (Atom::Holds(j, s), Atom::Holds(k, t)) => {
            *j == *k && is_store_replaced(earlier, from, s, t)
        }
        _ => false,
    }
}

#[tactic(auto, unfolding(crate::specs::Replaced::carried))]
fn carries(earlier: &[Step], from: &[u32], y: &Literal, x: &Literal) -> bool
    ensures { result ≡ carried earlier.now from.now (Some (signed_of y.now)) (signed_of x.now) }
{
    match (y.sign, x.sign) {
        (true, true) => is_carried_atom(earlier, from, &y.atom, &x.atom),
        (false, false) => is_carried_atom(earlier, from, &y.atom, &x.atom),
        _ => false,
    }
}

// The literal of a step with its terms replaced, its sign kept.
#[tactic(auto, unfolding(crate::specs::Replaced::carried))]
pub fn is_carried(earlier: &[Step], k: u32, from: &[u32], x: &Literal) -> bool
    ensures { result ≡ carried earlier.now from.now (fact earlier.now k) (signed_of x.now) }
{
    match earlier.get(k as usize) {
        Some(step) => carries(earlier, from, &step.gives, x),
        None => false,
    }
}
