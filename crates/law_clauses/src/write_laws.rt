//! Which literals are a clause of one of the laws of reads and writes.
//! The clauses are those of `specs/WriteLaws.antt`.

ghost use Rattle.std.specs.Prelude.{◌≡◌, [], ◌∷◌};
ghost use Rattle.rule_terms.specs.TermView.{terms_of};
ghost use Rattle.law_clauses.specs.Signed.{signed_of, two_signed, three_signed};
ghost use Rattle.law_clauses.specs.WriteLaws.{law_2, index_pair, law_3, law_4, law_6, law_7, law_8};
ghost use Rattle.law_clauses.specs.WriteLaws.{law_9, law_10};

use crate::shapes::{count, is_get};
use rule_terms::{Atom, Literal, StoreNode, ValueNode, ValueTerm};

// A read past a write to another name.
#[tactic(auto, unfolding(crate::specs::WriteLaws::law_2))]
pub fn reads_past_name(x: &Literal, y: &Literal) -> bool
    ensures { result ≡ law_2 (two_signed x.now y.now) }
{
    match (x.sign, &x.atom, y.sign, &y.atom) {
        (true, Atom::SameName(n, m), true, Atom::SameValue(v, w)) => match &v.node {
            ValueNode::Get(q, t) => match &t.get().node {
                StoreNode::Put(s, p, _) => *n == q.name && *m == p.name && is_get(w, q, s.get()),
                _ => false,
            },
            _ => false,
        },
        _ => false,
    }
}

// Whether the two lists have the terms at one place.
#[tactic(auto, using(crate::proofs::Pairs::first_used, crate::proofs::Pairs::second_used), unfolding(crate::specs::WriteLaws::index_pair))]
fn index_pair(a: &ValueTerm, b: &ValueTerm, js: &[ValueTerm], is: &[ValueTerm]) -> bool
    ensures { result ≡ index_pair a.now b.now (terms_of js.now) (terms_of is.now) }
{
    for (i, v) in js.iter().enumerate() {
        let Some(w) = is.get(i) else {
            return false;
        };
        if a.same(v) && b.same(w) {
            return true;
        }
    }
    false
}

// A read past a write to another index.
#[tactic(auto, unfolding(crate::specs::WriteLaws::law_3))]
pub fn reads_past_index(x: &Literal, y: &Literal) -> bool
    ensures { result ≡ law_3 (two_signed x.now y.now) }
{
    match (x.sign, &x.atom, y.sign, &y.atom) {
        (true, Atom::SameValue(a, b), true, Atom::SameValue(v, w)) => match &v.node {
            ValueNode::Get(q, t) => match &t.get().node {
                StoreNode::Put(s, p, _) => {
                    count(q) == count(p)
                        && index_pair(a, b, q.indices.as_slice(), p.indices.as_slice())
                        && is_get(w, q, s.get())
                }
                _ => false,
            },
            _ => false,
        },
        _ => false,
    }
}

// A read past a write with another number of indices.
#[tactic(auto, unfolding(crate::specs::WriteLaws::law_4))]
pub fn reads_past_count(x: &Literal) -> bool
    ensures { result ≡ law_4 (signed_of x.now ∷ []) }
{
    match (x.sign, &x.atom) {
        (true, Atom::SameValue(v, w)) => match &v.node {
            ValueNode::Get(q, t) => match &t.get().node {
                StoreNode::Put(s, p, _) => { count(q) != count(p) && is_get(w, q, s.get()) }
                _ => false,
            },
            _ => false,
        },
        _ => false,
    }
}

// L and R.
#[tactic(auto, unfolding(crate::specs::WriteLaws::law_6))]
pub fn side_ends(x: &Literal) -> bool
    ensures { result ≡ law_6 (signed_of x.now ∷ []) }
{
    match (x.sign, &x.atom) {
        (true, Atom::Ends(s)) => match &s.node {
            StoreNode::L => true,
            StoreNode::R => true,
            _ => false,
        },
        _ => false,
    }
}

// A write into what ends.
#[tactic(auto, unfolding(crate::specs::WriteLaws::law_7))]
pub fn write_ends(x: &Literal, y: &Literal) -> bool
    ensures { result ≡ law_7 (two_signed x.now y.now) }
{
    match (x.sign, &x.atom, y.sign, &y.atom) {
        (false, Atom::Ends(s), true, Atom::Ends(t)) => match &t.node {
            StoreNode::Put(u, _, _) => u.get().same(s),
            _ => false,
        },
        _ => false,
    }
}

// What is written into.
#[tactic(auto, unfolding(crate::specs::WriteLaws::law_8))]
pub fn written_ends(x: &Literal, y: &Literal) -> bool
    ensures { result ≡ law_8 (two_signed x.now y.now) }
{
    match (x.sign, &x.atom, y.sign, &y.atom) {
        (false, Atom::Ends(t), true, Atom::Ends(s)) => match &t.node {
            StoreNode::Put(u, _, _) => u.get().same(s),
            _ => false,
        },
        _ => false,
    }
}

// What a run that ends starts from.
#[tactic(auto, unfolding(crate::specs::WriteLaws::law_9))]
pub fn run_starts(x: &Literal, y: &Literal) -> bool
    ensures { result ≡ law_9 (two_signed x.now y.now) }
{
    match (x.sign, &x.atom, y.sign, &y.atom) {
        (false, Atom::Ends(t), true, Atom::Ends(s)) => match &t.node {
            StoreNode::Run(_, u) => u.get().same(s),
            _ => false,
        },
        _ => false,
    }
}

// Two stores that do not end.
#[tactic(auto, unfolding(crate::specs::WriteLaws::law_10))]
pub fn neither_ends(x: &Literal, y: &Literal, z: &Literal) -> bool
    ensures { result ≡ law_10 (three_signed x.now y.now z.now) }
{
    match (x.sign, &x.atom, y.sign, &y.atom, z.sign, &z.atom) {
        (true, Atom::Ends(a), true, Atom::Ends(c), true, Atom::SameStore(b, d)) => {
            b.same(a) && d.same(c)
        }
        _ => false,
    }
}
