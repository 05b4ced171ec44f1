//! Which literals are a clause of the law that stores written alike are equal.
//! The clauses are those of `specs/WriteLaws.antt`; the walk that finds them is that of
//! `specs/WrittenAlike.antt`.

ghost use Rattle.std.specs.Prelude.{◌≡◌, ◌≤◌, length, Some, MatchOption};
ghost use Rattle.std.specs.List.{list_any};
ghost use Rattle.rule_terms.specs.declared.obligation.Atom.TheVariants.{SameStore};
ghost use Rattle.term_meaning.specs.Writes.{base_of};
ghost use Rattle.law_clauses.specs.Signed.{minus, signed_of, all_signed, signed_same, all_same};
ghost use Rattle.law_clauses.specs.WriteLaws.{read_unlike, all_read_unlike, same_stores};
ghost use Rattle.law_clauses.specs.WriteLaws.{written_alike, law_5};
ghost use Rattle.law_clauses.specs.WrittenAlike.{reads_at, used_at, used_behind, uses_all};

use crate::shapes::is_get;
use rule_terms::{Atom, Literal, Place, StoreNode, StoreTerm, ValueNode};

// A store without its writes.
#[tactic(auto, unfolding(term_meaning::specs::Writes::base_of))]
fn base(t: &StoreTerm) -> &StoreTerm
    ensures { result.now ≡ base_of t.now }
{
    let mut t = t;
    while let StoreNode::Put(u, _, _) = &t.node {
        t = u.get();
    }
    t
}

#[tactic(auto, unfolding(crate::specs::WrittenAlike::reads_at))]
fn reads_at(x: &Literal, p: &Place) -> bool
    ensures { result ≡ reads_at p.now (signed_of x.now) }
{
    match (x.sign, &x.atom) {
        (false, Atom::SameValue(v, _)) => match &v.node {
            ValueNode::Get(q, _) => p.same(q),
            _ => false,
        },
        _ => false,
    }
}

// Whether a literal speaks of the place.
fn is_met(xs: &[Literal], p: &Place) -> bool
    ensures { result ≡ list_any (reads_at p.now) (all_signed xs.now) }
{
    for x in xs {
        if reads_at(x, p) {
            return true;
        }
    }
    false
}

// Whether the literal says that the place is read unlike.
#[tactic(auto, using(crate::proofs::WalkedWrites::get_same), unfolding(crate::specs::Signed::signed_same, crate::specs::Signed::atom_same))]
fn reads_unlike(x: &Literal, a: &StoreTerm, c: &StoreTerm, p: &Place) -> bool
    ensures { result ≡ signed_same (signed_of x.now) (read_unlike a.now c.now p.now) }
{
    match (x.sign, &x.atom) {
        (false, Atom::SameValue(v, w)) => is_get(v, p, a) && is_get(w, p, c),
        _ => false,
    }
}

#[tactic(auto, unfolding(crate::specs::Signed::signed_same, crate::specs::Signed::atom_same))]
fn denies_stores(x: &Literal, s: &StoreTerm, t: &StoreTerm) -> bool
    ensures { result ≡ signed_same (signed_of x.now) (minus (SameStore s.now t.now)) }
{
    match (x.sign, &x.atom) {
        (false, Atom::SameStore(a, b)) => a.same(s) && b.same(t),
        _ => false,
    }
}

// How many literals are used behind a write at the place, `n` being used before it. A place is
// looked for among these, one by one, so the walk over two stores is quadratic in their writes;
// nothing is built, and a store has some thousand writes at most.
#[tactic(auto, using(crate::proofs::WalkedWrites::used_at_met, crate::proofs::WalkedWrites::used_at_one_more, crate::proofs::WalkedWrites::used_at_other, crate::proofs::WalkedWrites::used_at_end))]
fn used_at(xs: &[Literal], n: usize, a: &StoreTerm, c: &StoreTerm, p: &Place) -> Option<usize>
    requires { n ≤ length xs.now }
    ensures used { result ≡ used_at a.now c.now (all_signed xs.now) n p.now }
    ensures within { MatchOption result (Unit {0}) (λ k. k ≤ length xs.now) }
{
    if is_met(&xs[..n], p) {
        return Some(n);
    }
    if n == xs.len() {
        return None;
    }
    if !reads_unlike(&xs[n], a, c, p) {
        return None;
    }
    Some(n + 1)
}

// .. and behind all writes of a store.
#[tactic(auto, unfolding(crate::specs::WrittenAlike::used_along, term_meaning::specs::Writes::written_in))]
fn used_along(
    xs: &[Literal],
    n: usize,
    t: &StoreTerm,
    a: &StoreTerm,
    c: &StoreTerm,
) -> Option<usize>
    requires { n ≤ length xs.now }
    ensures used { result ≡ used_behind a.now c.now (all_signed xs.now) n t.now }
    ensures within { MatchOption result (Unit {0}) (λ k. k ≤ length xs.now) }
{
    let mut used = n;
    let mut rest = t;
    while let StoreNode::Put(u, p, _) = &rest.node {
        let Some(more) = used_at(xs, used, a, c, p) else {
            return None;
        };
        used = more;
        rest = u.get();
    }
    Some(used)
}

// Whether all literals are used behind the writes of the second store too.
#[tactic(auto, using(crate::proofs::WalkedWrites::length_signed), unfolding(crate::specs::WrittenAlike::all_are_used))]
fn uses_all(xs: &[Literal], n: usize, a: &StoreTerm, c: &StoreTerm) -> bool
    requires { n ≤ length xs.now }
    ensures { result ≡ uses_all a.now c.now (all_signed xs.now) n }
{
    match used_along(xs, n, c, a, c) {
        Some(used) => used == xs.len(),
        None => false,
    }
}

// Whether the literals deny, one for one, that the two stores are read alike at each place that is
// written in them.
#[tactic(auto, using(crate::proofs::WalkedWrites::some_used, crate::proofs::WalkedWrites::none_used))]
fn deny_reads(xs: &[Literal], a: &StoreTerm, c: &StoreTerm) -> bool
    ensures { result ≡ all_same (all_signed xs.now) (all_read_unlike a.now c.now) }
{
    match used_along(xs, 0, a, a, c) {
        Some(used) => uses_all(xs, used, a, c),
        None => false,
    }
}

#[tactic(auto, unfolding(crate::specs::WriteLaws::written_alike, crate::specs::Signed::all_same))]
fn are_written_alike(conditions: &[Literal], a: &StoreTerm, c: &StoreTerm) -> bool
    ensures { result ≡ written_alike (Some (same_stores a.now c.now)) (all_signed conditions.now) }
{
    match conditions.split_first() {
        Some((first, rest)) => denies_stores(first, base(a), base(c)) && deny_reads(rest, a, c),
        None => false,
    }
}

#[tactic(auto, unfolding(crate::specs::WriteLaws::written_alike))]
fn concludes_alike(conditions: &[Literal], last: &Literal) -> bool
    ensures { result ≡ written_alike (Some (signed_of last.now)) (all_signed conditions.now) }
{
    match (last.sign, &last.atom) {
        (true, Atom::SameStore(a, c)) => are_written_alike(conditions, a, c),
        _ => false,
    }
}

// Two stores that are written alike.
#[tactic(auto, using(crate::proofs::WalkedWrites::law_5_parts, crate::proofs::WalkedWrites::law_5_none))]
pub fn is_written_alike(clause: &[Literal]) -> bool
    ensures { result ≡ law_5 (all_signed clause.now) }
{
    if clause.len() == 0 {
        return false;
    }
    let last = clause.len() - 1;
    concludes_alike(&clause[..last], &clause[last])
}
