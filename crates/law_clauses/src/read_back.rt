//! Which literals are a clause of the law that a read after a write to its cell gives what is
//! written.
//! The clauses are those of `specs/WriteLaws.antt`.

ghost use Rattle.std.specs.Prelude.{◌≡◌, length, Some};
ghost use Rattle.rule_terms.specs.TermView.{terms_of};
ghost use Rattle.rule_terms.specs.declared.obligation.Atom.TheVariants.{SameName, SameValue, Ends};
ghost use Rattle.term_meaning.specs.Indices.{count};
ghost use Rattle.law_clauses.specs.Signed.{minus, signed_of, all_signed, signed_same, all_same};
ghost use Rattle.law_clauses.specs.WriteLaws.{unequal, not_read_back, says_read, read_back, law_1};

use crate::shapes::count;
use rule_terms::{Atom, Literal, Place, StoreNode, StoreTerm, ValueNode, ValueTerm};

#[tactic(auto, unfolding(crate::specs::Signed::signed_same, crate::specs::Signed::atom_same))]
fn denies_end(x: &Literal, t: &StoreTerm) -> bool
    ensures { result ≡ signed_same (signed_of x.now) (minus (Ends t.now)) }
{
    match (x.sign, &x.atom) {
        (false, Atom::Ends(s)) => s.same(t),
        _ => false,
    }
}

#[tactic(auto, unfolding(crate::specs::Signed::signed_same, crate::specs::Signed::atom_same))]
fn denies_name(x: &Literal, n: u32, m: u32) -> bool
    ensures { result ≡ signed_same (signed_of x.now) (minus (SameName n m)) }
{
    match (x.sign, &x.atom) {
        (false, Atom::SameName(a, b)) => *a == n && *b == m,
        _ => false,
    }
}

#[tactic(auto, unfolding(crate::specs::Signed::signed_same, crate::specs::Signed::atom_same))]
fn denies_value(x: &Literal, v: &ValueTerm, w: &ValueTerm) -> bool
    ensures { result ≡ signed_same (signed_of x.now) (minus (SameValue v.now w.now)) }
{
    match (x.sign, &x.atom) {
        (false, Atom::SameValue(a, b)) => a.same(v) && b.same(w),
        _ => false,
    }
}

// Whether the literals deny the equality of the indices, one for one.
#[tactic(auto, using(crate::proofs::Pairs::other_number), unfolding(crate::specs::Signed::all_same, crate::specs::WriteLaws::unequal))]
fn deny_indices(xs: &[Literal], js: &[ValueTerm], is: &[ValueTerm]) -> bool
    requires { length js.now ≡ length is.now }
    ensures { result ≡ all_same (all_signed xs.now) (unequal (terms_of js.now) (terms_of is.now)) }
{
    if xs.len() != js.len() {
        return false;
    }
    for (i, x) in xs.iter().enumerate() {
        if !denies_value(x, &js[i], &is[i]) {
            return false;
        }
    }
    true
}

// Whether the literals are the negated conditions of reading q after a write to p in t.
#[tactic(auto, using(crate::proofs::Pairs::count_terms), unfolding(crate::specs::Signed::all_same))]
fn are_conditions(conditions: &[Literal], t: &StoreTerm, q: &Place, p: &Place) -> bool
    requires { count q.now.indices ≡ count p.now.indices }
    ensures { result ≡ all_same (all_signed conditions.now) (not_read_back t.now q.now p.now) }
{
    let Some((first, rest)) = conditions.split_first() else {
        return false;
    };
    let Some((second, rest)) = rest.split_first() else {
        return false;
    };
    denies_end(first, t)
        && denies_name(second, q.name, p.name)
        && deny_indices(rest, q.indices.as_slice(), p.indices.as_slice())
}

#[tactic(auto, unfolding(crate::specs::WriteLaws::read_back))]
fn is_read_back(conditions: &[Literal], q: &Place, t: &StoreTerm, w: &ValueTerm) -> bool
    ensures { result ≡ read_back (Some (says_read q.now t.now w.now)) (all_signed conditions.now) }
{
    match &t.node {
        StoreNode::Put(_, p, v) => {
            if count(q) != count(p) {
                return false;
            }
            w.same(v.get()) && are_conditions(conditions, t, q, p)
        }
        _ => false,
    }
}

#[tactic(auto, unfolding(crate::specs::WriteLaws::read_back))]
fn reads_back(conditions: &[Literal], last: &Literal) -> bool
    ensures { result ≡ read_back (Some (signed_of last.now)) (all_signed conditions.now) }
{
    match (last.sign, &last.atom) {
        (true, Atom::SameValue(v, w)) => match &v.node {
            ValueNode::Get(q, t) => is_read_back(conditions, q, t.get(), w),
            _ => false,
        },
        _ => false,
    }
}

// A read of what was written.
#[tactic(auto, using(crate::proofs::Pairs::law_1_parts, crate::proofs::Pairs::law_1_none))]
pub fn reads_what_is_written(clause: &[Literal]) -> bool
    ensures { result ≡ law_1 (all_signed clause.now) }
{
    if clause.len() == 0 {
        return false;
    }
    let last = clause.len() - 1;
    reads_back(&clause[..last], &clause[last])
}
