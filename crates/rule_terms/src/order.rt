//! The order of terms and places, and their equality.
//! `specs/Order.antt` says which of two comes first.

ghost use Rattle.std.specs.Prelude.{◌≡◌, ◌↔◌, IsTrue};
ghost use Rattle.rule_terms.specs.Order.{store_rank, value_rank, store_cmp, value_cmp, terms_cmp, place_cmp};
ghost use Rattle.rule_terms.specs.TermView.{store_of, value_of, terms_of};

use crate::term::{Place, StoreNode, StoreTerm, ValueNode, ValueTerm};
use std::cmp::Ordering;

// The first comparison that finds a difference decides; later ones are not made.
macro_rules! first_difference {
    ($last:expr) => { $last };
    ($first:expr, $($others:expr),+) => {
        match $first {
            Ordering::Less => Ordering::Less,
            Ordering::Greater => Ordering::Greater,
            Ordering::Equal => first_difference!($($others),+),
        }
    };
}

impl StoreNode {
    fn rank(&self) -> u8
        ensures { result ≡ store_rank (store_of self.now) }
    {
        match self {
            StoreNode::L => 0,
            StoreNode::R => 1,
            StoreNode::Put(..) => 2,
            StoreNode::Run(..) => 3,
        }
    }
}

impl ValueNode {
    fn rank(&self) -> u8
        ensures { result ≡ value_rank (value_of self.now) }
    {
        match self {
            ValueNode::Num(..) => 0,
            ValueNode::Get(..) => 1,
            ValueNode::Ev(..) => 2,
            ValueNode::Add(..) => 3,
            ValueNode::Sub(..) => 4,
            ValueNode::Mul(..) => 5,
        }
    }
}

impl StoreTerm {
    /// Whether this term is before the other one, equal to it or behind it.
    #[cycle(compare)]
    #[tactic(auto, unfolding(crate::specs::Order::store_cmp))]
    pub fn compare(&self, other: &StoreTerm) -> Ordering
        ensures { result ≡ store_cmp self.now other.now }
    {
        match (&self.node, &other.node) {
            (StoreNode::Put(s, p, v), StoreNode::Put(t, q, w)) => first_difference!(
                p.name.cmp(&q.name),
                s.get().compare(t.get()),
                compare_values(p.indices.as_slice(), q.indices.as_slice()),
                v.get().compare(w.get())
            ),
            (StoreNode::Run(j, s), StoreNode::Run(k, t)) => {
                first_difference!(j.cmp(k), s.get().compare(t.get()))
            }
            (a, b) => a.rank().cmp(&b.rank()),
        }
    }
}

impl ValueTerm {
    /// Whether this term is before the other one, equal to it or behind it.
    #[cycle(compare)]
    #[tactic(auto, unfolding(crate::specs::Order::value_cmp))]
    pub fn compare(&self, other: &ValueTerm) -> Ordering
        ensures { result ≡ value_cmp self.now other.now }
    {
        match (&self.node, &other.node) {
            (ValueNode::Num(y), ValueNode::Num(z)) => y.cmp(z),
            (ValueNode::Get(p, s), ValueNode::Get(q, t)) => first_difference!(
                p.name.cmp(&q.name),
                compare_values(p.indices.as_slice(), q.indices.as_slice()),
                s.get().compare(t.get())
            ),
            (ValueNode::Ev(j, s), ValueNode::Ev(k, t)) => {
                first_difference!(j.cmp(k), s.get().compare(t.get()))
            }
            (ValueNode::Add(a, b), ValueNode::Add(c, d))
            | (ValueNode::Sub(a, b), ValueNode::Sub(c, d))
            | (ValueNode::Mul(a, b), ValueNode::Mul(c, d)) => {
                first_difference!(a.get().compare(c.get()), b.get().compare(d.get()))
            }
            (a, b) => a.rank().cmp(&b.rank()),
        }
    }
}

/// The same of lists of value terms: the first difference decides, and then the length.
#[cycle(compare)]
#[tactic(auto, using(crate::specs::TermFalls::value_item, crate::proofs::Comparing::ends_before, crate::proofs::Comparing::ends_with), unfolding(crate::specs::Order::terms_cmp))]
pub fn compare_values(a: &[ValueTerm], b: &[ValueTerm]) -> Ordering
    ensures { result ≡ terms_cmp (terms_of a.now) (terms_of b.now) }
{
    for (i, v) in a.iter().enumerate() {
        let Some(w) = b.get(i) else {
            return Ordering::Greater;
        };
        match v.compare(w) {
            Ordering::Equal => {}
            Ordering::Less => return Ordering::Less,
            Ordering::Greater => return Ordering::Greater,
        }
    }
    if a.len() < b.len() {
        Ordering::Less
    } else {
        Ordering::Equal
    }
}

impl Place {
    /// Whether this place is before the other one, equal to it or behind it.
    pub fn compare(&self, other: &Place) -> Ordering
        ensures { result ≡ place_cmp self.now other.now }
    {
        first_difference!(
            self.name.cmp(&other.name),
            compare_values(self.indices.as_slice(), other.indices.as_slice())
        )
    }
}
