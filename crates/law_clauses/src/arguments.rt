//! The arguments of a term one by one, and whether two terms have the same top.
//! `specs/Arguments.antt` says what the arguments are and what the top is.

ghost use Rattle.std.specs.Prelude.{◌≡◌, [], ◌∷◌, slice_get};
ghost use Rattle.std.specs.Option.{option_map};
ghost use Rattle.law_clauses.specs.Shapes.{put_at, get_at};
ghost use Rattle.law_clauses.specs.Arguments.{of_value, store_top, value_top};
ghost use Rattle.law_clauses.specs.ArgumentView.{argument_of, nth_index};
ghost use Rattle.law_clauses.specs.ArgumentView.{nth_store_argument, nth_value_argument};

use crate::shapes::count;
use rule_terms::{Place, StoreNode, StoreTerm, ValueNode, ValueTerm};

/// An argument of a term: the number of a name parameter, or a term.
#[derive(Clone, Copy)]
pub enum Argument<'a> {
    Name(u32),
    Store(&'a StoreTerm),
    Value(&'a ValueTerm),
}

/// Whether the two terms have the same constructor and parameter, and as many indices.
#[tactic(auto, unfolding(crate::specs::Arguments::store_top))]
pub fn same_store_top(a: &StoreTerm, b: &StoreTerm) -> bool
    ensures { result ≡ store_top a.now b.now }
{
    match (&a.node, &b.node) {
        (StoreNode::L, StoreNode::L) => true,
        (StoreNode::R, StoreNode::R) => true,
        (StoreNode::Put(_, p, _), StoreNode::Put(_, q, _)) => count(p) == count(q),
        (StoreNode::Run(j, _), StoreNode::Run(k, _)) => *j == *k,
        _ => false,
    }
}

/// Whether the two terms have the same constructor and parameter or constant, and as many indices.
#[tactic(auto, unfolding(crate::specs::Arguments::value_top))]
pub fn same_value_top(a: &ValueTerm, b: &ValueTerm) -> bool
    ensures { result ≡ value_top a.now b.now }
{
    match (&a.node, &b.node) {
        (ValueNode::Num(y), ValueNode::Num(z)) => *y == *z,
        (ValueNode::Get(p, _), ValueNode::Get(q, _)) => count(p) == count(q),
        (ValueNode::Ev(j, _), ValueNode::Ev(k, _)) => *j == *k,
        (ValueNode::Add(_, _), ValueNode::Add(_, _)) => true,
        (ValueNode::Sub(_, _), ValueNode::Sub(_, _)) => true,
        (ValueNode::Mul(_, _), ValueNode::Mul(_, _)) => true,
        _ => false,
    }
}

// The argument of this number, of one and of two.
#[tactic(auto, using(crate::proofs::Numbered::past_one))]
fn one_argument<'a>(a: Argument<'a>, n: usize) -> Option<Argument<'a>>
    ensures { option_map argument_of result ≡ slice_get (argument_of a.entry ∷ []) n }
{
    if n == 0 { Some(a) } else { None }
}

#[tactic(auto, using(crate::proofs::Numbered::past_two))]
fn two_arguments<'a>(a: &'a ValueTerm, b: &'a ValueTerm, n: usize) -> Option<Argument<'a>>
    ensures { option_map argument_of result ≡ slice_get (of_value a.now ∷ of_value b.now ∷ []) n }
{
    if n == 0 {
        return Some(Argument::Value(a));
    }
    if n == 1 {
        return Some(Argument::Value(b));
    }
    None
}

// .. of the indices of a place, and of one more behind them.
#[tactic(auto, using(crate::proofs::Numbered::index_inside, crate::proofs::Numbered::index_behind, crate::proofs::Numbered::index_past))]
fn index_argument<'a>(p: &'a Place, last: Argument<'a>, n: usize) -> Option<Argument<'a>>
    ensures { option_map argument_of result ≡ nth_index p.now last.entry n }
{
    let indices = p.indices.as_slice();
    if n < indices.len() {
        return Some(Argument::Value(&indices[n]));
    }
    if n == indices.len() {
        return Some(last);
    }
    None
}

#[tactic(auto, using(crate::proofs::Numbered::write_rest))]
fn write_argument<'a>(
    s: &'a StoreTerm,
    p: &'a Place,
    v: &'a ValueTerm,
    n: usize,
) -> Option<Argument<'a>>
    ensures { option_map argument_of result ≡ nth_store_argument (put_at s.now p.now v.now) n }
{
    if n == 0 {
        return Some(Argument::Store(s));
    }
    if n == 1 {
        return Some(Argument::Name(p.name));
    }
    index_argument(p, Argument::Value(v), n - 2)
}

#[tactic(auto, using(crate::proofs::Numbered::read_rest))]
fn read_argument<'a>(p: &'a Place, s: &'a StoreTerm, n: usize) -> Option<Argument<'a>>
    ensures { option_map argument_of result ≡ nth_value_argument (get_at p.now s.now) n }
{
    if n == 0 {
        return Some(Argument::Name(p.name));
    }
    index_argument(p, Argument::Store(s), n - 1)
}

/// The argument of this number of a store term, from 0: of a write its store, name, indices and
/// value, of a run its store. `None` exactly where it has fewer. It takes no memory.
pub fn store_argument(t: &StoreTerm, n: usize) -> Option<Argument<'_>>
    ensures { option_map argument_of result ≡ nth_store_argument t.now n }
{
    match &t.node {
        StoreNode::L => None,
        StoreNode::R => None,
        StoreNode::Put(s, p, v) => write_argument(s.get(), p, v.get(), n),
        StoreNode::Run(_, s) => one_argument(Argument::Store(s.get()), n),
    }
}

/// The argument of this number of a value term, from 0: of a read its name, indices and store, of
/// an expression its store, of a sum, a difference and a product the two operands. `None` exactly
/// where it has fewer. It takes no memory.
pub fn value_argument(v: &ValueTerm, n: usize) -> Option<Argument<'_>>
    ensures { option_map argument_of result ≡ nth_value_argument v.now n }
{
    match &v.node {
        ValueNode::Num(_) => None,
        ValueNode::Get(p, s) => read_argument(p, s.get(), n),
        ValueNode::Ev(_, s) => one_argument(Argument::Store(s.get()), n),
        ValueNode::Add(a, b) => two_arguments(a.get(), b.get(), n),
        ValueNode::Sub(a, b) => two_arguments(a.get(), b.get(), n),
        ValueNode::Mul(a, b) => two_arguments(a.get(), b.get(), n),
    }
}
