//! Terms and literals with stores in place of L and R.
//! `specs/Substitute.antt` of rule_terms says what they are.

ghost use Rattle.std.specs.Prelude.{◌≡◌, ◌++◌, IfOk, OnOk, option_map};
ghost use Rattle.rule_terms.specs.TermView.{terms_of};
ghost use Rattle.rule_terms.specs.Substitute.{store_at, value_term_at, terms_at, atom_at, literal_at, literals_at};
ghost use Rattle.parallel_wp.specs.Operators.{joined_as};

use rule_terms::{Atom, Literal, Place, StoreNode, StoreTerm, ValueNode, ValueTerm};
use sqlite_items::Items;
use std::alloc::Global;
use toy_imp::NoMemory;

/// A store term with `l` for L and `r` for R.
#[cycle(put_in)]
#[tactic(auto, unfolding(rule_terms::specs::Substitute::store_at))]
pub fn store_at(
    alloc: Global,
    l: &StoreTerm,
    r: &StoreTerm,
    s: &StoreTerm,
) -> Result<StoreTerm, NoMemory>
    ensures { IfOk result (λ u. u ≡ store_at l.now r.now s.now) }
{
    match &s.node {
        StoreNode::L => l.copy(alloc),
        StoreNode::R => r.copy(alloc),
        StoreNode::Put(s, p, v) => {
            let s = store_at(alloc, l, r, s.get())?;
            let indices = values_at(alloc, l, r, p.indices.as_slice())?;
            let v = value_at(alloc, l, r, v.get())?;
            let name = p.name;
            StoreTerm::put(alloc, s, Place { name, indices }, v)
        }
        StoreNode::Run(k, s) => {
            let s = store_at(alloc, l, r, s.get())?;
            StoreTerm::run(alloc, *k, s)
        }
    }
}

/// A value term with `l` for L and `r` for R.
#[cycle(put_in)]
#[tactic(auto, unfolding(rule_terms::specs::Substitute::store_at))]
pub fn value_at(
    alloc: Global,
    l: &StoreTerm,
    r: &StoreTerm,
    v: &ValueTerm,
) -> Result<ValueTerm, NoMemory>
    ensures { IfOk result (λ w. w ≡ value_term_at l.now r.now v.now) }
{
    match &v.node {
        ValueNode::Num(z) => Ok(ValueTerm::num(*z)),
        ValueNode::Get(p, s) => {
            let s = store_at(alloc, l, r, s.get())?;
            let indices = values_at(alloc, l, r, p.indices.as_slice())?;
            let name = p.name;
            ValueTerm::get(alloc, Place { name, indices }, s)
        }
        ValueNode::Ev(k, s) => {
            let s = store_at(alloc, l, r, s.get())?;
            ValueTerm::ev(alloc, *k, s)
        }
        ValueNode::Add(a, b) | ValueNode::Sub(a, b) | ValueNode::Mul(a, b) => {
            let a = value_at(alloc, l, r, a.get())?;
            let b = value_at(alloc, l, r, b.get())?;
            joined_as(alloc, &v.node, a, b)
        }
    }
}

/// Two value terms joined by the operator of a node: their difference, their product, or else their sum.
fn joined_as(
    alloc: Global,
    node: &ValueNode,
    a: ValueTerm,
    b: ValueTerm,
) -> Result<ValueTerm, NoMemory>
    ensures { IfOk result (λ v. v ≡ joined_as node.now a b) }
{
    match node {
        ValueNode::Sub(_, _) => ValueTerm::sub(alloc, a, b),
        ValueNode::Mul(_, _) => ValueTerm::mul(alloc, a, b),
        _ => ValueTerm::add(alloc, a, b),
    }
}

/// Value terms with `l` for L and `r` for R, in the same order.
#[cycle(put_in)]
#[tactic(auto, using(rule_terms::specs::TermFalls::value_item))]
fn values_at(
    alloc: Global,
    l: &StoreTerm,
    r: &StoreTerm,
    items: &[ValueTerm],
) -> Result<Items<ValueTerm>, NoMemory>
    ensures { IfOk result (λ all. terms_of all ≡ terms_at l.now r.now (terms_of items.now)) }
{
    let mut all = Items::new(alloc);
    for v in items {
        let put = value_at(alloc, l, r, v)?;
        all.push(put)?;
    }
    Ok(all)
}

/// An atom with `l` for L and `r` for R.
#[tactic(auto, unfolding(rule_terms::specs::Substitute::atom_at))]
fn atom_at(alloc: Global, l: &StoreTerm, r: &StoreTerm, atom: &Atom) -> Result<Atom, NoMemory>
    ensures { IfOk result (λ a. a ≡ atom_at l.now r.now atom.now) }
{
    match atom {
        Atom::SameName(x, y) => Ok(Atom::SameName(*x, *y)),
        Atom::SameStore(a, b) => {
            let a = store_at(alloc, l, r, a)?;
            let b = store_at(alloc, l, r, b)?;
            Ok(Atom::SameStore(a, b))
        }
        Atom::SameValue(a, b) => {
            let a = value_at(alloc, l, r, a)?;
            let b = value_at(alloc, l, r, b)?;
            Ok(Atom::SameValue(a, b))
        }
        Atom::AtMost(a, b, by) => {
            let a = value_at(alloc, l, r, a)?;
            let b = value_at(alloc, l, r, b)?;
            Ok(Atom::AtMost(a, b, *by))
        }
        Atom::Ends(s) => Ok(Atom::Ends(store_at(alloc, l, r, s)?)),
        Atom::Holds(k, s) => Ok(Atom::Holds(*k, store_at(alloc, l, r, s)?)),
    }
}

/// A literal with `l` for L and `r` for R.
fn literal_at(
    alloc: Global,
    l: &StoreTerm,
    r: &StoreTerm,
    literal: &Literal,
) -> Result<Literal, NoMemory>
    ensures { IfOk result (λ x. x ≡ literal_at l.now r.now literal.now) }
{
    let atom = atom_at(alloc, l, r, &literal.atom)?;
    Ok(Literal {
        sign: literal.sign,
        atom,
    })
}

/// Adds the literals with `l` for L and `r` for R, in their order.
pub fn add_literals_at(
    alloc: Global,
    l: &StoreTerm,
    r: &StoreTerm,
    literals: &[Literal],
    all: &mut Items<Literal>,
) -> Result<(), NoMemory>
    ensures { OnOk result (all.new ≡ all.old ++ literals_at l.now r.now literals.now) }
{
    for literal in literals {
        let put = literal_at(alloc, l, r, literal)?;
        all.push(put)?;
    }
    Ok(())
}

/// What a conjunct gives, if anything, with `l` for L and `r` for R.
pub fn gives_at(
    alloc: Global,
    l: &StoreTerm,
    r: &StoreTerm,
    gives: &Option<Literal>,
) -> Result<Option<Literal>, NoMemory>
    ensures { IfOk result (λ x. x ≡ option_map (literal_at l.now r.now) gives.now) }
{
    match gives {
        Some(literal) => Ok(Some(literal_at(alloc, l, r, literal)?)),
        None => Ok(None),
    }
}
