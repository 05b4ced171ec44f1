//! How many nodes terms and literals have where L counts `a` nodes and R counts `b`, standing still at 2^64 - 1.
//! `specs/SubstituteLaws.antt` of rule_terms and `specs/Weight.antt` say what is counted.

ghost use Rattle.std.specs.Prelude.{◌≡◌, ◌+◌, suc};
ghost use Rattle.rule_terms.specs.TermView.{terms_of};
ghost use Rattle.rule_terms.specs.Counts.{saturated, literals_nodes};
ghost use Rattle.rule_terms.specs.SubstituteLaws.{store_weight, value_weight, terms_weight};
ghost use Rattle.parallel_wp.specs.Weight.{atom_weight, literal_weight, literals_weight, conjunct_weight};

use rule_terms::{Atom, Conjunct, Literal, StoreNode, StoreTerm, ValueNode, ValueTerm};

/// The weight of a store term.
#[cycle(weight)]
#[tactic(auto, unfolding(rule_terms::specs::SubstituteLaws::store_weight))]
fn store_weight(a: u64, b: u64, s: &StoreTerm) -> u64
    ensures { result ≡ saturated (store_weight a b s.now) }
{
    match &s.node {
        StoreNode::L => a,
        StoreNode::R => b,
        StoreNode::Put(s, p, v) => {
            let others = values_weight(a, b, p.indices.as_slice()).saturating_add(value_weight(
                a,
                b,
                v.get(),
            ));
            store_weight(a, b, s.get())
                .saturating_add(others)
                .saturating_add(1)
        }
        StoreNode::Run(_, s) => store_weight(a, b, s.get()).saturating_add(1),
    }
}

/// The weight of a value term.
#[cycle(weight)]
#[tactic(auto, unfolding(rule_terms::specs::SubstituteLaws::store_weight))]
fn value_weight(a: u64, b: u64, v: &ValueTerm) -> u64
    ensures { result ≡ saturated (value_weight a b v.now) }
{
    match &v.node {
        ValueNode::Num(_) => 1,
        ValueNode::Get(p, s) => values_weight(a, b, p.indices.as_slice())
            .saturating_add(store_weight(a, b, s.get()))
            .saturating_add(1),
        ValueNode::Ev(_, s) => store_weight(a, b, s.get()).saturating_add(1),
        ValueNode::Add(v, w) | ValueNode::Sub(v, w) | ValueNode::Mul(v, w) => {
            value_weight(a, b, v.get())
                .saturating_add(value_weight(a, b, w.get()))
                .saturating_add(1)
        }
    }
}

/// The weight of value terms together.
#[cycle(weight)]
#[tactic(auto, using(rule_terms::specs::TermFalls::value_item), unfolding(rule_terms::specs::SubstituteLaws::terms_weight))]
fn values_weight(a: u64, b: u64, items: &[ValueTerm]) -> u64
    ensures { result ≡ saturated (terms_weight a b (terms_of items.now)) }
{
    let mut all: u64 = 0;
    for v in items {
        all = all.saturating_add(value_weight(a, b, v));
    }
    all
}

/// The weight of an atom.
#[tactic(auto, unfolding(crate::specs::Weight::atom_weight))]
fn atom_weight(a: u64, b: u64, atom: &Atom) -> u64
    ensures { result ≡ saturated (atom_weight a b atom.now) }
{
    match atom {
        Atom::SameName(_, _) => 0,
        Atom::SameStore(s, u) => store_weight(a, b, s).saturating_add(store_weight(a, b, u)),
        Atom::SameValue(v, w) => value_weight(a, b, v).saturating_add(value_weight(a, b, w)),
        Atom::AtMost(v, w, _) => value_weight(a, b, v).saturating_add(value_weight(a, b, w)),
        Atom::Ends(s) => store_weight(a, b, s),
        Atom::Holds(_, s) => store_weight(a, b, s),
    }
}

/// The weight of a literal, which counts as a node itself.
fn literal_weight(a: u64, b: u64, literal: &Literal) -> u64
    ensures { result ≡ saturated (literal_weight a b literal.now) }
{
    atom_weight(a, b, &literal.atom).saturating_add(1)
}

/// The weight of literals together.
fn literals_weight(a: u64, b: u64, literals: &[Literal]) -> u64
    ensures { result ≡ saturated (literals_weight a b literals.now) }
{
    let mut all: u64 = 0;
    for literal in literals {
        all = all.saturating_add(literal_weight(a, b, literal));
    }
    all
}

/// The weight of a conjunct.
pub fn conjunct_weight(a: u64, b: u64, c: &Conjunct) -> u64
    ensures { result ≡ saturated (conjunct_weight a b c.now) }
{
    let when = literals_weight(a, b, c.when.as_slice());
    match &c.gives {
        Some(literal) => when.saturating_add(literal_weight(a, b, literal)),
        None => when,
    }
}

/// The nodes of literals, as they stand.
pub fn literals_nodes(literals: &[Literal]) -> u64
    ensures { result ≡ saturated (literals_nodes literals.now) }
{
    let mut all: u64 = 0;
    for literal in literals {
        all = all.saturating_add(literal.size().nodes);
    }
    all
}
