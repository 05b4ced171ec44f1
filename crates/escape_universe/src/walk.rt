//! Whether some part of an obligation is what is looked for: a walk over its terms, in the order of
//! `specs/Parts.antt` of `rule_terms`, to the first such part.

ghost use Rattle.std.specs.Prelude.{◌≡◌};
ghost use Rattle.std.specs.List.{list_any};
ghost use Rattle.rule_terms.specs.TermView.{terms_of};
ghost use Rattle.rule_terms.specs.Parts.{store_parts, value_parts, terms_parts, literal_parts};
ghost use Rattle.rule_terms.specs.Parts.{literals_parts, conjunct_parts, conjuncts_parts};
ghost use Rattle.rule_terms.specs.Parts.{obligation_parts};
ghost use Rattle.escape_universe.specs.Sought.{meets};

use crate::sought::{Sought, meets};
use rule_terms::{Atom, Conjunct, Literal, Obligation, StoreNode, StoreTerm, ValueNode, ValueTerm};
use term_universe::Part;

// Whether some part of a store term is what is looked for.
#[cycle(seek)]
#[tactic(auto, using(crate::proofs::Walking::any_append), unfolding(rule_terms::specs::Parts::store_parts))]
fn in_store(w: Sought<'_>, s: &StoreTerm) -> bool
    ensures { result ≡ list_any (meets w.entry) (store_parts s.now) }
{
    if meets(w, Part::Store(s)) {
        return true;
    }
    match &s.node {
        StoreNode::L => false,
        StoreNode::R => false,
        StoreNode::Put(s, p, v) => {
            if meets(w, Part::Place(p)) {
                return true;
            }
            in_store(w, s.get()) || (in_values(w, p.indices.as_slice()) || in_value(w, v.get()))
        }
        StoreNode::Run(_, s) => in_store(w, s.get()),
    }
}

// The same of a value term.
#[cycle(seek)]
#[tactic(auto, using(crate::proofs::Walking::any_append), unfolding(rule_terms::specs::Parts::value_parts))]
fn in_value(w: Sought<'_>, v: &ValueTerm) -> bool
    ensures { result ≡ list_any (meets w.entry) (value_parts v.now) }
{
    if meets(w, Part::Value(v)) {
        return true;
    }
    match &v.node {
        ValueNode::Num(_) => false,
        ValueNode::Get(p, s) => {
            if meets(w, Part::Place(p)) {
                return true;
            }
            in_values(w, p.indices.as_slice()) || in_store(w, s.get())
        }
        ValueNode::Ev(k, s) => {
            if meets(w, Part::Expr(*k)) {
                return true;
            }
            in_store(w, s.get())
        }
        ValueNode::Add(a, b) | ValueNode::Sub(a, b) | ValueNode::Mul(a, b) => {
            in_value(w, a.get()) || in_value(w, b.get())
        }
    }
}

// The same of value terms beside one another.
#[cycle(seek)]
#[tactic(auto, using(rule_terms::specs::TermFalls::value_item, crate::proofs::Walking::any_append), unfolding(rule_terms::specs::Parts::terms_parts))]
fn in_values(w: Sought<'_>, items: &[ValueTerm]) -> bool
    ensures { result ≡ list_any (meets w.entry) (terms_parts (terms_of items.now)) }
{
    for v in items {
        if in_value(w, v) {
            return true;
        }
    }
    false
}

/// Whether some part of a literal is what is looked for.
#[tactic(auto, using(crate::proofs::Walking::any_append), unfolding(rule_terms::specs::Parts::atom_parts))]
pub fn in_literal(w: Sought<'_>, l: &Literal) -> bool
    ensures { result ≡ list_any (meets w.entry) (literal_parts l.now) }
{
    match &l.atom {
        Atom::SameName(_, _) => false,
        Atom::SameStore(a, b) => in_store(w, a) || in_store(w, b),
        Atom::SameValue(a, b) => in_value(w, a) || in_value(w, b),
        Atom::AtMost(a, b, _) => in_value(w, a) || in_value(w, b),
        Atom::Ends(s) => in_store(w, s),
        Atom::Holds(k, s) => {
            if meets(w, Part::Test(*k)) {
                return true;
            }
            in_store(w, s)
        }
    }
}

#[tactic(auto, using(crate::proofs::Walking::any_append))]
fn in_literals(w: Sought<'_>, items: &[Literal]) -> bool
    ensures { result ≡ list_any (meets w.entry) (literals_parts items.now) }
{
    for l in items {
        if in_literal(w, l) {
            return true;
        }
    }
    false
}

#[tactic(auto, using(crate::proofs::Walking::any_append))]
fn in_conjunct(w: Sought<'_>, c: &Conjunct) -> bool
    ensures { result ≡ list_any (meets w.entry) (conjunct_parts c.now) }
{
    if in_literals(w, c.when.as_slice()) {
        return true;
    }
    match &c.gives {
        Some(l) => in_literal(w, l),
        None => false,
    }
}

#[tactic(auto, using(crate::proofs::Walking::any_append))]
fn in_conjuncts(w: Sought<'_>, items: &[Conjunct]) -> bool
    ensures { result ≡ list_any (meets w.entry) (conjuncts_parts items.now) }
{
    for c in items {
        if in_conjunct(w, c) {
            return true;
        }
    }
    false
}

/// Whether some part of an obligation is what is looked for. It takes no memory.
#[tactic(auto, using(crate::proofs::Walking::any_append), unfolding(rule_terms::specs::Parts::obligation_parts))]
pub fn in_obligation(w: Sought<'_>, ob: &Obligation) -> bool
    ensures { result ≡ list_any (meets w.entry) (obligation_parts ob.now) }
{
    in_conjuncts(w, ob.known.as_slice())
        || (in_literals(w, ob.path.as_slice()) || in_conjunct(w, &ob.goal))
}
