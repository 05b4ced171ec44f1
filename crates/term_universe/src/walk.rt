//! A walk over an obligation that puts down all that it meets: store terms, value terms, places and
//! parameters, with repeats. `specs/Parts.antt` of `rule_terms` says what is met, and in which order.

ghost use Rattle.std.specs.Prelude.{◌≡◌, [], ◌∷◌, ◌++◌, map, OnOk};
ghost use Rattle.rule_terms.specs.TermView.{terms_of};
ghost use Rattle.rule_terms.specs.Parts.{store_parts, value_parts, terms_parts, literal_parts, literals_parts, conjunct_parts, conjuncts_parts, obligation_parts};
ghost use Rattle.term_universe.specs.Walked.{part_of};

use crate::part::Part;
use rule_terms::{Atom, Conjunct, Literal, Obligation, StoreNode, StoreTerm, ValueNode, ValueTerm};
use toy_imp::NoMemory;

/// Puts a part at the end.
fn put_part<'a>(parts: &mut Vec<Part<'a>>, part: Part<'a>) -> Result<(), NoMemory>
    ensures { OnOk result (map part_of parts.new.items ≡ map part_of parts.old.items ++ part_of part.entry ∷ []) }
{
    parts.push(part)?;
    Ok(())
}

/// Puts what occurs in a store term at the end.
#[cycle(walk)]
#[tactic(auto, unfolding(rule_terms::specs::Parts::store_parts))]
fn put_store<'a>(s: &'a StoreTerm, parts: &mut Vec<Part<'a>>) -> Result<(), NoMemory>
    ensures { OnOk result (map part_of parts.new.items ≡ map part_of parts.old.items ++ store_parts s.now) }
{
    put_part(parts, Part::Store(s))?;
    match &s.node {
        StoreNode::L => Ok(()),
        StoreNode::R => Ok(()),
        StoreNode::Put(s, p, v) => {
            put_part(parts, Part::Place(p))?;
            put_store(s.get(), parts)?;
            put_values(p.indices.as_slice(), parts)?;
            put_value(v.get(), parts)
        }
        StoreNode::Run(_, s) => put_store(s.get(), parts),
    }
}

/// The same of a value term.
#[cycle(walk)]
#[tactic(auto, unfolding(rule_terms::specs::Parts::value_parts))]
fn put_value<'a>(v: &'a ValueTerm, parts: &mut Vec<Part<'a>>) -> Result<(), NoMemory>
    ensures { OnOk result (map part_of parts.new.items ≡ map part_of parts.old.items ++ value_parts v.now) }
{
    put_part(parts, Part::Value(v))?;
    match &v.node {
        ValueNode::Num(_) => Ok(()),
        ValueNode::Get(p, s) => {
            put_part(parts, Part::Place(p))?;
            put_values(p.indices.as_slice(), parts)?;
            put_store(s.get(), parts)
        }
        ValueNode::Ev(k, s) => {
            put_part(parts, Part::Expr(*k))?;
            put_store(s.get(), parts)
        }
        ValueNode::Add(a, b) | ValueNode::Sub(a, b) | ValueNode::Mul(a, b) => {
            put_value(a.get(), parts)?;
            put_value(b.get(), parts)
        }
    }
}

/// The same of value terms beside one another.
#[cycle(walk)]
#[tactic(auto, using(rule_terms::specs::TermFalls::value_item), unfolding(rule_terms::specs::Parts::terms_parts))]
fn put_values<'a>(items: &'a [ValueTerm], parts: &mut Vec<Part<'a>>) -> Result<(), NoMemory>
    ensures { OnOk result (map part_of parts.new.items ≡ map part_of parts.old.items ++ terms_parts (terms_of items.now)) }
{
    for v in items {
        put_value(v, parts)?;
    }
    Ok(())
}

/// The same of a literal.
#[tactic(auto, unfolding(rule_terms::specs::Parts::atom_parts))]
fn put_literal<'a>(l: &'a Literal, parts: &mut Vec<Part<'a>>) -> Result<(), NoMemory>
    ensures { OnOk result (map part_of parts.new.items ≡ map part_of parts.old.items ++ literal_parts l.now) }
{
    match &l.atom {
        Atom::SameName(_, _) => Ok(()),
        Atom::SameStore(a, b) => {
            put_store(a, parts)?;
            put_store(b, parts)
        }
        Atom::SameValue(a, b) | Atom::AtMost(a, b, _) => {
            put_value(a, parts)?;
            put_value(b, parts)
        }
        Atom::Ends(s) => put_store(s, parts),
        Atom::Holds(k, s) => {
            put_part(parts, Part::Test(*k))?;
            put_store(s, parts)
        }
    }
}

/// The same of literals beside one another.
fn put_literals<'a>(items: &'a [Literal], parts: &mut Vec<Part<'a>>) -> Result<(), NoMemory>
    ensures { OnOk result (map part_of parts.new.items ≡ map part_of parts.old.items ++ literals_parts items.now) }
{
    for l in items {
        put_literal(l, parts)?;
    }
    Ok(())
}

/// The same of a conjunct.
fn put_conjunct<'a>(c: &'a Conjunct, parts: &mut Vec<Part<'a>>) -> Result<(), NoMemory>
    ensures { OnOk result (map part_of parts.new.items ≡ map part_of parts.old.items ++ conjunct_parts c.now) }
{
    put_literals(c.when.as_slice(), parts)?;
    match &c.gives {
        Some(l) => put_literal(l, parts),
        None => Ok(()),
    }
}

/// The same of conjuncts beside one another.
fn put_conjuncts<'a>(items: &'a [Conjunct], parts: &mut Vec<Part<'a>>) -> Result<(), NoMemory>
    ensures { OnOk result (map part_of parts.new.items ≡ map part_of parts.old.items ++ conjuncts_parts items.now) }
{
    for c in items {
        put_conjunct(c, parts)?;
    }
    Ok(())
}

/// Puts what occurs in an obligation at the end.
#[tactic(auto, unfolding(rule_terms::specs::Parts::obligation_parts))]
pub fn put_obligation<'a>(ob: &'a Obligation, parts: &mut Vec<Part<'a>>) -> Result<(), NoMemory>
    ensures { OnOk result (map part_of parts.new.items ≡ map part_of parts.old.items ++ obligation_parts ob.now) }
{
    put_conjuncts(ob.known.as_slice(), parts)?;
    put_literals(ob.path.as_slice(), parts)?;
    put_conjunct(&ob.goal, parts)
}
