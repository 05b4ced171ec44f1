//! The outcomes of a test at a store term: the ways in which it comes out true, or false.
//! `specs/Outcomes.antt` says which they are.

ghost use Rattle.std.specs.Prelude.{◌≡◌, true, not, pos, negsuc, map, ◌++◌, [], ◌∷◌, IfOk, OnOk};
ghost use Rattle.rule_terms.specs.ValueAt.{names_are_open, value_at};
ghost use Rattle.path_pairs.specs.Open.{test_is_open};
ghost use Rattle.path_pairs.specs.Outcomes.{decided, both, outcomes};

use rule_terms::{Atom, Literal, StoreTerm, copy_literals, value_at};
use sqlite_items::Items;
use std::alloc::Global;
use toy_imp::{Expr, NoMemory, Test, TestNode};

// The one outcome of a test that an atom decides.
fn decided(alloc: Global, way: bool, atom: Atom) -> Result<Items<Items<Literal>>, NoMemory>
    ensures { IfOk result (λ all. all ≡ decided way atom) }
{
    let mut literals = Items::new(alloc);
    literals.push(Literal { sign: way, atom })?;
    let mut all = Items::new(alloc);
    all.push(literals)?;
    Ok(all)
}

// Whether `a` is at most `b` plus the number.
fn at_most(alloc: Global, a: &Expr, b: &Expr, by: i128, s: &StoreTerm) -> Result<Atom, NoMemory>
    requires a { names_are_open a.now ≡ true }
    requires b { names_are_open b.now ≡ true }
    ensures { IfOk result (λ x. x ≡ Atom.AtMost (value_at a.now s.now) (value_at b.now s.now) by) }
{
    let a = value_at(alloc, a, s)?;
    let b = value_at(alloc, b, s)?;
    Ok(Atom::AtMost(a, b, by))
}

// Whether `a` equals `b`.
fn same_value(alloc: Global, a: &Expr, b: &Expr, s: &StoreTerm) -> Result<Atom, NoMemory>
    requires a { names_are_open a.now ≡ true }
    requires b { names_are_open b.now ≡ true }
    ensures { IfOk result (λ x. x ≡ Atom.SameValue (value_at a.now s.now) (value_at b.now s.now)) }
{
    let a = value_at(alloc, a, s)?;
    let b = value_at(alloc, b, s)?;
    Ok(Atom::SameValue(a, b))
}

/// The literals of the first list and then those of the second.
pub fn joined(
    alloc: Global,
    first: &[Literal],
    second: &[Literal],
) -> Result<Items<Literal>, NoMemory>
    ensures { IfOk result (λ all. all ≡ first.now ++ second.now) }
{
    let mut all = copy_literals(alloc, first)?;
    let more = copy_literals(alloc, second)?;
    all.append(more)?;
    Ok(all)
}

// Adds a first outcome, with each of the second ones.
fn add_each(
    alloc: Global,
    all: &mut Items<Items<Literal>>,
    first: &[Literal],
    seconds: &[Items<Literal>],
) -> Result<(), NoMemory>
    ensures { OnOk result (all.new ≡ all.old ++ map (λ second. first.now ++ second) seconds.now) }
{
    for second in seconds {
        let joint = joined(alloc, first, second.as_slice())?;
        all.push(joint)?;
    }
    Ok(())
}

// Each of the first outcomes with each of the second ones.
fn both(
    alloc: Global,
    firsts: &[Items<Literal>],
    seconds: &[Items<Literal>],
) -> Result<Items<Items<Literal>>, NoMemory>
    ensures { IfOk result (λ all. all ≡ both firsts.now seconds.now) }
{
    let mut all = Items::new(alloc);
    for first in firsts {
        add_each(alloc, &mut all, first.as_slice(), seconds)?;
    }
    Ok(all)
}

/// The outcomes of a test at a store term in which it is true, or false, in order. Each name in the
/// test is a parameter.
#[cycle(outcomes)]
#[tactic(auto, unfolding(crate::specs::Outcomes::outcomes))]
pub fn outcomes(
    alloc: Global,
    t: &Test,
    way: bool,
    s: &StoreTerm,
) -> Result<Items<Items<Literal>>, NoMemory>
    requires { test_is_open t.now ≡ true }
    ensures { IfOk result (λ all. all ≡ outcomes t.now way s.now) }
{
    match &t.node {
        TestNode::Less(a, b) => decided(alloc, way, at_most(alloc, a, b, -1, s)?),
        TestNode::LessEq(a, b) => decided(alloc, way, at_most(alloc, a, b, 0, s)?),
        TestNode::Equal(a, b) => decided(alloc, way, same_value(alloc, a, b, s)?),
        TestNode::Not(t) => outcomes(alloc, t.get(), !way, s),
        TestNode::And(t, u) => {
            if way {
                both_so(alloc, t.get(), u.get(), true, s)
            } else {
                one_so(alloc, t.get(), u.get(), false, s)
            }
        }
        TestNode::Or(t, u) => {
            if way {
                one_so(alloc, t.get(), u.get(), true, s)
            } else {
                both_so(alloc, t.get(), u.get(), false, s)
            }
        }
        TestNode::Par(k) => decided(alloc, way, Atom::Holds(*k, s.copy(alloc)?)),
    }
}

// The outcomes in which both tests are true, or both false.
#[cycle(outcomes)]
fn both_so(
    alloc: Global,
    t: &Test,
    u: &Test,
    way: bool,
    s: &StoreTerm,
) -> Result<Items<Items<Literal>>, NoMemory>
    requires t { test_is_open t.now ≡ true }
    requires u { test_is_open u.now ≡ true }
    ensures { IfOk result (λ all. all ≡ both (outcomes t.now way s.now) (outcomes u.now way s.now)) }
{
    let firsts = outcomes(alloc, t, way, s)?;
    let seconds = outcomes(alloc, u, way, s)?;
    both(alloc, firsts.as_slice(), seconds.as_slice())
}

// The outcomes in which the first test is true, or false, and then those in which it is not and the
// second one is.
#[cycle(outcomes)]
fn one_so(
    alloc: Global,
    t: &Test,
    u: &Test,
    way: bool,
    s: &StoreTerm,
) -> Result<Items<Items<Literal>>, NoMemory>
    requires t { test_is_open t.now ≡ true }
    requires u { test_is_open u.now ≡ true }
    ensures { IfOk result (λ all. all ≡ outcomes t.now way s.now ++ both (outcomes t.now (not way) s.now) (outcomes u.now way s.now)) }
{
    let mut all = outcomes(alloc, t, way, s)?;
    let firsts = outcomes(alloc, t, !way, s)?;
    let seconds = outcomes(alloc, u, way, s)?;
    append_both(alloc, &mut all, firsts, seconds)?;
    Ok(all)
}

// Adds each of the first outcomes with each of the second ones.
fn append_both(
    alloc: Global,
    all: &mut Items<Items<Literal>>,
    firsts: Items<Items<Literal>>,
    seconds: Items<Items<Literal>>,
) -> Result<(), NoMemory>
    ensures { OnOk result (all.new ≡ all.old ++ both firsts seconds) }
{
    let more = both(alloc, firsts.as_slice(), seconds.as_slice())?;
    all.append(more)?;
    Ok(())
}
