//! The numbers of which an obligation speaks, and its test parameters, in the order of a walk.
//! `specs/Roots.antt` says which these are.

ghost use Rattle.std.specs.Prelude.{◌≡◌, ◌∷◌, [], ◌++◌, IfOk, OnOk};
ghost use Rattle.pool_universe.specs.Roots.{literal_roots, literals_roots, gives_roots, conjunct_roots, conjuncts_roots, obligation_roots};

use crate::part::PooledPart;
use sqlite_items::Items;
use std::alloc::Global;
use term_pool::{PooledAtom, PooledConjunct, PooledLiteral, PooledObligation};
use toy_imp::NoMemory;

/// The numbers of which an obligation speaks, with its test parameters.
#[tactic(auto, unfolding(crate::specs::Roots::obligation_roots))]
pub fn obligation_roots(alloc: Global, ob: &PooledObligation) -> Result<Items<PooledPart>, NoMemory>
    ensures { IfOk result (λ all. all ≡ obligation_roots ob.now) }
{
    let mut all = Items::new(alloc);
    push_conjuncts(ob.known.as_slice(), &mut all)?;
    push_literals(ob.path.as_slice(), &mut all)?;
    push_conjunct(&ob.goal, &mut all)?;
    Ok(all)
}

fn push_conjuncts(items: &[PooledConjunct], all: &mut Items<PooledPart>) -> Result<(), NoMemory>
    ensures { OnOk result (all.new ≡ all.old ++ conjuncts_roots items.now) }
{
    for c in items {
        push_conjunct(c, all)?;
    }
    Ok(())
}

fn push_conjunct(c: &PooledConjunct, all: &mut Items<PooledPart>) -> Result<(), NoMemory>
    ensures { OnOk result (all.new ≡ all.old ++ conjunct_roots c.now) }
{
    push_literals(c.when.as_slice(), all)?;
    match &c.gives {
        Some(x) => push_literal(x, all),
        None => Ok(()),
    }
}

fn push_literals(items: &[PooledLiteral], all: &mut Items<PooledPart>) -> Result<(), NoMemory>
    ensures { OnOk result (all.new ≡ all.old ++ literals_roots items.now) }
{
    for x in items {
        push_literal(x, all)?;
    }
    Ok(())
}

#[tactic(auto, unfolding(crate::specs::Roots::atom_roots))]
fn push_literal(x: &PooledLiteral, all: &mut Items<PooledPart>) -> Result<(), NoMemory>
    ensures { OnOk result (all.new ≡ all.old ++ literal_roots x.now) }
{
    match &x.atom {
        PooledAtom::SameName(_, _) => Ok(()),
        PooledAtom::SameStore(a, b) => {
            push(PooledPart::Store(*a), all)?;
            push(PooledPart::Store(*b), all)
        }
        PooledAtom::SameValue(a, b) | PooledAtom::AtMost(a, b, _) => {
            push(PooledPart::Value(*a), all)?;
            push(PooledPart::Value(*b), all)
        }
        PooledAtom::Ends(s) => push(PooledPart::Store(*s), all),
        PooledAtom::Holds(k, s) => {
            push(PooledPart::Test(*k), all)?;
            push(PooledPart::Store(*s), all)
        }
    }
}

fn push(part: PooledPart, all: &mut Items<PooledPart>) -> Result<(), NoMemory>
    ensures { OnOk result (all.new ≡ all.old ++ part ∷ []) }
{
    all.push(part)?;
    Ok(())
}
