//! Obligations put into a pool, each different term once.
//! `specs/Pooled.antt` says what the numbers stand for, and `specs/ObligationTerms.antt` in which
//! order terms are met.

ghost use Rattle.std.specs.Prelude.{◌≡◌, true, IfOk, OnOk, OnErr};
ghost use Rattle.term_pool.specs.Growth.{Adds, Extends};
ghost use Rattle.term_pool.specs.ObligationTerms.{atom_terms, literal_terms, literals_terms, gives_terms, conjunct_terms, conjuncts_terms, obligation_terms};
ghost use Rattle.term_pool.specs.Pooled.{of_rule, obligation_in, obligation_numbered, AtomOf, LiteralOf, LiteralsOf, GivesOf, ConjunctOf, ConjunctsOf};

use crate::pool::Pool;
use crate::pooled::{PooledAtom, PooledConjunct, PooledLiteral, PooledObligation};
use rule_terms::{Atom, Conjunct, Literal, Obligation, copy_conditions};
use sqlite_items::Items;
use std::alloc::Global;
use toy_imp::NoMemory;

/// The obligation by numbers, with its terms put into the pool. After want of memory the pool is as
/// it was.
pub fn pool_obligation(
    alloc: Global,
    pool: &mut Pool,
    ob: &Obligation,
) -> Result<PooledObligation, NoMemory>
    ensures stands { IfOk result (λ p. obligation_numbered pool.new p ≡ ob.now) }
    ensures numbers { IfOk result (λ p. obligation_in pool.new p ≡ true) }
    ensures added { OnOk result (Adds pool.old pool.new (obligation_terms ob.now)) }
    ensures same { OnErr result (pool.new ≡ pool.old) }
{
    let len = pool.len();
    match pool.put_obligation(alloc, ob) {
        Ok(p) => Ok(p),
        Err(e) => {
            pool.truncate(len);
            Err(e)
        }
    }
}

impl Pool {
    #[tactic(auto, using(crate::proofs::Growing::adds_both))]
    fn put_obligation(
        &mut self,
        alloc: Global,
        ob: &Obligation,
    ) -> Result<PooledObligation, NoMemory>
        ensures stands { IfOk result (λ p. obligation_numbered self.new p ≡ ob.now) }
        ensures numbers { IfOk result (λ p. obligation_in self.new p ≡ true) }
        ensures added { OnOk result (Adds self.old self.new (obligation_terms ob.now)) }
        ensures kept { OnErr result (Extends self.old self.new) }
    {
        let known = self.put_conjuncts(alloc, ob.known.as_slice())?;
        let path = self.put_literals(alloc, ob.path.as_slice())?;
        let goal = self.put_conjunct(alloc, &ob.goal)?;
        with_rule(alloc, ob, known, path, goal)
    }

    #[tactic(auto, using(crate::proofs::PutItems::no_items))]
    fn put_conjuncts(
        &mut self,
        alloc: Global,
        items: &[Conjunct],
    ) -> Result<Items<PooledConjunct>, NoMemory>
        ensures stands { IfOk result (λ xs. ConjunctsOf self.new xs items.now) }
        ensures added { OnOk result (Adds self.old self.new (conjuncts_terms items.now)) }
        ensures kept { OnErr result (Extends self.old self.new) }
    {
        let mut all = Items::new(alloc);
        for c in items {
            let x = self.put_conjunct(alloc, c)?;
            all.push(x)?;
        }
        Ok(all)
    }

    #[tactic(auto, using(crate::proofs::Growing::adds_both))]
    fn put_conjunct(&mut self, alloc: Global, c: &Conjunct) -> Result<PooledConjunct, NoMemory>
        ensures stands { IfOk result (λ x. ConjunctOf self.new x c.now) }
        ensures added { OnOk result (Adds self.old self.new (conjunct_terms c.now)) }
        ensures kept { OnErr result (Extends self.old self.new) }
    {
        let when = self.put_literals(alloc, c.when.as_slice())?;
        let gives = self.put_given(alloc, &c.gives)?;
        Ok(PooledConjunct { when, gives })
    }

    fn put_given(
        &mut self,
        alloc: Global,
        l: &Option<Literal>,
    ) -> Result<Option<PooledLiteral>, NoMemory>
        ensures stands { IfOk result (λ x. GivesOf self.new x l.now) }
        ensures added { OnOk result (Adds self.old self.new (gives_terms l.now)) }
        ensures kept { OnErr result (Extends self.old self.new) }
    {
        match l {
            Some(l) => Ok(Some(self.put_literal(alloc, l)?)),
            None => Ok(None),
        }
    }

    #[tactic(auto, using(crate::proofs::PutItems::no_items))]
    fn put_literals(
        &mut self,
        alloc: Global,
        items: &[Literal],
    ) -> Result<Items<PooledLiteral>, NoMemory>
        ensures stands { IfOk result (λ xs. LiteralsOf self.new xs items.now) }
        ensures added { OnOk result (Adds self.old self.new (literals_terms items.now)) }
        ensures kept { OnErr result (Extends self.old self.new) }
    {
        let mut all = Items::new(alloc);
        for l in items {
            let x = self.put_literal(alloc, l)?;
            all.push(x)?;
        }
        Ok(all)
    }

    fn put_literal(&mut self, alloc: Global, l: &Literal) -> Result<PooledLiteral, NoMemory>
        ensures stands { IfOk result (λ x. LiteralOf self.new x l.now) }
        ensures added { OnOk result (Adds self.old self.new (literal_terms l.now)) }
        ensures kept { OnErr result (Extends self.old self.new) }
    {
        let atom = self.put_atom(alloc, &l.atom)?;
        Ok(PooledLiteral { sign: l.sign, atom })
    }

    fn put_atom(&mut self, alloc: Global, a: &Atom) -> Result<PooledAtom, NoMemory>
        ensures stands { IfOk result (λ x. AtomOf self.new x a.now) }
        ensures added { OnOk result (Adds self.old self.new (atom_terms a.now)) }
        ensures kept { OnErr result (Extends self.old self.new) }
    {
        match a {
            Atom::SameName(x, y) => Ok(PooledAtom::SameName(*x, *y)),
            Atom::SameStore(a, b) => {
                let a = self.put_store(alloc, a)?;
                let b = self.put_store(alloc, b)?;
                Ok(PooledAtom::SameStore(a, b))
            }
            Atom::SameValue(a, b) => {
                let a = self.put_value(alloc, a)?;
                let b = self.put_value(alloc, b)?;
                Ok(PooledAtom::SameValue(a, b))
            }
            Atom::AtMost(a, b, by) => {
                let a = self.put_value(alloc, a)?;
                let b = self.put_value(alloc, b)?;
                Ok(PooledAtom::AtMost(a, b, *by))
            }
            Atom::Ends(s) => Ok(PooledAtom::Ends(self.put_store(alloc, s)?)),
            Atom::Holds(k, s) => Ok(PooledAtom::Holds(*k, self.put_store(alloc, s)?)),
        }
    }
}

// The obligation of a rule, with what is known, the path and the goal by numbers.
fn with_rule(
    alloc: Global,
    ob: &Obligation,
    known: Items<PooledConjunct>,
    path: Items<PooledLiteral>,
    goal: PooledConjunct,
) -> Result<PooledObligation, NoMemory>
    ensures { IfOk result (λ p. p ≡ of_rule ob.now known path goal) }
{
    let params = Items::from_slice(alloc, ob.params.as_slice())?;
    let conditions = copy_conditions(alloc, ob.conditions.as_slice())?;
    Ok(PooledObligation {
        params,
        conditions,
        known,
        path,
        goal,
    })
}
