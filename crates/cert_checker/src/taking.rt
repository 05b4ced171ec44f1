//! The walk over the spots of a relation that takes the proofs of a certificate one after another.
//! `specs/Taking.antt` says how it goes. No path is built twice, and one obligation is at hand at a
//! time.

ghost use Rattle.std.specs.Prelude.{◌≡◌, None, IfOk};
ghost use Rattle.rule_terms.specs.Goals as goals;
ghost use Rattle.cert_checker.specs.Taking as spec;
ghost use Rattle.cert_checker.specs.Taking.{around_of, pair_of, spot_of, along, taken_numbered};
ghost use Rattle.cert_checker.specs.Taking.{taken_left, taken_paths};

use crate::certificate::Proved;
use proof_steps::refutes;
use refutations::Refutation;
use rule_terms::{Conjunct, Path, falsehood, sides_equal};
use spot_obligations::{Entry, ObligationAt, Owed, Spot, paths_owe, weighed_obligation};
use std::alloc::Global;
use toy_imp::{NoMemory, Rule};

/// An entry, and what stands around it.
#[derive(Clone, Copy)]
pub struct Around<'a> {
    pub rule: &'a Rule,
    pub entries: &'a [Entry],
    pub proofs: &'a [Proved],
    /// The conjuncts of the entry.
    pub known: &'a [Conjunct],
    /// The number of the entry.
    pub entry: usize,
}

/// A pair of its paths, with their numbers.
#[derive(Clone, Copy)]
pub struct Pair<'a> {
    pub around: Around<'a>,
    pub left_number: usize,
    pub left: &'a Path,
    pub right_number: usize,
    pub right: &'a Path,
}

fn same_number(a: Option<u32>, b: Option<usize>) -> bool
    ensures { result ≡ spec.same_number a b }
{
    match (a, b) {
        (None, None) => true,
        (Some(m), Some(n)) => m as usize == n,
        _ => false,
    }
}

// Whether the spot is that of this pair and number.
#[tactic(auto, unfolding(crate::specs::Taking::same_spot))]
fn is_at(spot: &Spot, here: Pair<'_>, number: Option<usize>) -> bool
    ensures { result ≡ spec.same_spot spot.now (spot_of (pair_of here.entry) number) }
{
    (spot.entry as usize == here.around.entry && spot.left as usize == here.left_number)
        && (spot.right as usize == here.right_number && same_number(spot.conjunct, number))
}

// Whether the refutation is one of the obligation of this pair and goal, with so many conjuncts
// known.
#[tactic(auto, unfolding(crate::specs::Taking::proves))]
fn proves(
    alloc: Global,
    here: Pair<'_>,
    goal: &Conjunct,
    used: u32,
    proof: &Refutation,
) -> Result<bool, NoMemory>
    ensures { IfOk result (λ yes. yes ≡ spec.proves (pair_of here.entry) goal.now used proof.now) }
{
    let known = here.around.known;
    if used as usize > known.len() {
        return Ok(false);
    }
    let first = &known[..used as usize];
    match weighed_obligation(alloc, here.around.rule, first, here.left, here.right, goal)? {
        ObligationAt::Found(ob) => Ok(refutes(&ob, proof)),
        _ => Ok(false),
    }
}

// Whether this is a proof at the spot of this pair and number.
#[tactic(auto, unfolding(crate::specs::Taking::is_proof))]
fn is_proof(
    alloc: Global,
    here: Pair<'_>,
    number: Option<usize>,
    goal: &Conjunct,
    p: &Proved,
) -> Result<bool, NoMemory>
    ensures { IfOk result (λ yes. yes ≡ spec.is_proof (pair_of here.entry) number goal.now p.now) }
{
    if !is_at(&p.spot, here, number) {
        return Ok(false);
    }
    proves(alloc, here, goal, p.used, &p.proof)
}

// The place behind the next proof, if that is one at the spot of this pair and number.
#[tactic(auto, unfolding(crate::specs::Taking::taken_one))]
fn take_one(
    alloc: Global,
    here: Pair<'_>,
    number: Option<usize>,
    goal: &Conjunct,
    at: usize,
) -> Result<Option<usize>, NoMemory>
    ensures { IfOk result (λ n. n ≡ spec.taken_one (pair_of here.entry) number goal.now at) }
{
    match here.around.proofs.get(at) {
        None => Ok(None),
        Some(p) => {
            if is_proof(alloc, here, number, goal, p)? {
                Ok(Some(at + 1))
            } else {
                Ok(None)
            }
        }
    }
}

// The place behind the next proofs, if there is one for each of these goals.
fn take_each(
    alloc: Global,
    here: Pair<'_>,
    goals: &[Conjunct],
    at: usize,
) -> Result<Option<usize>, NoMemory>
    ensures { IfOk result (λ n. n ≡ along (taken_numbered (pair_of here.entry)) 0 goals.now at) }
{
    let mut next = at;
    for c in 0..goals.len() {
        let goal = &goals[c];
        match take_one(alloc, here, Some(c), goal, next)? {
            None => return Ok(None),
            Some(n) => next = n,
        }
    }
    Ok(Some(next))
}

// .. for `L = R` without a number.
fn take_equal(alloc: Global, here: Pair<'_>, at: usize) -> Result<Option<usize>, NoMemory>
    ensures { IfOk result (λ n. n ≡ spec.taken_one (pair_of here.entry) None goals.sides_equal at) }
{
    let goal = sides_equal(alloc);
    take_one(alloc, here, None, &goal, at)
}

// .. for what is never true.
fn take_never(alloc: Global, here: Pair<'_>, at: usize) -> Result<Option<usize>, NoMemory>
    ensures { IfOk result (λ n. n ≡ spec.taken_one (pair_of here.entry) None goals.falsehood at) }
{
    let goal = falsehood(alloc);
    take_one(alloc, here, None, &goal, at)
}

// .. for all that a pair of paths owes.
#[tactic(auto, unfolding(crate::specs::Taking::taken_pair))]
fn take_pair(alloc: Global, here: Pair<'_>, at: usize) -> Result<Option<usize>, NoMemory>
    ensures { IfOk result (λ n. n ≡ spec.taken_pair (pair_of here.entry) at) }
{
    let conditions = here.around.rule.conditions.as_slice();
    match paths_owe(
        conditions,
        here.around.entries,
        here.left.stop,
        here.right.stop,
    ) {
        Owed::Each(goals) => take_each(alloc, here, goals, at),
        Owed::EqualStores => take_equal(alloc, here, at),
        Owed::Falsehood => take_never(alloc, here, at),
        Owed::Nothing => Ok(Some(at)),
    }
}

// .. for a left path with all right paths.
fn take_rights(
    alloc: Global,
    around: Around<'_>,
    left_number: usize,
    left: &Path,
    rights: &[Path],
    at: usize,
) -> Result<Option<usize>, NoMemory>
    ensures { IfOk result (λ n. n ≡ taken_left (around_of around.entry) rights.now left_number left.now at) }
{
    let mut next = at;
    for b in 0..rights.len() {
        let here = Pair {
            around,
            left_number,
            left,
            right_number: b,
            right: &rights[b],
        };
        match take_pair(alloc, here, next)? {
            None => return Ok(None),
            Some(n) => next = n,
        }
    }
    Ok(Some(next))
}

/// The place behind the next proofs, if there is one for each spot of this entry, whose paths these
/// are.
pub fn take_paths(
    alloc: Global,
    around: Around<'_>,
    lefts: &[Path],
    rights: &[Path],
    at: usize,
) -> Result<Option<usize>, NoMemory>
    ensures { IfOk result (λ n. n ≡ taken_paths (around_of around.entry) lefts.now rights.now at) }
{
    let mut next = at;
    for a in 0..lefts.len() {
        let left = &lefts[a];
        match take_rights(alloc, around, a, left, rights, next)? {
            None => return Ok(None),
            Some(n) => next = n,
        }
    }
    Ok(Some(next))
}
