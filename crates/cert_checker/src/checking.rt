//! Whether a certificate proves its rule. `specs/Certificates.antt` says when it does.

ghost use Rattle.std.specs.Prelude.{◌≡◌, ◌↔◌, true, IsTrue, IfOk};
ghost use Rattle.toy_imp.specs.Faults.{well_formed, is_simulate};
ghost use Rattle.toy_imp.specs.Valid.{Valid};
ghost use Rattle.entry_pairs.specs.CutAnswers.{may_be_entry};
ghost use Rattle.spot_obligations.specs.Owed.{pair_of};
ghost use Rattle.spot_obligations.specs.PathsOfEntry.{are_inside};
ghost use Rattle.cert_checker.specs.Certificates.{Certifies, IsCertificate, IsRelation};
ghost use Rattle.cert_checker.specs.Taking.{taken_entry, taken_entries, takes_all};

use crate::certificate::{Certificate, Proved};
use crate::relation::is_relation;
use crate::taking::{Around, take_paths};
use entry_pairs::{CutsRefusal, cuts};
use path_pairs::CutPoints;
use spot_obligations::{Entry, entry_paths, is_exit};
use std::alloc::Global;
use toy_imp::{NoMemory, Rule};

// The place behind the next proofs, if there is one for each spot of this entry. Its paths are built
// here.
#[tactic(auto, unfolding(crate::specs::Taking::taken_entry))]
fn take_entry(
    alloc: Global,
    rule: &Rule,
    points: &CutPoints,
    entries: &[Entry],
    proofs: &[Proved],
    k: usize,
    e: &Entry,
    at: usize,
) -> Result<Option<usize>, NoMemory>
    requires well_formed { well_formed rule.now ≡ true }
    requires simulates { is_simulate rule.now.method ≡ true }
    requires inside { may_be_entry rule.now (pair_of e.now) ≡ true }
    ensures { IfOk result (λ n. n ≡ taken_entry rule.now points.now entries.now proofs.now k e.now at) }
{
    if is_exit(rule, e) {
        return Ok(Some(at));
    }
    match entry_paths(alloc, rule, points, e)? {
        None => Ok(None),
        Some(all) => {
            let around = Around {
                rule,
                entries,
                proofs,
                known: e.conjuncts.as_slice(),
                entry: k,
            };
            take_paths(
                alloc,
                around,
                all.lefts.as_slice(),
                all.rights.as_slice(),
                at,
            )
        }
    }
}

// The place behind the last proof that is taken, if there is one for each spot of the relation.
fn take_entries(
    alloc: Global,
    rule: &Rule,
    points: &CutPoints,
    entries: &[Entry],
    proofs: &[Proved],
) -> Result<Option<usize>, NoMemory>
    requires well_formed { well_formed rule.now ≡ true }
    requires simulates { is_simulate rule.now.method ≡ true }
    requires inside { are_inside rule.now entries.now ≡ true }
    ensures { IfOk result (λ n. n ≡ taken_entries rule.now points.now entries.now proofs.now) }
{
    let mut next = 0;
    for k in 0..entries.len() {
        let e = &entries[k];
        match take_entry(alloc, rule, points, entries, proofs, k, e, next)? {
            None => return Ok(None),
            Some(n) => next = n,
        }
    }
    Ok(Some(next))
}

// Whether all proofs are taken.
#[tactic(auto, unfolding(crate::specs::Taking::takes_all))]
fn takes_all(
    alloc: Global,
    rule: &Rule,
    points: &CutPoints,
    cert: &Certificate,
) -> Result<bool, NoMemory>
    requires well_formed { well_formed rule.now ≡ true }
    requires simulates { is_simulate rule.now.method ≡ true }
    requires inside { are_inside rule.now cert.now.entries ≡ true }
    ensures { IfOk result (λ yes. yes ≡ takes_all rule.now points.now cert.now.entries cert.now.proofs) }
{
    let entries = cert.entries.as_slice();
    let proofs = cert.proofs.as_slice();
    match take_entries(alloc, rule, points, entries, proofs)? {
        None => Ok(false),
        Some(n) => Ok(n == proofs.len()),
    }
}

// Whether the certificate proves the rule under these cut points.
fn certifies(
    alloc: Global,
    rule: &Rule,
    points: &CutPoints,
    cert: &Certificate,
) -> Result<bool, NoMemory>
    requires well_formed { well_formed rule.now ≡ true }
    requires simulates { is_simulate rule.now.method ≡ true }
    ensures { IfOk result (λ yes. IsTrue yes ↔ Certifies rule.now points.now cert.now) }
{
    if is_relation(alloc, rule, points, cert.entries.as_slice())? {
        takes_all(alloc, rule, points, cert)
    } else {
        Ok(false)
    }
}

// Whether it is a certificate of the rule.
fn is_certificate(alloc: Global, rule: &Rule, cert: &Certificate) -> Result<bool, NoMemory>
    requires well_formed { well_formed rule.now ≡ true }
    requires simulates { is_simulate rule.now.method ≡ true }
    ensures { IfOk result (λ yes. IsTrue yes ↔ IsCertificate rule.now cert.now) }
{
    match cuts(alloc, rule) {
        Err(CutsRefusal::Limit(_)) => Ok(false),
        Err(CutsRefusal::NoMemory) => Err(NoMemory),
        Ok(points) => certifies(alloc, rule, &points, cert),
    }
}

/// Whether the certificate proves the rule, which is well formed and of method simulate. Where it does the
/// rule is valid: under each instance that meets its conditions both sides end alike and halt alike.
/// `NoMemory` comes where memory runs out, or where a side has 2^32 - 1 points or more.
/// The paths of each entry are built once; it stops at the first proof that is not of the spot that comes
/// next.
pub fn check(alloc: Global, rule: &Rule, cert: &Certificate) -> Result<bool, NoMemory>
    requires well_formed { well_formed rule.now ≡ true }
    requires simulates { is_simulate rule.now.method ≡ true }
    ensures exact { IfOk result (λ yes. IsTrue yes ↔ IsCertificate rule.now cert.now) }
    ensures valid { IfOk result (λ yes. IsTrue yes → Valid rule.now) }
{
    is_certificate(alloc, rule, cert)
}
