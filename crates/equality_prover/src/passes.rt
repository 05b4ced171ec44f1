//! Passes over all pairs of terms, until each two of one top with arguments of one class are of one class.
//! `specs/Growth.antt` says what a pass did.

ghost use Rattle.std.specs.Prelude.{◌≡◌, ℕ, ◌<◌, length, map};
ghost use Rattle.law_clauses.specs.ArgumentView.{argument_of};
ghost use Rattle.equality_prover.specs.Places.{table_of};
ghost use Rattle.equality_prover.specs.Growth.{IsSettled, Passed, IsEnd};

use crate::classes::{join, pairs_in_class};
use crate::places::have_same_top;
use law_clauses::Argument;
use sqlite_items::Items;

// Makes one class of those of the terms at two places, where they have one top and arguments of one class.
#[tactic(auto, using(crate::proofs::Passing::of_one_class, crate::proofs::Passing::other_top))]
fn join_alike(
    terms: &[Argument<'_>],
    table: &[Items<usize>],
    classes: &mut [usize],
    i: usize,
    j: usize,
) -> bool
    requires count { length classes.old ≡ length terms.now }
    requires table { table.now ≡ table_of (map argument_of terms.now) (map argument_of terms.now) }
    requires first { i < length terms.now }
    requires second { j < length terms.now }
    ensures { Passed (map argument_of terms.now) classes.old classes.new (IsSettled (map argument_of terms.now) classes.new i j) result }
{
    if classes[i] == classes[j] {
        return false;
    }
    if !have_same_top(terms[i], terms[j]) {
        return false;
    }
    if !pairs_in_class(classes, table[i].as_slice(), table[j].as_slice()) {
        return false;
    }
    join(classes, i, j);
    true
}

// .. of the term at a place and each other one.
fn join_row(terms: &[Argument<'_>], table: &[Items<usize>], classes: &mut [usize], i: usize) -> bool
    requires count { length classes.old ≡ length terms.now }
    requires table { table.now ≡ table_of (map argument_of terms.now) (map argument_of terms.now) }
    requires first { i < length terms.now }
    ensures { Passed (map argument_of terms.now) classes.old classes.new ((j : ℕ) → j < length terms.now → IsSettled (map argument_of terms.now) classes.new i j) result }
{
    let mut joined = false;
    for j in 0..terms.len() {
        if join_alike(terms, table, classes, i, j) {
            joined = true;
        }
    }
    joined
}

// .. of each two terms.
fn join_all(terms: &[Argument<'_>], table: &[Items<usize>], classes: &mut [usize]) -> bool
    requires count { length classes.old ≡ length terms.now }
    requires table { table.now ≡ table_of (map argument_of terms.now) (map argument_of terms.now) }
    ensures { Passed (map argument_of terms.now) classes.old classes.new ((i : ℕ) → i < length terms.now → (j : ℕ) → j < length terms.now → IsSettled (map argument_of terms.now) classes.new i j) result }
{
    let mut joined = false;
    for i in 0..terms.len() {
        if join_row(terms, table, classes, i) {
            joined = true;
        }
    }
    joined
}

/// Joins classes until each two terms of one top with arguments of one class are of one class.
#[tactic(auto, using(crate::proofs::Taking::none_taken, crate::proofs::Taking::both_taken))]
pub fn settle(terms: &[Argument<'_>], table: &[Items<usize>], classes: &mut [usize])
    requires count { length classes.old ≡ length terms.now }
    requires table { table.now ≡ table_of (map argument_of terms.now) (map argument_of terms.now) }
    ensures { IsEnd (map argument_of terms.now) classes.old classes.new }
{
    loop {
        if !join_all(terms, table, classes) {
            return;
        }
    }
}
