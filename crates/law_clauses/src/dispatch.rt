//! Whether literals are a clause of a law, by the law's number.
//! `specs/Laws.antt` has the table of all laws, `specs/ShortLaws.antt` those of one, two and three
//! literals.

ghost use Rattle.std.specs.Prelude.{◌≡◌, ◌≢◌, ◌||◌, [], ◌∷◌};
ghost use Rattle.law_clauses.specs.Signed.{signed_of, two_signed, three_signed, all_signed};
ghost use Rattle.law_clauses.specs.Laws.{some_row, is_clause};
ghost use Rattle.law_clauses.specs.ShortLaws.{laws_of_one, write_laws_of_two};
ghost use Rattle.law_clauses.specs.ShortLaws.{condition_laws_of_two, number_laws_of_two};
ghost use Rattle.law_clauses.specs.ShortLaws.{some_law_of_two, laws_of_three};

use crate::condition_laws::{
    is_at_least_one, is_constant_value, keeps_test, keeps_value, keeps_variable, names_differ,
    run_ignores, run_leaves, runs_commute, test_ignores, value_ignores,
};
use crate::number_laws::{exchanges_operands, has_unit, takes_itself};
use crate::read_back::reads_what_is_written;
use crate::write_laws::{
    neither_ends, reads_past_count, reads_past_index, reads_past_name, run_starts, side_ends,
    write_ends, written_ends,
};
use crate::written_alike::is_written_alike;
use rule_terms::{Literal, Obligation};

#[tactic(auto, using(crate::proofs::Same::or_false))]
fn is_clause_of_one(ob: &Obligation, k: u32, x: &Literal) -> bool
    ensures { result ≡ some_row k (laws_of_one ob.now (signed_of x.now ∷ [])) }
{
    match k {
        4 => reads_past_count(x),
        6 => side_ends(x),
        18 => runs_commute(ob, x),
        21 => names_differ(ob, x),
        _ => false,
    }
}

// Of reads and writes.
#[tactic(auto, using(crate::proofs::Same::or_false))]
fn is_write_clause(k: u32, x: &Literal, y: &Literal) -> bool
    ensures { result ≡ some_row k (write_laws_of_two (two_signed x.now y.now)) }
{
    match k {
        2 => reads_past_name(x, y),
        3 => reads_past_index(x, y),
        7 => write_ends(x, y),
        8 => written_ends(x, y),
        9 => run_starts(x, y),
        _ => false,
    }
}

// Of side conditions.
#[tactic(auto, using(crate::proofs::Same::or_false))]
fn is_condition_clause(ob: &Obligation, k: u32, x: &Literal, y: &Literal) -> bool
    ensures { result ≡ some_row k (condition_laws_of_two ob.now (two_signed x.now y.now)) }
{
    match k {
        11 => keeps_value(ob, x, y),
        12 => keeps_variable(ob, x, y),
        14 => value_ignores(ob, x, y),
        16 => run_ignores(ob, x, y),
        19 => is_at_least_one(ob, x, y),
        _ => false,
    }
}

// Of sums, products and differences.
#[tactic(auto, using(crate::proofs::Same::or_false))]
fn is_number_clause(k: u32, x: &Literal, y: &Literal) -> bool
    ensures { result ≡ some_row k (number_laws_of_two (two_signed x.now y.now)) }
{
    match k {
        23 => has_unit(x, y),
        24 => takes_itself(x, y),
        _ => false,
    }
}

fn is_clause_of_two(ob: &Obligation, k: u32, x: &Literal, y: &Literal) -> bool
    ensures { result ≡ some_law_of_two ob.now k (two_signed x.now y.now) }
{
    is_write_clause(k, x, y) || is_condition_clause(ob, k, x, y) || is_number_clause(k, x, y)
}

#[tactic(auto, using(crate::proofs::Same::or_false))]
fn is_clause_of_three(ob: &Obligation, k: u32, x: &Literal, y: &Literal, z: &Literal) -> bool
    ensures { result ≡ some_row k (laws_of_three ob.now (three_signed x.now y.now z.now)) }
{
    match k {
        10 => neither_ends(x, y, z),
        13 => keeps_test(ob, x, y, z),
        15 => test_ignores(ob, x, y, z),
        17 => run_leaves(ob, x, y, z),
        20 => is_constant_value(ob, x, y, z),
        22 => exchanges_operands(x, y, z),
        _ => false,
    }
}

// Of a law of a fixed number of literals.
#[tactic(auto, using(crate::proofs::ShortClauses::one_short, crate::proofs::ShortClauses::two_short, crate::proofs::ShortClauses::three_short, crate::proofs::ShortClauses::none_short))]
fn is_short_clause(ob: &Obligation, k: u32, clause: &[Literal]) -> bool
    requires not_1 { k ≢ 1 }
    requires not_5 { k ≢ 5 }
    ensures { result ≡ is_clause ob.now k (all_signed clause.now) }
{
    match clause {
        [x] => is_clause_of_one(ob, k, x),
        [x, y] => is_clause_of_two(ob, k, x, y),
        [x, y, z] => is_clause_of_three(ob, k, x, y, z),
        _ => false,
    }
}

/// Whether the literals are a clause of the law of this number, under the side conditions and the
/// kinds of parameters of the obligation. Exact, and it takes no memory; a number beyond the table
/// has no clauses.
#[tactic(auto, using(crate::proofs::ShortClauses::clause_1, crate::proofs::ShortClauses::clause_5))]
pub fn is_clause(ob: &Obligation, k: u32, clause: &[Literal]) -> bool
    ensures { result ≡ is_clause ob.now k (all_signed clause.now) }
{
    match k {
        1 => reads_what_is_written(clause),
        5 => is_written_alike(clause),
        _ => is_short_clause(ob, k, clause),
    }
}
