//! Bounds of one value by another, added up row by row.
//! `specs/Sums.antt` says what a row bounds and when rows add up; a row is refused before a sum could pass 2^100.

ghost use Rattle.std.specs.Prelude.{◌≡◌, ◌≤◌, ◌^◌, ◌+ℤ◌, ◌-ℤ◌, neg_ℤ, pos, unsigned_abs, Some, IfSome};
ghost use Rattle.std.specs.Option.{option_map};
ghost use Rattle.rule_terms.specs.Term.{num};
ghost use Rattle.rule_terms.specs.Order.{value_same};
ghost use Rattle.law_clauses.specs.Signed.{signed_of};
ghost use Rattle.proof_steps.specs.Cited.{fact};
ghost use Rattle.law_clauses.specs.Offsets.{offset};
ghost use Rattle.proof_steps.specs.Sums.{bound, bound_of, bound_back, over, under, row_bound, in_range, goes_on, adds_up};
ghost use Rattle.proof_steps.specs.Steps.{has_rows, summed};
ghost use Rattle.proof_steps.specs.Rows.{side_of, bound_by, reached, next_reached};

use law_clauses::{is_num, split_offset};
use refutations::{Step, SumRow};
use rule_terms::{Atom, Literal, ValueNode, ValueTerm};

/// The greatest magnitude of a row's number and of a sum.
const GREATEST: u128 = 1 << 100;

/// A side of a row: a term, or a constant.
#[derive(Clone, Copy)]
enum Side<'a> {
    Term(&'a ValueTerm),
    Number(i64),
}

/// The low side is at most the high one plus the number.
#[derive(Clone, Copy)]
struct Row<'a> {
    low: Side<'a>,
    high: Side<'a>,
    by: i128,
}

/// The value at which rows have arrived, and the sum of their numbers.
#[derive(Clone, Copy)]
struct Reached<'a> {
    side: Side<'a>,
    sum: i128,
}

// ---- numbers
fn in_range(z: i128) -> bool
    ensures { result ≡ in_range z }
{
    z.unsigned_abs() <= GREATEST
}

fn plus(a: i128, b: i128) -> i128
    requires first { unsigned_abs a ≤ 2 ^ 100 }
    requires second { unsigned_abs b ≤ 2 ^ 100 }
    ensures { result ≡ a +ℤ b }
{
    a + b
}

fn less(a: i64, b: i64) -> i128
    ensures { result ≡ a -ℤ b }
{
    i128::from(a) - i128::from(b)
}

// What a bound's number is the other way round, where the bound does not hold.
fn reversed(c: i128) -> i128
    ensures { result ≡ neg_ℤ c -ℤ pos 1 }
{
    -1 - c
}

fn opposite(c: i128) -> i128
    requires { unsigned_abs c ≤ 2 ^ 64 }
    ensures { result ≡ neg_ℤ c }
{
    -c
}

// ---- sides
#[tactic(auto, using(crate::proofs::Summed::num_first))]
fn is_number(z: i64, w: &ValueTerm) -> bool
    ensures { result ≡ value_same (num z) w.now }
{
    match &w.node {
        ValueNode::Num(y) => z == *y,
        _ => false,
    }
}

#[tactic(auto, using(law_clauses::proofs::Same::num_same), unfolding(rule_terms::specs::Order::value_cmp))]
fn same_side(a: Side<'_>, b: Side<'_>) -> bool
    ensures { result ≡ value_same (side_of a.entry) (side_of b.entry) }
{
    match (a, b) {
        (Side::Term(v), Side::Term(w)) => v.same(w),
        (Side::Term(v), Side::Number(z)) => is_num(v, z),
        (Side::Number(z), Side::Term(w)) => is_number(z, w),
        (Side::Number(y), Side::Number(z)) => y == z,
    }
}

// ---- rows
// A value plus or minus a constant, and the value.
fn over(v: &ValueTerm) -> Option<Row<'_>>
    ensures { option_map bound_by result ≡ over v.now (offset v.now) }
{
    match split_offset(v) {
        Some(o) => Some(Row {
            low: Side::Term(v),
            high: Side::Term(o.base),
            by: o.by,
        }),
        None => None,
    }
}

fn under(v: &ValueTerm) -> Option<Row<'_>>
    ensures { option_map bound_by result ≡ under v.now (offset v.now) }
{
    match split_offset(v) {
        Some(o) => Some(Row {
            low: Side::Term(o.base),
            high: Side::Term(v),
            by: opposite(o.by),
        }),
        None => None,
    }
}

fn between<'a>(low: &'a ValueTerm, high: &'a ValueTerm, by: i128) -> Option<Row<'a>>
    ensures { option_map bound_by result ≡ bound low.now high.now by }
{
    Some(Row {
        low: Side::Term(low),
        high: Side::Term(high),
        by,
    })
}

// What a literal says of two values.
#[tactic(auto, unfolding(crate::specs::Sums::bound_of))]
fn bound_of(x: &Literal) -> Option<Row<'_>>
    ensures { option_map bound_by result ≡ bound_of (Some (signed_of x.now)) }
{
    match (x.sign, &x.atom) {
        (true, Atom::SameValue(a, b)) => between(a, b, 0),
        (true, Atom::AtMost(a, b, c)) => between(a, b, *c),
        (false, Atom::AtMost(b, a, c)) => between(a, b, reversed(*c)),
        _ => None,
    }
}

#[tactic(auto, unfolding(crate::specs::Sums::bound_back))]
fn bound_back(x: &Literal) -> Option<Row<'_>>
    ensures { option_map bound_by result ≡ bound_back (Some (signed_of x.now)) }
{
    match (x.sign, &x.atom) {
        (true, Atom::SameValue(a, b)) => between(b, a, 0),
        _ => None,
    }
}

#[tactic(auto, unfolding(crate::specs::Sums::row_bound, crate::specs::Sums::bound_of, crate::specs::Sums::bound_back))]
fn row_bound<'a>(earlier: &'a [Step], row: &'a SumRow) -> Option<Row<'a>>
    ensures { option_map bound_by result ≡ row_bound earlier.now row.now }
{
    match row {
        SumRow::Of(k) => bound_of(&earlier.get(*k as usize)?.gives),
        SumRow::Back(k) => bound_back(&earlier.get(*k as usize)?.gives),
        SumRow::Num(a, b) => Some(Row {
            low: Side::Number(*a),
            high: Side::Number(*b),
            by: less(*a, *b),
        }),
        SumRow::Off(v) => over(v),
        SumRow::OffBack(v) => under(v),
    }
}

// Where the row leads, if it goes on from there.
fn go_on<'a>(row: Row<'a>, here: Reached<'_>) -> Option<Reached<'a>>
    requires { unsigned_abs here.sum ≤ 2 ^ 100 }
    ensures value { option_map reached result ≡ next_reached (Some (bound_by row.entry)) (reached here.entry) }
    ensures small { IfSome result (λ more. unsigned_abs more.sum ≤ 2 ^ 100) }
{
    if !same_side(row.low, here.side) || !in_range(row.by) {
        return None;
    }
    let sum = plus(here.sum, row.by);
    if in_range(sum) {
        Some(Reached {
            side: row.high,
            sum,
        })
    } else {
        None
    }
}

fn next<'a>(earlier: &'a [Step], row: &'a SumRow, here: Reached<'_>) -> Option<Reached<'a>>
    requires { unsigned_abs here.sum ≤ 2 ^ 100 }
    ensures value { option_map reached result ≡ next_reached (row_bound earlier.now row.now) (reached here.entry) }
    ensures small { IfSome result (λ more. unsigned_abs more.sum ≤ 2 ^ 100) }
{
    match row_bound(earlier, row) {
        Some(row) => go_on(row, here),
        None => None,
    }
}

// Whether the rows lead from a value to another with a sum that is at most the number.
#[tactic(auto, using(crate::proofs::Summed::row_taken, crate::proofs::Summed::row_refused), unfolding(crate::specs::Sums::adds_up))]
fn add_up(earlier: &[Step], rows: &[SumRow], a: &ValueTerm, z: &ValueTerm, c: i128) -> bool
    ensures { result ≡ adds_up earlier.now rows.now a.now (pos 0) z.now c }
{
    let mut here = Reached {
        side: Side::Term(a),
        sum: 0,
    };
    for row in rows {
        let Some(more) = next(earlier, row, here) else {
            return false;
        };
        here = more;
    }
    same_side(here.side, Side::Term(z)) && here.sum <= c
}

// Whether there is a row at all.
#[tactic(auto, using(crate::proofs::Summed::no_rows, crate::proofs::Summed::some_rows))]
fn has_rows(rows: &[SumRow]) -> bool
    ensures { result ≡ has_rows rows.now }
{
    if rows.len() == 0 {
        return false;
    }
    true
}

// A bound that the rows add up to.
#[tactic(auto, unfolding(crate::specs::Steps::summed))]
pub fn is_summed(earlier: &[Step], rows: &[SumRow], x: &Literal) -> bool
    ensures { result ≡ summed earlier.now rows.now (signed_of x.now) }
{
    match (x.sign, &x.atom) {
        (true, Atom::AtMost(a, z, c)) => has_rows(rows) && add_up(earlier, rows, a, z, *c),
        _ => false,
    }
}
