//! The numbers of an escape: constants are themselves, and a term plus a constant has the sum.
//! `specs/Points.antt` says when a number fits.

ghost use Rattle.std.specs.Prelude.{◌≡◌, ◌-ℤ◌};
ghost use Rattle.std.specs.Ordering.{int_eq};
ghost use Rattle.law_clauses.specs.Offsets.{offset};
ghost use Rattle.escape_marks.specs.Failing.{FindsFailing};
ghost use Rattle.escape_marks.specs.Marks.{value_mark};
ghost use Rattle.open_checker.specs.Points.{is_itself, is_that_number, is_offset, number_fits};
ghost use Rattle.open_checker.specs.Points.{is_small};

use escape_marks::{Escape, ValueMark, value_mark};
use law_clauses::split_offset;
use rule_terms::{ValueNode, ValueTerm};

/// The greatest magnitude of a number of an escape.
const GREATEST: u128 = 1 << 100;

fn is_itself(v: &ValueTerm, n: i128) -> bool
    ensures { result ≡ is_itself v.now n }
{
    match &v.node {
        ValueNode::Num(c) => i128::from(*c) == n,
        _ => true,
    }
}

// A difference that does not fit is no number of a mark.
fn is_difference(m: i128, n: i128, by: i128) -> bool
    ensures { result ≡ int_eq m (n -ℤ by) }
{
    match n.checked_sub(by) {
        Some(rest) => m == rest,
        None => false,
    }
}

fn has_difference(marks: &[ValueMark], base: &ValueTerm, n: i128, by: i128) -> bool
    ensures { result ≡ is_that_number (value_mark marks.now base.now) (n -ℤ by) }
{
    let Some(m) = value_mark(marks, base) else {
        return false;
    };
    is_difference(m.number, n, by)
}

fn is_offset(marks: &[ValueMark], v: &ValueTerm, n: i128) -> bool
    ensures { result ≡ is_offset marks.now (offset v.now) n }
{
    match split_offset(v) {
        Some(o) => has_difference(marks, o.base, n, o.by),
        None => true,
    }
}

#[tactic(auto, unfolding(crate::specs::Points::number_fits))]
fn number_fits(marks: &[ValueMark], m: &ValueMark) -> bool
    ensures { result ≡ number_fits marks.now m.now }
{
    is_itself(&m.value, m.number) && is_offset(marks, &m.value, m.number)
}

#[tactic(auto, using(escape_marks::proofs::Places::passes_next, escape_marks::proofs::Places::first_failing))]
fn first_unfit(marks: &[ValueMark]) -> Option<usize>
    ensures { FindsFailing (number_fits marks.now) marks.now result }
{
    for (k, m) in marks.iter().enumerate() {
        if !number_fits(marks, m) {
            return Some(k);
        }
    }
    None
}

/// The place of the first value mark whose number does not fit: the term is another constant, or it
/// is some term plus or minus a constant, and that term has no mark or has not the number less the
/// constant. `None` exactly where each fits. It takes a look-up for each such term.
pub fn broken_number(e: &Escape) -> Option<usize>
    ensures { FindsFailing (number_fits e.now.values) e.now.values result }
{
    first_unfit(e.values.as_slice())
}

fn is_small(m: &ValueMark) -> bool
    ensures { result ≡ is_small m.now }
{
    m.number.unsigned_abs() <= GREATEST
}

#[tactic(auto, using(escape_marks::proofs::Places::passes_next, escape_marks::proofs::Places::first_failing))]
fn first_large(marks: &[ValueMark]) -> Option<usize>
    ensures { FindsFailing is_small marks.now result }
{
    for (k, m) in marks.iter().enumerate() {
        if !is_small(m) {
            return Some(k);
        }
    }
    None
}

/// The place of the first value mark whose number has a magnitude above 2^100. `None` exactly where
/// no number has.
pub fn large_number(e: &Escape) -> Option<usize>
    ensures { FindsFailing is_small e.now.values result }
{
    first_large(e.values.as_slice())
}
