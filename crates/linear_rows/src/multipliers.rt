//! The check of row steps: exact, takes no memory, and a yes shows that nothing meets the rows.
//! `specs/Steps.antt` says when steps check. That such steps leave no point is the easy half of Farkas'
//! lemma: sums of rows by numbers that are not negative are met wherever the rows are.

ghost use Rattle.std.specs.Prelude.{◌≡◌, ◌<◌, ◌≤◌, ◌↔◌, ◌++◌, pos, length, slice_get, All, IsTrue};
ghost use Rattle.std.specs.List.{list_any, list_all};
ghost use Rattle.std.specs.Ordering.{int_eq};
ghost use Rattle.linear_rows.specs.Row.{IsRowOver, HaveNoSolution};
ghost use Rattle.linear_rows.specs.Room.{IsRoomFor};
ghost use Rattle.linear_rows.specs.Steps.{number_in, column_of, multiple, share, share_of_two, combined, made, last_by, is_contradiction, AreRefutation};

use crate::room::RowRoom;
use crate::row::Row;
use crate::step::RowStep;

/// The greatest magnitude of a product, of a sum and of a number of a made row.
const GREATEST: u128 = 1 << 126;

/// Whether the steps check: each cites earlier rows and can be made, and the last row that they make, or
/// without steps some given row, has no variables and a negative bound. Takes no memory.
/// The rows have `n` coefficients each, at most 64, and numbers of magnitude at most 2^62; the room is for
/// `n` variables and at least so many steps.
pub fn check_multipliers(n: u32, rows: &[Row], steps: &[RowStep], room: &mut RowRoom) -> bool
    requires few { n ≤ 64 }
    requires rows { All (IsRowOver n) rows.now }
    requires room { IsRoomFor n (length steps.now) room.old }
    ensures exact { IsTrue result ↔ AreRefutation n rows.now steps.now }
    ensures refutes { IsTrue result → HaveNoSolution rows.now }
    ensures room { length room.new.numbers.items ≡ length room.old.numbers.items }
    ensures variables { room.new.n ≡ room.old.n }
{
    if steps.is_empty() {
        return any_contradiction(rows);
    }
    let columns = n as usize;
    for column in 0..columns {
        if last_number(rows, column, steps, &mut room.numbers) != Some(0) {
            return false;
        }
    }
    match last_number(rows, columns, steps, &mut room.numbers) {
        Some(bound) => bound < 0,
        None => false,
    }
}

/// Whether some row has no variables and a negative bound.
fn any_contradiction(rows: &[Row]) -> bool
    ensures { result ≡ list_any is_contradiction rows.now }
{
    rows.iter().any(|row| is_contradiction(row))
}

/// Whether a row has no variables and a negative bound.
fn is_contradiction(row: &Row) -> bool
    ensures { result ≡ is_contradiction row.now }
{
    has_no_variables(row.coefficients.as_slice()) && row.bound < 0
}

/// Whether each coefficient is 0.
fn has_no_variables(coefficients: &[i64]) -> bool
    ensures { result ≡ list_all (λ a. int_eq a (pos 0)) coefficients.now }
{
    coefficients.iter().all(|a| *a == 0)
}

/// The number of the last row in a column, where the steps can be made there.
fn last_number(rows: &[Row], column: usize, steps: &[RowStep], numbers: &mut [i128]) -> Option<i128>
    requires some { 0 < length steps.now }
    requires room { length steps.now ≤ length numbers.old }
    ensures { result ≡ last_by (column_of rows.now column) steps.now }
{
    let mut last = 0;
    for (i, step) in steps.iter().enumerate() {
        last = made(rows, column, &numbers[..i], *step)?;
        numbers[i] = last;
    }
    Some(last)
}

/// The number that a step makes in a column, after those that are made already.
fn made(rows: &[Row], column: usize, numbers: &[i128], step: RowStep) -> Option<i128>
    ensures { result ≡ made step (column_of rows.now column ++ numbers.now) }
{
    let first = number_at(rows, column, numbers, step.first as usize)?;
    let second = number_at(rows, column, numbers, step.second as usize)?;
    combined(step, first, second)
}

/// The number of a row in a column, given or made, where the row is there.
fn number_at(rows: &[Row], column: usize, numbers: &[i128], at: usize) -> Option<i128>
    ensures { result ≡ slice_get (column_of rows.now column ++ numbers.now) at }
{
    match rows.get(at) {
        Some(row) => Some(i128::from(number_in(row, column))),
        None => numbers.get(at - rows.len()).copied(),
    }
}

/// The number of a row in a column.
fn number_in(row: &Row, column: usize) -> i64
    ensures { result ≡ number_in column row.now }
{
    match row.coefficients.get(column) {
        Some(a) => *a,
        None => row.bound,
    }
}

/// What a step makes of the numbers of its two rows.
fn combined(step: RowStep, first: i128, second: i128) -> Option<i128>
    ensures { result ≡ combined step first second }
{
    share_of_two(
        multiple(step.by, first),
        multiple(step.times, second),
        step.cut,
    )
}

/// The share of the sum of two numbers, where both are there.
fn share_of_two(a: Option<i128>, b: Option<i128>, cut: u128) -> Option<i128>
    ensures { result ≡ share_of_two a b cut }
{
    let (Some(a), Some(b)) = (a, b) else {
        return None;
    };
    match a.checked_add(b) {
        Some(sum) => share(sum, cut),
        None => None,
    }
}

/// The product, where it is small enough.
fn multiple(by: u64, z: i128) -> Option<i128>
    ensures { result ≡ multiple by z }
{
    let product = i128::from(by).checked_mul(z)?;
    if product.unsigned_abs() <= GREATEST {
        Some(product)
    } else {
        None
    }
}

/// The exact quotient, where the sum is small enough and there is one.
fn share(sum: i128, cut: u128) -> Option<i128>
    ensures { result ≡ share sum cut }
{
    let magnitude = sum.unsigned_abs();
    if magnitude > GREATEST || cut == 0 || magnitude % cut != 0 {
        return None;
    }
    let quotient = (magnitude / cut) as i128;
    if sum < 0 {
        Some(-quotient)
    } else {
        Some(quotient)
    }
}
