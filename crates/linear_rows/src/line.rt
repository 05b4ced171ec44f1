//! Lines: a row's bound, and then the coefficients of the variables that are not eliminated yet.
//! `specs/Stage.antt` has the words.

ghost use Rattle.std.specs.Prelude.{◌≡◌, ◌<◌, ◌≤◌, ◌^◌, ◌*◌, ◌+ℤ◌, ◌*ℤ◌, pos, unsigned_abs, int_div, map, length, All, IfOk};
ghost use Rattle.std.specs.List.{list_all};
ghost use Rattle.std.specs.Ordering.{int_eq};
ghost use Rattle.linear_rows.specs.Fractions.{is_small};
ghost use Rattle.linear_rows.specs.Row.{IsRowOver};
ghost use Rattle.linear_rows.specs.Stage.{line_of, bound, first, without_first, has_no_variables, is_always_met, is_never_met, is_lower, is_upper, cut_of, lowest, mixed, cancelled, IsSmall, IsWide};

use crate::divisor::common_divisor;
use crate::number::{divided, is_small, plus, times};
use crate::row::Row;
use std::alloc::{AllocError, Global};

/// The line of a row.
pub fn line_of(alloc: Global, row: &Row) -> Result<Vec<i128>, AllocError>
    ensures { IfOk result (λ line. line.items ≡ line_of row.now) }
{
    let mut line = Vec::new(alloc);
    line.push(i128::from(row.bound))?;
    for a in row.coefficients.as_slice() {
        line.push(i128::from(*a))?;
    }
    Ok(line)
}

/// The line without its first variable, where it has one.
pub fn without_first(alloc: Global, line: &[i128]) -> Result<Vec<i128>, AllocError>
    ensures { IfOk result (λ rest. rest.items ≡ without_first line.now) }
{
    let mut rest = Vec::from_slice(alloc, line)?;
    drop_first(&mut rest);
    Ok(rest)
}

/// Takes the first variable off.
pub fn drop_first(line: &mut Vec<i128>)
    ensures { line.new.items ≡ without_first line.old.items }
{
    if line.len() > 1 {
        let _first = line.remove(1);
    }
}

/// The coefficient of the first variable.
pub fn first(line: &[i128]) -> i128
    ensures { result ≡ first line.now }
{
    match line {
        [_, a, ..] => *a,
        _ => 0,
    }
}

/// The bound.
pub fn bound(line: &[i128]) -> i128
    ensures { result ≡ bound line.now }
{
    match line {
        [b, ..] => *b,
        [] => 0,
    }
}

/// Whether it bounds its first variable from below.
pub fn is_lower(line: &[i128]) -> bool
    ensures { result ≡ is_lower line.now }
{
    first(line) < 0
}

/// Whether it bounds its first variable from above.
pub fn is_upper(line: &[i128]) -> bool
    ensures { result ≡ is_upper line.now }
{
    first(line) > 0
}

/// Whether no coefficient is other than 0.
fn has_no_variables(line: &[i128]) -> bool
    ensures { result ≡ has_no_variables line.now }
{
    match line {
        [] => true,
        [_, coefficients @ ..] => are_zero(coefficients),
    }
}

/// Whether each number is 0.
fn are_zero(numbers: &[i128]) -> bool
    ensures { result ≡ list_all (λ a. int_eq a (pos 0)) numbers.now }
{
    numbers.iter().all(|a| *a == 0)
}

/// Whether each number has magnitude at most 2^62.
pub fn are_small(line: &[i128]) -> bool
    ensures { result ≡ list_all is_small line.now }
{
    line.iter().all(|z| is_small(*z))
}

/// Whether it has no variables, and a bound of at least 0.
pub fn is_always_met(line: &[i128]) -> bool
    ensures { result ≡ is_always_met line.now }
{
    has_no_variables(line) && bound(line) >= 0
}

/// Whether it has no variables, and a negative bound.
pub fn is_never_met(line: &[i128]) -> bool
    ensures { result ≡ is_never_met line.now }
{
    has_no_variables(line) && bound(line) < 0
}

/// Divides a line by the greatest common divisor of its numbers, and says what that is.
#[tactic(auto, using(crate::proofs::Walking::lowest_already))]
pub fn lower(line: &mut [i128]) -> u128
    requires { IsWide line.old }
    ensures lowest { line.new ≡ lowest line.old }
    ensures cut { result ≡ cut_of line.old }
{
    let cut = cut_of(line);
    if cut != 1 {
        divide_all(line, cut);
    }
    cut
}

/// The greatest common divisor of a line's numbers, or 1 where all are 0.
#[tactic(auto, using(crate::proofs::Walking::common_fits))]
fn cut_of(line: &[i128]) -> u128
    requires { IsWide line.now }
    ensures value { result ≡ cut_of line.now }
    ensures some { 0 < result }
    ensures fits { result ≤ 2 ^ 126 }
{
    let common = common_divisor(line);
    if common > 1 { common } else { 1 }
}

/// Divides each number.
fn divide_all(line: &mut [i128], cut: u128)
    requires wide { IsWide line.old }
    requires some { 0 < cut }
    requires fits { cut ≤ 2 ^ 126 }
    ensures { line.new ≡ map (λ z. int_div z (pos cut)) line.old }
{
    for z in line.iter_mut() {
        *z = divided(*z, cut);
    }
}

/// The sum of two lines, each so often.
pub fn mixed(
    alloc: Global,
    a: i128,
    p: &[i128],
    b: i128,
    q: &[i128],
) -> Result<Vec<i128>, AllocError>
    requires first { unsigned_abs a ≤ 2 ^ 62 }
    requires second { unsigned_abs b ≤ 2 ^ 62 }
    requires small_first { IsSmall p.now }
    requires small_second { IsSmall q.now }
    ensures value { IfOk result (λ line. line.items ≡ mixed a p.now b q.now) }
    ensures wide { IfOk result (λ line. IsWide line.items) }
{
    let count = p.len().min(q.len());
    let mut line = Vec::with_capacity(alloc, count)?;
    for i in 0..count {
        line.push(mixed_number(a, p[i], b, q[i]))?;
    }
    Ok(line)
}

/// The sum of two numbers, each so often.
fn mixed_number(a: i128, x: i128, b: i128, y: i128) -> i128
    requires first { unsigned_abs a ≤ 2 ^ 62 }
    requires second { unsigned_abs b ≤ 2 ^ 62 }
    requires small_first { unsigned_abs x ≤ 2 ^ 62 }
    requires small_second { unsigned_abs y ≤ 2 ^ 62 }
    ensures value { result ≡ (a *ℤ x) +ℤ (b *ℤ y) }
    ensures size { unsigned_abs result ≤ 2 ^ 126 }
{
    plus(times(a, x), times(b, y))
}
