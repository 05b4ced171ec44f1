//! The value of a stage's first variable, given the values of those after it.
//! `specs/Elimination.antt` says what it is.

ghost use Rattle.std.specs.Prelude.{◌≡◌, ◌≤◌, ◌^◌, ◌≢◌, [], ◌∷◌, pos, unsigned_abs, All, IfSome};
ghost use Rattle.linear_rows.specs.Fractions.{whole, is_less, IsProper};
ghost use Rattle.linear_rows.specs.Stage.{first, IsSmall};
ghost use Rattle.linear_rows.specs.Lines.{items_of};
ghost use Rattle.linear_rows.specs.Elimination.{left_over, bound_on, better, best_lower, best_upper, value};

use crate::fraction::{Fraction, difference, is_less, product, quotient};
use crate::line::{is_lower, is_upper};

/// A bound less the products with the variables, taken off one by one in order.
fn left_over(bound: i128, coefficients: &[i128], xs: &[Fraction]) -> Option<Fraction>
    requires bound { unsigned_abs bound ≤ 2 ^ 62 }
    requires small { IsSmall coefficients.now }
    requires proper { All IsProper xs.now }
    ensures value { result ≡ left_over (whole bound) coefficients.now xs.now }
    ensures proper { IfSome result IsProper }
{
    let mut sum = Fraction {
        over: bound,
        under: 1,
    };
    for i in 0..coefficients.len().min(xs.len()) {
        let taken = product(coefficients[i], xs[i])?;
        sum = difference(sum, taken)?;
    }
    Some(sum)
}

/// The bound that a line sets to its first variable.
fn bound_on(xs: &[Fraction], line: &[i128]) -> Option<Fraction>
    requires small { IsSmall line.now }
    requires proper { All IsProper xs.now }
    requires some { first line.now ≢ pos 0 }
    ensures value { result ≡ bound_on xs.now line.now }
    ensures proper { IfSome result IsProper }
{
    match line {
        [bound, a, coefficients @ ..] => {
            let rest = left_over(*bound, coefficients, xs)?;
            quotient(rest, *a)
        }
        _ => None,
    }
}

/// The greater one, where there are two.
fn greater(best: Option<Fraction>, y: Fraction) -> Fraction
    requires best { IfSome best IsProper }
    requires proper { IsProper y }
    ensures value { result ≡ better is_less best y }
    ensures proper { IsProper result }
{
    match best {
        Some(x) if !is_less(x, y) => x,
        _ => y,
    }
}

/// The lesser one, where there are two.
fn lesser(best: Option<Fraction>, y: Fraction) -> Fraction
    requires best { IfSome best IsProper }
    requires proper { IsProper y }
    ensures value { result ≡ better (λ a b. is_less b a) best y }
    ensures proper { IsProper result }
{
    match best {
        Some(x) if !is_less(y, x) => x,
        _ => y,
    }
}

/// The best so far once a line is looked at, if that is a lower bound.
fn with_lower(best: Option<Fraction>, xs: &[Fraction], line: &[i128]) -> Option<Option<Fraction>>
    requires small { IsSmall line.now }
    requires proper { All IsProper xs.now }
    requires best { IfSome best IsProper }
    ensures value { result ≡ best_lower xs.now best (line.now ∷ []) }
    ensures proper { IfSome result (λ more. IfSome more IsProper) }
{
    if !is_lower(line) {
        return Some(best);
    }
    let y = bound_on(xs, line)?;
    Some(Some(greater(best, y)))
}

/// The best so far once a line is looked at, if that is an upper bound.
fn with_upper(best: Option<Fraction>, xs: &[Fraction], line: &[i128]) -> Option<Option<Fraction>>
    requires small { IsSmall line.now }
    requires proper { All IsProper xs.now }
    requires best { IfSome best IsProper }
    ensures value { result ≡ best_upper xs.now best (line.now ∷ []) }
    ensures proper { IfSome result (λ more. IfSome more IsProper) }
{
    if !is_upper(line) {
        return Some(best);
    }
    let y = bound_on(xs, line)?;
    Some(Some(lesser(best, y)))
}

/// The greatest lower bound that the lines set, where there is one.
fn greatest_lower(lines: &[Vec<i128>], xs: &[Fraction]) -> Option<Option<Fraction>>
    requires small { All IsSmall (items_of lines.now) }
    requires proper { All IsProper xs.now }
    ensures value { result ≡ best_lower xs.now None (items_of lines.now) }
    ensures proper { IfSome result (λ best. IfSome best IsProper) }
{
    let mut best = None;
    for line in lines {
        best = with_lower(best, xs, line)?;
    }
    Some(best)
}

/// The least upper bound that the lines set, where there is one.
fn least_upper(lines: &[Vec<i128>], xs: &[Fraction]) -> Option<Option<Fraction>>
    requires small { All IsSmall (items_of lines.now) }
    requires proper { All IsProper xs.now }
    ensures value { result ≡ best_upper xs.now None (items_of lines.now) }
    ensures proper { IfSome result (λ best. IfSome best IsProper) }
{
    let mut best = None;
    for line in lines {
        best = with_upper(best, xs, line)?;
    }
    Some(best)
}

/// The greatest lower bound, else the least upper bound, else 0.
pub fn value(lines: &[Vec<i128>], xs: &[Fraction]) -> Option<Fraction>
    requires small { All IsSmall (items_of lines.now) }
    requires proper { All IsProper xs.now }
    ensures value { result ≡ value (items_of lines.now) xs.now }
    ensures proper { IfSome result IsProper }
{
    if let Some(x) = greatest_lower(lines, xs)? {
        return Some(x);
    }
    if let Some(x) = least_upper(lines, xs)? {
        return Some(x);
    }
    Some(Fraction { over: 0, under: 1 })
}
