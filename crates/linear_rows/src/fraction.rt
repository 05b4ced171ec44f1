//! Fractions in lowest terms, and what the elimination computes with them. Each answer is `None` where a
//! part would pass 2^62; before the division by the common divisor every number fits 128 bits.
//! `specs/Fractions.antt` says what each one is.

ghost use Rattle.std.specs.Prelude.{◌≡◌, ◌≤◌, ◌^◌, ◌<ℤ◌, ◌≢◌, pos, unsigned_abs, IsTrue, IfSome};
ghost use Rattle.linear_rows.specs.Fractions.{reduced, where_small, product, difference, quotient, is_less, IsProper};

use crate::divisor::divisor;
use crate::number::{divided, is_small, less, negated, times};

/// The fraction `over / under`.
#[derive(Clone, Copy, Debug, PartialEq, Eq)]
pub struct Fraction {
    /// What stands over the line.
    pub over: i128,
    /// What stands under it, at least 1.
    pub under: i128,
}

/// `over / under` in lowest terms.
fn reduced(over: i128, under: i128) -> Option<Fraction>
    requires over { unsigned_abs over ≤ 2 ^ 126 }
    requires under { unsigned_abs under ≤ 2 ^ 126 }
    requires positive { pos 0 <ℤ under }
    ensures value { result ≡ reduced over under }
    ensures proper { IfSome result IsProper }
{
    let common = divisor(over.unsigned_abs(), under.unsigned_abs());
    let fraction = Fraction {
        over: divided(over, common),
        under: divided(under, common),
    };
    where_small(fraction)
}

/// The fraction, where both parts are small.
fn where_small(fraction: Fraction) -> Option<Fraction>
    requires { pos 0 <ℤ fraction.under }
    ensures value { result ≡ where_small fraction }
    ensures proper { IfSome result IsProper }
{
    if is_small(fraction.over) && is_small(fraction.under) {
        Some(fraction)
    } else {
        None
    }
}

/// A coefficient times a fraction.
pub fn product(a: i128, x: Fraction) -> Option<Fraction>
    requires small { unsigned_abs a ≤ 2 ^ 62 }
    requires proper { IsProper x }
    ensures value { result ≡ product a x }
    ensures proper { IfSome result IsProper }
{
    reduced(times(a, x.over), x.under)
}

/// One fraction less another.
pub fn difference(s: Fraction, p: Fraction) -> Option<Fraction>
    requires first { IsProper s }
    requires second { IsProper p }
    ensures value { result ≡ difference s p }
    ensures proper { IfSome result IsProper }
{
    let over = less(times(s.over, p.under), times(p.over, s.under));
    reduced(over, times(s.under, p.under))
}

/// A fraction divided by a coefficient.
pub fn quotient(s: Fraction, a: i128) -> Option<Fraction>
    requires proper { IsProper s }
    requires small { unsigned_abs a ≤ 2 ^ 62 }
    requires some { a ≢ pos 0 }
    ensures value { result ≡ quotient s a }
    ensures proper { IfSome result IsProper }
{
    if a < 0 {
        reduced(negated(s.over), times(s.under, negated(a)))
    } else {
        reduced(s.over, times(s.under, a))
    }
}

/// Whether a fraction is less than another.
pub fn is_less(x: Fraction, y: Fraction) -> bool
    requires first { IsProper x }
    requires second { IsProper y }
    ensures { result ≡ is_less x y }
{
    times(x.over, y.under) < times(y.over, x.under)
}
