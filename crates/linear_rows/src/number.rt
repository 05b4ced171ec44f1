//! Numbers of magnitude at most 2^62, and what is computed of them: each product, sum and quotient fits
//! 128 bits.

ghost use Rattle.std.specs.Prelude.{◌≡◌, ◌<◌, ◌≤◌, ◌^◌, ◌+ℤ◌, ◌-ℤ◌, ◌*ℤ◌, ◌<ℤ◌, neg_ℤ, pos, int_div, unsigned_abs};
ghost use Rattle.linear_rows.specs.Fractions.{is_small};

/// The greatest magnitude of a number of a line and of a part of a fraction.
const GREATEST: u128 = 1 << 62;

/// Whether a number has magnitude at most 2^62.
pub fn is_small(z: i128) -> bool
    ensures { result ≡ is_small z }
{
    z.unsigned_abs() <= GREATEST
}

/// The product of two small numbers.
pub fn times(a: i128, b: i128) -> i128
    requires first { unsigned_abs a ≤ 2 ^ 62 }
    requires second { unsigned_abs b ≤ 2 ^ 62 }
    ensures value { result ≡ a *ℤ b }
    ensures size { unsigned_abs result ≤ 2 ^ 124 }
    ensures positive { pos 0 <ℤ a → pos 0 <ℤ b → pos 0 <ℤ result }
{
    a * b
}

/// The sum of two numbers.
pub fn plus(a: i128, b: i128) -> i128
    requires first { unsigned_abs a ≤ 2 ^ 124 }
    requires second { unsigned_abs b ≤ 2 ^ 124 }
    ensures value { result ≡ a +ℤ b }
    ensures size { unsigned_abs result ≤ 2 ^ 126 }
{
    a + b
}

/// A number less another.
pub fn less(a: i128, b: i128) -> i128
    requires first { unsigned_abs a ≤ 2 ^ 124 }
    requires second { unsigned_abs b ≤ 2 ^ 124 }
    ensures value { result ≡ a -ℤ b }
    ensures size { unsigned_abs result ≤ 2 ^ 126 }
{
    a - b
}

/// The number with the other sign.
pub fn negated(a: i128) -> i128
    requires { unsigned_abs a ≤ 2 ^ 126 }
    ensures value { result ≡ neg_ℤ a }
    ensures size { unsigned_abs result ≡ unsigned_abs a }
    ensures positive { a <ℤ pos 0 → pos 0 <ℤ result }
{
    -a
}

/// The quotient, rounded to 0.
pub fn divided(a: i128, by: u128) -> i128
    requires size { unsigned_abs a ≤ 2 ^ 126 }
    requires some { 0 < by }
    requires fits { by ≤ 2 ^ 126 }
    ensures value { result ≡ int_div a (pos by) }
    ensures positive { pos 0 <ℤ a → by ≤ unsigned_abs a → pos 0 <ℤ result }
{
    a / by as i128
}
