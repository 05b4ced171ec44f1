//! The greatest common divisor, by Euclid. `specs/Divisor.antt` has its definition.

ghost use Rattle.std.specs.Prelude.{◌≡◌, ◌<◌, ◌≤◌};
ghost use Rattle.linear_rows.specs.Divisor.{divisor, common_divisor};

/// The greatest number that divides both, or 0 where both are 0.
pub fn divisor(a: u128, b: u128) -> u128
    ensures value { result ≡ divisor a b }
    ensures positive { 0 < b → 0 < result }
    ensures most { 0 < b → result ≤ b }
{
    let mut a = a;
    let mut b = b;
    while b != 0 {
        let rest = a % b;
        a = b;
        b = rest;
    }
    a
}

/// The greatest number that divides each.
pub fn common_divisor(numbers: &[i128]) -> u128
    ensures { result ≡ common_divisor numbers.now }
{
    let mut common = 0;
    for z in numbers {
        common = divisor(common, z.unsigned_abs());
    }
    common
}
