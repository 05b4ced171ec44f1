//! The turns of one loop, between the values of its bounds.
//! A loop inside another has its bounds at the other's counter. Under the conditions of `tuples` the
//! outer bounds are at most 2^98 in magnitude and the inner ones at most 2^109, so all fits 128 bits.

ghost use Rattle.std.specs.Prelude.{◌≡◌, ◌+◌, ◌*◌, ◌≤◌, ◌<◌, ◌^◌, ◌*ℤ◌, pos, length, All, FitsSigned};
ghost use Rattle.std.specs.Int.{w128};
ghost use Rattle.iteration_order.specs.Affine.{weighted_sum, value_at, IsAtMost, IsBelow, IsForm};
ghost use Rattle.iteration_order.specs.Nest.{AreBounds};
ghost use Rattle.iteration_order.specs.RunningOrder.{turns_between};

use crate::affine::Affine;
use crate::bounds::Bounds;

/// The turns of a loop: its counter takes the values from `low` on that are below `high`.
#[derive(Clone, Copy)]
pub struct Turns {
    /// The counter's first value.
    pub low: i128,
    /// The bound that it stays below.
    pub high: i128,
}

impl Turns {
    /// The turns that bounds have, at the value of the counter round the loop, where there is one.
    pub fn of(bounds: &Bounds, around: &[i128], symbols: &[i64]) -> Turns
        requires bounds { AreBounds (length around.now) (length symbols.now) bounds.now }
        requires one { length around.now ≤ 1 }
        requires around { All (IsAtMost (2 ^ 98)) around.now }
        requires few { length symbols.now ≤ 8 }
        ensures low { result.low ≡ value_at bounds.now.low around.now symbols.now }
        ensures high { result.high ≡ value_at bounds.now.high around.now symbols.now }
        ensures low_small { IsAtMost (2 ^ 98 + length around.now * 2 ^ 108) result.low }
        ensures high_small { IsAtMost (2 ^ 98 + length around.now * 2 ^ 108) result.high }
    {
        Turns {
            low: value_at(&bounds.low, around, symbols),
            high: value_at(&bounds.high, around, symbols),
        }
    }

    /// How many turns there are.
    pub fn count(self) -> i128
        requires low { IsAtMost (2 ^ 110) self.low }
        requires high { IsAtMost (2 ^ 110) self.high }
        ensures count { result ≡ pos (length (turns_between self.low self.high)) }
        ensures small { IsAtMost (2 ^ 111) result }
    {
        if self.low < self.high {
            self.high - self.low
        } else {
            0
        }
    }
}

/// The value of a form at the value of the counter round the loop, where there is one.
fn value_at(form: &Affine, around: &[i128], symbols: &[i64]) -> i128
    requires form { IsForm (length around.now) (length symbols.now) form.now }
    requires one { length around.now ≤ 1 }
    requires around { All (IsAtMost (2 ^ 98)) around.now }
    requires few { length symbols.now ≤ 8 }
    ensures value { result ≡ value_at form.now around.now symbols.now }
    ensures magnitude { IsAtMost (2 ^ 98 + length around.now * 2 ^ 108) result }
{
    let around = counter_part(form.counters.as_slice(), around);
    let symbols = symbol_part(form.symbols.as_slice(), symbols);
    around + symbols + i128::from(form.constant)
}

/// The coefficient of the counter times its value, where there is a counter.
fn counter_part(coefficients: &[i64], around: &[i128]) -> i128
    requires as_many { length coefficients.now ≡ length around.now }
    requires one { length around.now ≤ 1 }
    requires small { All (IsAtMost 1024) coefficients.now }
    requires around { All (IsAtMost (2 ^ 98)) around.now }
    ensures value { result ≡ weighted_sum coefficients.now around.now }
    ensures magnitude { IsAtMost (length around.now * 2 ^ 108) result }
{
    if around.is_empty() {
        0
    } else {
        product(coefficients[0], around[0])
    }
}

/// The sum of the symbols' coefficients, each times the symbol's value.
fn symbol_part(coefficients: &[i64], symbols: &[i64]) -> i128
    requires as_many { length coefficients.now ≡ length symbols.now }
    requires few { length symbols.now ≤ 8 }
    requires small { All (IsBelow (2 ^ 31)) coefficients.now }
    ensures value { result ≡ weighted_sum coefficients.now symbols.now }
    ensures magnitude { IsAtMost (2 ^ 97) result }
{
    let mut sum = 0;
    for (k, coefficient) in coefficients.iter().enumerate() {
        sum += product(*coefficient, i128::from(symbols[k]));
    }
    sum
}

/// A coefficient times a value, where that fits.
fn product(coefficient: i64, value: i128) -> i128
    requires { FitsSigned w128 (coefficient *ℤ value) }
    ensures { result ≡ coefficient *ℤ value }
{
    i128::from(coefficient) * value
}
