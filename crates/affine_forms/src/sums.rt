//! Sums and multiples of affine forms, and forms put for counters.
//! What each gives is in `specs/Form.antt`, and what that is worth in `specs/Laws.antt`.

ghost use Rattle.std.specs.Prelude.{◌≡◌, ◌≤◌, ◌^◌, ◌*ℤ◌, length, All};
ghost use Rattle.affine_forms.specs.Form.{plus_multiples, plus_multiple, plus, minus, scaled, substitute, IsAtMost, IsProductAtMost, IsWithin, AreProductsWithin, IsSmall, HasUnitCounters};

use crate::form::Form;

impl Form {
    /// The sum of two forms.
    pub fn plus(self, other: Form) -> Form
        requires form { IsWithin (2 ^ 40) self }
        requires other { IsWithin (2 ^ 40) other }
        ensures { result ≡ plus self other }
    {
        self.plus_multiple(1, other)
    }

    /// A form less another.
    pub fn minus(self, other: Form) -> Form
        requires form { IsWithin (2 ^ 40) self }
        requires other { IsWithin (2 ^ 40) other }
        ensures { result ≡ minus self other }
    {
        self.plus_multiple(-1, other)
    }

    /// A multiple of a form.
    pub fn scaled(self, times: i64) -> Form
        requires times { IsAtMost 2147483647 times }
        requires form { IsSmall self }
        ensures { result ≡ scaled times self }
    {
        Form::constant(0).plus_multiple(times, self)
    }

    /// The form with `by[k]` in place of its counter `k`.
    pub fn substitute(self, by: &[Form; 4]) -> Form
        requires form { IsWithin (2 ^ 40) self }
        requires unit { HasUnitCounters self }
        requires by { All (IsWithin (2 ^ 40)) by.now }
        ensures { result ≡ substitute self by.now }
    {
        let mut sum = self.without_counters();
        for k in 0..4 {
            sum = sum.plus_multiple(self.counters[k], by[k]);
        }
        sum
    }

    /// The sum of a form and of a multiple of another.
    pub fn plus_multiple(self, times: i64, other: Form) -> Form
        requires numbers { IsWithin (2 ^ 61) self }
        requires others { IsWithin (2 ^ 62) other }
        requires products { AreProductsWithin (2 ^ 62) times other }
        ensures { result ≡ plus_multiple self times other }
    {
        let mut sum = self;
        add_multiples(&mut sum.counters, times, &other.counters);
        add_multiples(&mut sum.symbols, times, &other.symbols);
        sum.constant += times * other.constant;
        sum
    }
}

/// To each number the multiple of the number at its place among others is added.
fn add_multiples(numbers: &mut [i64], times: i64, others: &[i64])
    requires as_many { length numbers.old ≡ length others.now }
    requires numbers { All (IsAtMost (2 ^ 61)) numbers.old }
    requires others { All (IsAtMost (2 ^ 62)) others.now }
    requires products { All (IsProductAtMost (2 ^ 62) times) others.now }
    ensures { numbers.new ≡ plus_multiples numbers.old times others.now }
{
    for k in 0..numbers.len() {
        numbers[k] += times * others[k];
    }
}
