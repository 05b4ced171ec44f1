//! Affine forms: a coefficient for each counter and each symbol, and a constant.
//! `specs/Form.antt` says what the forms of one term are, and when a form is small, has units or is constant.

ghost use Rattle.std.specs.Prelude.{◌≡◌, ◌↔◌, ◌<◌, ◌^◌, pos, All, IsTrue};
ghost use Rattle.affine_forms.specs.Form.{constant_form, counter_form, symbol_form, without_counters, IsAtMost, IsSmall, HasUnitCounters, IsConstant};

/// A sum of coefficients times counters, of coefficients times symbols, and of a constant.
#[derive(Clone, Copy, Debug, PartialEq, Eq)]
pub struct Form {
    /// One coefficient for each counter, outermost first, at most two of a nest and four where it is cut into tiles;
    /// those that a nest lacks are 0.
    pub counters: [i64; 4],
    /// One coefficient for each symbol, in order, at most eight; those that a rule lacks are 0.
    pub symbols: [i64; 8],
    /// What is added to the products.
    pub constant: i64,
}

impl Form {
    /// The form without variables that is `z`.
    pub fn constant(z: i64) -> Form
        ensures { result ≡ constant_form z }
    {
        Form {
            counters: [0; 4],
            symbols: [0; 8],
            constant: z,
        }
    }

    /// The form of the counter `k`, counted from 0, outermost first.
    pub fn counter(k: usize) -> Form
        requires { k < 4 }
        ensures { result ≡ counter_form k }
    {
        let mut form = Form::constant(0);
        form.counters[k] = 1;
        form
    }

    /// The form of the symbol `k`, counted from 0.
    pub fn symbol(k: usize) -> Form
        requires { k < 8 }
        ensures { result ≡ symbol_form k }
    {
        let mut form = Form::constant(0);
        form.symbols[k] = 1;
        form
    }

    /// The form with the coefficient 0 for each counter.
    pub fn without_counters(self) -> Form
        ensures { result ≡ without_counters self }
    {
        Form {
            counters: [0; 4],
            ..self
        }
    }

    /// Whether all its numbers are below 2^31 in magnitude.
    pub fn is_small(&self) -> bool
        ensures { IsTrue result ↔ IsSmall self.now }
    {
        are_at_most(&self.counters, 2_147_483_647)
            && are_at_most(&self.symbols, 2_147_483_647)
            && self.constant.unsigned_abs() <= 2_147_483_647
    }

    /// Whether the coefficients of its counters are -1, 0 or 1.
    pub fn has_unit_counters(&self) -> bool
        ensures { IsTrue result ↔ HasUnitCounters self.now }
    {
        are_at_most(&self.counters, 1)
    }

    /// Whether no counter and no symbol has a coefficient other than 0.
    pub fn is_constant(&self) -> bool
        ensures { IsTrue result ↔ IsConstant self.now }
    {
        are_zero(&self.counters) && are_zero(&self.symbols)
    }
}

/// Whether each number is at most `most` in magnitude.
fn are_at_most(numbers: &[i64], most: u64) -> bool
    ensures { IsTrue result ↔ All (IsAtMost most) numbers.now }
{
    numbers.iter().all(|z| z.unsigned_abs() <= most)
}

/// Whether each number is 0.
fn are_zero(numbers: &[i64]) -> bool
    ensures { IsTrue result ↔ All (λ z. z ≡ pos 0) numbers.now }
{
    numbers.iter().all(|z| *z == 0)
}
