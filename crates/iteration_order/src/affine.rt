//! Affine forms over the counters of loops and over symbols.
//! The value of a form is that of `specs/Affine.antt`; under the conditions of `tuples` all of its
//! arithmetic fits 128 bits.

ghost use Rattle.std.specs.Prelude.{◌≡◌, ◌+◌, ◌*◌, ◌≤◌, ◌<◌, ◌^◌, length, All, IfOk};
ghost use Rattle.iteration_order.specs.Affine.{weighted_sum, value_at, IsAtMost, IsBelow, IsForm};

use sqlite_items::Items;
use std::alloc::Global;
use toy_imp::NoMemory;

/// A sum of coefficients times counters, of coefficients times symbols, and of a constant.
#[derive(Debug, Drop)]
pub struct Affine {
    /// One coefficient for each counter of the loops round it, outermost first.
    pub counters: Items<i64>,
    /// One coefficient for each symbol, in order.
    pub symbols: Items<i64>,
    /// What is added to the products.
    pub constant: i64,
}

impl Affine {
    /// An equal form.
    pub fn copy(&self, alloc: Global) -> Result<Affine, NoMemory>
        ensures { IfOk result (λ a. a ≡ self.now) }
    {
        let counters = Items::from_slice(alloc, self.counters.as_slice())?;
        let symbols = Items::from_slice(alloc, self.symbols.as_slice())?;
        Ok(Affine {
            counters,
            symbols,
            constant: self.constant,
        })
    }
}
