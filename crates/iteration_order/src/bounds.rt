//! The bounds of a loop.
//! Which bounds `tuples` takes is said in `specs/Nest.antt`.

ghost use Rattle.std.specs.Prelude.{◌≡◌, IfOk};

use crate::affine::Affine;
use std::alloc::Global;
use toy_imp::NoMemory;

/// `for x = low to high`: the counter takes the values from `low` on that are below `high`.
#[derive(Debug, Drop)]
pub struct Bounds {
    /// The counter's first value.
    pub low: Affine,
    /// The bound that the counter stays below.
    pub high: Affine,
}

impl Bounds {
    /// Equal bounds.
    pub fn copy(&self, alloc: Global) -> Result<Bounds, NoMemory>
        ensures { IfOk result (λ b. b ≡ self.now) }
    {
        let low = self.low.copy(alloc)?;
        let high = self.high.copy(alloc)?;
        Ok(Bounds { low, high })
    }
}
