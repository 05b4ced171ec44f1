//! The sides of a rule, and where walks over them stop: cut points, after Floyd, with the pairs that a proof by
//! simulation relates.

ghost use Rattle.std.specs.Prelude.{◌≡◌, IfOk};

use sqlite_items::Items;
use std::alloc::Global;
use toy_imp::NoMemory;

/// A side of a rule.
#[derive(Clone, Copy, Debug, PartialEq, Eq)]
pub enum Side {
    Left,
    Right,
}

/// Where the walks of both sides stop, by the numbers of points.
#[derive(Drop)]
pub struct CutPoints {
    /// The cut points of the left side, ascending and without repeats.
    pub left: Items<u32>,
    /// Those of the right side, likewise.
    pub right: Items<u32>,
    /// The entries: a point of the left side and one of the right side each. The first is the pair of
    /// starts, the second the pair of exits.
    pub pairs: Items<(u32, u32)>,
}

impl CutPoints {
    /// The same cut points and entries.
    pub fn copy(&self, alloc: Global) -> Result<CutPoints, NoMemory>
        ensures { IfOk result (λ points. points ≡ self.now) }
    {
        let left = Items::from_slice(alloc, self.left.as_slice())?;
        let right = Items::from_slice(alloc, self.right.as_slice())?;
        let pairs = Items::from_slice(alloc, self.pairs.as_slice())?;
        Ok(CutPoints { left, right, pairs })
    }
}
