//! Parts by numbers: what occurs in an obligation whose terms are numbers of a pool.
//! `specs/PooledParts.antt` says what they stand for.

ghost use Rattle.std.specs.Prelude.{◌≡◌, IfOk};

use sqlite_items::Items;
use std::alloc::Global;
use term_pool::PooledPlace;
use toy_imp::NoMemory;

/// Something that occurs in an obligation by numbers.
#[derive(PartialEq, Eq, Hash, Drop)]
pub enum PooledPart {
    /// The number of a store.
    Store(u32),
    /// The number of a value.
    Value(u32),
    /// A place that is read or written.
    Place(PooledPlace),
    /// An expression parameter.
    Expr(u32),
    /// A test parameter.
    Test(u32),
}

/// An equal place.
pub fn copy_place(alloc: Global, p: &PooledPlace) -> Result<PooledPlace, NoMemory>
    ensures { IfOk result (λ q. q ≡ p.now) }
{
    let indices = Items::from_slice(alloc, p.indices.as_slice())?;
    let name = p.name;
    Ok(PooledPlace { name, indices })
}
