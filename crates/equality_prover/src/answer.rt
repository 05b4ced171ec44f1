//! Classes of names and terms as `close` answers them.

use sqlite_items::Items;

/// Class numbers: two items of one class share one.
#[derive(Drop)]
pub struct Classes {
    /// Of each parameter of kind name, in order.
    pub names: Items<u32>,
    /// Of each store term of the universe, in order.
    pub stores: Items<u32>,
    /// Of each value term of the universe, in order.
    pub values: Items<u32>,
}
