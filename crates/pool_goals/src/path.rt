//! Paths by numbers of a pool. `specs/Before.antt` says what they stand for.

use rule_terms::Stop;
use sqlite_items::Items;
use term_pool::PooledLiteral;

/// A walk up to its stop, by numbers of a pool.
#[derive(Drop)]
pub struct PooledPath {
    /// What is true of the store from which the walk sets out where it goes this way, in order.
    pub literals: Items<PooledLiteral>,
    /// The number of the store at the stop.
    pub store: u32,
    pub stop: Stop,
}
