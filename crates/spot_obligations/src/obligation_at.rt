//! What is answered of the obligation at a spot.

use rule_terms::Obligation;

/// The obligation at a spot.
#[derive(Drop)]
pub enum ObligationAt {
    Found(Obligation),
    /// It has more than 4,096 nodes, and is not built.
    Heavy,
    /// There is no such spot, or its entry has fewer conjuncts than are used.
    Absent,
}
