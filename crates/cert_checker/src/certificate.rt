//! Certificates. `specs/Certificates.antt` says which of them prove their rule.

use refutations::Refutation;
use spot_obligations::{Entry, Spot};
use sqlite_items::Items;

/// A refutation of the obligation at a spot.
#[derive(Drop)]
pub struct Proved {
    pub spot: Spot,
    /// How many conjuncts of the spot's entry are known.
    pub used: u32,
    pub proof: Refutation,
}

/// A relation, and a proof for each of its spots in order.
#[derive(Drop)]
pub struct Certificate {
    pub entries: Items<Entry>,
    pub proofs: Items<Proved>,
}
