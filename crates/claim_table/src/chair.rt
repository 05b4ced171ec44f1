//! A chair: the right of one thread to claim slots of one table.
//! Contracts see it as its table and what it knows; `specs/Chairs.antt` has the words.

use crate::view::View;
use atomic_table::Seat;
use std::marker::Model;

/// The right of one thread to take slots of a table. It holds the slots that it took and has neither
/// finished nor freed. Contracts see its table and its `View`.
#[derive(Drop)]
pub struct Chair {
    /// The number that the word of a held slot names.
    pub(crate) number: u32,
    /// What the chair knows, which has no bytes.
    pub(crate) seat: Seat<(), View>,
}

impl Model for Chair {
    ghost use Rattle.claim_table.specs.Chairs.{ChairView, IsSeated};

    ghost Value = { ChairView };

    ghost view = { λ c. record { table = c.seat.table_id; view = c.seat.me.0 } };

    ghost invariant = { λ c. IsSeated c.number c.seat.table_id c.seat.me };
}
