//! What a chair knows. It exists in proofs alone: no value of it is made.
//! `specs/Views.antt` says how each step changes it.

use std::collections::LinkedList;

/// What a chair knows of its table. No value of it is made.
pub struct View {
    /// How many slots the table has.
    pub slots: u64,
    /// The chair's number, which no other chair of the table has.
    pub number: u64,
    /// Of chair 0, how many chairs were made.
    pub made: u64,
    /// The count of published slots that the chair has seen.
    pub seen: u64,
    /// How often it has loaded the count.
    pub loads: u64,
    /// The slots that it holds, in the order in which it took them.
    pub held: LinkedList<u64>,
    /// The slots that it has finished, in this order.
    pub finished: LinkedList<u64>,
    /// The slots that it found held or done since it last loaded the count.
    pub looked: LinkedList<u64>,
}
