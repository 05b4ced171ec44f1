//! The two answers to a system of rows.

use sqlite_items::Items;

/// A point that meets the rows, or a cycle that shows why there is none.
#[derive(Debug, Drop)]
pub enum DiffAnswer {
    /// One whole number for each variable, in order, each of magnitude at most 2^81.
    Point(Items<i128>),
    /// The places of rows that make a cycle with a negative sum, at most as many as there are
    /// variables: each row's right variable is the next row's left one, round the cycle.
    Cycle(Items<usize>),
}
