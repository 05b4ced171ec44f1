//! A row of a system of linear inequalities.

use sqlite_items::Items;

/// Says that the sum of the coefficients times the variables is at most the bound.
#[derive(Debug, Drop)]
pub struct Row {
    /// One coefficient for each variable, in order.
    pub coefficients: Items<i64>,
    /// What the sum is at most.
    pub bound: i64,
}
