//! A step that makes a row from two earlier ones.

/// Makes the row `(by * first + times * second) / cut`. Given rows are numbered from 0, and the rows
/// that steps make go on from there. No multiplier is negative, by its type.
#[derive(Clone, Copy, Debug, PartialEq, Eq)]
pub struct RowStep {
    /// The number of one earlier row.
    pub first: u32,
    /// How often that row is taken.
    pub by: u64,
    /// The number of another earlier row, or the same one.
    pub second: u32,
    /// How often that row is taken.
    pub times: u64,
    /// What the sum is divided by.
    pub cut: u128,
}
