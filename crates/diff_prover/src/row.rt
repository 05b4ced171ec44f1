//! A row of a system of differences.

/// Says that `x_left <= x_right + by`, over whole numbers `x_0, x_1, ..`.
#[derive(Clone, Copy, Debug, PartialEq, Eq)]
pub struct DiffRow {
    /// The number of the variable on the left.
    pub left: u32,
    /// The number of the variable on the right.
    pub right: u32,
    /// What is added on the right.
    pub by: i128,
}
