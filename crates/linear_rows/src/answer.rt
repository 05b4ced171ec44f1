//! The three answers to a system of rows.

use crate::fraction::Fraction;
use crate::step::RowStep;
use sqlite_items::Items;

/// What the elimination comes to.
#[derive(Debug, Drop)]
pub enum Rows {
    /// Row steps that show that nothing meets the rows.
    Empty(Items<RowStep>),
    /// One fraction for each variable, in order; they meet the rows.
    Point(Items<Fraction>),
    /// The first limit that is passed.
    Limit(RowMark),
}

/// Where a limit is passed.
#[derive(Clone, Copy, Debug, PartialEq, Eq)]
pub struct RowMark {
    /// The stage, from 0 on: the number of variables that are eliminated.
    pub stage: u32,
    /// Which limit.
    pub what: RowKind,
}

/// A limit of the elimination.
#[derive(Clone, Copy, Debug, PartialEq, Eq)]
pub enum RowKind {
    /// A stage would have more than 4,096 rows.
    Rows,
    /// A row would have a number beyond 2^62.
    Coefficient,
    /// A part of a fraction would be beyond 2^62.
    Point,
}
