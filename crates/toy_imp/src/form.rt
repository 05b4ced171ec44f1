//! The nonterminals of the grammar that an expression or a test is written for.
//! Where it is not of that form by itself, its canonical text has parentheses or brackets round it
//! (`specs/ExprCanonical.antt`, `specs/TestCanonical.antt`).

/// What an expression stands for in the grammar, from the loosest to the tightest.
#[derive(Clone, Copy, Debug, PartialEq, Eq)]
pub enum ExprForm {
    /// Alone, or a left operand of `+` or `-`.
    Expr,
    /// A right operand of `+` or `-`, or a left one of `*`.
    Term,
    /// A right operand of `*`.
    Factor,
}

/// What a test stands for in the grammar, from the loosest to the tightest.
#[derive(Clone, Copy, Debug, PartialEq, Eq)]
pub enum TestForm {
    /// Alone, or a left operand of `or`.
    Test,
    /// A right operand of `or`, or a left one of `and`.
    Both,
    /// A right operand of `and`, or under `not`.
    One,
}
