//! The words of certificates, refusals and traces: what a line is made of.
//! `specs/Words.antt` says how each of them is spelled; a text with a word that is none of them is not in the grammar.

/// A word of a line, or the end of a line.
#[derive(Clone, Copy, Debug, PartialEq, Eq)]
pub enum Token {
    /// A word of the grammar.
    Key(Key),
    /// A number: whether it is negative, and its magnitude. Zero is not negative.
    Number(bool, u128),
    /// `#` and the number of a parameter.
    Par(u32),
    /// The line ends.
    End,
}

/// The words of the grammar that are no numbers.
#[derive(Clone, Copy, Debug, PartialEq, Eq)]
pub enum Key {
    Plus,
    Minus,
    L,
    R,
    Put,
    Run,
    Num,
    Get,
    Ev,
    Add,
    Sub,
    Mul,
    Name,
    Store,
    Value,
    Most,
    Ends,
    Holds,
    Conj,
    Then,
    False,
    Format,
    Simulate,
    Terms,
    Entries,
    Entry,
    Proofs,
    Proof,
    Split,
    Leaf,
    Step,
    Given,
    Known,
    Refl,
    Flip,
    Chain,
    Alike,
    Carry,
    Law,
    Meet,
    Sum,
    Of,
    Back,
    Off,
    OffBack,
}
