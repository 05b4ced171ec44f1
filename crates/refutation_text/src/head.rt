//! What a word begins: an atom, a reason, a row or a part of a refutation.
//! `specs/LiteralReading.antt` and `StepReading.antt` say which word begins which.

/// Which atom follows.
#[derive(Clone, Copy)]
pub enum AtomHead {
    Name,
    Store,
    Value,
    Most,
    Ends,
    Holds,
}

/// Which reason follows.
#[derive(Clone, Copy)]
pub enum ReasonHead {
    Given,
    Known,
    Refl,
    Flip,
    Chain,
    Alike,
    Carry,
    Law,
    Meet,
    Sum,
}

/// Which row follows.
#[derive(Clone, Copy)]
pub enum RowHead {
    Of,
    Back,
    Num,
    Off,
    OffBack,
}

/// Which part of a refutation follows.
#[derive(Clone, Copy)]
pub enum PartHead {
    Split,
    Leaf,
}
