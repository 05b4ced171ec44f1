//! The kinds of step on a word, as types. They are for the proofs alone.
//! `specs/Steps.antt` says what each tells the chair that makes it.

use crate::view::View;
use atomic_table::Play;

/// A load of the count.
pub struct LoadCount;

impl Play<(), View> for LoadCount {
    ghost use Rattle.claim_table.specs.Steps.{LoadsCount};

    ghost then = { LoadsCount };
}

/// A load of a slot's word.
pub struct Look;

impl Play<(), View> for Look {
    ghost use Rattle.claim_table.specs.Steps.{LooksAt};

    ghost then = { LooksAt };
}

/// The exchange of a free slot's word for the chair's number.
pub struct Claim;

impl Play<(), View> for Claim {
    ghost use Rattle.claim_table.specs.Steps.{Claims};

    ghost then = { Claims };
}

/// A swap of the chair's number for `DONE`.
pub struct Finish;

impl Play<(), View> for Finish {
    ghost use Rattle.claim_table.specs.Steps.{Finishes};

    ghost then = { Finishes };
}

/// A swap of the chair's number for `FREE`.
pub struct Free;

impl Play<(), View> for Free {
    ghost use Rattle.claim_table.specs.Steps.{Frees};

    ghost then = { Frees };
}

/// A rise of the count.
pub struct Publish;

impl Play<(), View> for Publish {
    ghost use Rattle.claim_table.specs.Steps.{Publishes};

    ghost then = { Publishes };
}
