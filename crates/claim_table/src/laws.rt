//! What the rule of the table means for any two chairs, each law the contract of a function that does nothing.
//! The statements are in `specs/Laws.antt`.

ghost use Rattle.claim_table.specs.Laws.{HeldByOne, FinishedStays, IsTakenByAChair, StartsFree};
ghost use Rattle.claim_table.specs.Laws.{FreshSlotComesOff};

/// No slot is held by two chairs, at any moment.
pub fn held_by_one()
    ensures { HeldByOne }
{}

/// A slot that a chair has finished is done, no chair holds it, and no other chair has finished it. A
/// chair's finished list only grows, so the slot stays finished.
pub fn finished_stays()
    ensures { FinishedStays }
{}

/// Each slot that is not free has a chair that holds it or has finished it.
pub fn taken_by_a_chair()
    ensures { IsTakenByAChair }
{}

/// Where no chair has seen, held or finished anything, as when a table was just made, all slots are free and
/// none is published.
pub fn starts_free()
    ensures { StartsFree }
{}

/// A slot that was not on the held list, put last on it and taken off again, leaves the list as it was.
pub fn fresh_slot_comes_off()
    ensures { FreshSlotComesOff }
{}
