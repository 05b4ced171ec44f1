//! The laws of the items, each the contract of a function that does nothing. The statements are in `specs/Laws.antt`.

ghost use Rattle.loop_faults.specs.Laws.{SimulateAsksNoMore};

/// A rule of method simulate has the fault that every rule is asked, and no other.
pub fn simulate_asks_no_more()
    ensures { SimulateAsksNoMore }
{}
