//! The laws of simulation, each the contract of a function that does nothing.
//! The statements are in `specs/SimulationLaws.antt`.

ghost use Rattle.rule_simulation.specs.SimulationLaws.{ShownIsValid};

/// A rule is valid where each obligation of a relation from its starts to its exits holds.
pub fn shown_is_valid()
    ensures { ShownIsValid }
{}
