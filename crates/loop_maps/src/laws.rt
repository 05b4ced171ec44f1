//! The laws of maps, each the contract of a function that does nothing. The statements are in `specs/Laws.antt`.

ghost use Rattle.loop_maps.specs.Laws.{MapsUndo, NamesAgree};

/// Through a map and its inverse each counter is itself again, on both sides.
pub fn maps_undo()
    ensures { MapsUndo }
{}

/// A name that is set on both sides has one form: by the left counters, and by the map put into its right value.
pub fn names_agree()
    ensures { NamesAgree }
{}
