//! The laws of the forms of a rule's expressions, each the contract of a function that does nothing.
//! The statements are in `specs/Laws.antt`.

ghost use Rattle.loop_sides.specs.Laws.{SummedIsValue};

/// An expression has the value of its summed form, in each store that holds the counters' values.
pub fn summed_is_value()
    ensures { SummedIsValue }
{}
