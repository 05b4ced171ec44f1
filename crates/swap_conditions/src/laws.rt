//! What the tests by text imply, each law the contract of a function that does nothing.
//! The statements are in `specs/SwapLaws.antt`.

ghost use Rattle.swap_conditions.specs.SwapLaws.{SwapSuffices, HoldingSuffices};

/// Two blocks that swap by text swap over the counters, for all tuples of the region and whatever other names are set
/// round either block.
pub fn swap_suffices()
    ensures { SwapSuffices }
{}

/// An instance for which a condition holds by text meets it, whatever the condition's kind.
pub fn holding_suffices()
    ensures { HoldingSuffices }
{}
