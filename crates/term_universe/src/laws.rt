//! The laws of universes, each the contract of a function that does nothing.
//! The statements are in `specs/UniverseLaws.antt`.

ghost use Rattle.term_universe.specs.UniverseLaws.{SubtermsAreThere, OrderIsFree};

/// The universe holds what occurs in the obligation and in its own terms: store terms and value terms, what is read at
/// each of its stores, and tests at each of them.
pub fn subterms_are_there()
    ensures { SubtermsAreThere }
{}

/// The universe does not depend on the order of the known conjuncts.
pub fn order_is_free()
    ensures { OrderIsFree }
{}
