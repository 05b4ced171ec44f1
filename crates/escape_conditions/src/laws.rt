//! What the tests at terms say of the laws of the side conditions, each statement the contract of a
//! function that does nothing. The statements are in `specs/ConditionsPass.antt`.

ghost use Rattle.escape_conditions.specs.ConditionsPass.{ConditionLawsHold, ConditionLawsPass};

/// Where the six calls find nothing, each clause of laws 11 to 21 all of whose terms have marks has a
/// true literal.
pub fn condition_laws_hold()
    ensures { ConditionLawsHold }
{}

/// .. and where all laws hold in an escape, they find nothing.
pub fn condition_laws_pass()
    ensures { ConditionLawsPass }
{}
