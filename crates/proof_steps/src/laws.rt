//! The laws of refutations, each the contract of a function that does nothing.
//! The statements are in `specs/RefuteLaws.antt`.

ghost use Rattle.proof_steps.specs.RefuteLaws.{RefutedHolds, HeldGoalIsTrue, StepsHoldUnderMore, StepsHoldMoved, RefutesUnderMore, BranchesRefute};

/// An obligation that has a refutation holds.
pub fn refuted_holds()
    ensures { RefutedHolds }
{}

/// The goal of an obligation that holds is true where its premises are.
pub fn held_goal_is_true()
    ensures { HeldGoalIsTrue }
{}

/// A step that holds still holds where more is given.
pub fn steps_hold_under_more()
    ensures { StepsHoldUnderMore }
{}

/// A step that holds still holds among more steps, its citations moved with those that it cites.
pub fn steps_hold_moved()
    ensures { StepsHoldMoved }
{}

/// A refutation under some assumptions is one under more.
pub fn refutes_under_more()
    ensures { RefutesUnderMore }
{}

/// Two refuted branches make a refuted split.
pub fn branches_refute()
    ensures { BranchesRefute }
{}
