//! The rule of the table's words and chairs, and how a chair makes another one.
//! `specs/Rule.antt` says what it is; `proofs/CountSteps.antt` and `SlotSteps.antt` show that each kind of step keeps it.

use crate::view::View;
use atomic_table::{Split, TableRule};

/// The rule over the number of slots.
pub struct ClaimRule;

impl TableRule<(), View, u32> for ClaimRule {
    ghost use Rattle.claim_table.specs.Rule.{Kept};
    ghost use Rattle.claim_table.specs.Views.{first_view};

    ghost holds = { Kept };

    ghost first = { first_view };
}

/// Chair 0 makes one more chair.
pub struct OneMore;

impl Split<View> for OneMore {
    ghost use Rattle.claim_table.specs.Views.{after_split, new_view};

    ghost left = { after_split };

    ghost right = { new_view };
}
