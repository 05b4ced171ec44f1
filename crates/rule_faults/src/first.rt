//! The first fault of a rule. `specs/Faults.antt` of `toy_imp` has the items in their order.

ghost use Rattle.std.specs.Prelude.{◌≡◌, IfOk};
ghost use Rattle.toy_imp.specs.Faults as spec;

use crate::omitting::omits_parameter;
use crate::repeating::{repeats_name, repeats_pair};
use std::alloc::Global;
use toy_imp::{CutList, NoMemory, Rule};

/// The least number of an item that holds, as `Rule::first_fault` answers it, or `None` where the rule
/// is well formed. It takes time linear in the rule, as is expected of hashing, and memory for a mark
/// for each parameter and for a table of the names and of the pairs of cuts; that there was none is the
/// only error.
pub fn first_fault(alloc: Global, rule: &Rule) -> Result<Option<u8>, NoMemory>
    ensures { IfOk result (λ fault. fault ≡ spec.first_fault rule.now) }
{
    let repeats_name = repeats_name(alloc, rule.params.as_slice())?;
    let omits_parameter = omits_parameter(alloc, rule)?;
    let repeats_cut = repeats_cut(alloc, &rule.cuts)?;
    Ok(rule.first_fault_where(repeats_name, omits_parameter, repeats_cut))
}

/// Whether a pair of cuts is listed twice.
fn repeats_cut(alloc: Global, cuts: &CutList) -> Result<bool, NoMemory>
    ensures { IfOk result (λ yes. yes ≡ spec.repeats_cut cuts.now) }
{
    match cuts {
        CutList::Default => Ok(false),
        CutList::Listed(pairs) => repeats_pair(alloc, pairs.as_slice()),
    }
}
