//! Whether a parameter does not occur in the left side: one walk marks those that do.

ghost use Rattle.std.specs.Prelude.{◌≡◌, IfOk, false, length, not, replicate};
ghost use Rattle.std.specs.List.{list_any};
ghost use Rattle.toy_imp.specs.Faults as spec;

use crate::marking::mark_block;
use std::alloc::Global;
use toy_imp::{NoMemory, Rule};

/// Whether a parameter of the rule does not occur in its left side. It takes a mark for each parameter,
/// one walk over the side and one over the marks. A number in the side that is not below the number of
/// parameters is passed over. `Err` comes only where memory runs out.
pub fn omits_parameter(alloc: Global, rule: &Rule) -> Result<bool, NoMemory>
    ensures { IfOk result (λ yes. yes ≡ spec.omits_parameter rule.now) }
{
    let mut marks = vec![in alloc; false; rule.params.len()]?;
    Ok(leaves_unmarked(rule, &mut marks))
}

/// Whether a mark is left unset of those that the left side sets.
#[tactic(auto, using(crate::proofs::Unmarked::omitted_unmarked))]
fn leaves_unmarked(rule: &Rule, marks: &mut [bool]) -> bool
    requires { marks.old ≡ replicate (length rule.now.params) false }
    ensures { result ≡ spec.omits_parameter rule.now }
{
    mark_block(&rule.left, marks);
    some_unmarked(marks)
}

fn some_unmarked(marks: &[bool]) -> bool
    ensures { result ≡ list_any not marks.now }
{
    marks.iter().any(|mark| !*mark)
}
