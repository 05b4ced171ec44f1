//! The outcomes of a test, with ample memory: a call that gets memory answers them.

use path_pairs::{outcome_counts, outcomes};
use rule_terms::StoreTerm;
use std::test::Fail;
use toy_imp::Test;

#[test]
fn outcomes_are_answered(rt: HostRuntime) -> Result<(), Fail> {
    let alloc = rt.alloc();
    let both = Test::and(alloc, Test::par(0), Test::par(1))?;
    assert!(rt; outcome_counts(&both).when_false == 2);
    let found = outcomes(alloc, &both, false, &StoreTerm::left())?;
    assert!(rt; found.len() == 2);
    Ok(())
}
