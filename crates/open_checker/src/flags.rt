//! Flags of stores and tests, which those of one class share.
//! `specs/Points.antt` says which flags are compared.

ghost use Rattle.std.specs.Prelude.{◌≡◌};
ghost use Rattle.escape_marks.specs.Failing.{FindsFailing};
ghost use Rattle.open_checker.specs.Points.{ends_alike, ends_as_its_class};
ghost use Rattle.open_checker.specs.Points.{one_test, holds_alike, holds_as_its_class};

use escape_marks::{Escape, StoreMark, TestMark, one_class};

fn ends_alike(m: &StoreMark, n: &StoreMark) -> bool
    ensures { result ≡ ends_alike m.now n.now }
{
    m.class != n.class || m.ends == n.ends
}

#[tactic(auto, unfolding(crate::specs::Points::ends_as_its_class))]
fn ends_as_its_class(stores: &[StoreMark], m: &StoreMark) -> bool
    ensures { result ≡ ends_as_its_class stores.now m.now }
{
    for n in stores {
        if !ends_alike(m, n) {
            return false;
        }
    }
    true
}

#[tactic(auto, using(escape_marks::proofs::Places::passes_next, escape_marks::proofs::Places::first_failing))]
fn first_unlike_ends(stores: &[StoreMark]) -> Option<usize>
    ensures { FindsFailing (ends_as_its_class stores.now) stores.now result }
{
    for (k, m) in stores.iter().enumerate() {
        if !ends_as_its_class(stores, m) {
            return Some(k);
        }
    }
    None
}

/// The place of the first store mark with another `ends` flag than some mark of its class. `None`
/// exactly where the stores of each class have one flag. It compares each two marks at most.
pub fn unlike_ends(e: &Escape) -> Option<usize>
    ensures { FindsFailing (ends_as_its_class e.now.stores) e.now.stores result }
{
    first_unlike_ends(e.stores.as_slice())
}

fn one_test(stores: &[StoreMark], m: &TestMark, n: &TestMark) -> bool
    ensures { result ≡ one_test stores.now m.now n.now }
{
    m.test == n.test && one_class(stores, &m.store, &n.store)
}

fn holds_alike(stores: &[StoreMark], m: &TestMark, n: &TestMark) -> bool
    ensures { result ≡ holds_alike stores.now m.now n.now }
{
    !one_test(stores, m, n) || m.holds == n.holds
}

#[tactic(auto, unfolding(crate::specs::Points::holds_as_its_class))]
fn holds_as_its_class(stores: &[StoreMark], tests: &[TestMark], m: &TestMark) -> bool
    ensures { result ≡ holds_as_its_class stores.now tests.now m.now }
{
    for n in tests {
        if !holds_alike(stores, m, n) {
            return false;
        }
    }
    true
}

#[tactic(auto, using(escape_marks::proofs::Places::passes_next, escape_marks::proofs::Places::first_failing))]
fn first_unlike_tests(stores: &[StoreMark], tests: &[TestMark]) -> Option<usize>
    ensures { FindsFailing (holds_as_its_class stores.now tests.now) tests.now result }
{
    for (k, m) in tests.iter().enumerate() {
        if !holds_as_its_class(stores, tests, m) {
            return Some(k);
        }
    }
    None
}

/// The place of the first test mark with another flag than some mark of the same parameter at a
/// store of the same class. `None` exactly where all such marks have one flag. It takes two
/// look-ups of stores for each two marks of one parameter.
pub fn unlike_tests(e: &Escape) -> Option<usize>
    ensures { FindsFailing (holds_as_its_class e.now.stores e.now.tests) e.now.tests result }
{
    first_unlike_tests(e.stores.as_slice(), e.tests.as_slice())
}
