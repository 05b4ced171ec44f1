//! Whether all laws hold in an escape: no clause of any of them is broken at terms with marks.
//! `specs/LawsHold.antt` of `escape_marks` says when the laws hold, `specs/LawsPass.antt` what is asked.

ghost use Rattle.std.specs.Prelude.{◌≡◌, ◌↔◌, IsTrue};
ghost use Rattle.escape_marks.specs.LawsHold.{LawsHold};
ghost use Rattle.std.specs.List.{list_all};
ghost use Rattle.escape_laws.specs.MarkedLaws.{ends_kept, reads_kept, sums_kept};
ghost use Rattle.escape_laws.specs.ReadBack.{back_kept};
ghost use Rattle.escape_laws.specs.IndexLaw.{index_kept};
ghost use Rattle.escape_laws.specs.WrittenLaw.{written_as_all};
ghost use Rattle.escape_laws.specs.PairLaws.{halts_as_all, exchanges_with_all};
ghost use Rattle.escape_conditions.specs.MarkedConditions.{value_kept, read_kept, test_kept};
ghost use Rattle.escape_conditions.specs.MarkedConditions.{run_kept, constant_kept, name_kept};
ghost use Rattle.escape_conditions.specs.LawsPass.{reads_pass, stores_pass, numbers_pass};
ghost use Rattle.escape_conditions.specs.LawsPass.{at_marks_pass, others_pass, laws_pass};

use crate::constant_laws::unlike_constant;
use crate::name_laws::broken_distinct;
use crate::read_laws::broken_stay;
use crate::run_laws::broken_run;
use crate::test_laws::broken_test;
use crate::value_laws::broken_value;
use escape_laws::{
    broken_end, broken_exchange, broken_index, broken_read, broken_read_back, broken_sum,
    sides_end, unlike_halts, unlike_written,
};
use escape_marks::Escape;
use rule_terms::Obligation;
use toy_imp::Kind;

#[tactic(auto, using(crate::proofs::AllLaws::some_fails))]
fn no_read_back(params: &[Kind], e: &Escape) -> bool
    ensures { result ≡ list_all (λ m. back_kept params.now e.now m.value) e.now.values }
{
    match broken_read_back(params, e) {
        Some(_) => false,
        None => true,
    }
}

#[tactic(auto, using(crate::proofs::AllLaws::some_fails))]
fn no_index(params: &[Kind], e: &Escape) -> bool
    ensures { result ≡ list_all (λ m. index_kept params.now e.now m.value) e.now.values }
{
    match broken_index(params, e) {
        Some(_) => false,
        None => true,
    }
}

#[tactic(auto, using(crate::proofs::AllLaws::some_fails))]
fn no_read(params: &[Kind], e: &Escape) -> bool
    ensures { result ≡ list_all (λ m. reads_kept params.now e.now m.value) e.now.values }
{
    match broken_read(params, e) {
        Some(_) => false,
        None => true,
    }
}

#[tactic(auto, using(crate::proofs::AllLaws::some_fails))]
fn no_end(params: &[Kind], e: &Escape) -> bool
    ensures { result ≡ list_all (λ m. ends_kept params.now e.now m.store) e.now.stores }
{
    match broken_end(params, e) {
        Some(_) => false,
        None => true,
    }
}

#[tactic(auto, using(crate::proofs::AllLaws::some_fails))]
fn no_halt(params: &[Kind], e: &Escape) -> bool
    ensures { result ≡ list_all (halts_as_all params.now e.now) e.now.stores }
{
    match unlike_halts(params, e) {
        Some(_) => false,
        None => true,
    }
}

#[tactic(auto, using(crate::proofs::AllLaws::some_fails))]
fn no_written(params: &[Kind], e: &Escape) -> bool
    ensures { result ≡ list_all (written_as_all params.now e.now) e.now.stores }
{
    match unlike_written(params, e) {
        Some(_) => false,
        None => true,
    }
}

#[tactic(auto, using(crate::proofs::AllLaws::some_fails))]
fn no_exchange(params: &[Kind], e: &Escape) -> bool
    ensures { result ≡ list_all (exchanges_with_all params.now e.now) e.now.values }
{
    match broken_exchange(params, e) {
        Some(_) => false,
        None => true,
    }
}

#[tactic(auto, using(crate::proofs::AllLaws::some_fails))]
fn no_sum(params: &[Kind], e: &Escape) -> bool
    ensures { result ≡ list_all (λ m. sums_kept params.now e.now m.value) e.now.values }
{
    match broken_sum(params, e) {
        Some(_) => false,
        None => true,
    }
}

#[tactic(auto, using(crate::proofs::AllLaws::some_fails))]
fn no_value(ob: &Obligation, e: &Escape) -> bool
    ensures { result ≡ list_all (λ m. value_kept ob.now e.now m.value) e.now.values }
{
    match broken_value(ob, e) {
        Some(_) => false,
        None => true,
    }
}

#[tactic(auto, using(crate::proofs::AllLaws::some_fails))]
fn no_stay(ob: &Obligation, e: &Escape) -> bool
    ensures { result ≡ list_all (λ m. read_kept ob.now e.now m.value) e.now.values }
{
    match broken_stay(ob, e) {
        Some(_) => false,
        None => true,
    }
}

#[tactic(auto, using(crate::proofs::AllLaws::some_fails))]
fn no_test(ob: &Obligation, e: &Escape) -> bool
    ensures { result ≡ list_all (test_kept ob.now e.now) e.now.tests }
{
    match broken_test(ob, e) {
        Some(_) => false,
        None => true,
    }
}

#[tactic(auto, using(crate::proofs::AllLaws::some_fails))]
fn no_run(ob: &Obligation, e: &Escape) -> bool
    ensures { result ≡ list_all (λ m. run_kept ob.now e.now m.store) e.now.stores }
{
    match broken_run(ob, e) {
        Some(_) => false,
        None => true,
    }
}

#[tactic(auto, using(crate::proofs::AllLaws::some_fails))]
fn no_constant(ob: &Obligation, e: &Escape) -> bool
    ensures { result ≡ list_all (λ m. constant_kept ob.now e.now m.value) e.now.values }
{
    match unlike_constant(ob, e) {
        Some(_) => false,
        None => true,
    }
}

#[tactic(auto, using(crate::proofs::AllLaws::some_fails))]
fn no_name(ob: &Obligation, e: &Escape) -> bool
    ensures { result ≡ list_all (name_kept ob.now e.now) ob.now.conditions }
{
    match broken_distinct(ob, e) {
        Some(_) => false,
        None => true,
    }
}

// Laws 1 to 4.
#[tactic(auto, unfolding(crate::specs::LawsPass::reads_pass))]
fn reads_pass(params: &[Kind], e: &Escape) -> bool
    ensures { result ≡ reads_pass params.now e.now }
{
    no_read_back(params, e) && no_index(params, e) && no_read(params, e)
}

// Laws 5 to 10.
#[tactic(auto, unfolding(crate::specs::LawsPass::stores_pass))]
fn stores_pass(params: &[Kind], e: &Escape) -> bool
    ensures { result ≡ stores_pass params.now e.now }
{
    sides_end(params, e) && no_end(params, e) && no_halt(params, e) && no_written(params, e)
}

// Laws 22 to 24.
#[tactic(auto, unfolding(crate::specs::LawsPass::numbers_pass))]
fn numbers_pass(params: &[Kind], e: &Escape) -> bool
    ensures { result ≡ numbers_pass params.now e.now }
{
    no_exchange(params, e) && no_sum(params, e)
}

// Laws 11 to 15, 17 and 19.
#[tactic(auto, unfolding(crate::specs::LawsPass::at_marks_pass))]
fn at_marks_pass(ob: &Obligation, e: &Escape) -> bool
    ensures { result ≡ at_marks_pass ob.now e.now }
{
    no_value(ob, e) && no_stay(ob, e) && no_test(ob, e)
}

// Laws 16, 18, 20 and 21.
#[tactic(auto, unfolding(crate::specs::LawsPass::others_pass))]
fn others_pass(ob: &Obligation, e: &Escape) -> bool
    ensures { result ≡ others_pass ob.now e.now }
{
    no_run(ob, e) && no_constant(ob, e) && no_name(ob, e)
}

#[tactic(auto, unfolding(crate::specs::LawsPass::laws_pass))]
fn laws_pass(ob: &Obligation, e: &Escape) -> bool
    ensures { result ≡ laws_pass ob.now e.now }
{
    let params = ob.params.as_slice();
    reads_pass(params, e)
        && stores_pass(params, e)
        && numbers_pass(params, e)
        && at_marks_pass(ob, e)
        && others_pass(ob, e)
}

/// Whether all laws hold in an escape: each clause of a law all of whose terms have marks has a true
/// literal. It asks the calls of the groups of laws one after another, at their costs.
pub fn laws_hold(ob: &Obligation, e: &Escape) -> bool
    ensures { IsTrue result ↔ LawsHold ob.now e.now }
{
    laws_pass(ob, e)
}
