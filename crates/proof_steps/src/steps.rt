//! The steps of a leaf, each by its reason.
//! `specs/Steps.antt` says when a literal follows from what is given and from the steps before.

ghost use Rattle.std.specs.Prelude.{◌≡◌, nat_le};
ghost use Rattle.std.specs.List.{list_all};
ghost use Rattle.rule_terms.specs.Term.{value_depth};
ghost use Rattle.law_clauses.specs.Signed.{signed_of};
ghost use Rattle.proof_steps.specs.Steps.{is_given, follows, row_is_shallow, reason_is_shallow, step_holds};
ghost use Rattle.proof_steps.specs.Refutes.{given_at};
ghost use Rattle.proof_steps.specs.Ways.{assumed_list};

use crate::arguments::{is_alike, is_carried};
use crate::assumed::{Assumed, is_assumed};
use crate::cited_lists::is_known;
use crate::closing::{are_shallow, is_shallow};
use crate::equalities::{is_by_itself, is_chain, is_flip, is_meeting};
use crate::given::is_given_first;
use crate::laws_cited::follows_by_law;
use crate::sums::is_summed;
use refutations::{By, Step, SumRow};
use rule_terms::{Literal, Obligation, ValueTerm};

// One of the literals that are assumed on the way or given first; the latter are few, so they are looked at before.
#[tactic(auto, using(crate::proofs::Lists::given_either))]
fn is_given(ob: &Obligation, assumed: &Assumed<'_>, x: &Literal) -> bool
    ensures { result ≡ is_given (given_at ob.now (assumed_list assumed.now)) (signed_of x.now) }
{
    is_given_first(ob, x) || is_assumed(assumed, x)
}

fn follows(ob: &Obligation, assumed: &Assumed<'_>, earlier: &[Step], why: &By, x: &Literal) -> bool
    ensures { result ≡ follows ob.now (given_at ob.now (assumed_list assumed.now)) earlier.now why.now (signed_of x.now) }
{
    match why {
        By::Given => is_given(ob, assumed, x),
        By::Known(k, from) => is_known(earlier, ob.known.as_slice(), *k, from.as_slice(), x),
        By::Refl => is_by_itself(x),
        By::Flip(k) => is_flip(earlier, *k, x),
        By::Chain(j, k) => is_chain(earlier, *j, *k, x),
        By::Alike(from) => is_alike(earlier, from.as_slice(), x),
        By::Carry(k, from) => is_carried(earlier, *k, from.as_slice(), x),
        By::Law(k, clause, p, from) => {
            follows_by_law(ob, earlier, *k, clause.as_slice(), *p, from.as_slice(), x)
        }
        By::Meet(j, k) => is_meeting(earlier, *j, *k, x),
        By::Sum(rows) => is_summed(earlier, rows.as_slice(), x),
    }
}

fn is_shallow_value(v: &ValueTerm) -> bool
    ensures { result ≡ nat_le (value_depth v.now) 4100 }
{
    v.size().depth <= 4100
}

fn row_is_shallow(row: &SumRow) -> bool
    ensures { result ≡ row_is_shallow row.now }
{
    match row {
        SumRow::Off(v) => is_shallow_value(v),
        SumRow::OffBack(v) => is_shallow_value(v),
        _ => true,
    }
}

fn rows_are_shallow(rows: &[SumRow]) -> bool
    ensures { result ≡ list_all row_is_shallow rows.now }
{
    rows.iter().all(|row| row_is_shallow(row))
}

fn reason_is_shallow(why: &By) -> bool
    ensures { result ≡ reason_is_shallow why.now }
{
    match why {
        By::Law(_, clause, _, _) => are_shallow(clause.as_slice()),
        By::Sum(rows) => rows_are_shallow(rows.as_slice()),
        _ => true,
    }
}

// Whether a step follows from what is given and from those before.
#[tactic(auto, unfolding(crate::specs::Steps::step_holds))]
pub fn step_holds(ob: &Obligation, assumed: &Assumed<'_>, earlier: &[Step], step: &Step) -> bool
    ensures { result ≡ step_holds ob.now (given_at ob.now (assumed_list assumed.now)) earlier.now step.now }
{
    is_shallow(&step.gives)
        && reason_is_shallow(&step.by)
        && follows(ob, assumed, earlier, &step.by, &step.gives)
}
