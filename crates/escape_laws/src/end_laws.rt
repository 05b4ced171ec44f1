//! Laws 7 to 9: which stores end. `specs/MarkedLaws.antt` has their clauses at a store term.

ghost use Rattle.std.specs.Prelude.{◌≡◌, [], ◌∷◌};
ghost use Rattle.rule_terms.specs.declared.obligation.Atom.TheVariants.{Ends};
ghost use Rattle.law_clauses.specs.Signed.{plus, minus};
ghost use Rattle.escape_marks.specs.Failing.{FindsFailing};
ghost use Rattle.escape_marks.specs.LawsHold.{clause_kept};
ghost use Rattle.escape_laws.specs.MarkedLaws.{ends_kept};

use crate::kept::{does_not_end, ends};
use escape_marks::{Escape, StoreMark};
use rule_terms::{StoreNode, StoreTerm};
use toy_imp::Kind;

// If the one store ends: the other one does.
#[tactic(auto, using(law_clauses::proofs::Same::or_false))]
fn if_ends(params: &[Kind], e: &Escape, s: &StoreTerm, t: &StoreTerm) -> bool
    ensures { result ≡ clause_kept params.now e.now (minus (Ends s.now) ∷ plus (Ends t.now) ∷ []) }
{
    does_not_end(params, e, s) || ends(params, e, t)
}

#[tactic(auto, unfolding(crate::specs::MarkedLaws::ends_kept))]
fn ends_kept(params: &[Kind], e: &Escape, t: &StoreTerm) -> bool
    ensures { result ≡ ends_kept params.now e.now t.now }
{
    match &t.node {
        StoreNode::Put(s, _, _) => {
            if_ends(params, e, s.get(), t) && if_ends(params, e, t, s.get())
        }
        StoreNode::Run(_, s) => if_ends(params, e, t, s.get()),
        _ => true,
    }
}

#[tactic(auto, using(escape_marks::proofs::Places::passes_next, escape_marks::proofs::Places::first_failing))]
fn first_broken(params: &[Kind], e: &Escape, marks: &[StoreMark]) -> Option<usize>
    ensures { FindsFailing (λ m. ends_kept params.now e.now m.store) marks.now result }
{
    for (k, m) in marks.iter().enumerate() {
        if !ends_kept(params, e, &m.store) {
            return Some(k);
        }
    }
    None
}

/// The place of the first store mark at which a clause of laws 7 to 9 is broken: a write ends and
/// the store under it does not, or the other way round, or a run ends from a store that does not.
/// `None` exactly where none is. It takes two look-ups a clause, at most two clauses a mark.
pub fn broken_end(params: &[Kind], e: &Escape) -> Option<usize>
    ensures { FindsFailing (λ m. ends_kept params.now e.now m.store) e.now.stores result }
{
    first_broken(params, e, e.stores.as_slice())
}
