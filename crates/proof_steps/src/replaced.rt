//! Pairs of arguments, each identical or equal by the next cited step.
//! `specs/Replaced.antt` says which steps are used and which are left; here they are left from a place of the list on,
//! and nothing is left behind a pair that is neither.

ghost use Rattle.std.specs.Prelude.{◌≡◌, [], ◌∷◌, drop, length};
ghost use Rattle.std.specs.Option.{option_map};
ghost use Rattle.term_meaning.specs.Indices.{count};
ghost use Rattle.rule_terms.specs.TermView.{terms_of};
ghost use Rattle.law_clauses.specs.Arguments.{of_name, of_store, of_value, index_arguments};
ghost use Rattle.proof_steps.specs.Replaced.{left_by_pair, left_by_pairs, all_used};

use crate::cites::{says_names, says_stores, says_values};
use refutations::Step;
use rule_terms::{Place, StoreTerm, ValueTerm};

// The cited steps from a place on that say that names are equal.
#[tactic(auto, unfolding(crate::specs::Replaced::left_by_pair))]
pub fn name_pair(earlier: &[Step], from: &[u32], at: Option<usize>, n: u32, m: u32) -> Option<usize>
    ensures { option_map (λ k. drop k from.now) result ≡ left_by_pair earlier.now (option_map (λ k. drop k from.now) at) (of_name n) (of_name m) }
{
    let Some(at) = at else {
        return None;
    };
    if n == m {
        return Some(at);
    }
    match from.get(at) {
        Some(k) => {
            if says_names(earlier, *k, n, m) {
                Some(at + 1)
            } else {
                None
            }
        }
        None => None,
    }
}

// .. that stores are equal
#[tactic(auto, unfolding(crate::specs::Replaced::left_by_pair))]
pub fn store_pair(
    earlier: &[Step],
    from: &[u32],
    at: Option<usize>,
    s: &StoreTerm,
    t: &StoreTerm,
) -> Option<usize>
    ensures { option_map (λ k. drop k from.now) result ≡ left_by_pair earlier.now (option_map (λ k. drop k from.now) at) (of_store s.now) (of_store t.now) }
{
    let Some(at) = at else {
        return None;
    };
    if s.same(t) {
        return Some(at);
    }
    match from.get(at) {
        Some(k) => {
            if says_stores(earlier, *k, s, t) {
                Some(at + 1)
            } else {
                None
            }
        }
        None => None,
    }
}

// .. that values are equal
#[tactic(auto, unfolding(crate::specs::Replaced::left_by_pair))]
pub fn value_pair(
    earlier: &[Step],
    from: &[u32],
    at: Option<usize>,
    v: &ValueTerm,
    w: &ValueTerm,
) -> Option<usize>
    ensures { option_map (λ k. drop k from.now) result ≡ left_by_pair earlier.now (option_map (λ k. drop k from.now) at) (of_value v.now) (of_value w.now) }
{
    let Some(at) = at else {
        return None;
    };
    if v.same(w) {
        return Some(at);
    }
    match from.get(at) {
        Some(k) => {
            if says_values(earlier, *k, v, w) {
                Some(at + 1)
            } else {
                None
            }
        }
        None => None,
    }
}

// .. that indices are equal, one for one
#[tactic(auto, unfolding(crate::specs::Replaced::left_by_pairs))]
pub fn index_pairs(
    earlier: &[Step],
    from: &[u32],
    at: Option<usize>,
    vs: &[ValueTerm],
    ws: &[ValueTerm],
) -> Option<usize>
    requires { length vs.now ≡ length ws.now }
    ensures { option_map (λ k. drop k from.now) result ≡ left_by_pairs earlier.now (option_map (λ k. drop k from.now) at) (index_arguments (terms_of vs.now) []) (index_arguments (terms_of ws.now) []) }
{
    let mut at = at;
    for (i, v) in vs.iter().enumerate() {
        at = value_pair(earlier, from, at, v, &ws[i]);
    }
    at
}

// .. that two places are the same cell, where they have as many indices
#[tactic(auto, using(law_clauses::proofs::Pairs::count_terms), unfolding(crate::specs::Replaced::left_by_pairs))]
pub fn place_pairs(
    earlier: &[Step],
    from: &[u32],
    at: Option<usize>,
    p: &Place,
    q: &Place,
) -> Option<usize>
    requires { count p.now.indices ≡ count q.now.indices }
    ensures { option_map (λ k. drop k from.now) result ≡ left_by_pairs earlier.now (option_map (λ k. drop k from.now) at) (of_name p.now.name ∷ index_arguments p.now.indices []) (of_name q.now.name ∷ index_arguments q.now.indices []) }
{
    let at = name_pair(earlier, from, at, p.name, q.name);
    index_pairs(
        earlier,
        from,
        at,
        p.indices.as_slice(),
        q.indices.as_slice(),
    )
}

// Whether the steps up to a place are all that are cited.
#[tactic(auto, using(crate::proofs::Arguing::used_up, crate::proofs::Arguing::some_left))]
pub fn is_all_used(from: &[u32], at: Option<usize>) -> bool
    ensures { result ≡ all_used (option_map (λ k. drop k from.now) at) }
{
    match at {
        Some(at) => { if at < from.len() { false } else { true } }
        None => false,
    }
}
