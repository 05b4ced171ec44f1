//! Where terms stand in the list of all terms, and where their arguments stand.
//! `specs/Places.antt` says which places are meant.

ghost use Rattle.std.specs.Prelude.{◌≡◌, map, slice_get, IfOk};
ghost use Rattle.std.specs.Option.{option_map};
ghost use Rattle.law_clauses.specs.Arguments.{identical};
ghost use Rattle.law_clauses.specs.ArgumentView.{argument_of};
ghost use Rattle.equality_prover.specs.Terms.{arguments, same_top};
ghost use Rattle.equality_prover.specs.Places.{place_of, places_of, table_of};

use law_clauses::{Argument, same_store_top, same_value_top, store_argument, value_argument};
use sqlite_items::Items;
use std::alloc::Global;
use toy_imp::NoMemory;

/// Whether two terms are the same name or are written alike.
pub fn is_identical(a: Argument<'_>, b: Argument<'_>) -> bool
    ensures { result ≡ identical (argument_of a.entry) (argument_of b.entry) }
{
    match (a, b) {
        (Argument::Name(x), Argument::Name(y)) => x == y,
        (Argument::Store(s), Argument::Store(t)) => s.same(t),
        (Argument::Value(v), Argument::Value(w)) => v.same(w),
        _ => false,
    }
}

/// Whether two terms have one top; two names have none.
pub fn have_same_top(a: Argument<'_>, b: Argument<'_>) -> bool
    ensures { result ≡ same_top (argument_of a.entry) (argument_of b.entry) }
{
    match (a, b) {
        (Argument::Store(s), Argument::Store(t)) => same_store_top(s, t),
        (Argument::Value(v), Argument::Value(w)) => same_value_top(v, w),
        _ => false,
    }
}

/// The argument of this number of a term; `None` exactly where it has fewer.
pub fn argument(a: Argument<'_>, n: usize) -> Option<Argument<'_>>
    ensures { option_map argument_of result ≡ slice_get (arguments (argument_of a.entry)) n }
{
    match a {
        Argument::Name(_) => None,
        Argument::Store(s) => store_argument(s, n),
        Argument::Value(v) => value_argument(v, n),
    }
}

/// The place where a term stands first; the number of terms where it stands nowhere.
#[tactic(auto, using(crate::proofs::Placing::none_left, crate::proofs::Placing::found, crate::proofs::Placing::goes_on))]
pub fn place_of(terms: &[Argument<'_>], a: Argument<'_>) -> usize
    ensures { result ≡ place_of (map argument_of terms.now) (argument_of a.entry) }
{
    for (i, b) in terms.iter().enumerate() {
        if is_identical(a, *b) {
            return i;
        }
    }
    terms.len()
}

/// Where the arguments of a term stand.
#[tactic(auto, using(crate::proofs::Placing::falls))]
fn row_of(alloc: Global, terms: &[Argument<'_>], a: Argument<'_>) -> Result<Items<usize>, NoMemory>
    ensures { IfOk result (λ row. row ≡ places_of (map argument_of terms.now) (arguments (argument_of a.entry))) }
{
    let mut row = Items::new(alloc);
    while let Some(b) = argument(a, row.len()) {
        row.push(place_of(terms, b))?;
    }
    Ok(row)
}

/// Where the arguments of each term stand.
pub fn table_of(alloc: Global, terms: &[Argument<'_>]) -> Result<Items<Items<usize>>, NoMemory>
    ensures { IfOk result (λ table. table ≡ table_of (map argument_of terms.now) (map argument_of terms.now)) }
{
    let mut table = Items::new(alloc);
    for a in terms {
        let row = row_of(alloc, terms, *a)?;
        table.push(row)?;
    }
    Ok(table)
}

/// Where each term stands first.
pub fn first_places(alloc: Global, terms: &[Argument<'_>]) -> Result<Vec<usize>, NoMemory>
    ensures { IfOk result (λ all. all.items ≡ places_of (map argument_of terms.now) (map argument_of terms.now)) }
{
    let mut all = Vec::new(alloc);
    for a in terms {
        all.push(place_of(terms, *a))?;
    }
    Ok(all)
}
