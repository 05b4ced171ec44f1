//! What store terms and value terms mean in a setting, by their structure.
//! `specs/Meant.antt` says what the answers are.

ghost use Rattle.std.specs.Prelude.{◌≡◌, Some, IfOk, option_map};
ghost use Rattle.std.specs.Option.{SomeIff};
ghost use Rattle.toy_imp.specs.Store.{write};
ghost use Rattle.rule_terms.specs.TermView.{terms_of};
ghost use Rattle.term_meaning.specs.MaybeStore.{put_in, read_in};
ghost use Rattle.term_run.specs.Cells.{store_by};
ghost use Rattle.term_run.specs.Meant.{meant, store_in, value_of_term, values_of_terms, IsNarrowStore, IsNarrowValue, AreNarrow};

use crate::cells::{copy_cells, read};
use crate::fillings::{name_of, value_in};
use crate::meant::{Meant, Setting};
use crate::table::run_from;
use rule_terms::{StoreNode, StoreTerm, ValueNode, ValueTerm};
use sqlite_items::Items;
use std::alloc::Global;
use toy_imp::NoMemory;
use toy_run::Cell;

// What is meant, with a value written at a cell.
fn put(
    alloc: Global,
    before: Meant,
    name: Items<u8>,
    indices: Items<i128>,
    value: i128,
) -> Result<Meant, NoMemory>
    ensures { IfOk result (λ m. meant m ≡ option_map (λ o. put_in o (name, indices) value) (meant before)) }
{
    match before {
        Meant::Store(cells) => {
            let cells = with_cell(cells, name, indices, value)?;
            Ok(Meant::Store(cells))
        }
        Meant::Nothing => Ok(Meant::Nothing),
        Meant::Wide => Ok(Meant::Wide),
    }
}

#[tactic(auto, using(crate::proofs::Writing::store_more))]
fn with_cell(
    cells: Items<Cell>,
    name: Items<u8>,
    indices: Items<i128>,
    value: i128,
) -> Result<Items<Cell>, NoMemory>
    ensures { IfOk result (λ all. store_by all ≡ write (store_by cells) (name, indices) value) }
{
    let mut cells = cells;
    cells.push(Cell {
        name,
        indices,
        value,
    })?;
    Ok(cells)
}

// What a cell holds in what is meant.
fn read_meant(store: &Meant, name: &[u8], indices: &[i128]) -> Option<i128>
    ensures { result ≡ option_map (λ o. read_in o (name.now, indices.now)) (meant store.now) }
{
    match store {
        Meant::Store(cells) => Some(read(cells.as_slice(), name, indices)),
        Meant::Nothing => Some(0),
        Meant::Wide => None,
    }
}

fn side(alloc: Global, cells: &[Cell]) -> Result<Meant, NoMemory>
    ensures { IfOk result (λ m. meant m ≡ Some (Some (store_by cells.now))) }
{
    let cells = copy_cells(alloc, cells)?;
    Ok(Meant::Store(cells))
}

/// What a store term means: a store, nothing, or a number is too wide for an answer.
#[cycle(means)]
#[tactic(auto, unfolding(term_meaning::specs::Meaning::store_of, crate::specs::Narrow::NarrowStore))]
pub fn store_means(alloc: Global, w: &Setting, term: &StoreTerm) -> Result<Meant, NoMemory>
    ensures { IfOk result (λ m. SomeIff (meant m) (IsNarrowStore w.now term.now) (store_in w.now term.now)) }
{
    match &term.node {
        StoreNode::L => {
            let left = side(alloc, w.left.as_slice())?;
            Ok(left)
        }
        StoreNode::R => {
            let right = side(alloc, w.right.as_slice())?;
            Ok(right)
        }
        StoreNode::Put(s, p, v) => {
            let Some(indices) = values_mean(alloc, w, p.indices.as_slice())? else {
                return Ok(Meant::Wide);
            };
            let Some(value) = value_means(alloc, w, v.get())? else {
                return Ok(Meant::Wide);
            };
            let before = store_means(alloc, w, s.get())?;
            let name = name_of(alloc, &w.instance, p.name)?;
            let after = put(alloc, before, name, indices, value)?;
            Ok(after)
        }
        StoreNode::Run(k, s) => {
            let before = store_means(alloc, w, s.get())?;
            let after = run_from(alloc, w.table.as_slice(), *k, before)?;
            Ok(after)
        }
    }
}

// What a value term means, where it is narrow.
#[cycle(means)]
#[tactic(auto, unfolding(term_meaning::specs::Meaning::store_of, crate::specs::Narrow::NarrowStore))]
fn value_means(alloc: Global, w: &Setting, term: &ValueTerm) -> Result<Option<i128>, NoMemory>
    ensures { IfOk result (λ v. SomeIff v (IsNarrowValue w.now term.now) (value_of_term w.now term.now)) }
{
    match &term.node {
        ValueNode::Num(z) => Ok(Some(i128::from(*z))),
        ValueNode::Get(p, s) => {
            let Some(indices) = values_mean(alloc, w, p.indices.as_slice())? else {
                return Ok(None);
            };
            let store = store_means(alloc, w, s.get())?;
            let name = name_of(alloc, &w.instance, p.name)?;
            Ok(read_meant(&store, name.as_slice(), indices.as_slice()))
        }
        ValueNode::Ev(k, s) => {
            let store = store_means(alloc, w, s.get())?;
            let value = value_in(alloc, &w.instance, *k, &store)?;
            Ok(value)
        }
        ValueNode::Add(a, b) => {
            let Some((a, b)) = both_mean(alloc, w, a.get(), b.get())? else {
                return Ok(None);
            };
            Ok(a.checked_add(b))
        }
        ValueNode::Sub(a, b) => {
            let Some((a, b)) = both_mean(alloc, w, a.get(), b.get())? else {
                return Ok(None);
            };
            Ok(a.checked_sub(b))
        }
        ValueNode::Mul(a, b) => {
            let Some((a, b)) = both_mean(alloc, w, a.get(), b.get())? else {
                return Ok(None);
            };
            Ok(a.checked_mul(b))
        }
    }
}

// What two value terms mean.
#[cycle(means)]
fn both_mean(
    alloc: Global,
    w: &Setting,
    a: &ValueTerm,
    b: &ValueTerm,
) -> Result<Option<(i128, i128)>, NoMemory>
    ensures { IfOk result (λ o. SomeIff o (IsNarrowValue w.now a.now × IsNarrowValue w.now b.now) (value_of_term w.now a.now, value_of_term w.now b.now)) }
{
    let Some(a) = value_means(alloc, w, a)? else {
        return Ok(None);
    };
    let Some(b) = value_means(alloc, w, b)? else {
        return Ok(None);
    };
    Ok(Some((a, b)))
}

// What value terms mean, in their order.
#[cycle(means)]
#[tactic(auto, using(rule_terms::specs::TermFalls::value_item, crate::proofs::InOrder::narrow_at, crate::proofs::InOrder::values_none, crate::proofs::InOrder::narrow_none))]
fn values_mean(
    alloc: Global,
    w: &Setting,
    terms: &[ValueTerm],
) -> Result<Option<Items<i128>>, NoMemory>
    ensures { IfOk result (λ o. SomeIff o (AreNarrow w.now (terms_of terms.now)) (values_of_terms w.now (terms_of terms.now))) }
{
    let mut all = Items::new(alloc);
    for v in terms {
        let Some(z) = value_means(alloc, w, v)? else {
            return Ok(None);
        };
        all.push(z)?;
    }
    Ok(Some(all))
}
