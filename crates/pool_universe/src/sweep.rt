//! What occurs in an obligation by numbers, each part once: one sweep over the marks of a pool, from the last number
//! down. A marked number marks those of its parts, which are smaller, so each is looked at once.

ghost use Rattle.std.specs.Prelude.{◌≡◌, ◌∷◌, [], ◌<◌, true, false, length, map, replicate, slice_get, slice_set, Some, IfOk, OnOk};
ghost use Rattle.std.specs.List.{flat_map, list_all};
ghost use Rattle.rule_terms.specs.Added.{added, added_all};
ghost use Rattle.rule_terms.specs.Parts.{obligation_parts};
ghost use Rattle.term_universe.specs.Universe.{ListsOnce};
ghost use Rattle.term_pool.specs.Numbered.{terms_of_nodes};
ghost use Rattle.term_pool.specs.Pooled.{obligation_in, obligation_numbered};
ghost use Rattle.pool_universe.specs.PooledParts.{part_numbered, part_in, top_parts, part_numbers, top_there, numbers_there, marked_all, is_set, part_same};
ghost use Rattle.pool_universe.specs.Roots.{obligation_roots, root_numbers, root_tests};

use crate::part::{PooledPart, copy_place};
use crate::roots::obligation_roots;
use indexmap::IndexSet;
use sqlite_items::Items;
use std::alloc::Global;
use term_pool::{Node, Pool, PooledObligation};
use toy_imp::NoMemory;

/// What occurs in an obligation by numbers of the pool: store terms, value terms, places and
/// parameters, each once and in any order.
pub fn occurring(
    alloc: Global,
    pool: &Pool,
    ob: &PooledObligation,
) -> Result<IndexSet<PooledPart>, NoMemory>
    requires { obligation_in pool.now ob.now ≡ true }
    ensures inside { IfOk result
        (λ ps. list_all (part_in (terms_of_nodes pool.now)) ps.keys ≡ true) }
    ensures once { IfOk result
        (λ ps. ListsOnce (map (part_numbered (terms_of_nodes pool.now)) ps.keys)
        (obligation_parts (obligation_numbered pool.now ob.now))) }
{
    let roots = obligation_roots(alloc, ob)?;
    let mut marks = no_marks(alloc, pool.len())?;
    let mut parts = IndexSet::new(alloc);
    mark_roots(roots.as_slice(), &mut marks, &mut parts)?;
    let mut at = pool.len();
    while at > 0 {
        at -= 1;
        if is_marked(&marks, at) {
            gather(alloc, pool, at, &mut marks, &mut parts)?;
        }
    }
    Ok(parts)
}

fn no_marks(alloc: Global, len: u32) -> Result<Items<bool>, NoMemory>
    ensures { IfOk result (λ ms. ms ≡ replicate len false) }
{
    let marks = vec![in alloc; false; len as usize]?;
    Ok(Items::from_vec(marks))
}

// Marks a number, where there is such a mark.
fn mark(marks: &mut Items<bool>, at: u32)
    ensures { marks.new ≡ slice_set marks.old at true }
{
    if (at as usize) < marks.len() {
        marks.set(at as usize, true);
    }
}

#[tactic(auto, unfolding(crate::specs::PooledParts::marked_all))]
fn mark_all(marks: &mut Items<bool>, numbers: &[u32])
    ensures { marks.new ≡ marked_all marks.old numbers.now }
{
    for n in numbers {
        mark(marks, *n);
    }
}

fn is_marked(marks: &Items<bool>, at: u32) -> bool
    ensures { result ≡ is_set (slice_get marks.now at) }
{
    match marks.get(at as usize) {
        Some(mark) => *mark,
        None => false,
    }
}

// Marks the numbers of roots; test parameters are found at once.
#[tactic(auto, unfolding(crate::specs::PooledParts::marked_all, rule_terms::specs::Added::added_all))]
fn mark_root(
    root: &PooledPart,
    marks: &mut Items<bool>,
    parts: &mut IndexSet<PooledPart>,
) -> Result<(), NoMemory>
    ensures marks { OnOk result (marks.new ≡ marked_all marks.old (root_numbers root.now)) }
    ensures parts { OnOk result
        (parts.new.keys ≡ added_all part_same parts.old.keys (root_tests root.now)) }
{
    match root {
        PooledPart::Store(n) => {
            mark(marks, *n);
            Ok(())
        }
        PooledPart::Value(n) => {
            mark(marks, *n);
            Ok(())
        }
        PooledPart::Test(k) => add_part(parts, PooledPart::Test(*k)),
        PooledPart::Place(_) => Ok(()),
        PooledPart::Expr(_) => Ok(()),
    }
}

#[tactic(auto, unfolding(crate::specs::PooledParts::marked_all, rule_terms::specs::Added::added_all))]
fn mark_roots(
    roots: &[PooledPart],
    marks: &mut Items<bool>,
    parts: &mut IndexSet<PooledPart>,
) -> Result<(), NoMemory>
    ensures marks { OnOk result
        (marks.new ≡ marked_all marks.old (flat_map root_numbers roots.now)) }
    ensures parts { OnOk result
        (parts.new.keys ≡ added_all part_same parts.old.keys (flat_map root_tests roots.now)) }
{
    for root in roots {
        mark_root(root, marks, parts)?;
    }
    Ok(())
}

// Marks the numbers of the parts of a number's node, and adds what occurs at its top.
fn gather(
    alloc: Global,
    pool: &Pool,
    at: u32,
    marks: &mut Items<bool>,
    parts: &mut IndexSet<PooledPart>,
) -> Result<(), NoMemory>
    ensures marks { OnOk result
        (marks.new ≡ marked_all marks.old (numbers_there (slice_get pool.now at))) }
    ensures parts { OnOk result
        (parts.new.keys ≡
        added_all part_same parts.old.keys (top_there at (slice_get pool.now at))) }
{
    match pool.node(at) {
        Some(node) => {
            mark_parts(node, marks);
            add_top(alloc, at, node, parts)
        }
        None => Ok(()),
    }
}

#[tactic(auto, using(crate::proofs::Marks::marked_append), unfolding(crate::specs::PooledParts::marked_all, crate::specs::PooledParts::part_numbers))]
fn mark_parts(node: &Node, marks: &mut Items<bool>)
    ensures { marks.new ≡ marked_all marks.old (part_numbers node.now) }
{
    match node {
        Node::L => {}
        Node::R => {}
        Node::Put(s, p, v) => {
            mark(marks, *s);
            mark_all(marks, p.indices.as_slice());
            mark(marks, *v);
        }
        Node::Run(_, s) => mark(marks, *s),
        Node::Num(_) => {}
        Node::Get(p, s) => {
            mark_all(marks, p.indices.as_slice());
            mark(marks, *s);
        }
        Node::Ev(_, s) => mark(marks, *s),
        Node::Add(a, b) | Node::Sub(a, b) | Node::Mul(a, b) => {
            mark(marks, *a);
            mark(marks, *b);
        }
    }
}

#[tactic(auto, unfolding(crate::specs::PooledParts::top_parts, rule_terms::specs::Added::added_all))]
fn add_top(
    alloc: Global,
    at: u32,
    node: &Node,
    parts: &mut IndexSet<PooledPart>,
) -> Result<(), NoMemory>
    ensures { OnOk result
        (parts.new.keys ≡ added_all part_same parts.old.keys (top_parts at node.now)) }
{
    match node {
        Node::L => add_part(parts, PooledPart::Store(at)),
        Node::R => add_part(parts, PooledPart::Store(at)),
        Node::Put(_, p, _) => {
            let place = copy_place(alloc, p)?;
            add_part(parts, PooledPart::Store(at))?;
            add_part(parts, PooledPart::Place(place))
        }
        Node::Run(_, _) => add_part(parts, PooledPart::Store(at)),
        Node::Num(_) => add_part(parts, PooledPart::Value(at)),
        Node::Get(p, _) => {
            let place = copy_place(alloc, p)?;
            add_part(parts, PooledPart::Value(at))?;
            add_part(parts, PooledPart::Place(place))
        }
        Node::Ev(k, _) => {
            add_part(parts, PooledPart::Value(at))?;
            add_part(parts, PooledPart::Expr(*k))
        }
        Node::Add(_, _) => add_part(parts, PooledPart::Value(at)),
        Node::Sub(_, _) => add_part(parts, PooledPart::Value(at)),
        Node::Mul(_, _) => add_part(parts, PooledPart::Value(at)),
    }
}

fn add_part(parts: &mut IndexSet<PooledPart>, part: PooledPart) -> Result<(), NoMemory>
    ensures { OnOk result (parts.new.keys ≡ added part_same parts.old.keys part) }
{
    parts.insert(part)?;
    Ok(())
}
