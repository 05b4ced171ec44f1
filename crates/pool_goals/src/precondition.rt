//! What has to be true before a pair of paths by numbers, so that conjuncts are true where both arrive.
//! `specs/Before.antt` says what it is, in the words of `parallel_wp`.

ghost use Rattle.std.specs.Prelude.{◌≡◌, ◌++◌, true, map, IfOk, OnOk, OnErr};
ghost use Rattle.std.specs.List.{list_all};
ghost use Rattle.term_pool.specs.Numbered.{terms_of_nodes};
ghost use Rattle.term_pool.specs.Growth.{Adds, Extends};
ghost use Rattle.term_pool.specs.ObligationTerms.{conjuncts_terms};
ghost use Rattle.term_pool.specs.Pooled.{conjunct_in, ConjunctsOf};
ghost use Rattle.pool_goals.specs.Before.{path_in, behind, goals_numbered, preconditions_numbered};
ghost use Rattle.pool_goals.specs.Replaced.{ConjunctsAt, Sound};

use crate::items::put_conjunct_at;
use crate::memo::Memo;
use crate::path::PooledPath;
use sqlite_items::Items;
use std::alloc::Global;
use term_pool::{Pool, PooledAtom, PooledConjunct, PooledLiteral};
use toy_imp::NoMemory;

/// The conjuncts that have to be true before both paths, one for each, in order: behind the literals of both, the
/// conjunct at the stores where they stop. Terms of these that were missing are put into the pool, in the order of a
/// walk. After want of memory the pool is as it was.
pub fn before(
    alloc: Global,
    pool: &mut Pool,
    left: &PooledPath,
    right: &PooledPath,
    conjuncts: &[PooledConjunct],
) -> Result<Items<PooledConjunct>, NoMemory>
    requires left { path_in (terms_of_nodes pool.old) left.now ≡ true }
    requires right { path_in (terms_of_nodes pool.old) right.now ≡ true }
    requires numbers { list_all (conjunct_in (terms_of_nodes pool.old)) conjuncts.now ≡ true }
    ensures stands { IfOk result (λ xs. ConjunctsOf pool.new xs
        (preconditions_numbered pool.old left.now right.now conjuncts.now)) }
    ensures added { OnOk result (Adds pool.old pool.new
        (conjuncts_terms (goals_numbered pool.old left.now right.now conjuncts.now))) }
    ensures same { OnErr result (pool.new ≡ pool.old) }
{
    let len = pool.len();
    match put_before(alloc, pool, left, right, conjuncts) {
        Ok(all) => Ok(all),
        Err(e) => {
            pool.truncate(len);
            Err(e)
        }
    }
}

fn put_before(
    alloc: Global,
    pool: &mut Pool,
    left: &PooledPath,
    right: &PooledPath,
    conjuncts: &[PooledConjunct],
) -> Result<Items<PooledConjunct>, NoMemory>
    requires left { path_in (terms_of_nodes pool.old) left.now ≡ true }
    requires right { path_in (terms_of_nodes pool.old) right.now ≡ true }
    requires numbers { list_all (conjunct_in (terms_of_nodes pool.old)) conjuncts.now ≡ true }
    ensures stands { IfOk result (λ xs. ConjunctsOf pool.new xs
        (preconditions_numbered pool.old left.now right.now conjuncts.now)) }
    ensures added { OnOk result (Adds pool.old pool.new
        (conjuncts_terms (goals_numbered pool.old left.now right.now conjuncts.now))) }
    ensures kept { Extends pool.old pool.new }
{
    let mut memo = Memo::new(alloc);
    let goals = conjuncts_at(alloc, pool, &mut memo, left.store, right.store, conjuncts)?;
    all_behind(alloc, left, right, goals.as_slice())
}

fn conjuncts_at(
    alloc: Global,
    pool: &mut Pool,
    memo: &mut Memo,
    left: u32,
    right: u32,
    items: &[PooledConjunct],
) -> Result<Items<PooledConjunct>, NoMemory>
    requires { Sound pool.old left right memo.old }
    ensures replaced { IfOk result (λ ys. ConjunctsAt pool.old pool.new left right items.now ys) }
    ensures kept { Extends pool.old pool.new }
{
    let mut all = Items::new(alloc);
    for c in items {
        let y = put_conjunct_at(alloc, pool, memo, left, right, c)?;
        all.push(y)?;
    }
    Ok(all)
}

/// The conjuncts behind the literals of both paths, the left one's first.
fn all_behind(
    alloc: Global,
    left: &PooledPath,
    right: &PooledPath,
    goals: &[PooledConjunct],
) -> Result<Items<PooledConjunct>, NoMemory>
    ensures { IfOk result
        (λ ys. ys ≡ map (behind (left.now.literals ++ right.now.literals)) goals.now) }
{
    let mut all = Items::new(alloc);
    for goal in goals {
        let y = one_behind(alloc, left, right, goal)?;
        all.push(y)?;
    }
    Ok(all)
}

fn one_behind(
    alloc: Global,
    left: &PooledPath,
    right: &PooledPath,
    goal: &PooledConjunct,
) -> Result<PooledConjunct, NoMemory>
    ensures { IfOk result (λ y. y ≡ behind (left.now.literals ++ right.now.literals) goal.now) }
{
    let mut when = Items::new(alloc);
    add_copies(left.literals.as_slice(), &mut when)?;
    add_copies(right.literals.as_slice(), &mut when)?;
    add_copies(goal.when.as_slice(), &mut when)?;
    let gives = copy_given(&goal.gives);
    Ok(PooledConjunct { when, gives })
}

/// Adds equal literals, in their order.
fn add_copies(literals: &[PooledLiteral], all: &mut Items<PooledLiteral>) -> Result<(), NoMemory>
    ensures { OnOk result (all.new ≡ all.old ++ literals.now) }
{
    for x in literals {
        all.push(copy_literal(x))?;
    }
    Ok(())
}

fn copy_given(x: &Option<PooledLiteral>) -> Option<PooledLiteral>
    ensures { result ≡ x.now }
{
    match x {
        Some(x) => Some(copy_literal(x)),
        None => None,
    }
}

fn copy_literal(x: &PooledLiteral) -> PooledLiteral
    ensures { result ≡ x.now }
{
    PooledLiteral {
        sign: x.sign,
        atom: copy_atom(&x.atom),
    }
}

fn copy_atom(x: &PooledAtom) -> PooledAtom
    ensures { result ≡ x.now }
{
    match x {
        PooledAtom::SameName(x, y) => PooledAtom::SameName(*x, *y),
        PooledAtom::SameStore(a, b) => PooledAtom::SameStore(*a, *b),
        PooledAtom::SameValue(a, b) => PooledAtom::SameValue(*a, *b),
        PooledAtom::AtMost(a, b, by) => PooledAtom::AtMost(*a, *b, *by),
        PooledAtom::Ends(s) => PooledAtom::Ends(*s),
        PooledAtom::Holds(k, s) => PooledAtom::Holds(*k, *s),
    }
}
