//! Atoms, literals and conjuncts by numbers with two stores in place of L and R.
//! `specs/Replaced.antt` says what they stand for.

ghost use Rattle.std.specs.Prelude.{◌≡◌, IfOk, OnOk};
ghost use Rattle.term_pool.specs.Growth.{Extends};
ghost use Rattle.pool_goals.specs.Replaced.{AtomAt, LiteralAt, LiteralsAt, GivesAt, ConjunctAt, Sound};

use crate::memo::Memo;
use crate::numbers::number_at;
use sqlite_items::Items;
use std::alloc::Global;
use term_pool::{Pool, PooledAtom, PooledConjunct, PooledLiteral};
use toy_imp::NoMemory;

/// A conjunct with the stores of `left` and `right` for L and R.
pub fn put_conjunct_at(
    alloc: Global,
    pool: &mut Pool,
    memo: &mut Memo,
    left: u32,
    right: u32,
    c: &PooledConjunct,
) -> Result<PooledConjunct, NoMemory>
    requires { Sound pool.old left right memo.old }
    ensures replaced { IfOk result (λ y. ConjunctAt pool.old pool.new left right c.now y) }
    ensures sound { OnOk result (Sound pool.new left right memo.new) }
    ensures kept { Extends pool.old pool.new }
{
    let when = literals_at(alloc, pool, memo, left, right, c.when.as_slice())?;
    let gives = gives_at(alloc, pool, memo, left, right, &c.gives)?;
    Ok(PooledConjunct { when, gives })
}

fn gives_at(
    alloc: Global,
    pool: &mut Pool,
    memo: &mut Memo,
    left: u32,
    right: u32,
    x: &Option<PooledLiteral>,
) -> Result<Option<PooledLiteral>, NoMemory>
    requires { Sound pool.old left right memo.old }
    ensures replaced { IfOk result (λ y. GivesAt pool.old pool.new left right x.now y) }
    ensures sound { OnOk result (Sound pool.new left right memo.new) }
    ensures kept { Extends pool.old pool.new }
{
    match x {
        Some(x) => Ok(Some(literal_at(alloc, pool, memo, left, right, x)?)),
        None => Ok(None),
    }
}

fn literals_at(
    alloc: Global,
    pool: &mut Pool,
    memo: &mut Memo,
    left: u32,
    right: u32,
    items: &[PooledLiteral],
) -> Result<Items<PooledLiteral>, NoMemory>
    requires { Sound pool.old left right memo.old }
    ensures replaced { IfOk result (λ ys. LiteralsAt pool.old pool.new left right items.now ys) }
    ensures sound { OnOk result (Sound pool.new left right memo.new) }
    ensures kept { Extends pool.old pool.new }
{
    let mut all = Items::new(alloc);
    for x in items {
        let y = literal_at(alloc, pool, memo, left, right, x)?;
        all.push(y)?;
    }
    Ok(all)
}

fn literal_at(
    alloc: Global,
    pool: &mut Pool,
    memo: &mut Memo,
    left: u32,
    right: u32,
    x: &PooledLiteral,
) -> Result<PooledLiteral, NoMemory>
    requires { Sound pool.old left right memo.old }
    ensures replaced { IfOk result (λ y. LiteralAt pool.old pool.new left right x.now y) }
    ensures sound { OnOk result (Sound pool.new left right memo.new) }
    ensures kept { Extends pool.old pool.new }
{
    let atom = atom_at(alloc, pool, memo, left, right, &x.atom)?;
    Ok(PooledLiteral { sign: x.sign, atom })
}

fn atom_at(
    alloc: Global,
    pool: &mut Pool,
    memo: &mut Memo,
    left: u32,
    right: u32,
    x: &PooledAtom,
) -> Result<PooledAtom, NoMemory>
    requires { Sound pool.old left right memo.old }
    ensures replaced { IfOk result (λ y. AtomAt pool.old pool.new left right x.now y) }
    ensures sound { OnOk result (Sound pool.new left right memo.new) }
    ensures kept { Extends pool.old pool.new }
{
    match x {
        PooledAtom::SameName(x, y) => Ok(PooledAtom::SameName(*x, *y)),
        PooledAtom::SameStore(a, b) => {
            let a = number_at(alloc, pool, memo, left, right, *a)?;
            let b = number_at(alloc, pool, memo, left, right, *b)?;
            Ok(PooledAtom::SameStore(a, b))
        }
        PooledAtom::SameValue(a, b) => {
            let a = number_at(alloc, pool, memo, left, right, *a)?;
            let b = number_at(alloc, pool, memo, left, right, *b)?;
            Ok(PooledAtom::SameValue(a, b))
        }
        PooledAtom::AtMost(a, b, by) => {
            let a = number_at(alloc, pool, memo, left, right, *a)?;
            let b = number_at(alloc, pool, memo, left, right, *b)?;
            Ok(PooledAtom::AtMost(a, b, *by))
        }
        PooledAtom::Ends(s) => {
            let s = number_at(alloc, pool, memo, left, right, *s)?;
            Ok(PooledAtom::Ends(s))
        }
        PooledAtom::Holds(k, s) => {
            let s = number_at(alloc, pool, memo, left, right, *s)?;
            Ok(PooledAtom::Holds(*k, s))
        }
    }
}
