//! Numbers of terms with two stores in place of L and R: a walk over the nodes of a pool, in which a number that was
//! met before is looked up. `specs/Replaced.antt` says what the numbers stand for.

ghost use Rattle.std.specs.Prelude.{◌≡◌, IfOk, OnOk};
ghost use Rattle.term_pool.specs.Growth.{Extends};
ghost use Rattle.pool_goals.specs.Replaced.{NumberAt, NumbersAt, Sound};

use crate::memo::Memo;
use sqlite_items::Items;
use std::alloc::Global;
use term_pool::{Node, Pool, PooledPlace};
use toy_imp::NoMemory;

/// The number of a number's term with the stores of `left` and `right` for L and R. A number of no term stays.
#[cycle(put_at)]
pub fn number_at(
    alloc: Global,
    pool: &mut Pool,
    memo: &mut Memo,
    left: u32,
    right: u32,
    n: u32,
) -> Result<u32, NoMemory>
    requires { Sound pool.old left right memo.old }
    ensures replaced { IfOk result (λ m. NumberAt pool.old pool.new left right n m) }
    ensures sound { OnOk result (Sound pool.new left right memo.new) }
    ensures kept { Extends pool.old pool.new }
{
    if n >= pool.len() {
        return Ok(n);
    }
    if let Some(m) = memo.get(n) {
        return Ok(m);
    }
    let m = node_at(alloc, pool, memo, left, right, n)?;
    memo.keep(n, m)?;
    Ok(m)
}

/// The same of a number that was not met before, by its node.
#[cycle(put_at)]
fn node_at(
    alloc: Global,
    pool: &mut Pool,
    memo: &mut Memo,
    left: u32,
    right: u32,
    n: u32,
) -> Result<u32, NoMemory>
    requires { Sound pool.old left right memo.old }
    ensures replaced { IfOk result (λ m. NumberAt pool.old pool.new left right n m) }
    ensures sound { OnOk result (Sound pool.new left right memo.new) }
    ensures kept { Extends pool.old pool.new }
{
    let _len = pool.len();
    let node = match pool.node(n) {
        Some(node) => copy_node(alloc, node)?,
        None => return Ok(n),
    };
    match &node {
        Node::L => Ok(left),
        Node::R => Ok(right),
        Node::Put(s, p, v) => {
            let s = number_at(alloc, pool, memo, left, right, *s)?;
            let indices = numbers_at(alloc, pool, memo, left, right, p.indices.as_slice())?;
            let v = number_at(alloc, pool, memo, left, right, *v)?;
            let name = p.name;
            pool.add(Node::Put(s, PooledPlace { name, indices }, v))
        }
        Node::Run(k, s) => {
            let s = number_at(alloc, pool, memo, left, right, *s)?;
            pool.add(Node::Run(*k, s))
        }
        Node::Num(_) => Ok(n),
        Node::Get(p, s) => {
            let indices = numbers_at(alloc, pool, memo, left, right, p.indices.as_slice())?;
            let s = number_at(alloc, pool, memo, left, right, *s)?;
            let name = p.name;
            pool.add(Node::Get(PooledPlace { name, indices }, s))
        }
        Node::Ev(k, s) => {
            let s = number_at(alloc, pool, memo, left, right, *s)?;
            pool.add(Node::Ev(*k, s))
        }
        Node::Add(a, b) => {
            let a = number_at(alloc, pool, memo, left, right, *a)?;
            let b = number_at(alloc, pool, memo, left, right, *b)?;
            pool.add(Node::Add(a, b))
        }
        Node::Sub(a, b) => {
            let a = number_at(alloc, pool, memo, left, right, *a)?;
            let b = number_at(alloc, pool, memo, left, right, *b)?;
            pool.add(Node::Sub(a, b))
        }
        Node::Mul(a, b) => {
            let a = number_at(alloc, pool, memo, left, right, *a)?;
            let b = number_at(alloc, pool, memo, left, right, *b)?;
            pool.add(Node::Mul(a, b))
        }
    }
}

/// The same of numbers of values beside one another.
#[cycle(put_at)]
fn numbers_at(
    alloc: Global,
    pool: &mut Pool,
    memo: &mut Memo,
    left: u32,
    right: u32,
    numbers: &[u32],
) -> Result<Items<u32>, NoMemory>
    requires { Sound pool.old left right memo.old }
    ensures replaced { IfOk result (λ ms. NumbersAt pool.old pool.new left right numbers.now ms) }
    ensures sound { OnOk result (Sound pool.new left right memo.new) }
    ensures kept { Extends pool.old pool.new }
{
    let mut all = Items::new(alloc);
    for n in numbers {
        let m = number_at(alloc, pool, memo, left, right, *n)?;
        all.push(m)?;
    }
    Ok(all)
}

/// An equal node.
fn copy_node(alloc: Global, node: &Node) -> Result<Node, NoMemory>
    ensures { IfOk result (λ n. n ≡ node.now) }
{
    match node {
        Node::L => Ok(Node::L),
        Node::R => Ok(Node::R),
        Node::Put(s, p, v) => Ok(Node::Put(*s, copy_place(alloc, p)?, *v)),
        Node::Run(k, s) => Ok(Node::Run(*k, *s)),
        Node::Num(z) => Ok(Node::Num(*z)),
        Node::Get(p, s) => Ok(Node::Get(copy_place(alloc, p)?, *s)),
        Node::Ev(k, s) => Ok(Node::Ev(*k, *s)),
        Node::Add(a, b) => Ok(Node::Add(*a, *b)),
        Node::Sub(a, b) => Ok(Node::Sub(*a, *b)),
        Node::Mul(a, b) => Ok(Node::Mul(*a, *b)),
    }
}

/// An equal place.
fn copy_place(alloc: Global, p: &PooledPlace) -> Result<PooledPlace, NoMemory>
    ensures { IfOk result (λ q. q ≡ p.now) }
{
    let indices = Items::from_slice(alloc, p.indices.as_slice())?;
    let name = p.name;
    Ok(PooledPlace { name, indices })
}
