//! The conjunct by numbers where a pair of paths stops.
//! `specs/Replaced.antt` and the words of `parallel_wp` say what it stands for.

ghost use Rattle.std.specs.Prelude.{◌≡◌, true, IfOk, OnOk, OnErr};
ghost use Rattle.term_pool.specs.Numbered.{terms_of_nodes, has_store};
ghost use Rattle.term_pool.specs.Growth.{Adds};
ghost use Rattle.term_pool.specs.ObligationTerms.{conjunct_terms};
ghost use Rattle.term_pool.specs.Pooled.{conjunct_in, ConjunctOf};
ghost use Rattle.pool_goals.specs.Replaced.{conjunct_replaced};

use crate::items::put_conjunct_at;
use crate::memo::Memo;
use std::alloc::Global;
use term_pool::{Pool, PooledConjunct};
use toy_imp::NoMemory;

/// The conjunct with the stores of two numbers in place of L and R. Its terms that were missing are put into the
/// pool, in the order of a walk; a part that stands in it twice is looked at once. After want of memory the pool is as
/// it was.
pub fn conjunct_at(
    alloc: Global,
    pool: &mut Pool,
    left: u32,
    right: u32,
    c: &PooledConjunct,
) -> Result<PooledConjunct, NoMemory>
    requires left { has_store (terms_of_nodes pool.old) left ≡ true }
    requires right { has_store (terms_of_nodes pool.old) right ≡ true }
    requires numbers { conjunct_in (terms_of_nodes pool.old) c.now ≡ true }
    ensures stands { IfOk result
        (λ x. ConjunctOf pool.new x (conjunct_replaced pool.old left right c.now)) }
    ensures added { OnOk result
        (Adds pool.old pool.new (conjunct_terms (conjunct_replaced pool.old left right c.now))) }
    ensures same { OnErr result (pool.new ≡ pool.old) }
{
    let len = pool.len();
    let mut memo = Memo::new(alloc);
    match put_conjunct_at(alloc, pool, &mut memo, left, right, c) {
        Ok(x) => Ok(x),
        Err(e) => {
            pool.truncate(len);
            Err(e)
        }
    }
}
