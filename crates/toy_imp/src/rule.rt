//! Rewrite rules: parameters, side conditions, a method of proof and two sides.
//! `specs/Valid.antt` says when a rule is valid.

ghost use Rattle.std.specs.Prelude.{◌≡◌, IfOk};

use crate::block::Block;
use crate::condition::{Condition, copy_conditions};
use crate::no_memory::NoMemory;
use crate::param::{Param, copy_params};
use sqlite_items::Items;
use std::alloc::Global;

/// How a rule is to be proved. It has no part in when the rule is valid.
#[derive(Clone, Copy, Debug, PartialEq, Eq)]
pub enum Method {
    /// The two sides are run side by side.
    Simulate,
    /// Two nests of loops make the same turns in another order.
    Permute,
    /// Rules that are proved lead from the left side to the right.
    Chain,
    /// Loops are cut into tiles of constant sizes.
    Tile,
}

/// Which pairs of points a proof by simulation relates. It has no part in when the rule is valid.
#[derive(Drop)]
pub enum CutList {
    /// The pairs that the rule's shape gives.
    Default,
    /// Pairs of a point of the left side and one of the right side.
    Listed(Items<(u32, u32)>),
}

/// A rewrite rule: for each instance that meets the conditions, `left` may become `right`.
#[derive(Drop)]
pub struct Rule {
    /// The bytes of the title.
    pub title: Items<u8>,
    /// In order of declaration; a parameter's number is its place here, from 0.
    pub params: Items<Param>,
    pub conditions: Items<Condition>,
    pub method: Method,
    pub cuts: CutList,
    pub left: Block,
    pub right: Block,
}

impl CutList {
    /// An equal list.
    pub fn copy(&self, alloc: Global) -> Result<CutList, NoMemory>
        ensures { IfOk result (λ c. c ≡ self.now) }
    {
        match self {
            CutList::Default => Ok(CutList::Default),
            CutList::Listed(pairs) => {
                let pairs = Items::from_slice(alloc, pairs.as_slice())?;
                Ok(CutList::Listed(pairs))
            }
        }
    }
}

impl Rule {
    /// An equal rule.
    pub fn copy(&self, alloc: Global) -> Result<Rule, NoMemory>
        ensures { IfOk result (λ r. r ≡ self.now) }
    {
        let left = self.left.copy(alloc)?;
        let right = self.right.copy(alloc)?;
        copy_around(alloc, self, left, right)
    }
}

// The rule with sides that are copied already.
fn copy_around(alloc: Global, rule: &Rule, left: Block, right: Block) -> Result<Rule, NoMemory>
    ensures { IfOk result (λ r. r ≡ record rule.now { left = left; right = right }) }
{
    let title = Items::from_slice(alloc, rule.title.as_slice())?;
    let params = copy_params(alloc, rule.params.as_slice())?;
    let conditions = copy_conditions(alloc, rule.conditions.as_slice())?;
    let cuts = rule.cuts.copy(alloc)?;
    Ok(Rule {
        title,
        params,
        conditions,
        method: rule.method,
        cuts,
        left,
        right,
    })
}
