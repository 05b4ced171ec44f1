//! A pool of terms: each node once, its parts before it, named by their numbers.
//! `specs/Numbered.antt` says what a number stands for, `specs/Growth.antt` how a pool grows.

ghost use Rattle.std.specs.Prelude.{◌≡◌, [], ◌∷◌, ◌++◌, length, take, slice_get, true, Some, IfOk, OnOk, OnErr, IfSome, IfNone};
ghost use Rattle.std.specs.Option.{option_copied};
ghost use Rattle.term_pool.specs.Numbered.{node_term, terms_of_nodes, names_earlier, IsNumber, IsPool, Stands};
ghost use Rattle.term_pool.specs.Growth.{Adds};
ghost use Rattle.term_pool.specs.Kept.{IsMissing};

use crate::node::Node;
use indexmap::IndexMap;
use rule_terms::Size;
use std::alloc::Global;
use std::marker::Model;
use toy_imp::NoMemory;

/// Terms by numbers. A contract sees the list of nodes, which is a pool by the clause `pool` of `len`.
#[derive(Drop)]
pub struct Pool {
    /// Each node with the size of its term, in the order of numbers.
    pub(crate) sizes: IndexMap<Node, Size>,
}

impl Model for Pool {
    ghost use Rattle.std.specs.Prelude.{List};
    ghost use Rattle.std.specs.Coded.{coded_list};
    ghost use Rattle.std.specs.Map.{keys_of};
    ghost use Rattle.term_pool.specs.declared.node.Node.{Node};
    ghost use Rattle.term_pool.specs.contracts.node.Node.{the_row};
    ghost use Rattle.term_pool.specs.Kept.{IsKept};

    ghost Value = { List Node };

    ghost coded = { coded_list the_row.coded };

    ghost view = { λ pool. keys_of pool.sizes.entries };

    ghost invariant = { λ pool. IsKept pool.sizes.entries };
}

impl Pool {
    /// The pool without nodes.
    #[tactic(auto, using(crate::proofs::Keeping::kept_none))]
    pub fn new(alloc: Global) -> Pool
        ensures { result ≡ [] }
    {
        Pool {
            sizes: IndexMap::new(alloc),
        }
    }

    /// How many nodes there are.
    pub fn len(&self) -> u32
        ensures len { result ≡ length self.now }
        ensures pool { IsPool self.now }
    {
        self.sizes.len() as u32
    }

    /// The node of a number. Its parts have smaller numbers, and its term is made of theirs.
    #[tactic(auto, using(crate::proofs::Different::node_stands))]
    pub fn node(&self, at: u32) -> Option<&Node>
        ensures node { option_copied result ≡ slice_get self.now at }
        ensures stands { IfSome result (λ n. Stands (terms_of_nodes self.now) at n.now) }
    {
        let _len = self.len();
        match self.node_at(at) {
            Some(node) => Some(node),
            None => None,
        }
    }

    fn node_at(&self, at: u32) -> Option<&Node>
        ensures { option_copied result ≡ slice_get self.now at }
    {
        match self.sizes.get_index(at as usize) {
            Some((node, _)) => Some(node),
            None => None,
        }
    }

    /// The number of a node.
    #[tactic(auto, using(crate::proofs::Keeping::found_node, crate::proofs::Keeping::not_found))]
    pub fn find(&self, node: &Node) -> Option<u32>
        ensures found { IfSome result (λ i. slice_get self.now i ≡ Some node.now) }
        ensures missing { IfNone result (IsMissing self.now node.now) }
        ensures pool { IsPool self.now }
    {
        match self.sizes.get_index_of(node) {
            Some(i) => Some(i as u32),
            None => None,
        }
    }

    /// The number of a node, whose parts have numbers: its own where it is there, else the next,
    /// at which it is put. After want of memory the pool is as it was.
    #[tactic(auto, using(crate::proofs::Growing::number_known, crate::proofs::Growing::known_node, crate::proofs::Growing::number_new, crate::proofs::Growing::new_node))]
    pub fn add(&mut self, node: Node) -> Result<u32, NoMemory>
        requires { names_earlier (terms_of_nodes self.old) node ≡ true }
        ensures number { IfOk result (λ n. IsNumber self.new n (node_term self.old node)) }
        ensures added { OnOk result (Adds self.old self.new (node_term self.old node ∷ [])) }
        ensures same { OnErr result (self.new ≡ self.old) }
    {
        match self.find(&node) {
            Some(at) => Ok(at),
            None => self.push(node),
        }
    }

    // Puts a node at the end.
    #[tactic(auto, using(crate::proofs::Keeping::view_put))]
    fn push(&mut self, node: Node) -> Result<u32, NoMemory>
        requires names { names_earlier (terms_of_nodes self.old) node ≡ true }
        requires missing { IsMissing self.old node }
        ensures number { IfOk result (λ n. n ≡ length self.old) }
        ensures list { OnOk result (self.new ≡ self.old ++ node ∷ []) }
        ensures same { OnErr result (self.new ≡ self.old) }
    {
        let at = self.len();
        if at == u32::MAX {
            return Err(NoMemory);
        }
        let size = self.node_size(&node);
        self.sizes.insert(node, size)?;
        Ok(at)
    }

    /// Keeps the first `len` nodes, all where there are no more.
    #[tactic(auto, using(crate::proofs::Keeping::view_taken))]
    pub fn truncate(&mut self, len: u32)
        ensures { self.new ≡ take len self.old }
    {
        self.sizes.truncate(len as usize);
    }
}
