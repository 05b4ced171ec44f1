//! Nodes and depth of terms by look-up: a pool keeps those of each number, standing still at 2^64 - 1.
//! A part that stands in a term twice counts twice, as in `rule_terms`, `specs/Counts.antt`.

ghost use Rattle.std.specs.Prelude.{◌≡◌, slice_get};
ghost use Rattle.rule_terms.specs.Counts.{saturated};
ghost use Rattle.term_pool.specs.Numbered.{terms_of_nodes};
ghost use Rattle.term_pool.specs.Kept.{nodes_there, numbers_nodes, parts_nodes, depth_there, numbers_depth, parts_depth};

use crate::node::Node;
use crate::pool::Pool;
use rule_terms::Size;

impl Pool {
    /// The nodes and the depth of a number's term, and 0 where there is no such number.
    #[tactic(auto, using(crate::proofs::Keeping::size_found, crate::proofs::Keeping::size_missing))]
    pub fn size(&self, at: u32) -> Size
        ensures nodes { result.nodes ≡ saturated (nodes_there (slice_get (terms_of_nodes self.now) at)) }
        ensures depth { result.depth ≡ saturated (depth_there (slice_get (terms_of_nodes self.now) at)) }
    {
        match self.sizes.get_index(at as usize) {
            Some((_, size)) => *size,
            None => Size::none(),
        }
    }

    /// The nodes of a number's term, and 0 where there is no such number.
    pub fn nodes(&self, at: u32) -> u64
        ensures { result ≡ saturated (nodes_there (slice_get (terms_of_nodes self.now) at)) }
    {
        self.size(at).nodes
    }

    /// The size of a node's term, from those of its parts.
    #[tactic(auto, unfolding(crate::specs::Kept::parts_nodes, crate::specs::Kept::parts_depth))]
    pub(crate) fn node_size(&self, node: &Node) -> Size
        ensures nodes { result.nodes ≡ saturated (parts_nodes (terms_of_nodes self.now) node.now) }
        ensures depth { result.depth ≡ saturated (parts_depth (terms_of_nodes self.now) node.now) }
    {
        match node {
            Node::L => Size::none().inside(),
            Node::R => Size::none().inside(),
            Node::Put(s, p, v) => {
                let others = self.all_sizes(p.indices.as_slice()).beside(self.size(*v));
                self.size(*s).beside(others).inside()
            }
            Node::Run(_, s) => self.size(*s).inside(),
            Node::Num(_) => Size::none().inside(),
            Node::Get(p, s) => self
                .all_sizes(p.indices.as_slice())
                .beside(self.size(*s))
                .inside(),
            Node::Ev(_, s) => self.size(*s).inside(),
            Node::Add(a, b) | Node::Sub(a, b) | Node::Mul(a, b) => {
                self.size(*a).beside(self.size(*b)).inside()
            }
        }
    }

    /// The size of the terms of numbers beside one another.
    #[tactic(auto, using(crate::proofs::Counting::next_nodes, crate::proofs::Counting::all_nodes, crate::proofs::Counting::next_depth, crate::proofs::Counting::all_depth))]
    fn all_sizes(&self, numbers: &[u32]) -> Size
        ensures nodes { result.nodes ≡ saturated (numbers_nodes (terms_of_nodes self.now) numbers.now) }
        ensures depth { result.depth ≡ saturated (numbers_depth (terms_of_nodes self.now) numbers.now) }
    {
        let mut all = Size::none();
        for n in numbers {
            all = all.beside(self.size(*n));
        }
        all
    }
}
