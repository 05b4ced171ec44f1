//! Nodes and depth of terms, literals and conjuncts, each standing still at 2^64 - 1.
//! `specs/Counts.antt` and `specs/Term.antt` say what is counted.

ghost use Rattle.std.specs.Prelude.{◌≡◌, ◌+◌, suc, max};
ghost use Rattle.rule_terms.specs.Term.{store_depth, value_depth, terms_depth};
ghost use Rattle.rule_terms.specs.TermView.{terms_of};
ghost use Rattle.rule_terms.specs.Counts.{saturated, store_nodes, value_nodes, terms_nodes, atom_nodes, atom_depth, literal_nodes, literal_depth, literals_nodes, literals_depth, conjunct_nodes, conjunct_depth, conjuncts_nodes, conjuncts_depth, obligation_nodes, obligation_depth};

use crate::obligation::{Atom, Conjunct, Literal, Obligation};
use crate::term::{StoreNode, StoreTerm, ValueNode, ValueTerm};

/// How large something is.
#[derive(Clone, Copy, Debug, PartialEq, Eq)]
pub struct Size {
    /// Constructors of store and value terms, with repeats, and literals.
    pub nodes: u64,
    /// The greatest number of nested constructors.
    pub depth: u64,
}

impl Size {
    /// The size of nothing.
    pub fn none() -> Size
        ensures nodes { result.nodes ≡ 0 }
        ensures depth { result.depth ≡ 0 }
    {
        Size { nodes: 0, depth: 0 }
    }

    /// The size of two things beside one another.
    pub fn beside(self, other: Size) -> Size
        ensures nodes { result.nodes ≡ saturated (self.nodes + other.nodes) }
        ensures depth { result.depth ≡ max self.depth other.depth }
    {
        Size {
            nodes: self.nodes.saturating_add(other.nodes),
            depth: self.depth.max(other.depth),
        }
    }

    /// The size with a constructor round it.
    pub fn inside(self) -> Size
        ensures nodes { result.nodes ≡ saturated (self.nodes + 1) }
        ensures depth { result.depth ≡ saturated (self.depth + 1) }
    {
        Size {
            nodes: self.nodes.saturating_add(1),
            depth: self.depth.saturating_add(1),
        }
    }

    /// The size with a literal round it, which is no constructor.
    pub fn as_literal(self) -> Size
        ensures nodes { result.nodes ≡ saturated (self.nodes + 1) }
        ensures depth { result.depth ≡ self.depth }
    {
        Size {
            nodes: self.nodes.saturating_add(1),
            depth: self.depth,
        }
    }
}

impl StoreTerm {
    /// Its nodes and its depth.
    #[cycle(size)]
    #[tactic(auto, unfolding(crate::specs::Counts::store_nodes))]
    pub fn size(&self) -> Size
        ensures nodes { result.nodes ≡ saturated (store_nodes self.now) }
        ensures depth { result.depth ≡ saturated (store_depth self.now) }
    {
        match &self.node {
            StoreNode::L => Size::none().inside(),
            StoreNode::R => Size::none().inside(),
            StoreNode::Put(s, p, v) => {
                let others = values_size(p.indices.as_slice()).beside(v.get().size());
                s.get().size().beside(others).inside()
            }
            StoreNode::Run(_, s) => s.get().size().inside(),
        }
    }
}

impl ValueTerm {
    /// Its nodes and its depth.
    #[cycle(size)]
    #[tactic(auto, unfolding(crate::specs::Counts::value_nodes))]
    pub fn size(&self) -> Size
        ensures nodes { result.nodes ≡ saturated (value_nodes self.now) }
        ensures depth { result.depth ≡ saturated (value_depth self.now) }
    {
        match &self.node {
            ValueNode::Num(_) => Size::none().inside(),
            ValueNode::Get(p, s) => values_size(p.indices.as_slice())
                .beside(s.get().size())
                .inside(),
            ValueNode::Ev(_, s) => s.get().size().inside(),
            ValueNode::Add(a, b) | ValueNode::Sub(a, b) | ValueNode::Mul(a, b) => {
                a.get().size().beside(b.get().size()).inside()
            }
        }
    }
}

/// Nodes and depth of value terms beside one another.
#[cycle(size)]
#[tactic(auto, using(crate::specs::TermFalls::value_item), unfolding(crate::specs::Counts::terms_nodes))]
pub fn values_size(items: &[ValueTerm]) -> Size
    ensures nodes { result.nodes ≡ saturated (terms_nodes (terms_of items.now)) }
    ensures depth { result.depth ≡ saturated (terms_depth (terms_of items.now)) }
{
    let mut all = Size::none();
    for v in items {
        all = all.beside(v.size());
    }
    all
}

impl Atom {
    /// Nodes and depth of its terms.
    #[tactic(auto, unfolding(crate::specs::Counts::atom_nodes))]
    pub fn size(&self) -> Size
        ensures nodes { result.nodes ≡ saturated (atom_nodes self.now) }
        ensures depth { result.depth ≡ saturated (atom_depth self.now) }
    {
        match self {
            Atom::SameName(_, _) => Size::none(),
            Atom::SameStore(a, b) => a.size().beside(b.size()),
            Atom::SameValue(a, b) => a.size().beside(b.size()),
            Atom::AtMost(a, b, _) => a.size().beside(b.size()),
            Atom::Ends(s) => s.size(),
            Atom::Holds(_, s) => s.size(),
        }
    }
}

impl Literal {
    /// Its nodes, of which it is one itself, and its depth.
    pub fn size(&self) -> Size
        ensures nodes { result.nodes ≡ saturated (literal_nodes self.now) }
        ensures depth { result.depth ≡ saturated (literal_depth self.now) }
    {
        self.atom.size().as_literal()
    }
}

/// Nodes and depth of literals beside one another.
pub fn literals_size(items: &[Literal]) -> Size
    ensures nodes { result.nodes ≡ saturated (literals_nodes items.now) }
    ensures depth { result.depth ≡ saturated (literals_depth items.now) }
{
    let mut all = Size::none();
    for l in items {
        all = all.beside(l.size());
    }
    all
}

impl Conjunct {
    /// Its nodes and its depth.
    pub fn size(&self) -> Size
        ensures nodes { result.nodes ≡ saturated (conjunct_nodes self.now) }
        ensures depth { result.depth ≡ saturated (conjunct_depth self.now) }
    {
        let when = literals_size(self.when.as_slice());
        match &self.gives {
            Some(l) => when.beside(l.size()),
            None => when,
        }
    }
}

/// Nodes and depth of conjuncts beside one another.
pub fn conjuncts_size(items: &[Conjunct]) -> Size
    ensures nodes { result.nodes ≡ saturated (conjuncts_nodes items.now) }
    ensures depth { result.depth ≡ saturated (conjuncts_depth items.now) }
{
    let mut all = Size::none();
    for c in items {
        all = all.beside(c.size());
    }
    all
}

impl Obligation {
    /// Its nodes and its depth, over known conjuncts, path and goal.
    pub fn size(&self) -> Size
        ensures nodes { result.nodes ≡ saturated (obligation_nodes self.now) }
        ensures depth { result.depth ≡ saturated (obligation_depth self.now) }
    {
        let behind = literals_size(self.path.as_slice()).beside(self.goal.size());
        conjuncts_size(self.known.as_slice()).beside(behind)
    }
}
