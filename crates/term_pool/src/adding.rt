//! Terms put into a pool: nodes that are missing go last, parts before the whole.
//! `specs/Growth.antt` says in which order; a term that is there takes a look-up for each node.

ghost use Rattle.std.specs.Prelude.{◌≡◌, IfOk, OnOk, OnErr};
ghost use Rattle.rule_terms.specs.Term.{num};
ghost use Rattle.rule_terms.specs.TermView.{terms_of};
ghost use Rattle.term_pool.specs.Numbered.{a_store, a_value, IsNumber, AreNumbers};
ghost use Rattle.term_pool.specs.Growth.{Adds, Extends, store_terms, value_terms, indices_terms};

use crate::node::{Node, PooledPlace};
use crate::pool::Pool;
use rule_terms::{StoreNode, StoreTerm, ValueNode, ValueTerm};
use sqlite_items::Items;
use std::alloc::Global;
use toy_imp::NoMemory;

impl Pool {
    /// The number of a store term. After want of memory the pool is as it was.
    pub fn add_store(&mut self, alloc: Global, s: &StoreTerm) -> Result<u32, NoMemory>
        ensures number { IfOk result (λ n. IsNumber self.new n (a_store s.now)) }
        ensures added { OnOk result (Adds self.old self.new (store_terms s.now)) }
        ensures same { OnErr result (self.new ≡ self.old) }
    {
        let len = self.len();
        match self.put_store(alloc, s) {
            Ok(n) => Ok(n),
            Err(e) => {
                self.truncate(len);
                Err(e)
            }
        }
    }

    /// The number of a value term. After want of memory the pool is as it was.
    pub fn add_value(&mut self, alloc: Global, v: &ValueTerm) -> Result<u32, NoMemory>
        ensures number { IfOk result (λ n. IsNumber self.new n (a_value v.now)) }
        ensures added { OnOk result (Adds self.old self.new (value_terms v.now)) }
        ensures same { OnErr result (self.new ≡ self.old) }
    {
        let len = self.len();
        match self.put_value(alloc, v) {
            Ok(n) => Ok(n),
            Err(e) => {
                self.truncate(len);
                Err(e)
            }
        }
    }

    /// The number of a store term; after want of memory some of its parts may stand at the end.
    #[cycle(put_term)]
    pub(crate) fn put_store(&mut self, alloc: Global, s: &StoreTerm) -> Result<u32, NoMemory>
        ensures number { IfOk result (λ n. IsNumber self.new n (a_store s.now)) }
        ensures added { OnOk result (Adds self.old self.new (store_terms s.now)) }
        ensures kept { OnErr result (Extends self.old self.new) }
    {
        match &s.node {
            StoreNode::L => self.add(Node::L),
            StoreNode::R => self.add(Node::R),
            StoreNode::Put(s, p, v) => {
                let s = self.put_store(alloc, s.get())?;
                let indices = self.put_values(alloc, p.indices.as_slice())?;
                let v = self.put_value(alloc, v.get())?;
                let name = p.name;
                self.add(Node::Put(s, PooledPlace { name, indices }, v))
            }
            StoreNode::Run(k, s) => {
                let s = self.put_store(alloc, s.get())?;
                self.add(Node::Run(*k, s))
            }
        }
    }

    /// The same of a value term.
    #[cycle(put_term)]
    pub(crate) fn put_value(&mut self, alloc: Global, v: &ValueTerm) -> Result<u32, NoMemory>
        ensures number { IfOk result (λ n. IsNumber self.new n (a_value v.now)) }
        ensures added { OnOk result (Adds self.old self.new (value_terms v.now)) }
        ensures kept { OnErr result (Extends self.old self.new) }
    {
        match &v.node {
            ValueNode::Num(z) => self.add_num(*z),
            ValueNode::Get(p, s) => {
                let indices = self.put_values(alloc, p.indices.as_slice())?;
                let s = self.put_store(alloc, s.get())?;
                let name = p.name;
                self.add(Node::Get(PooledPlace { name, indices }, s))
            }
            ValueNode::Ev(k, s) => {
                let s = self.put_store(alloc, s.get())?;
                self.add(Node::Ev(*k, s))
            }
            ValueNode::Add(a, b) => {
                let a = self.put_value(alloc, a.get())?;
                let b = self.put_value(alloc, b.get())?;
                self.add(Node::Add(a, b))
            }
            ValueNode::Sub(a, b) => {
                let a = self.put_value(alloc, a.get())?;
                let b = self.put_value(alloc, b.get())?;
                self.add(Node::Sub(a, b))
            }
            ValueNode::Mul(a, b) => {
                let a = self.put_value(alloc, a.get())?;
                let b = self.put_value(alloc, b.get())?;
                self.add(Node::Mul(a, b))
            }
        }
    }

    /// The same of value terms beside one another.
    #[cycle(put_term)]
    #[tactic(auto, using(rule_terms::specs::TermFalls::value_item, crate::proofs::PutTerms::next_adds, crate::proofs::PutTerms::next_numbers))]
    fn put_values(&mut self, alloc: Global, items: &[ValueTerm]) -> Result<Items<u32>, NoMemory>
        ensures numbers { IfOk result (λ ns. AreNumbers self.new ns (terms_of items.now)) }
        ensures added { OnOk result (Adds self.old self.new (indices_terms (terms_of items.now))) }
        ensures kept { OnErr result (Extends self.old self.new) }
    {
        let mut all = Items::new(alloc);
        for v in items {
            let n = self.put_value(alloc, v)?;
            all.push(n)?;
        }
        Ok(all)
    }

    // The number of a constant.
    #[tactic(auto, unfolding(crate::specs::Numbered::names_earlier))]
    fn add_num(&mut self, z: i64) -> Result<u32, NoMemory>
        ensures number { IfOk result (λ n. IsNumber self.new n (a_value (num z))) }
        ensures added { OnOk result (Adds self.old self.new (value_terms (num z))) }
        ensures same { OnErr result (self.new ≡ self.old) }
    {
        self.add(Node::Num(z))
    }
}
