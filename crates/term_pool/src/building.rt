//! The terms of numbers, as trees again. A number of no store stands for `L`, of no value for 0.
//! `specs/Numbered.antt` says what a number stands for.

ghost use Rattle.std.specs.Prelude.{◌≡◌, IfOk};
ghost use Rattle.rule_terms.specs.TermView.{terms_of};
ghost use Rattle.term_pool.specs.Numbered.{store_numbered, value_numbered, values_numbered, terms_of_nodes};

use crate::node::Node;
use crate::pool::Pool;
use rule_terms::{Place, StoreTerm, ValueTerm};
use sqlite_items::Items;
use std::alloc::Global;
use toy_imp::NoMemory;

impl Pool {
    /// The store term of a number, and `L` where the number is of no store.
    #[cycle(build)]
    #[tactic(auto, using(crate::proofs::Rebuilt::store_past), unfolding(crate::specs::Numbered::built))]
    pub fn store(&self, alloc: Global, at: u32) -> Result<StoreTerm, NoMemory>
        ensures { IfOk result (λ s. s ≡ store_numbered (terms_of_nodes self.now) at) }
    {
        let node = match self.node(at) {
            Some(node) => node,
            None => return Ok(StoreTerm::left()),
        };
        match node {
            Node::R => Ok(StoreTerm::right()),
            Node::Put(s, p, v) => {
                let s = self.store(alloc, *s)?;
                let indices = self.values(alloc, p.indices.as_slice())?;
                let v = self.value(alloc, *v)?;
                let name = p.name;
                StoreTerm::put(alloc, s, Place { name, indices }, v)
            }
            Node::Run(k, s) => {
                let s = self.store(alloc, *s)?;
                StoreTerm::run(alloc, *k, s)
            }
            _ => Ok(StoreTerm::left()),
        }
    }

    /// The value term of a number, and 0 where the number is of no value.
    #[cycle(build)]
    #[tactic(auto, using(crate::proofs::Rebuilt::value_past), unfolding(crate::specs::Numbered::built))]
    pub fn value(&self, alloc: Global, at: u32) -> Result<ValueTerm, NoMemory>
        ensures { IfOk result (λ v. v ≡ value_numbered (terms_of_nodes self.now) at) }
    {
        let node = match self.node(at) {
            Some(node) => node,
            None => return Ok(ValueTerm::num(0)),
        };
        match node {
            Node::Num(z) => Ok(ValueTerm::num(*z)),
            Node::Get(p, s) => {
                let indices = self.values(alloc, p.indices.as_slice())?;
                let s = self.store(alloc, *s)?;
                let name = p.name;
                ValueTerm::get(alloc, Place { name, indices }, s)
            }
            Node::Ev(k, s) => {
                let s = self.store(alloc, *s)?;
                ValueTerm::ev(alloc, *k, s)
            }
            Node::Add(a, b) => {
                let a = self.value(alloc, *a)?;
                let b = self.value(alloc, *b)?;
                ValueTerm::add(alloc, a, b)
            }
            Node::Sub(a, b) => {
                let a = self.value(alloc, *a)?;
                let b = self.value(alloc, *b)?;
                ValueTerm::sub(alloc, a, b)
            }
            Node::Mul(a, b) => {
                let a = self.value(alloc, *a)?;
                let b = self.value(alloc, *b)?;
                ValueTerm::mul(alloc, a, b)
            }
            _ => Ok(ValueTerm::num(0)),
        }
    }

    /// The value terms of numbers, in the same order.
    #[cycle(build)]
    #[tactic(auto, using(crate::proofs::Rebuilt::number_item, crate::proofs::Rebuilt::next_index, crate::proofs::Rebuilt::no_index))]
    pub fn values(&self, alloc: Global, numbers: &[u32]) -> Result<Items<ValueTerm>, NoMemory>
        ensures { IfOk result (λ v. terms_of v ≡ values_numbered (terms_of_nodes self.now) numbers.now) }
    {
        let mut all = Items::new(alloc);
        for n in numbers {
            let v = self.value(alloc, *n)?;
            all.push(v)?;
        }
        Ok(all)
    }
}
