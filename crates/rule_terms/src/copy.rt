//! Copies of terms and places: each is equal to what it copies.

ghost use Rattle.std.specs.Prelude.{◌≡◌, IfOk};

use crate::term::{Place, StoreNode, StoreTerm, ValueNode, ValueTerm};
use sqlite_items::Items;
use std::alloc::Global;
use toy_imp::NoMemory;

impl Place {
    /// An equal place.
    pub fn copy(&self, alloc: Global) -> Result<Place, NoMemory>
        ensures { IfOk result (λ p. p ≡ self.now) }
    {
        let indices = copy_values(alloc, self.indices.as_slice())?;
        Ok(Place {
            name: self.name,
            indices,
        })
    }
}

impl StoreTerm {
    /// An equal store term.
    #[cycle(copy)]
    pub fn copy(&self, alloc: Global) -> Result<StoreTerm, NoMemory>
        ensures { IfOk result (λ s. s ≡ self.now) }
    {
        match &self.node {
            StoreNode::L => Ok(StoreTerm::left()),
            StoreNode::R => Ok(StoreTerm::right()),
            StoreNode::Put(s, p, v) => {
                let s = s.get().copy(alloc)?;
                let indices = copy_values(alloc, p.indices.as_slice())?;
                let v = v.get().copy(alloc)?;
                let name = p.name;
                StoreTerm::put(alloc, s, Place { name, indices }, v)
            }
            StoreNode::Run(k, s) => {
                let s = s.get().copy(alloc)?;
                StoreTerm::run(alloc, *k, s)
            }
        }
    }
}

impl ValueTerm {
    /// An equal value term.
    #[cycle(copy)]
    pub fn copy(&self, alloc: Global) -> Result<ValueTerm, NoMemory>
        ensures { IfOk result (λ v. v ≡ self.now) }
    {
        match &self.node {
            ValueNode::Num(z) => Ok(ValueTerm::num(*z)),
            ValueNode::Get(p, s) => {
                let s = s.get().copy(alloc)?;
                let indices = copy_values(alloc, p.indices.as_slice())?;
                let name = p.name;
                ValueTerm::get(alloc, Place { name, indices }, s)
            }
            ValueNode::Ev(k, s) => {
                let s = s.get().copy(alloc)?;
                ValueTerm::ev(alloc, *k, s)
            }
            ValueNode::Add(a, b) => {
                let a = a.get().copy(alloc)?;
                let b = b.get().copy(alloc)?;
                ValueTerm::add(alloc, a, b)
            }
            ValueNode::Sub(a, b) => {
                let a = a.get().copy(alloc)?;
                let b = b.get().copy(alloc)?;
                ValueTerm::sub(alloc, a, b)
            }
            ValueNode::Mul(a, b) => {
                let a = a.get().copy(alloc)?;
                let b = b.get().copy(alloc)?;
                ValueTerm::mul(alloc, a, b)
            }
        }
    }
}

/// Equal value terms, in the same order.
#[cycle(copy)]
#[tactic(auto, using(crate::specs::TermFalls::value_item))]
pub fn copy_values(alloc: Global, items: &[ValueTerm]) -> Result<Items<ValueTerm>, NoMemory>
    ensures { IfOk result (λ all. all ≡ items.now) }
{
    let mut all = Items::new(alloc);
    for v in items {
        let copied = v.copy(alloc)?;
        all.push(copied)?;
    }
    Ok(all)
}

/// Equal store terms, in the same order.
pub fn copy_stores(alloc: Global, items: &[StoreTerm]) -> Result<Items<StoreTerm>, NoMemory>
    ensures { IfOk result (λ all. all ≡ items.now) }
{
    let mut all = Items::new(alloc);
    for s in items {
        let copied = s.copy(alloc)?;
        all.push(copied)?;
    }
    Ok(all)
}
