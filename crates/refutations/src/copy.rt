//! Copies of the parts of refutations, of steps, reasons and rows: each is equal to what it copies.

ghost use Rattle.std.specs.Prelude.{◌≡◌, IfOk};

use crate::refutation::{By, Part, Step, SumRow};
use rule_terms::copy_literals;
use sqlite_items::Items;
use std::alloc::Global;
use toy_imp::NoMemory;

impl SumRow {
    /// An equal row.
    pub fn copy(&self, alloc: Global) -> Result<SumRow, NoMemory>
        ensures { IfOk result (λ row. row ≡ self.now) }
    {
        match self {
            SumRow::Of(k) => Ok(SumRow::Of(*k)),
            SumRow::Back(k) => Ok(SumRow::Back(*k)),
            SumRow::Num(a, b) => Ok(SumRow::Num(*a, *b)),
            SumRow::Off(v) => Ok(SumRow::Off(v.copy(alloc)?)),
            SumRow::OffBack(v) => Ok(SumRow::OffBack(v.copy(alloc)?)),
        }
    }
}

/// Equal rows, in the same order.
pub fn copy_rows(alloc: Global, items: &[SumRow]) -> Result<Items<SumRow>, NoMemory>
    ensures { IfOk result (λ all. all ≡ items.now) }
{
    let mut all = Items::new(alloc);
    for row in items {
        let copied = row.copy(alloc)?;
        all.push(copied)?;
    }
    Ok(all)
}

fn copy_numbers(alloc: Global, items: &[u32]) -> Result<Items<u32>, NoMemory>
    ensures { IfOk result (λ all. all ≡ items.now) }
{
    Ok(Items::from_slice(alloc, items)?)
}

impl By {
    /// An equal reason.
    pub fn copy(&self, alloc: Global) -> Result<By, NoMemory>
        ensures { IfOk result (λ why. why ≡ self.now) }
    {
        match self {
            By::Given => Ok(By::Given),
            By::Known(k, from) => Ok(By::Known(*k, copy_numbers(alloc, from.as_slice())?)),
            By::Refl => Ok(By::Refl),
            By::Flip(k) => Ok(By::Flip(*k)),
            By::Chain(j, k) => Ok(By::Chain(*j, *k)),
            By::Alike(from) => Ok(By::Alike(copy_numbers(alloc, from.as_slice())?)),
            By::Carry(k, from) => Ok(By::Carry(*k, copy_numbers(alloc, from.as_slice())?)),
            By::Law(k, clause, p, from) => {
                let clause = copy_literals(alloc, clause.as_slice())?;
                let from = copy_numbers(alloc, from.as_slice())?;
                Ok(By::Law(*k, clause, *p, from))
            }
            By::Meet(j, k) => Ok(By::Meet(*j, *k)),
            By::Sum(rows) => Ok(By::Sum(copy_rows(alloc, rows.as_slice())?)),
        }
    }
}

impl Step {
    /// An equal step.
    pub fn copy(&self, alloc: Global) -> Result<Step, NoMemory>
        ensures { IfOk result (λ step. step ≡ self.now) }
    {
        let gives = self.gives.copy(alloc)?;
        let by = self.by.copy(alloc)?;
        Ok(Step { gives, by })
    }
}

/// Equal steps, in the same order.
pub fn copy_steps(alloc: Global, items: &[Step]) -> Result<Items<Step>, NoMemory>
    ensures { IfOk result (λ all. all ≡ items.now) }
{
    let mut all = Items::new(alloc);
    for step in items {
        let copied = step.copy(alloc)?;
        all.push(copied)?;
    }
    Ok(all)
}

impl Part {
    /// An equal part.
    pub fn copy(&self, alloc: Global) -> Result<Part, NoMemory>
        ensures { IfOk result (λ part. part ≡ self.now) }
    {
        match self {
            Part::Split(x) => Ok(Part::Split(x.copy(alloc)?)),
            Part::Leaf(steps) => Ok(Part::Leaf(copy_steps(alloc, steps.as_slice())?)),
        }
    }
}

/// Equal parts, in the same order.
pub fn copy_parts(alloc: Global, items: &[Part]) -> Result<Items<Part>, NoMemory>
    ensures { IfOk result (λ all. all ≡ items.now) }
{
    let mut all = Items::new(alloc);
    for part in items {
        let copied = part.copy(alloc)?;
        all.push(copied)?;
    }
    Ok(all)
}
