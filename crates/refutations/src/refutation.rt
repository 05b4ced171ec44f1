//! Refutations: proofs that an obligation holds, from its negated goal to a contradiction. A contract sees the tree
//! of `specs/Refutation.antt`; it is kept as the list of its parts in the order of the text, so that reading, copying
//! and dropping are loops. What makes one of them right is said in `proof_steps`.

ghost use Rattle.std.specs.Prelude.{◌≡◌, suc, ◌++◌, ◌∷◌, length, drop, IfOk};
ghost use Rattle.refutations.specs.declared.refutation.Part.TheVariants.{Split};
ghost use Rattle.refutations.specs.Refutation.{split, leaf, parts, distances, IsRead};

use crate::copy::copy_parts;
use crate::placed::distances_of;
use rule_terms::{Literal, ValueTerm};
use sqlite_items::Items;
use std::alloc::Global;
use std::marker::Model;
use toy_imp::NoMemory;

/// A proof by cases, down to leaves that are contradictions.
#[derive(Drop)]
pub struct Refutation {
    /// Each split in front of its two branches.
    all: Items<Part>,
    /// How far in front of each part the split stands whose branch begins there; 0 at the first.
    back: Items<usize>,
}

/// A part of a refutation.
#[derive(Drop)]
pub enum Part {
    /// The literal is assumed in the first branch, its negation in the second.
    Split(Literal),
    /// Steps that end in a contradiction. They are numbered from 0 and cite earlier ones alone.
    Leaf(Items<Step>),
}

/// A literal, and why it is true.
#[derive(Drop)]
pub struct Step {
    pub gives: Literal,
    pub by: By,
}

/// Why a literal is true; the numbers are those of steps, where nothing else is said.
#[derive(Drop)]
pub enum By {
    /// It is of the path, of the goal's `when`, the negation of what the goal gives, or assumed on the way.
    Given,
    /// It is what the known conjunct of the first number gives, whose `when` the steps give in order.
    Known(u32, Items<u32>),
    /// It is an equality of a term with itself.
    Refl,
    /// It is the equality of the step, or its negation, with the sides exchanged.
    Flip(u32),
    /// It is an equality by two equalities.
    Chain(u32, u32),
    /// It is an equality of two terms with the same top, whose arguments are identical or equal by the steps in
    /// order.
    Alike(Items<u32>),
    /// It is the literal of the first step with arguments replaced by equal ones in the same way.
    Carry(u32, Items<u32>),
    /// It is a literal of a clause of a law: the law's number, the clause, the literal's place in it, and steps that
    /// give the negations of the other literals in order.
    Law(u32, Items<Literal>, u32, Items<u32>),
    /// It is an equality of values of which each is at most the other.
    Meet(u32, u32),
    /// It is a bound of one value by another, as the sum of rows.
    Sum(Items<SumRow>),
}

/// A bound of one value by another.
#[derive(Drop)]
pub enum SumRow {
    /// What the step says of two values.
    Of(u32),
    /// An equality of values of the step, with the sides exchanged.
    Back(u32),
    /// One constant and another.
    Num(i64, i64),
    /// A value plus or minus a constant, and the value.
    Off(ValueTerm),
    /// The same with the sides exchanged.
    OffBack(ValueTerm),
}

impl Model for Refutation {
    ghost use Rattle.std.specs.Prelude.{List};
    ghost use Rattle.std.specs.Coded.{code_by, coded_list};
    ghost use Rattle.refutations.specs.declared.refutation.Part.{Part};
    ghost use Rattle.refutations.specs.contracts.refutation.Part.{the_row};
    ghost use Rattle.refutations.specs.Refutation.{Refutation, parts, tree_of, IsKept};
    ghost use Rattle.refutations.specs.RefutationCode.{tree_of_parts};

    ghost Value = { Refutation };

    ghost coded = { code_by (List Part) (coded_list the_row.coded) parts tree_of tree_of_parts };

    ghost view = { λ r. tree_of r.all };

    ghost invariant = { λ r. IsKept r.all r.back };
}

// Adds the distances at the parts of a branch that begins so far behind its split.
fn push_branch(
    alloc: Global,
    back: &mut Items<usize>,
    far: usize,
    branch: &[usize],
) -> Result<(), NoMemory>
    ensures { IfOk result (λ _. back.new ≡ back.old ++ (far ∷ drop 1 branch.now)) }
{
    back.push(far)?;
    if let Some((_, rest)) = branch.split_first() {
        back.append(Items::from_slice(alloc, rest)?)?;
    }
    Ok(())
}

// The distances at the parts of a split into these branches.
#[tactic(auto, using(crate::proofs::Closing::both_branches))]
fn split_distances(
    alloc: Global,
    first: &Refutation,
    second: &Refutation,
) -> Result<Items<usize>, NoMemory>
    ensures { IfOk result (λ back. back ≡ 0 ∷ (distances 1 first.now ++ distances (suc (length (parts first.now))) second.now)) }
{
    let mut back = Items::new(alloc);
    back.push(0)?;
    push_branch(alloc, &mut back, 1, first.distances())?;
    let far = back.len();
    push_branch(alloc, &mut back, far, second.distances())?;
    Ok(back)
}

// The parts of a split into branches with these parts.
#[tactic(auto, using(std::proofs::Common::append_assoc))]
fn split_parts(
    alloc: Global,
    literal: Literal,
    first: Items<Part>,
    second: Items<Part>,
) -> Result<Items<Part>, NoMemory>
    ensures { IfOk result (λ all. all ≡ Split literal ∷ (first ++ second)) }
{
    let mut all = Items::new(alloc);
    all.push(Part::Split(literal))?;
    all.append(first)?;
    all.append(second)?;
    Ok(all)
}

impl Refutation {
    /// The refutation of these steps alone.
    pub fn leaf(alloc: Global, steps: Items<Step>) -> Result<Refutation, NoMemory>
        ensures { IfOk result (λ r. r ≡ leaf steps) }
    {
        let mut all = Items::new(alloc);
        all.push(Part::Leaf(steps))?;
        let mut back = Items::new(alloc);
        back.push(0)?;
        Ok(Refutation { all, back })
    }

    /// The split into these two branches: the literal is assumed in the first, its negation in the second. It takes
    /// as long as the branches are.
    #[tactic(auto, using(crate::proofs::Closing::closed_is, crate::proofs::Closing::closed_kept))]
    pub fn split(
        alloc: Global,
        literal: Literal,
        first: Refutation,
        second: Refutation,
    ) -> Result<Refutation, NoMemory>
        ensures { IfOk result (λ r. r ≡ split literal first second) }
    {
        let back = split_distances(alloc, &first, &second)?;
        let all = split_parts(alloc, literal, first.into_parts(), second.into_parts())?;
        Ok(Refutation { all, back })
    }

    /// The refutation that has these parts, in the order of the text; none where no refutation has them.
    #[tactic(auto, using(crate::proofs::Placing::are_kept, crate::proofs::Placing::no_parts))]
    pub fn of_parts(alloc: Global, all: Items<Part>) -> Result<Option<Refutation>, NoMemory>
        ensures { IfOk result (λ o. IsRead all o) }
    {
        match distances_of(alloc, all.as_slice())? {
            Some(back) => Ok(Some(Refutation { all, back })),
            None => Ok(None),
        }
    }

    /// An equal refutation. It takes a stack that does not grow with it.
    pub fn copy(&self, alloc: Global) -> Result<Refutation, NoMemory>
        ensures { IfOk result (λ r. r ≡ self.now) }
    {
        let all = copy_parts(alloc, self.all.as_slice())?;
        let back = Items::from_slice(alloc, self.back.as_slice())?;
        Ok(Refutation { all, back })
    }

    /// Its parts, in the order of the text.
    pub fn parts(&self) -> &[Part]
        ensures { result.now ≡ parts self.now }
    {
        self.all.as_slice()
    }

    /// Its parts, taken out of it.
    pub fn into_parts(self) -> Items<Part>
        ensures { result ≡ parts self }
    {
        self.all
    }

    /// How far in front of each part the split stands whose branch begins there; 0 at the first.
    pub fn distances(&self) -> &[usize]
        ensures { result.now ≡ distances 0 self.now }
    {
        self.back.as_slice()
    }
}
