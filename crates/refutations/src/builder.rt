//! Builds refutations from the end of the text, without recursion: a leaf is put in front of what was built, and a
//! split in front of the two refutations that were built last. `specs/Building.antt` says what is built.

ghost use Rattle.std.specs.Prelude.{◌≡◌, ◌++◌, ◌≤◌, [], ◌∷◌, length, reverse, IfOk};
ghost use Rattle.refutations.specs.Refutation.{leaf, joined};
ghost use Rattle.refutations.specs.Building.{only};

use crate::refutation::{Part, Refutation, Step};
use rule_terms::Literal;
use sqlite_items::Items;
use std::alloc::Global;
use std::marker::Model;
use toy_imp::NoMemory;

/// Refutations that wait to be branches of splits. A contract sees the list of them, the latest first, which is their
/// order in the text.
#[derive(Drop)]
pub struct Builder {
    /// Their parts, from the end of the text.
    from_end: Items<Part>,
}

impl Model for Builder {
    ghost use Rattle.std.specs.Prelude.{◌≡◌, List, reverse};
    ghost use Rattle.std.specs.Coded.{code_by, coded_list};
    ghost use Rattle.refutations.specs.declared.refutation.Part.{Part};
    ghost use Rattle.refutations.specs.contracts.refutation.Part.{the_row};
    ghost use Rattle.refutations.specs.Refutation.{Refutation, trees};
    ghost use Rattle.refutations.specs.BuilderCode.{all_parts, trees_of_all};

    ghost Value = { List Refutation };

    ghost coded = { code_by (List Part) (coded_list the_row.coded) all_parts trees trees_of_all };

    ghost view = { λ b. trees (reverse b.from_end) };

    ghost invariant = { λ b. reverse b.from_end ≡ all_parts (trees (reverse b.from_end)) };
}

// The parts in the opposite order.
#[tactic(auto, using(crate::proofs::Turning::one_turned))]
fn turned(alloc: Global, parts: Items<Part>) -> Result<Items<Part>, NoMemory>
    ensures { IfOk result (λ all. all ≡ reverse parts) }
{
    let mut rest = parts;
    let mut all = Items::new(alloc);
    while let Some(part) = rest.pop() {
        all.push(part)?;
    }
    Ok(all)
}

impl Builder {
    /// Nothing is built.
    pub fn new(alloc: Global) -> Builder
        ensures { result ≡ [] }
    {
        Builder {
            from_end: Items::new(alloc),
        }
    }

    /// The leaf of these steps is built.
    #[tactic(auto, using(crate::proofs::Turning::latest_first))]
    pub fn leaf(&mut self, steps: Items<Step>) -> Result<(), NoMemory>
        ensures { IfOk result (λ _. self.new ≡ leaf steps ∷ self.old) }
    {
        self.from_end.push(Part::Leaf(steps))?;
        Ok(())
    }

    /// A split is built of the two refutations that were built last: the latest is its first branch, where the
    /// literal is assumed.
    #[tactic(auto, using(crate::proofs::Turning::latest_first, crate::proofs::Turning::joined_parts))]
    pub fn split(&mut self, literal: Literal) -> Result<(), NoMemory>
        requires { 2 ≤ length self.old }
        ensures { IfOk result (λ _. self.new ≡ joined literal self.old) }
    {
        self.from_end.push(Part::Split(literal))?;
        Ok(())
    }

    /// The refutation that was built, in time linear in its size; none where not exactly one is built.
    #[tactic(auto, using(crate::proofs::Turning::read_only))]
    pub fn finish(self, alloc: Global) -> Result<Option<Refutation>, NoMemory>
        ensures { IfOk result (λ o. o ≡ only self) }
    {
        let all = turned(alloc, self.from_end)?;
        let whole = Refutation::of_parts(alloc, all)?;
        Ok(whole)
    }
}
