//! How many outcomes a test has. `specs/OutcomeCounts.antt` says how many, and
//! `specs/Outcomes.antt` which they are.

ghost use Rattle.std.specs.Prelude.{◌≡◌, ◌+◌, ◌*◌, true, false};
ghost use Rattle.rule_terms.specs.Counts.{saturated};
ghost use Rattle.path_pairs.specs.OutcomeCounts.{outcome_count};

use toy_imp::{Test, TestNode};

/// How many outcomes a test has in which it is true and in which it is false; each count stands
/// still at 2^64 - 1.
#[derive(Clone, Copy, Debug, PartialEq, Eq)]
pub struct OutcomeCounts {
    pub when_true: u64,
    pub when_false: u64,
}

/// The product, or 2^64 - 1 where it is greater.
fn product(a: u64, b: u64) -> u64
    ensures { result ≡ saturated (a * b) }
{
    a.saturating_mul(b)
}

impl OutcomeCounts {
    /// Those of a test with one outcome of each kind.
    fn one() -> OutcomeCounts
        ensures when_true { result.when_true ≡ 1 }
        ensures when_false { result.when_false ≡ 1 }
    {
        OutcomeCounts {
            when_true: 1,
            when_false: 1,
        }
    }

    /// Those of the negation.
    fn turned(self) -> OutcomeCounts
        ensures when_true { result.when_true ≡ self.when_false }
        ensures when_false { result.when_false ≡ self.when_true }
    {
        OutcomeCounts {
            when_true: self.when_false,
            when_false: self.when_true,
        }
    }

    /// Those of both tests together.
    fn and(self, other: OutcomeCounts) -> OutcomeCounts
        ensures when_true { result.when_true ≡ saturated (self.when_true * other.when_true) }
        ensures when_false { result.when_false ≡ saturated (self.when_false + saturated (self.when_true * other.when_false)) }
    {
        OutcomeCounts {
            when_true: product(self.when_true, other.when_true),
            when_false: self
                .when_false
                .saturating_add(product(self.when_true, other.when_false)),
        }
    }
}

/// How many outcomes a test has. Takes no memory.
#[tactic(auto, using(crate::proofs::Saturating::saturated_product, crate::proofs::Saturating::saturated_sum), unfolding(crate::specs::OutcomeCounts::outcome_count))]
pub fn outcome_counts(t: &Test) -> OutcomeCounts
    ensures when_true { result.when_true ≡ saturated (outcome_count t.now true) }
    ensures when_false { result.when_false ≡ saturated (outcome_count t.now false) }
{
    match &t.node {
        TestNode::Less(_, _) => OutcomeCounts::one(),
        TestNode::LessEq(_, _) => OutcomeCounts::one(),
        TestNode::Equal(_, _) => OutcomeCounts::one(),
        TestNode::Not(t) => outcome_counts(t.get()).turned(),
        TestNode::And(t, u) => outcome_counts(t.get()).and(outcome_counts(u.get())),
        TestNode::Or(t, u) => {
            let t = outcome_counts(t.get()).turned();
            let u = outcome_counts(u.get()).turned();
            t.and(u).turned()
        }
        TestNode::Par(_) => OutcomeCounts::one(),
    }
}
