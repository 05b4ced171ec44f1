//! Equality of terms, literals, conjuncts, obligations and paths: true exactly where the two are equal.

ghost use Rattle.std.specs.Prelude.{◌≡◌, ◌↔◌, IsTrue};
ghost use Rattle.rule_terms.specs.Order.{store_same, value_same, place_same};

use crate::obligation::{Atom, Conjunct, Literal, Obligation};
use crate::path::Path;
use crate::term::{Place, StoreTerm, ValueTerm};
use std::cmp::Ordering;
use toy_imp::{Condition, Kind};

impl StoreTerm {
    /// Whether the two terms are equal.
    #[tactic(auto, using(crate::proofs::Orders::store_decides))]
    pub fn same(&self, other: &StoreTerm) -> bool
        ensures exact { IsTrue result ↔ (self.now ≡ other.now) }
        ensures test { result ≡ store_same self.now other.now }
    {
        match self.compare(other) {
            Ordering::Equal => true,
            Ordering::Less => false,
            Ordering::Greater => false,
        }
    }
}

impl ValueTerm {
    /// Whether the two terms are equal.
    #[tactic(auto, using(crate::proofs::Orders::value_decides))]
    pub fn same(&self, other: &ValueTerm) -> bool
        ensures exact { IsTrue result ↔ (self.now ≡ other.now) }
        ensures test { result ≡ value_same self.now other.now }
    {
        match self.compare(other) {
            Ordering::Equal => true,
            Ordering::Less => false,
            Ordering::Greater => false,
        }
    }
}

impl Place {
    /// Whether the two places are equal.
    #[tactic(auto, using(crate::proofs::Orders::place_decides))]
    pub fn same(&self, other: &Place) -> bool
        ensures exact { IsTrue result ↔ (self.now ≡ other.now) }
        ensures test { result ≡ place_same self.now other.now }
    {
        match self.compare(other) {
            Ordering::Equal => true,
            Ordering::Less => false,
            Ordering::Greater => false,
        }
    }
}

impl Atom {
    /// Whether the two atoms are equal.
    pub fn same(&self, other: &Atom) -> bool
        ensures { IsTrue result ↔ (self.now ≡ other.now) }
    {
        match (self, other) {
            (Atom::SameName(x, y), Atom::SameName(z, w)) => x == z && y == w,
            (Atom::SameStore(a, b), Atom::SameStore(c, d)) => a.same(c) && b.same(d),
            (Atom::SameValue(a, b), Atom::SameValue(c, d)) => a.same(c) && b.same(d),
            (Atom::AtMost(a, b, x), Atom::AtMost(c, d, y)) => x == y && a.same(c) && b.same(d),
            (Atom::Ends(s), Atom::Ends(t)) => s.same(t),
            (Atom::Holds(j, s), Atom::Holds(k, t)) => j == k && s.same(t),
            _ => false,
        }
    }
}

impl Literal {
    /// Whether the two literals are equal.
    pub fn same(&self, other: &Literal) -> bool
        ensures { IsTrue result ↔ (self.now ≡ other.now) }
    {
        self.sign == other.sign && self.atom.same(&other.atom)
    }
}

/// Whether the two lists are equal.
pub fn same_literals(a: &[Literal], b: &[Literal]) -> bool
    ensures { IsTrue result ↔ (a.now ≡ b.now) }
{
    if a.len() != b.len() {
        return false;
    }
    for (i, x) in a.iter().enumerate() {
        if !x.same(&b[i]) {
            return false;
        }
    }
    true
}

impl Conjunct {
    /// Whether the two conjuncts are equal.
    pub fn same(&self, other: &Conjunct) -> bool
        ensures { IsTrue result ↔ (self.now ≡ other.now) }
    {
        same_given(&self.gives, &other.gives)
            && same_literals(self.when.as_slice(), other.when.as_slice())
    }
}

fn same_given(a: &Option<Literal>, b: &Option<Literal>) -> bool
    ensures { IsTrue result ↔ (a.now ≡ b.now) }
{
    match (a, b) {
        (None, None) => true,
        (Some(x), Some(y)) => x.same(y),
        _ => false,
    }
}

/// Whether the two lists are equal.
pub fn same_conjuncts(a: &[Conjunct], b: &[Conjunct]) -> bool
    ensures { IsTrue result ↔ (a.now ≡ b.now) }
{
    if a.len() != b.len() {
        return false;
    }
    for (i, x) in a.iter().enumerate() {
        if !x.same(&b[i]) {
            return false;
        }
    }
    true
}

fn same_kinds(a: &[Kind], b: &[Kind]) -> bool
    ensures { IsTrue result ↔ (a.now ≡ b.now) }
{
    if a.len() != b.len() {
        return false;
    }
    for (i, x) in a.iter().enumerate() {
        if *x != b[i] {
            return false;
        }
    }
    true
}

fn same_numbers(a: &[u32], b: &[u32]) -> bool
    ensures { IsTrue result ↔ (a.now ≡ b.now) }
{
    if a.len() != b.len() {
        return false;
    }
    for (i, x) in a.iter().enumerate() {
        if *x != b[i] {
            return false;
        }
    }
    true
}

/// Whether the two conditions are equal.
pub fn same_condition(a: &Condition, b: &Condition) -> bool
    ensures { IsTrue result ↔ (a.now ≡ b.now) }
{
    match (a, b) {
        (Condition::Keeps(j, x), Condition::Keeps(k, y)) => j == k && x == y,
        (Condition::Ignores(j, x), Condition::Ignores(k, y)) => j == k && x == y,
        (Condition::Commutes(j, x), Condition::Commutes(k, y)) => j == k && x == y,
        (Condition::Positive(j), Condition::Positive(k)) => j == k,
        (Condition::Constant(j), Condition::Constant(k)) => j == k,
        (Condition::Distinct(j, x), Condition::Distinct(k, y)) => j == k && x == y,
        (Condition::Quiet(j), Condition::Quiet(k)) => j == k,
        (Condition::Swaps(j, x, over, region), Condition::Swaps(k, y, other, place)) => {
            j == k && x == y && region == place && same_numbers(over.as_slice(), other.as_slice())
        }
        _ => false,
    }
}

/// Whether the two lists of conditions are equal.
pub fn same_conditions(a: &[Condition], b: &[Condition]) -> bool
    ensures { IsTrue result ↔ (a.now ≡ b.now) }
{
    if a.len() != b.len() {
        return false;
    }
    for (i, x) in a.iter().enumerate() {
        if !same_condition(x, &b[i]) {
            return false;
        }
    }
    true
}

impl Obligation {
    /// Whether the two obligations are equal.
    pub fn same(&self, other: &Obligation) -> bool
        ensures { IsTrue result ↔ (self.now ≡ other.now) }
    {
        same_kinds(self.params.as_slice(), other.params.as_slice())
            && same_conditions(self.conditions.as_slice(), other.conditions.as_slice())
            && same_conjuncts(self.known.as_slice(), other.known.as_slice())
            && same_literals(self.path.as_slice(), other.path.as_slice())
            && self.goal.same(&other.goal)
    }
}

impl Path {
    /// Whether the two paths are equal.
    pub fn same(&self, other: &Path) -> bool
        ensures { IsTrue result ↔ (self.now ≡ other.now) }
    {
        self.stop == other.stop
            && self.store.same(&other.store)
            && same_literals(self.literals.as_slice(), other.literals.as_slice())
    }
}

/// Whether the two lists are equal.
pub fn same_stores(a: &[StoreTerm], b: &[StoreTerm]) -> bool
    ensures { IsTrue result ↔ (a.now ≡ b.now) }
{
    if a.len() != b.len() {
        return false;
    }
    for (i, x) in a.iter().enumerate() {
        if !x.same(&b[i]) {
            return false;
        }
    }
    true
}

/// Whether the two lists are equal.
pub fn same_values(a: &[ValueTerm], b: &[ValueTerm]) -> bool
    ensures { IsTrue result ↔ (a.now ≡ b.now) }
{
    if a.len() != b.len() {
        return false;
    }
    for (i, x) in a.iter().enumerate() {
        if !x.same(&b[i]) {
            return false;
        }
    }
    true
}
