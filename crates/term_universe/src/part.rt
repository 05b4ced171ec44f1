//! What occurs in an obligation: store terms, value terms, places and parameters.
//! `next_part` goes from each to the next greater one without memory: it walks over all and keeps the
//! least above the last. `specs/Parts.antt` of `rule_terms` says what occurs, `specs/Least.antt` what the walk finds.

ghost use Rattle.std.specs.Prelude.{◌≡◌, None};
ghost use Rattle.rule_terms.specs.TermView.{terms_of};
ghost use Rattle.rule_terms.specs.Parts.{store_parts, value_parts, terms_parts, atom_parts, literal_parts, literals_parts, conjunct_parts, conjuncts_parts, obligation_parts};
ghost use Rattle.std.specs.Ordering.{is_lt};
ghost use Rattle.rule_terms.specs.Order.{part_rank, part_cmp};
ghost use Rattle.term_universe.specs.Least.{is_above, is_before, lesser, least_above};
ghost use Rattle.term_universe.specs.Walked.{part_of, mark_of};

use rule_terms::{
    Atom, Conjunct, Literal, Obligation, Place, StoreNode, StoreTerm, ValueNode, ValueTerm,
};
use std::cmp::Ordering;

/// Something that occurs in an obligation.
#[derive(Clone, Copy)]
pub enum Part<'a> {
    Store(&'a StoreTerm),
    Value(&'a ValueTerm),
    /// A place that is read or written.
    Place(&'a Place),
    /// An expression parameter.
    Expr(u32),
    /// A test parameter.
    Test(u32),
}

/// Whether a part is before another one, equal to it or behind it.
#[tactic(auto, unfolding(rule_terms::specs::Order::part_cmp))]
pub fn compare_parts(p: Part<'_>, q: Part<'_>) -> Ordering
    ensures { result ≡ part_cmp (part_of p.entry) (part_of q.entry) }
{
    match (p, q) {
        (Part::Store(s), Part::Store(t)) => s.compare(t),
        (Part::Place(x), Part::Place(y)) => x.compare(y),
        (Part::Expr(j), Part::Expr(k)) => j.cmp(&k),
        (Part::Test(j), Part::Test(k)) => j.cmp(&k),
        (Part::Value(v), Part::Value(w)) => v.compare(w),
        (p, q) => rank(p).cmp(&rank(q)),
    }
}

fn rank(p: Part<'_>) -> u8
    ensures { result ≡ part_rank (part_of p.entry) }
{
    match p {
        Part::Store(_) => 0,
        Part::Place(_) => 1,
        Part::Expr(_) => 2,
        Part::Test(_) => 3,
        Part::Value(_) => 4,
    }
}

/// Whether `p` is before `q`.
fn precedes(p: Part<'_>, q: Part<'_>) -> bool
    ensures { result ≡ is_lt (part_cmp (part_of p.entry) (part_of q.entry)) }
{
    match compare_parts(p, q) {
        Ordering::Less => true,
        Ordering::Equal => false,
        Ordering::Greater => false,
    }
}

/// Whether a part is above a mark.
fn is_above(low: Option<Part<'_>>, p: Part<'_>) -> bool
    ensures { result ≡ is_above part_cmp (mark_of low.entry) (part_of p.entry) }
{
    match low {
        None => true,
        Some(low) => precedes(low, p),
    }
}

/// Whether a part is before the least so far.
fn is_before(best: Option<Part<'_>>, p: Part<'_>) -> bool
    ensures { result ≡ is_before part_cmp (mark_of best.entry) (part_of p.entry) }
{
    match best {
        None => true,
        Some(best) => precedes(p, best),
    }
}

/// The lesser of the least so far and a part, where the part is above the mark.
fn lesser<'a>(low: Option<Part<'a>>, best: Option<Part<'a>>, p: Part<'a>) -> Option<Part<'a>>
    ensures { mark_of result ≡ lesser part_cmp (mark_of low.entry) (mark_of best.entry) (part_of p.entry) }
{
    if is_above(low, p) && is_before(best, p) {
        Some(p)
    } else {
        best
    }
}

/// The lesser of the least so far and the parts of a store term that are above the mark.
#[cycle(least)]
#[tactic(auto, using(crate::specs::Least::least_append), unfolding(crate::specs::Least::least_above, rule_terms::specs::Parts::store_parts))]
fn least_in_store<'a>(
    s: &'a StoreTerm,
    low: Option<Part<'a>>,
    best: Option<Part<'a>>,
) -> Option<Part<'a>>
    ensures { mark_of result ≡ least_above part_cmp (mark_of low.entry) (mark_of best.entry) (store_parts s.now) }
{
    let best = lesser(low, best, Part::Store(s));
    match &s.node {
        StoreNode::L => best,
        StoreNode::R => best,
        StoreNode::Put(s, p, v) => {
            let best = lesser(low, best, Part::Place(p));
            let best = least_in_store(s.get(), low, best);
            let best = least_in_values(p.indices.as_slice(), low, best);
            least_in_value(v.get(), low, best)
        }
        StoreNode::Run(_, s) => least_in_store(s.get(), low, best),
    }
}

/// The same of a value term.
#[cycle(least)]
#[tactic(auto, using(crate::specs::Least::least_append), unfolding(crate::specs::Least::least_above, rule_terms::specs::Parts::value_parts))]
fn least_in_value<'a>(
    v: &'a ValueTerm,
    low: Option<Part<'a>>,
    best: Option<Part<'a>>,
) -> Option<Part<'a>>
    ensures { mark_of result ≡ least_above part_cmp (mark_of low.entry) (mark_of best.entry) (value_parts v.now) }
{
    let best = lesser(low, best, Part::Value(v));
    match &v.node {
        ValueNode::Num(_) => best,
        ValueNode::Get(p, s) => {
            let best = lesser(low, best, Part::Place(p));
            let best = least_in_values(p.indices.as_slice(), low, best);
            least_in_store(s.get(), low, best)
        }
        ValueNode::Ev(k, s) => {
            let best = lesser(low, best, Part::Expr(*k));
            least_in_store(s.get(), low, best)
        }
        ValueNode::Add(a, b) | ValueNode::Sub(a, b) | ValueNode::Mul(a, b) => {
            let best = least_in_value(a.get(), low, best);
            least_in_value(b.get(), low, best)
        }
    }
}

/// The same of value terms beside one another.
#[cycle(least)]
#[tactic(auto, using(rule_terms::specs::TermFalls::value_item, crate::specs::Least::least_append), unfolding(crate::specs::Least::least_above, rule_terms::specs::Parts::terms_parts))]
fn least_in_values<'a>(
    items: &'a [ValueTerm],
    low: Option<Part<'a>>,
    best: Option<Part<'a>>,
) -> Option<Part<'a>>
    ensures { mark_of result ≡ least_above part_cmp (mark_of low.entry) (mark_of best.entry) (terms_parts (terms_of items.now)) }
{
    let mut least = best;
    for v in items {
        least = least_in_value(v, low, least);
    }
    least
}

/// The same of a literal.
#[tactic(auto, using(crate::specs::Least::least_append), unfolding(crate::specs::Least::least_above, rule_terms::specs::Parts::atom_parts))]
fn least_in_literal<'a>(
    l: &'a Literal,
    low: Option<Part<'a>>,
    best: Option<Part<'a>>,
) -> Option<Part<'a>>
    ensures { mark_of result ≡ least_above part_cmp (mark_of low.entry) (mark_of best.entry) (literal_parts l.now) }
{
    match &l.atom {
        Atom::SameName(_, _) => best,
        Atom::SameStore(a, b) => {
            let best = least_in_store(a, low, best);
            least_in_store(b, low, best)
        }
        Atom::SameValue(a, b) => {
            let best = least_in_value(a, low, best);
            least_in_value(b, low, best)
        }
        Atom::AtMost(a, b, _) => {
            let best = least_in_value(a, low, best);
            least_in_value(b, low, best)
        }
        Atom::Ends(s) => least_in_store(s, low, best),
        Atom::Holds(k, s) => {
            let best = lesser(low, best, Part::Test(*k));
            least_in_store(s, low, best)
        }
    }
}

/// The same of literals beside one another.
#[tactic(auto, using(crate::specs::Least::least_append), unfolding(crate::specs::Least::least_above))]
fn least_in_literals<'a>(
    items: &'a [Literal],
    low: Option<Part<'a>>,
    best: Option<Part<'a>>,
) -> Option<Part<'a>>
    ensures { mark_of result ≡ least_above part_cmp (mark_of low.entry) (mark_of best.entry) (literals_parts items.now) }
{
    let mut least = best;
    for l in items {
        least = least_in_literal(l, low, least);
    }
    least
}

/// The same of a conjunct.
#[tactic(auto, using(crate::specs::Least::least_append), unfolding(crate::specs::Least::least_above))]
fn least_in_conjunct<'a>(
    c: &'a Conjunct,
    low: Option<Part<'a>>,
    best: Option<Part<'a>>,
) -> Option<Part<'a>>
    ensures { mark_of result ≡ least_above part_cmp (mark_of low.entry) (mark_of best.entry) (conjunct_parts c.now) }
{
    let best = least_in_literals(c.when.as_slice(), low, best);
    match &c.gives {
        Some(l) => least_in_literal(l, low, best),
        None => best,
    }
}

/// The same of conjuncts beside one another.
#[tactic(auto, using(crate::specs::Least::least_append), unfolding(crate::specs::Least::least_above))]
fn least_in_conjuncts<'a>(
    items: &'a [Conjunct],
    low: Option<Part<'a>>,
    best: Option<Part<'a>>,
) -> Option<Part<'a>>
    ensures { mark_of result ≡ least_above part_cmp (mark_of low.entry) (mark_of best.entry) (conjuncts_parts items.now) }
{
    let mut least = best;
    for c in items {
        least = least_in_conjunct(c, low, least);
    }
    least
}

/// The least part of an obligation above a mark, or of all where there is no mark; `None` where no
/// part is above it. Takes no memory.
#[tactic(auto, using(crate::specs::Least::least_append), unfolding(rule_terms::specs::Parts::obligation_parts))]
pub fn next_part<'a>(ob: &'a Obligation, low: Option<Part<'a>>) -> Option<Part<'a>>
    ensures { mark_of result ≡ least_above part_cmp (mark_of low.entry) None (obligation_parts ob.now) }
{
    let best = least_in_conjuncts(ob.known.as_slice(), low, None);
    let best = least_in_literals(ob.path.as_slice(), low, best);
    least_in_conjunct(&ob.goal, low, best)
}
