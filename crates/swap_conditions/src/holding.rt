//! One test by text for a condition of any kind: `specs/ByText.antt` says when it holds for an instance.
//! Each kind has the test of its line of the table; nothing takes memory.

ghost use Rattle.std.specs.Prelude.{◌≡◌, [], ◌∷◌, map, slice_get};
ghost use Rattle.side_conditions.specs.ByText as line;
ghost use Rattle.swap_conditions.specs.ByText as spec;

use crate::swapping::{Counters, Swap, swaps_by_text};
use side_conditions::{
    commutes_by_text, constant_by_text, distinct_by_text, ignores_by_text, keeps_by_text,
    positive_by_text, quiet_by_text,
};
use toy_imp::{Block, Condition, Filling, Instance, Region};

/// Whether the condition holds by text for what stands for its parameters. It does not where a number has no filling
/// of the condition's kinds, nor where a `swaps` lists another number of names than one or two.
pub fn holds_by_text(c: &Condition, by: &Instance) -> bool
    ensures { result ≡ spec.holds_by_text by.now c.now }
{
    match c {
        Condition::Keeps(s, o) => keeps(by, *s, *o),
        Condition::Ignores(o, x) => ignores(by, *o, *x),
        Condition::Commutes(s, t) => commutes(by, *s, *t),
        Condition::Positive(e) => positive(by, *e),
        Condition::Constant(e) => constant(by, *e),
        Condition::Distinct(x, y) => distinct(by, *x, *y),
        Condition::Quiet(s) => quiet(by, *s),
        Condition::Swaps(s, t, over, region) => swaps(by, *s, *t, over.as_slice(), *region),
    }
}

fn keeps(by: &Instance, s: u32, o: u32) -> bool
    ensures { let all = by.now.fillings in
        result ≡ spec.of_two line.keeps_by_text (slice_get all s) (slice_get all o) }
{
    match (by.fillings.get(s as usize), by.fillings.get(o as usize)) {
        (Some(s), Some(o)) => keeps_by_text(s, o),
        _ => false,
    }
}

fn ignores(by: &Instance, o: u32, x: u32) -> bool
    ensures { let all = by.now.fillings in
        result ≡ spec.of_two line.ignores_by_text (slice_get all o) (slice_get all x) }
{
    match (by.fillings.get(o as usize), by.fillings.get(x as usize)) {
        (Some(o), Some(x)) => ignores_by_text(o, x),
        _ => false,
    }
}

fn commutes(by: &Instance, s: u32, t: u32) -> bool
    ensures { let all = by.now.fillings in
        result ≡ spec.of_two line.commutes_by_text (slice_get all s) (slice_get all t) }
{
    match (by.fillings.get(s as usize), by.fillings.get(t as usize)) {
        (Some(s), Some(t)) => commutes_by_text(s, t),
        _ => false,
    }
}

fn positive(by: &Instance, e: u32) -> bool
    ensures { result ≡ spec.of_one line.positive_by_text (slice_get by.now.fillings e) }
{
    match by.fillings.get(e as usize) {
        Some(e) => positive_by_text(e),
        None => false,
    }
}

fn constant(by: &Instance, e: u32) -> bool
    ensures { result ≡ spec.of_one line.constant_by_text (slice_get by.now.fillings e) }
{
    match by.fillings.get(e as usize) {
        Some(e) => constant_by_text(e),
        None => false,
    }
}

fn distinct(by: &Instance, x: u32, y: u32) -> bool
    ensures { let all = by.now.fillings in
        result ≡ spec.of_two line.distinct_by_text (slice_get all x) (slice_get all y) }
{
    match (by.fillings.get(x as usize), by.fillings.get(y as usize)) {
        (Some(x), Some(y)) => distinct_by_text(x, y),
        _ => false,
    }
}

fn quiet(by: &Instance, s: u32) -> bool
    ensures { result ≡ spec.of_one line.quiet_by_text (slice_get by.now.fillings s) }
{
    match by.fillings.get(s as usize) {
        Some(s) => quiet_by_text(s),
        None => false,
    }
}

fn swaps(by: &Instance, s: u32, t: u32, over: &[u32], region: Region) -> bool
    ensures { let all = by.now.fillings in
        let names = map (slice_get all) over.now in
        result ≡ spec.swap_holds (slice_get all s) (slice_get all t) names region }
{
    match (by.fillings.get(s as usize), by.fillings.get(t as usize)) {
        (Some(Filling::Stmt(first)), Some(Filling::Stmt(second))) => {
            statements_swap(by, first, second, over, region)
        }
        _ => false,
    }
}

/// The same of two statements.
fn statements_swap(
    by: &Instance,
    first: &Block,
    second: &Block,
    over: &[u32],
    region: Region,
) -> bool
    ensures { let names = map (slice_get by.now.fillings) over.now in
        result ≡ spec.names_swap first.now second.now names region }
{
    match over {
        [k] => swap_over_one(by, first, second, *k, region),
        [k, l] => swap_over_two(by, first, second, (*k, *l), region),
        _ => false,
    }
}

/// .. over one name.
fn swap_over_one(by: &Instance, first: &Block, second: &Block, k: u32, region: Region) -> bool
    ensures { let names = slice_get by.now.fillings k ∷ [] in
        result ≡ spec.names_swap first.now second.now names region }
{
    match by.fillings.get(k as usize) {
        Some(Filling::Name(k)) => swaps_by_text(Swap {
            first,
            second,
            counters: Counters::One(k),
            region,
        }),
        _ => false,
    }
}

/// .. over two.
fn swap_over_two(
    by: &Instance,
    first: &Block,
    second: &Block,
    over: (u32, u32),
    region: Region,
) -> bool
    ensures { let all = by.now.fillings in
        let names = slice_get all over.0 ∷ slice_get all over.1 ∷ [] in
        result ≡ spec.names_swap first.now second.now names region }
{
    match (
        by.fillings.get(over.0 as usize),
        by.fillings.get(over.1 as usize),
    ) {
        (Some(Filling::Name(k)), Some(Filling::Name(l))) => swaps_by_text(Swap {
            first,
            second,
            counters: Counters::Two(k, l),
            region,
        }),
        _ => false,
    }
}
