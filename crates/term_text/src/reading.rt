//! The reader of terms, from the front of tokens. `specs/TermReading.antt` says what is read.

ghost use Rattle.std.specs.Prelude.{◌≡◌, IfOk};
ghost use Rattle.rule_terms.specs.Term.{put, get, add, sub, mul};
ghost use Rattle.rule_terms.specs.TermView.{terms_of};
ghost use Rattle.term_text.specs.TermReading as spec;
ghost use Rattle.term_text.specs.TermReading.{store_by, value_by, store_read, value_read};
ghost use Rattle.term_text.specs.TermReading.{counted_read, terms_read, pair_read, num_read};
ghost use Rattle.term_text.specs.TermReading.{reading_read, run_read, ev_read};
ghost use Rattle.term_text.specs.Unread.{Gives};

use crate::refusal::Unread;
use rule_terms::{Place, StoreTerm, ValueTerm};
use sqlite_items::Items;
use std::alloc::Global;
use toy_imp::NoMemory;
use word_text::{Key, Token};

/// How deep terms may nest.
pub const DEEPEST: u32 = 4100;

// The constant of a sign and a magnitude, where it has 64 bits.
fn constant_of(negative: bool, n: u128) -> Option<i64>
    ensures { result ≡ spec.constant_of negative n }
{
    if !negative {
        return i64::try_from(n).ok();
    }
    if n == 0 || n > 1 << 63 {
        return None;
    }
    let below = (n - 1) as i64;
    Some(-1 - below)
}

// A constant behind `num`.
fn number(tokens: &[Token]) -> Result<(ValueTerm, &[Token]), Unread>
    ensures { Gives (λ p. (p.0, p.1.now)) result (num_read tokens.now) }
{
    let Some((Token::Number(negative, n), rest)) = tokens.split_first() else {
        return Err(Unread::NotGrammar);
    };
    match constant_of(*negative, *n) {
        Some(z) => Ok((ValueTerm::num(z), rest)),
        None => Err(Unread::NotGrammar),
    }
}

/// The store term in front of the tokens that nests at most `levels` deep, and the tokens behind it.
#[cycle(reading)]
#[tactic(auto, unfolding(crate::specs::TermReading::store_read))]
pub fn read_store<'a>(
    alloc: Global,
    levels: u32,
    tokens: &'a [Token],
) -> Result<(StoreTerm, &'a [Token]), Unread>
    ensures { Gives (λ p. (p.0, p.1.now)) result (store_read levels tokens.now) }
{
    if levels == 0 {
        return Err(Unread::NotGrammar);
    }
    store_top(alloc, levels - 1, tokens)
}

// A store term, whose parts nest at most `levels` deep.
#[cycle(reading)]
#[tactic(auto, unfolding(crate::specs::TermReading::store_by))]
fn store_top<'a>(
    alloc: Global,
    levels: u32,
    tokens: &'a [Token],
) -> Result<(StoreTerm, &'a [Token]), Unread>
    ensures { Gives (λ p. (p.0, p.1.now)) result (store_by (value_read levels) (store_read levels) tokens.now) }
{
    match tokens.split_first() {
        Some((Token::Key(Key::L), rest)) => Ok((StoreTerm::left(), rest)),
        Some((Token::Key(Key::R), rest)) => Ok((StoreTerm::right(), rest)),
        Some((Token::Key(Key::Put), rest)) => write(alloc, levels, rest),
        Some((Token::Key(Key::Run), rest)) => run(alloc, levels, rest),
        _ => Err(Unread::NotGrammar),
    }
}

// A run, behind its word.
#[cycle(reading)]
fn run<'a>(
    alloc: Global,
    levels: u32,
    tokens: &'a [Token],
) -> Result<(StoreTerm, &'a [Token]), Unread>
    ensures { Gives (λ p. (p.0, p.1.now)) result (run_read (store_read levels) tokens.now) }
{
    let Some((Token::Par(k), rest)) = tokens.split_first() else {
        return Err(Unread::NotGrammar);
    };
    let (s, rest) = read_store(alloc, levels, rest)?;
    let whole = StoreTerm::run(alloc, *k, s)?;
    Ok((whole, rest))
}

// A write, behind its word.
#[cycle(reading)]
fn write<'a>(
    alloc: Global,
    levels: u32,
    tokens: &'a [Token],
) -> Result<(StoreTerm, &'a [Token]), Unread>
    ensures { Gives (λ p. (p.0, p.1.now)) result (spec.put_read (value_read levels) (store_read levels) tokens.now) }
{
    let (s, rest) = read_store(alloc, levels, tokens)?;
    let Some((Token::Par(name), rest)) = rest.split_first() else {
        return Err(Unread::NotGrammar);
    };
    let (indices, rest) = counted(alloc, levels, rest)?;
    let (v, rest) = read_value(alloc, levels, rest)?;
    let whole = put_at(alloc, s, *name, indices, v)?;
    Ok((whole, rest))
}

// The write of a value at a place.
fn put_at(
    alloc: Global,
    s: StoreTerm,
    name: u32,
    indices: Items<ValueTerm>,
    v: ValueTerm,
) -> Result<StoreTerm, NoMemory>
    ensures { IfOk result (λ t. t ≡ put s name (terms_of indices) v) }
{
    StoreTerm::put(alloc, s, Place { name, indices }, v)
}

/// The value term in front of the tokens that nests at most `levels` deep, and the tokens behind it.
#[cycle(reading)]
#[tactic(auto, unfolding(crate::specs::TermReading::value_read))]
pub fn read_value<'a>(
    alloc: Global,
    levels: u32,
    tokens: &'a [Token],
) -> Result<(ValueTerm, &'a [Token]), Unread>
    ensures { Gives (λ p. (p.0, p.1.now)) result (value_read levels tokens.now) }
{
    if levels == 0 {
        return Err(Unread::NotGrammar);
    }
    value_top(alloc, levels - 1, tokens)
}

// A value term, whose parts nest at most `levels` deep.
#[cycle(reading)]
#[tactic(auto, unfolding(crate::specs::TermReading::value_by))]
fn value_top<'a>(
    alloc: Global,
    levels: u32,
    tokens: &'a [Token],
) -> Result<(ValueTerm, &'a [Token]), Unread>
    ensures { Gives (λ p. (p.0, p.1.now)) result (value_by (value_read levels) (store_read levels) tokens.now) }
{
    match tokens.split_first() {
        Some((Token::Key(Key::Num), rest)) => number(rest),
        Some((Token::Key(Key::Get), rest)) => reading(alloc, levels, rest),
        Some((Token::Key(Key::Ev), rest)) => evaluation(alloc, levels, rest),
        Some((Token::Key(Key::Add), rest)) => sum(alloc, levels, rest),
        Some((Token::Key(Key::Sub), rest)) => difference(alloc, levels, rest),
        Some((Token::Key(Key::Mul), rest)) => product(alloc, levels, rest),
        _ => Err(Unread::NotGrammar),
    }
}

// What is read of a store at a place, behind its word.
#[cycle(reading)]
fn reading<'a>(
    alloc: Global,
    levels: u32,
    tokens: &'a [Token],
) -> Result<(ValueTerm, &'a [Token]), Unread>
    ensures { Gives (λ p. (p.0, p.1.now)) result (reading_read (value_read levels) (store_read levels) tokens.now) }
{
    let Some((Token::Par(name), rest)) = tokens.split_first() else {
        return Err(Unread::NotGrammar);
    };
    let (indices, rest) = counted(alloc, levels, rest)?;
    let (s, rest) = read_store(alloc, levels, rest)?;
    let whole = get_at(alloc, *name, indices, s)?;
    Ok((whole, rest))
}

// What a place holds in a store.
fn get_at(
    alloc: Global,
    name: u32,
    indices: Items<ValueTerm>,
    s: StoreTerm,
) -> Result<ValueTerm, NoMemory>
    ensures { IfOk result (λ v. v ≡ get name (terms_of indices) s) }
{
    ValueTerm::get(alloc, Place { name, indices }, s)
}

// The value of an expression in a store, behind its word.
#[cycle(reading)]
fn evaluation<'a>(
    alloc: Global,
    levels: u32,
    tokens: &'a [Token],
) -> Result<(ValueTerm, &'a [Token]), Unread>
    ensures { Gives (λ p. (p.0, p.1.now)) result (ev_read (store_read levels) tokens.now) }
{
    let Some((Token::Par(k), rest)) = tokens.split_first() else {
        return Err(Unread::NotGrammar);
    };
    let (s, rest) = read_store(alloc, levels, rest)?;
    let whole = ValueTerm::ev(alloc, *k, s)?;
    Ok((whole, rest))
}

// A sum of two value terms, behind its word.
#[cycle(reading)]
fn sum<'a>(
    alloc: Global,
    levels: u32,
    tokens: &'a [Token],
) -> Result<(ValueTerm, &'a [Token]), Unread>
    ensures { Gives (λ p. (p.0, p.1.now)) result (pair_read (value_read levels) add tokens.now) }
{
    let (a, rest) = read_value(alloc, levels, tokens)?;
    let (b, rest) = read_value(alloc, levels, rest)?;
    let whole = ValueTerm::add(alloc, a, b)?;
    Ok((whole, rest))
}

// A difference of two value terms, behind its word.
#[cycle(reading)]
fn difference<'a>(
    alloc: Global,
    levels: u32,
    tokens: &'a [Token],
) -> Result<(ValueTerm, &'a [Token]), Unread>
    ensures { Gives (λ p. (p.0, p.1.now)) result (pair_read (value_read levels) sub tokens.now) }
{
    let (a, rest) = read_value(alloc, levels, tokens)?;
    let (b, rest) = read_value(alloc, levels, rest)?;
    let whole = ValueTerm::sub(alloc, a, b)?;
    Ok((whole, rest))
}

// A product of two value terms, behind its word.
#[cycle(reading)]
fn product<'a>(
    alloc: Global,
    levels: u32,
    tokens: &'a [Token],
) -> Result<(ValueTerm, &'a [Token]), Unread>
    ensures { Gives (λ p. (p.0, p.1.now)) result (pair_read (value_read levels) mul tokens.now) }
{
    let (a, rest) = read_value(alloc, levels, tokens)?;
    let (b, rest) = read_value(alloc, levels, rest)?;
    let whole = ValueTerm::mul(alloc, a, b)?;
    Ok((whole, rest))
}

// The indices of a place, behind their number.
#[cycle(reading)]
fn counted<'a>(
    alloc: Global,
    levels: u32,
    tokens: &'a [Token],
) -> Result<(Items<ValueTerm>, &'a [Token]), Unread>
    ensures { Gives (λ p. (terms_of p.0, p.1.now)) result (counted_read (value_read levels) tokens.now) }
{
    match tokens.split_first() {
        Some((Token::Number(false, n), rest)) => terms(alloc, levels, *n, rest),
        _ => Err(Unread::NotGrammar),
    }
}

// So many value terms.
#[cycle(reading)]
fn terms<'a>(
    alloc: Global,
    levels: u32,
    n: u128,
    tokens: &'a [Token],
) -> Result<(Items<ValueTerm>, &'a [Token]), Unread>
    ensures { Gives (λ p. (terms_of p.0, p.1.now)) result (terms_read (value_read levels) n tokens.now) }
{
    let mut found = Items::new(alloc);
    let mut rest = tokens;
    for _turn in 0..n {
        let (v, after) = read_value(alloc, levels, rest)?;
        found.push(v)?;
        rest = after;
    }
    Ok((found, rest))
}
