//! Numbers in front of tokens, and put behind other tokens. `specs/NumberText.antt` says which numbers there are.

ghost use Rattle.std.specs.Prelude.{◌≡◌, ◌++◌, ◌∷◌, [], OnOk};
ghost use Rattle.std.specs.List.{flat_map};
ghost use Rattle.refutation_text.specs.NumberText as spec;
ghost use Rattle.refutation_text.specs.NumberText.{count_word, counted_words, index_words};
ghost use Rattle.refutation_text.specs.NumberText.{count_read, index_read, int_read, wide_read, many_read, counted_read};
ghost use Rattle.term_text.specs.TermReading as term;
ghost use Rattle.term_text.specs.Unread.{Gives};

use sqlite_items::Items;
use std::alloc::Global;
use term_text::Unread;
use toy_imp::NoMemory;
use word_text::Token;

/// A number from zero on.
pub fn read_count(tokens: &[Token]) -> Result<(u128, &[Token]), Unread>
    ensures { Gives (λ p. (p.0, p.1.now)) result (count_read tokens.now) }
{
    match tokens.split_first() {
        Some((Token::Number(false, n), rest)) => Ok((*n, rest)),
        _ => Err(Unread::NotGrammar),
    }
}

/// A number of 32 bits.
pub fn read_index(tokens: &[Token]) -> Result<(u32, &[Token]), Unread>
    ensures { Gives (λ p. (p.0, p.1.now)) result (index_read tokens.now) }
{
    let (n, rest) = read_count(tokens)?;
    match u32::try_from(n) {
        Ok(k) => Ok((k, rest)),
        Err(_) => Err(Unread::NotGrammar),
    }
}

// The constant of a sign and a magnitude, where it has 64 bits.
fn int_of(negative: bool, n: u128) -> Option<i64>
    ensures { result ≡ term.constant_of negative n }
{
    if !negative {
        return i64::try_from(n).ok();
    }
    if n == 0 || n > 1 << 63 {
        return None;
    }
    let below = (n - 1) as i64;
    Some(-1 - below)
}

// The constant of a sign and a magnitude, where it has 128 bits.
fn wide_of(negative: bool, n: u128) -> Option<i128>
    ensures { result ≡ spec.wide_of negative n }
{
    if !negative {
        return i128::try_from(n).ok();
    }
    if n == 0 || n > 1 << 127 {
        return None;
    }
    let below = (n - 1) as i128;
    Some(-1 - below)
}

// A constant of 64 bits.
pub(crate) fn read_int(tokens: &[Token]) -> Result<(i64, &[Token]), Unread>
    ensures { Gives (λ p. (p.0, p.1.now)) result (int_read tokens.now) }
{
    let Some((Token::Number(negative, n), rest)) = tokens.split_first() else {
        return Err(Unread::NotGrammar);
    };
    match int_of(*negative, *n) {
        Some(z) => Ok((z, rest)),
        None => Err(Unread::NotGrammar),
    }
}

// A constant of 128 bits.
pub(crate) fn read_wide(tokens: &[Token]) -> Result<(i128, &[Token]), Unread>
    ensures { Gives (λ p. (p.0, p.1.now)) result (wide_read tokens.now) }
{
    let Some((Token::Number(negative, n), rest)) = tokens.split_first() else {
        return Err(Unread::NotGrammar);
    };
    match wide_of(*negative, *n) {
        Some(z) => Ok((z, rest)),
        None => Err(Unread::NotGrammar),
    }
}

// So many numbers of 32 bits.
fn indices(alloc: Global, n: u128, tokens: &[Token]) -> Result<(Items<u32>, &[Token]), Unread>
    ensures { Gives (λ p. (p.0, p.1.now)) result (many_read index_read n tokens.now) }
{
    let mut found = Items::new(alloc);
    let mut rest = tokens;
    for _turn in 0..n {
        let (item, after) = read_index(rest)?;
        found.push(item)?;
        rest = after;
    }
    Ok((found, rest))
}

// How many numbers there are, and they.
pub(crate) fn read_indices(
    alloc: Global,
    tokens: &[Token],
) -> Result<(Items<u32>, &[Token]), Unread>
    ensures { Gives (λ p. (p.0, p.1.now)) result (counted_read index_read tokens.now) }
{
    let (n, rest) = read_count(tokens)?;
    indices(alloc, n, rest)
}

/// Puts a number behind the others.
pub fn put_count(n: usize, out: &mut Items<Token>) -> Result<(), NoMemory>
    ensures { OnOk result (out.new ≡ out.old ++ count_word n ∷ []) }
{
    Ok(out.push(Token::Number(false, n as u128))?)
}

/// Puts a number of 32 bits behind the others.
pub fn put_index(k: u32, out: &mut Items<Token>) -> Result<(), NoMemory>
    ensures { OnOk result (out.new ≡ out.old ++ index_words k) }
{
    Ok(out.push(Token::Number(false, u128::from(k)))?)
}

// Puts numbers behind the others.
#[tactic(auto, using(crate::proofs::FlatTurns::flat_take, std::proofs::Common::append_assoc))]
fn put_each(items: &[u32], out: &mut Items<Token>) -> Result<(), NoMemory>
    ensures { OnOk result (out.new ≡ out.old ++ flat_map index_words items.now) }
{
    for k in items {
        put_index(*k, out)?;
    }
    Ok(())
}

// Puts how many numbers there are, and they.
pub(crate) fn put_indices(items: &[u32], out: &mut Items<Token>) -> Result<(), NoMemory>
    ensures { OnOk result (out.new ≡ out.old ++ counted_words index_words items.now) }
{
    put_count(items.len(), out)?;
    put_each(items, out)
}
