//! The reader of the method and of the cuts of a rule, from the front of tokens.
//! `specs/CutReading.antt` says what is read.

ghost use Rattle.std.specs.Prelude.{◌≡◌, ◌∷◌, [], IfOk, map, min};
ghost use Rattle.std.specs.List.{list_any};
ghost use Rattle.toy_imp.specs.RuleGrammar.{cut_value, greatest_cut};
ghost use Rattle.toy_imp.specs.declared.rule.CutList.TheVariants as cuts;
ghost use Rattle.program_reader.specs.Unread.{Gives};
ghost use Rattle.rule_reader.specs.CutReading.{method_of, named_method_read, method_read, numeral_number, number_read, pair_read, is_beyond, pairs_read, listed_cuts_read, first_pair_read, cuts_read, cut_line};
ghost use Rattle.rule_reader.specs.Front.{valued, with_found};

use crate::front::{name, semicolon};
use pec_text::{Numeral, Sign, Token, Word};
use program_reader::{Unread, behind_sign, behind_word};
use sqlite_items::Items;
use std::alloc::{AllocError, Global};
use toy_imp::{CutList, Method};

/// The method of a rule, which is simulation where no line says it.
#[tactic(auto, unfolding(crate::specs::CutReading::method_read))]
pub fn method(tokens: &[Token]) -> Result<(Method, &[Token]), Unread>
    ensures { Gives (λ p. (p.0, p.1.now)) result (method_read tokens.now) }
{
    match tokens.split_first() {
        Some((Token::Word(Word::Method), rest)) => named_method(rest),
        _ => Ok((Method::Simulate, tokens)),
    }
}

/// The method behind its word, up to its semicolon.
#[tactic(auto, unfolding(crate::specs::CutReading::named_method_read))]
fn named_method(tokens: &[Token]) -> Result<(Method, &[Token]), Unread>
    ensures { Gives (λ p. (p.0, p.1.now)) result (named_method_read tokens.now) }
{
    let (word, rest) = name(tokens)?;
    let Some(found) = method_of(word) else {
        return Err(Unread::NotGrammar);
    };
    let rest = semicolon(rest)?;
    Ok((found, rest))
}

/// The method that a word stands for.
fn method_of(word: &[u8]) -> Option<Method>
    ensures { result ≡ method_of word.now }
{
    if word == b"simulate".as_slice() {
        Some(Method::Simulate)
    } else if word == b"permute".as_slice() {
        Some(Method::Permute)
    } else if word == b"chain".as_slice() {
        Some(Method::Chain)
    } else if word == b"tile".as_slice() {
        Some(Method::Tile)
    } else {
        None
    }
}

/// The cuts of a rule as they are written.
#[derive(Drop)]
pub struct CutLine {
    /// The cuts, in which a number of 2^32 or more is 2^32 - 1.
    pub cuts: CutList,
    /// Whether a number is 2^32 or more.
    pub is_beyond: bool,
}

/// The cuts of a rule, which are the default where no line says them.
#[tactic(auto, unfolding(crate::specs::CutReading::cuts_read))]
pub fn cuts<'a>(alloc: Global, tokens: &'a [Token]) -> Result<(CutLine, &'a [Token]), Unread>
    ensures { Gives (λ p. (p.0, p.1.now)) result (valued cut_line (cuts_read tokens.now)) }
{
    match tokens.split_first() {
        Some((Token::Word(Word::Cuts), rest)) => listed_cuts(alloc, rest),
        _ => {
            let line = CutLine {
                cuts: CutList::Default,
                is_beyond: false,
            };
            Ok((line, tokens))
        }
    }
}

/// The cuts behind their word, up to the semicolon.
#[tactic(auto, unfolding(crate::specs::CutReading::listed_cuts_read))]
fn listed_cuts<'a>(alloc: Global, tokens: &'a [Token]) -> Result<(CutLine, &'a [Token]), Unread>
    ensures { Gives (λ p. (p.0, p.1.now)) result (valued cut_line (listed_cuts_read tokens.now)) }
{
    match tokens.split_first() {
        Some((Token::Word(Word::None), rest)) => {
            let rest = semicolon(rest)?;
            let line = CutLine {
                cuts: CutList::Listed(Items::new(alloc)),
                is_beyond: false,
            };
            Ok((line, rest))
        }
        _ => pair_cuts(alloc, tokens),
    }
}

/// One pair or more, up to the semicolon.
fn pair_cuts<'a>(alloc: Global, tokens: &'a [Token]) -> Result<(CutLine, &'a [Token]), Unread>
    ensures { Gives (λ p. (p.0, p.1.now)) result (valued cut_line (first_pair_read tokens.now)) }
{
    let (first, rest) = pair(tokens)?;
    let (all, more) = pairs(alloc, first, rest)?;
    let behind = semicolon(more)?;
    let line = line_of(alloc, all.as_slice())?;
    Ok((line, behind))
}

/// This pair, and behind it each pair behind a comma.
#[tactic(auto, unfolding(crate::specs::CutReading::pairs_read))]
fn pairs<'a>(
    alloc: Global,
    first: (u64, u64),
    tokens: &'a [Token],
) -> Result<(Items<(u64, u64)>, &'a [Token]), Unread>
    ensures { Gives (λ p. (p.0, p.1.now)) result (with_found (first ∷ []) (pairs_read tokens.now)) }
{
    let mut found = just(alloc, first)?;
    let mut rest = tokens;
    for _turn in 0..tokens.len() {
        let Some(after) = behind_sign(Sign::Comma, rest) else {
            return Ok((found, rest));
        };
        let (next, after) = pair(after)?;
        found.push(next)?;
        rest = after;
    }
    Ok((found, rest))
}

/// A list of this pair alone.
fn just(alloc: Global, pair: (u64, u64)) -> Result<Items<(u64, u64)>, AllocError>
    ensures { IfOk result (λ all. all ≡ pair ∷ []) }
{
    let mut all = Items::new(alloc);
    all.push(pair)?;
    Ok(all)
}

/// Two numbers.
#[tactic(auto, unfolding(crate::specs::CutReading::pair_read))]
fn pair(tokens: &[Token]) -> Result<((u64, u64), &[Token]), Unread>
    ensures { Gives (λ p. (p.0, p.1.now)) result (pair_read tokens.now) }
{
    let (left, rest) = number(tokens)?;
    let (right, rest) = number(rest)?;
    Ok(((left, right), rest))
}

/// The number in front; one of 2^63 or more counts as 2^63.
fn number(tokens: &[Token]) -> Result<(u64, &[Token]), Unread>
    ensures { Gives (λ p. (p.0, p.1.now)) result (number_read tokens.now) }
{
    match tokens.split_first() {
        Some((Token::Number(numeral), rest)) => match numeral_number(*numeral) {
            Some(number) => Ok((number, rest)),
            None => Err(Unread::NotGrammar),
        },
        _ => Err(Unread::NotGrammar),
    }
}

/// The number of a numeral.
fn numeral_number(numeral: Numeral) -> Option<u64>
    ensures { result ≡ numeral_number numeral }
{
    match numeral {
        Numeral::Value(value) if value < 1 << 63 => Some(value),
        Numeral::Value(_) => None,
        Numeral::Wide => Some(1 << 63),
    }
}

/// What a cuts line of these pairs says.
fn line_of(alloc: Global, pairs: &[(u64, u64)]) -> Result<CutLine, AllocError>
    ensures { IfOk result (λ line. line ≡ record { cuts = cuts.Listed (map cut_value pairs.now); is_beyond = list_any is_beyond pairs.now }) }
{
    let mut cuts = Items::new(alloc);
    for pair in pairs {
        cuts.push((cut_number(pair.0), cut_number(pair.1)))?;
    }
    Ok(CutLine {
        cuts: CutList::Listed(cuts),
        is_beyond: is_any_beyond(pairs),
    })
}

/// The number of a point, of which a greater one than 2^32 - 1 counts as that.
fn cut_number(number: u64) -> u32
    ensures { result ≡ min number greatest_cut }
{
    number.min(u64::from(u32::MAX)) as u32
}

fn is_any_beyond(pairs: &[(u64, u64)]) -> bool
    ensures { result ≡ list_any is_beyond pairs.now }
{
    pairs.iter().any(|pair| is_beyond(*pair))
}

fn is_beyond(pair: (u64, u64)) -> bool
    ensures { result ≡ is_beyond pair }
{
    1 << 32 <= pair.0 || 1 << 32 <= pair.1
}
