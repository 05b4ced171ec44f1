//! The reader of side conditions, from the front of tokens, by the declared parameters.
//! `specs/ConditionReading.antt` says what is read.

ghost use Rattle.std.specs.Prelude.{◌≡◌, ℕ};
ghost use Rattle.toy_imp.specs.Test.{par_test};
ghost use Rattle.toy_imp.specs.Parameters.{number_of};
ghost use Rattle.toy_imp.specs.RuleGrammar.{condition_value};
ghost use Rattle.program_reader.specs.Unread.{Gives};
ghost use Rattle.rule_reader.specs.ConditionReading.{of_one, of_two, behind_given, region_read, over_read, one_over_read, two_over_read, swaps_read, condition_read, conditions_read};
ghost use Rattle.rule_reader.specs.Front.{valued};

use crate::condition_words::{Form, OfOne, OfTwo, form_of, region_of};
use crate::front::{name, semicolon, two_names};
use pec_text::{Sign, Token, Word};
use program_reader::{Names, Unread, behind_sign, behind_word};
use sqlite_items::Items;
use std::alloc::Global;
use toy_imp::{Condition, Region, Test, TestNode};

/// All side conditions in front, and the tokens behind them.
#[tactic(auto, unfolding(crate::specs::ConditionReading::conditions_read))]
pub fn conditions<'a>(
    alloc: Global,
    names: &Names,
    tokens: &'a [Token],
) -> Result<(Items<Condition>, &'a [Token]), Unread>
    ensures { Gives (λ p. (p.0, p.1.now)) result (conditions_read names.now tokens.now) }
{
    let mut found = Items::new(alloc);
    let mut rest = tokens;
    for _turn in 0..tokens.len() {
        let Some(after) = behind_word(Word::Given, rest) else {
            return Ok((found, rest));
        };
        let (next, after) = given(alloc, names, after)?;
        found.push(next)?;
        rest = after;
    }
    Ok((found, rest))
}

/// The side condition behind `given`, up to its semicolon.
fn given<'a>(
    alloc: Global,
    names: &Names,
    tokens: &'a [Token],
) -> Result<(Condition, &'a [Token]), Unread>
    ensures { Gives (λ p. (p.0, p.1.now)) result (valued (condition_value names.now) (behind_given tokens.now)) }
{
    let (found, rest) = condition(alloc, names, tokens)?;
    let behind = semicolon(rest)?;
    Ok((found, behind))
}

/// One side condition.
#[tactic(auto, unfolding(crate::specs::ConditionReading::condition_read))]
fn condition<'a>(
    alloc: Global,
    names: &Names,
    tokens: &'a [Token],
) -> Result<(Condition, &'a [Token]), Unread>
    ensures { Gives (λ p. (p.0, p.1.now)) result (valued (condition_value names.now) (condition_read tokens.now)) }
{
    let (word, rest) = name(tokens)?;
    match form_of(word) {
        Some(Form::Two(form)) => {
            let (both, rest) = two_names(rest)?;
            Ok((of_two(names, form, both.0, both.1), rest))
        }
        Some(Form::One(form)) => {
            let (only, rest) = name(rest)?;
            Ok((of_one(names, form, only), rest))
        }
        Some(Form::Swaps) => swaps(alloc, names, rest),
        None => Err(Unread::NotGrammar),
    }
}

/// The number of the parameter of this name, and how many parameters there are where none has it.
fn number(names: &Names, x: &[u8]) -> u32
    ensures { result ≡ number_of names.now x.now }
{
    let test = names.test(x);
    par_number(&test)
}

/// The number of the parameter that a test is.
fn par_number(test: &Test) -> u32
    ensures { (k : ℕ) → test.now ≡ par_test k → result ≡ k }
{
    match &test.node {
        TestNode::Par(number) => *number,
        _ => 0,
    }
}

/// The condition of one name.
fn of_one(names: &Names, form: OfOne, only: &[u8]) -> Condition
    ensures { result ≡ condition_value names.now (of_one form only.now) }
{
    let only = number(names, only);
    match form {
        OfOne::Positive => Condition::Positive(only),
        OfOne::Constant => Condition::Constant(only),
        OfOne::Quiet => Condition::Quiet(only),
    }
}

/// The condition of two names.
fn of_two(names: &Names, form: OfTwo, first: &[u8], second: &[u8]) -> Condition
    ensures { result ≡ condition_value names.now (of_two form (first.now, second.now)) }
{
    let first = number(names, first);
    let second = number(names, second);
    match form {
        OfTwo::Keeps => Condition::Keeps(first, second),
        OfTwo::Ignores => Condition::Ignores(first, second),
        OfTwo::Commutes => Condition::Commutes(first, second),
        OfTwo::Distinct => Condition::Distinct(first, second),
    }
}

/// A `swaps` behind its word.
#[tactic(auto, unfolding(crate::specs::ConditionReading::swaps_read))]
fn swaps<'a>(
    alloc: Global,
    names: &Names,
    tokens: &'a [Token],
) -> Result<(Condition, &'a [Token]), Unread>
    ensures { Gives (λ p. (p.0, p.1.now)) result (valued (condition_value names.now) (swaps_read tokens.now)) }
{
    let (both, rest) = two_names(tokens)?;
    let (outer, behind) = over(rest)?;
    match behind_sign(Sign::Comma, behind) {
        Some(after) => swaps_of_two(alloc, names, both.0, both.1, outer, after),
        None => swaps_of_one(alloc, names, both.0, both.1, outer, behind),
    }
}

/// What follows the first name behind `over`, where it is the only one.
fn swaps_of_one<'a>(
    alloc: Global,
    names: &Names,
    first: &[u8],
    second: &[u8],
    outer: &[u8],
    tokens: &'a [Token],
) -> Result<(Condition, &'a [Token]), Unread>
    ensures { Gives (λ p. (p.0, p.1.now)) result (valued (condition_value names.now) (one_over_read (first.now, second.now) outer.now tokens.now)) }
{
    let (where_listed, rest) = region(tokens)?;
    let mut listed = Items::new(alloc);
    listed.push(number(names, outer))?;
    let made = Condition::Swaps(
        number(names, first),
        number(names, second),
        listed,
        where_listed,
    );
    Ok((made, rest))
}

/// What follows the comma behind the first name behind `over`.
fn swaps_of_two<'a>(
    alloc: Global,
    names: &Names,
    first: &[u8],
    second: &[u8],
    outer: &[u8],
    tokens: &'a [Token],
) -> Result<(Condition, &'a [Token]), Unread>
    ensures { Gives (λ p. (p.0, p.1.now)) result (valued (condition_value names.now) (two_over_read (first.now, second.now) outer.now tokens.now)) }
{
    let (inner, rest) = name(tokens)?;
    let (where_listed, rest) = region(rest)?;
    let mut listed = Items::new(alloc);
    listed.push(number(names, outer))?;
    listed.push(number(names, inner))?;
    let made = Condition::Swaps(
        number(names, first),
        number(names, second),
        listed,
        where_listed,
    );
    Ok((made, rest))
}

/// The word `over` and the name behind it.
fn over(tokens: &[Token]) -> Result<(&[u8], &[Token]), Unread>
    ensures { Gives (λ p. (p.0.now, p.1.now)) result (over_read tokens.now) }
{
    let (word, rest) = name(tokens)?;
    if word != b"over".as_slice() {
        return Err(Unread::NotGrammar);
    }
    name(rest)
}

/// The region in front.
fn region(tokens: &[Token]) -> Result<(Region, &[Token]), Unread>
    ensures { Gives (λ p. (p.0, p.1.now)) result (region_read tokens.now) }
{
    let (word, rest) = name(tokens)?;
    match region_of(word) {
        Some(region) => Ok((region, rest)),
        None => Err(Unread::NotGrammar),
    }
}
