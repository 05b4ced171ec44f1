//! The reader of tests, from the front of tokens. `specs/TestReading.antt` says what is read, and
//! the grammar of toy_imp what has a derivation.

ghost use Rattle.std.specs.Prelude.{◌≡◌, suc, IsTrue, IfOk};
ghost use Rattle.toy_imp.specs.Test.{less, less_eq, equal};
ghost use Rattle.program_reader.specs.ExprReading.{expr_read};
ghost use Rattle.program_reader.specs.TestReading.{goes_on, behind_left, bracket_closed, comparison_read, both_read, one_read, test_read};
ghost use Rattle.program_reader.specs.Unread.{Gives};

use crate::expr_reading::expr;
use crate::front::behind_word;
use crate::names::Names;
use crate::refusal::Unread;
use pec_text::{Sign, Token, Word};
use std::alloc::Global;
use toy_imp::{Expr, Test};

/// A test with at most `levels` of `not`, brackets and parentheses round one place, and at most
/// `left` operators. Also how many operators are left, and the tokens that are.
#[cycle(tests)]
#[tactic(auto, unfolding(crate::specs::TestReading::test_read, crate::specs::TestReading::either_read, crate::specs::TestReading::ors_read))]
pub fn test<'a>(
    alloc: Global,
    names: &Names,
    levels: u32,
    left: u32,
    tokens: &'a [Token],
) -> Result<(Test, u32, &'a [Token]), Unread>
    ensures { Gives (λ p. (p.0, p.1, p.2.now)) result (test_read names.now (suc levels) left tokens.now) }
{
    let (mut found, mut remaining, mut rest) = both(alloc, names, levels, left, tokens)?;
    for _turn in 0..tokens.len() {
        let Some(after) = behind_word(Word::Or, rest) else {
            return Ok((found, remaining, rest));
        };
        if remaining == 0 {
            return Err(Unread::NotGrammar);
        }
        let (next, fewer, after) = both(alloc, names, levels, remaining - 1, after)?;
        found = Test::or(alloc, found, next)?;
        remaining = fewer;
        rest = after;
    }
    Ok((found, remaining, rest))
}

/// A conjunction: tests with `and` between them.
#[cycle(tests)]
#[tactic(auto, unfolding(crate::specs::TestReading::both_read, crate::specs::TestReading::ands_read))]
fn both<'a>(
    alloc: Global,
    names: &Names,
    levels: u32,
    left: u32,
    tokens: &'a [Token],
) -> Result<(Test, u32, &'a [Token]), Unread>
    ensures { Gives (λ p. (p.0, p.1, p.2.now)) result (both_read (one_read names.now (suc levels)) left tokens.now) }
{
    let (mut found, mut remaining, mut rest) = one(alloc, names, levels, left, tokens)?;
    for _turn in 0..tokens.len() {
        let Some(after) = behind_word(Word::And, rest) else {
            return Ok((found, remaining, rest));
        };
        if remaining == 0 {
            return Err(Unread::NotGrammar);
        }
        let (next, fewer, after) = one(alloc, names, levels, remaining - 1, after)?;
        found = Test::and(alloc, found, next)?;
        remaining = fewer;
        rest = after;
    }
    Ok((found, remaining, rest))
}

/// One test: `not`, brackets, a name alone or a comparison.
#[cycle(tests)]
#[tactic(auto, unfolding(crate::specs::TestReading::one_read, crate::specs::TestReading::one_by, crate::specs::TestReading::test_read))]
fn one<'a>(
    alloc: Global,
    names: &Names,
    levels: u32,
    left: u32,
    tokens: &'a [Token],
) -> Result<(Test, u32, &'a [Token]), Unread>
    ensures { Gives (λ p. (p.0, p.1, p.2.now)) result (one_read names.now (suc levels) left tokens.now) }
{
    match tokens.split_first() {
        Some((Token::Word(Word::Not), rest)) => {
            let (found, left, rest) = under_not(alloc, names, levels, left, rest)?;
            let found = Test::not(alloc, found)?;
            Ok((found, left, rest))
        }
        Some((Token::Sign(Sign::OpenBracket), rest)) => {
            let (found, left, rest) = in_brackets(alloc, names, levels, left, rest)?;
            bracket_closed(found, left, rest)
        }
        Some((Token::Name(name), rest)) if !goes_on(rest) => {
            Ok((names.test(name.as_slice()), left, rest))
        }
        _ => comparison(alloc, names, levels, left, tokens),
    }
}

/// The test under a `not`, of which `levels` more may be opened.
#[cycle(tests)]
#[tactic(auto, unfolding(crate::specs::TestReading::one_read))]
fn under_not<'a>(
    alloc: Global,
    names: &Names,
    levels: u32,
    left: u32,
    tokens: &'a [Token],
) -> Result<(Test, u32, &'a [Token]), Unread>
    ensures { Gives (λ p. (p.0, p.1, p.2.now)) result (one_read names.now levels left tokens.now) }
{
    if levels == 0 {
        return Err(Unread::NotGrammar);
    }
    one(alloc, names, levels - 1, left, tokens)
}

/// The test inside brackets, of which `levels` more may be opened.
#[cycle(tests)]
#[tactic(auto, unfolding(crate::specs::TestReading::test_read, crate::specs::TestReading::either_read, crate::specs::TestReading::both_read, crate::specs::TestReading::one_read))]
fn in_brackets<'a>(
    alloc: Global,
    names: &Names,
    levels: u32,
    left: u32,
    tokens: &'a [Token],
) -> Result<(Test, u32, &'a [Token]), Unread>
    ensures { Gives (λ p. (p.0, p.1, p.2.now)) result (test_read names.now levels left tokens.now) }
{
    if levels == 0 {
        return Err(Unread::NotGrammar);
    }
    test(alloc, names, levels - 1, left, tokens)
}

/// Whether what follows a name goes on with an expression or a comparison.
fn goes_on(tokens: &[Token]) -> bool
    ensures { result ≡ goes_on tokens.now }
{
    match tokens.split_first() {
        Some((Token::Sign(sign), _)) => matches!(
            sign,
            Sign::OpenBracket
                | Sign::Star
                | Sign::Plus
                | Sign::Minus
                | Sign::Less
                | Sign::LessEq
                | Sign::DoubleEquals
        ),
        _ => false,
    }
}

/// A comparison of two expressions.
#[tactic(auto, unfolding(crate::specs::TestReading::comparison_read))]
fn comparison<'a>(
    alloc: Global,
    names: &Names,
    levels: u32,
    left: u32,
    tokens: &'a [Token],
) -> Result<(Test, u32, &'a [Token]), Unread>
    ensures { Gives (λ p. (p.0, p.1, p.2.now)) result (comparison_read (expr_read names.now (suc levels)) left tokens.now) }
{
    let (a, left, rest) = expr(alloc, names, levels, left, tokens)?;
    behind_left(alloc, names, levels, a, left, rest)
}

/// What follows the left side of a comparison.
fn behind_left<'a>(
    alloc: Global,
    names: &Names,
    levels: u32,
    a: Expr,
    left: u32,
    tokens: &'a [Token],
) -> Result<(Test, u32, &'a [Token]), Unread>
    ensures { Gives (λ p. (p.0, p.1, p.2.now)) result (behind_left (expr_read names.now (suc levels)) a left tokens.now) }
{
    match tokens.split_first() {
        Some((Token::Sign(Sign::Less), rest)) => {
            let (b, left, rest) = expr(alloc, names, levels, left, rest)?;
            Ok((Test::less(a, b), left, rest))
        }
        Some((Token::Sign(Sign::LessEq), rest)) => {
            let (b, left, rest) = expr(alloc, names, levels, left, rest)?;
            Ok((Test::less_eq(a, b), left, rest))
        }
        Some((Token::Sign(Sign::DoubleEquals), rest)) => {
            let (b, left, rest) = expr(alloc, names, levels, left, rest)?;
            Ok((Test::equal(a, b), left, rest))
        }
        _ => Err(Unread::NotGrammar),
    }
}

/// What a test in brackets is, at its closing bracket.
fn bracket_closed(found: Test, left: u32, tokens: &[Token]) -> Result<(Test, u32, &[Token]), Unread>
    ensures { Gives (λ p. (p.0, p.1, p.2.now)) result (bracket_closed found left tokens.now) }
{
    match tokens.split_first() {
        Some((Token::Sign(Sign::CloseBracket), rest)) => Ok((found, left, rest)),
        _ => Err(Unread::NotGrammar),
    }
}
