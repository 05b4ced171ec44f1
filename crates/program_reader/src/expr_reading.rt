//! The reader of expressions, from the front of tokens. `specs/ExprReading.antt` says what is read,
//! and the grammar of toy_imp what has a derivation.

ghost use Rattle.std.specs.Prelude.{◌≡◌, suc, IfOk, MatchOption, None, Some};
ghost use Rattle.program_reader.specs.Read.{constant_of, negative_of};
ghost use Rattle.program_reader.specs.ExprReading.{closed, constant_read, brackets_read, indices_read, factor_read, term_read, expr_read};
ghost use Rattle.program_reader.specs.ExprParts.{sum_sign, joined, index_read};
ghost use Rattle.program_reader.specs.Unread.{Gives};

use crate::front::behind_sign;
use crate::names::Names;
use crate::refusal::Unread;
use pec_text::{Numeral, Sign, Token};
use sqlite_items::Items;
use std::alloc::Global;
use toy_imp::{Expr, NoMemory};

/// How many operators an expression or test may have that is part of no other.
pub const MOST_OPERATORS: u32 = 4096;

/// Of which operators those of an index are.
#[derive(Clone, Copy)]
pub enum Operators {
    /// Those of the expression that the index is in.
    Shared,
    /// Its own: the index of a written place is part of no other expression.
    Apart,
}

/// An expression with at most `levels` parentheses and brackets round one place, and at most `left`
/// operators. Also how many operators are left, and the tokens that are.
#[cycle(expr)]
#[tactic(auto, unfolding(crate::specs::ExprReading::expr_read, crate::specs::ExprReading::sum_read, crate::specs::ExprReading::sums_read))]
pub fn expr<'a>(
    alloc: Global,
    names: &Names,
    levels: u32,
    left: u32,
    tokens: &'a [Token],
) -> Result<(Expr, u32, &'a [Token]), Unread>
    ensures { Gives (λ p. (p.0, p.1, p.2.now)) result (expr_read names.now (suc levels) left tokens.now) }
{
    let (mut found, mut remaining, mut rest) = term(alloc, names, levels, left, tokens)?;
    for _turn in 0..tokens.len() {
        let Some((sign, after)) = sum_sign(rest) else {
            return Ok((found, remaining, rest));
        };
        if remaining == 0 {
            return Err(Unread::NotGrammar);
        }
        let (next, fewer, after) = term(alloc, names, levels, remaining - 1, after)?;
        found = joined(alloc, sign, found, next)?;
        remaining = fewer;
        rest = after;
    }
    Ok((found, remaining, rest))
}

/// The sign between two terms, and the tokens behind it.
fn sum_sign(tokens: &[Token]) -> Option<(Sign, &[Token])>
    ensures { MatchOption result (sum_sign tokens.now ≡ None) (λ p. sum_sign tokens.now ≡ Some (p.0, p.1.now)) }
{
    match tokens.split_first() {
        Some((Token::Sign(Sign::Plus), rest)) => Some((Sign::Plus, rest)),
        Some((Token::Sign(Sign::Minus), rest)) => Some((Sign::Minus, rest)),
        _ => None,
    }
}

/// Two terms with this sign between them.
fn joined(alloc: Global, sign: Sign, a: Expr, b: Expr) -> Result<Expr, NoMemory>
    ensures { IfOk result (λ e. e ≡ joined sign a b) }
{
    match sign {
        Sign::Plus => Expr::add(alloc, a, b),
        _ => Expr::sub(alloc, a, b),
    }
}

/// A term: factors with `*` between them.
#[cycle(expr)]
#[tactic(auto, unfolding(crate::specs::ExprReading::term_read, crate::specs::ExprReading::products_read))]
fn term<'a>(
    alloc: Global,
    names: &Names,
    levels: u32,
    left: u32,
    tokens: &'a [Token],
) -> Result<(Expr, u32, &'a [Token]), Unread>
    ensures { Gives (λ p. (p.0, p.1, p.2.now)) result (term_read names.now (λ k rest. expr_read names.now levels k rest) left tokens.now) }
{
    let (mut found, mut remaining, mut rest) = factor(alloc, names, levels, left, tokens)?;
    for _turn in 0..tokens.len() {
        let Some(after) = behind_sign(Sign::Star, rest) else {
            return Ok((found, remaining, rest));
        };
        if remaining == 0 {
            return Err(Unread::NotGrammar);
        }
        let (next, fewer, after) = factor(alloc, names, levels, remaining - 1, after)?;
        found = Expr::mul(alloc, found, next)?;
        remaining = fewer;
        rest = after;
    }
    Ok((found, remaining, rest))
}

/// A factor: a constant with its sign, a place, or an expression in parentheses.
#[cycle(expr)]
#[tactic(auto, unfolding(crate::specs::ExprReading::factor_read))]
fn factor<'a>(
    alloc: Global,
    names: &Names,
    levels: u32,
    left: u32,
    tokens: &'a [Token],
) -> Result<(Expr, u32, &'a [Token]), Unread>
    ensures { Gives (λ p. (p.0, p.1, p.2.now)) result (factor_read names.now (λ k rest. expr_read names.now levels k rest) left tokens.now) }
{
    match tokens.split_first() {
        Some((Token::Number(numeral), rest)) => constant(constant_of(*numeral), left, rest),
        Some((Token::Sign(Sign::Minus), rest)) => match rest.split_first() {
            Some((Token::Number(numeral), rest)) => constant(negative_of(*numeral), left, rest),
            _ => Err(Unread::NotGrammar),
        },
        Some((Token::Name(name), rest)) => {
            let (indices, left, rest) = brackets(
                alloc,
                names,
                levels,
                Operators::Shared,
                left,
                rest,
            )?;
            let cell = names.cell(alloc, name.as_slice(), indices)?;
            Ok((cell, left, rest))
        }
        Some((Token::Sign(Sign::OpenParen), rest)) => {
            let (found, left, rest) = inner(alloc, names, levels, left, rest)?;
            closed(found, left, rest)
        }
        _ => Err(Unread::NotGrammar),
    }
}

/// An expression inside parentheses or brackets, of which `levels` more may be opened.
#[cycle(expr)]
#[tactic(auto, unfolding(crate::specs::ExprReading::expr_read))]
fn inner<'a>(
    alloc: Global,
    names: &Names,
    levels: u32,
    left: u32,
    tokens: &'a [Token],
) -> Result<(Expr, u32, &'a [Token]), Unread>
    ensures { Gives (λ p. (p.0, p.1, p.2.now)) result (expr_read names.now levels left tokens.now) }
{
    if levels == 0 {
        return Err(Unread::NotGrammar);
    }
    expr(alloc, names, levels - 1, left, tokens)
}

/// The indices behind a name, of which a variable has none.
#[cycle(expr)]
#[tactic(auto, unfolding(crate::specs::ExprReading::brackets_read))]
pub fn brackets<'a>(
    alloc: Global,
    names: &Names,
    levels: u32,
    operators: Operators,
    left: u32,
    tokens: &'a [Token],
) -> Result<(Items<Expr>, u32, &'a [Token]), Unread>
    ensures { Gives (λ p. (p.0, p.1, p.2.now)) result (brackets_read (index_read operators names.now levels) left tokens.now) }
{
    match tokens.split_first() {
        Some((Token::Sign(Sign::OpenBracket), rest)) => {
            indices(alloc, names, levels, operators, left, rest)
        }
        _ => Ok((Items::new(alloc), left, tokens)),
    }
}

/// One to three indices and the closing bracket.
#[cycle(expr)]
#[tactic(auto, unfolding(crate::specs::ExprReading::indices_read))]
fn indices<'a>(
    alloc: Global,
    names: &Names,
    levels: u32,
    operators: Operators,
    left: u32,
    tokens: &'a [Token],
) -> Result<(Items<Expr>, u32, &'a [Token]), Unread>
    ensures { Gives (λ p. (p.0, p.1, p.2.now)) result (indices_read (index_read operators names.now levels) 3 left tokens.now) }
{
    let mut found = Items::new(alloc);
    let mut remaining = left;
    let mut rest = tokens;
    for _turn in 0..3u64 {
        let (next, fewer, after) = index(alloc, names, levels, operators, remaining, rest)?;
        found.push(next)?;
        if let Some(after) = behind_sign(Sign::CloseBracket, after) {
            return Ok((found, fewer, after));
        }
        let Some(after) = behind_sign(Sign::Comma, after) else {
            return Err(Unread::NotGrammar);
        };
        remaining = fewer;
        rest = after;
    }
    Err(Unread::NotGrammar)
}

/// One index.
#[cycle(expr)]
fn index<'a>(
    alloc: Global,
    names: &Names,
    levels: u32,
    operators: Operators,
    left: u32,
    tokens: &'a [Token],
) -> Result<(Expr, u32, &'a [Token]), Unread>
    ensures { Gives (λ p. (p.0, p.1, p.2.now)) result (index_read operators names.now levels left tokens.now) }
{
    match operators {
        Operators::Shared => inner(alloc, names, levels, left, tokens),
        Operators::Apart => {
            let (found, _remaining, rest) = inner(alloc, names, levels, MOST_OPERATORS, tokens)?;
            Ok((found, left, rest))
        }
    }
}

/// What an expression in parentheses is, at its closing parenthesis.
fn closed(found: Expr, left: u32, tokens: &[Token]) -> Result<(Expr, u32, &[Token]), Unread>
    ensures { Gives (λ p. (p.0, p.1, p.2.now)) result (closed found left tokens.now) }
{
    match tokens.split_first() {
        Some((Token::Sign(Sign::CloseParen), rest)) => Ok((found, left, rest)),
        _ => Err(Unread::NotGrammar),
    }
}

/// The constant, where there is one.
fn constant(value: Option<i64>, left: u32, rest: &[Token]) -> Result<(Expr, u32, &[Token]), Unread>
    ensures { Gives (λ p. (p.0, p.1, p.2.now)) result (constant_read value left rest.now) }
{
    match value {
        Some(value) => Ok((Expr::num(value), left, rest)),
        None => Err(Unread::NotGrammar),
    }
}

/// The constant of a numeral; a wide one counts as the widest.
fn constant_of(numeral: Numeral) -> Option<i64>
    ensures { result ≡ constant_of numeral }
{
    match numeral {
        Numeral::Value(value) => i64::try_from(value).ok(),
        Numeral::Wide => Some(i64::MAX),
    }
}

/// The constant of a numeral behind its sign, of which `- 0` is none.
fn negative_of(numeral: Numeral) -> Option<i64>
    ensures { result ≡ negative_of numeral }
{
    match constant_of(numeral) {
        Some(0) | None => None,
        Some(value) => Some(-value),
    }
}
