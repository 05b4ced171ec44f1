//! The reader of statements and blocks, from the front of tokens. `specs/BlockReading.antt` says
//! what is read, and the grammar of toy_imp what has a derivation.

ghost use Rattle.std.specs.Prelude.{◌≡◌, ◌∷◌, suc, None, Some, IfOk, MatchOption};
ghost use Rattle.toy_imp.specs.Block.{put, assert_that, for_to, let_in};
ghost use Rattle.toy_imp.specs.ExprView.{exprs_of};
ghost use Rattle.toy_imp.specs.Parameters.{name_value};
ghost use Rattle.pec_text.specs.declared.token.Token.TheVariants as t;
ghost use Rattle.pec_text.specs.declared.token.Word.TheVariants as w;
ghost use Rattle.program_reader.specs.BlockReading.{expr_alone, test_alone, written_indices, brace_closed, ended, is_end, block_read, assigned_read, else_read, stmt_read, stmts_read};
ghost use Rattle.program_reader.specs.BlockParts.{name_equals, bounds_read, for_read, let_read};
ghost use Rattle.program_reader.specs.Unread.{Gives};

use crate::expr_reading::{MOST_OPERATORS, Operators, brackets, expr};
use crate::front::{behind_sign, behind_word};
use crate::names::Names;
use crate::refusal::Unread;
use crate::test_reading::test;
use pec_text::{Sign, Token, Word};
use sqlite_items::Items;
use std::alloc::Global;
use toy_imp::{Block, Expr, NoMemory, Stmt, Test};

/// The statements up to the end of the tokens or a closing brace, with at most `levels` blocks,
/// `not`, brackets and parentheses round one place. Also the tokens that are left.
#[cycle(stmts)]
#[tactic(auto, unfolding(crate::specs::BlockReading::stmts_read, crate::specs::BlockReading::many_read))]
pub fn statements<'a>(
    alloc: Global,
    names: &Names,
    levels: u32,
    tokens: &'a [Token],
) -> Result<(Block, &'a [Token]), Unread>
    ensures { Gives (λ p. (p.0, p.1.now)) result (stmts_read names.now (suc levels) tokens.now) }
{
    let mut found = Block::new(alloc);
    let mut rest = tokens;
    for _turn in 0..tokens.len() {
        if is_end(rest) {
            return Ok((found, rest));
        }
        let (next, after) = statement(alloc, names, levels, rest)?;
        found.push(next)?;
        rest = after;
    }
    Ok((found, rest))
}

/// Whether no statement follows: at the end of the tokens and before a closing brace.
fn is_end(tokens: &[Token]) -> bool
    ensures { result ≡ is_end tokens.now }
{
    match tokens.split_first() {
        None => true,
        Some((Token::Sign(Sign::CloseBrace), _)) => true,
        _ => false,
    }
}

/// One statement.
#[cycle(stmts)]
#[tactic(auto, unfolding(crate::specs::BlockReading::stmt_read))]
fn statement<'a>(
    alloc: Global,
    names: &Names,
    levels: u32,
    tokens: &'a [Token],
) -> Result<(Stmt, &'a [Token]), Unread>
    ensures { Gives (λ p. (p.0, p.1.now)) result (stmt_read names.now levels (λ rest. stmts_read names.now levels rest) tokens.now) }
{
    match tokens.split_first() {
        Some((Token::Word(Word::Assert), rest)) => asserted(alloc, names, levels, rest),
        Some((Token::Word(Word::If), rest)) => conditional(alloc, names, levels, rest),
        Some((Token::Word(Word::While), rest)) => repeated(alloc, names, levels, rest),
        Some((Token::Word(Word::For), rest)) => counted(alloc, names, levels, rest),
        Some((Token::Word(Word::Let), rest)) => bound(alloc, names, levels, rest),
        Some((Token::Word(Word::Skip), rest)) => match behind_sign(Sign::Semicolon, rest) {
            Some(rest) => Ok((Stmt::skip(), rest)),
            None => Err(Unread::NotGrammar),
        },
        Some((Token::Name(name), rest)) => named(alloc, names, levels, name.as_slice(), rest),
        _ => Err(Unread::NotGrammar),
    }
}

/// A block in braces, of which `levels` more may be opened.
#[cycle(stmts)]
#[tactic(auto, unfolding(crate::specs::BlockReading::block_read, crate::specs::BlockReading::stmts_read))]
pub fn block<'a>(
    alloc: Global,
    names: &Names,
    levels: u32,
    tokens: &'a [Token],
) -> Result<(Block, &'a [Token]), Unread>
    ensures { Gives (λ p. (p.0, p.1.now)) result (block_read names.now levels (λ rest. stmts_read names.now levels rest) tokens.now) }
{
    match tokens.split_first() {
        Some((Token::Sign(Sign::OpenBrace), rest)) => {
            if levels == 0 {
                return Err(Unread::NotGrammar);
            }
            let (found, rest) = statements(alloc, names, levels - 1, rest)?;
            brace_closed(found, rest)
        }
        _ => Err(Unread::NotGrammar),
    }
}

/// What a block is, at its closing brace.
fn brace_closed(found: Block, tokens: &[Token]) -> Result<(Block, &[Token]), Unread>
    ensures { Gives (λ p. (p.0, p.1.now)) result (brace_closed found tokens.now) }
{
    match tokens.split_first() {
        Some((Token::Sign(Sign::CloseBrace), rest)) => Ok((found, rest)),
        _ => Err(Unread::NotGrammar),
    }
}

/// An `if` behind its word.
#[cycle(stmts)]
#[tactic(auto, unfolding(crate::specs::BlockReading::stmt_read))]
fn conditional<'a>(
    alloc: Global,
    names: &Names,
    levels: u32,
    tokens: &'a [Token],
) -> Result<(Stmt, &'a [Token]), Unread>
    ensures { Gives (λ p. (p.0, p.1.now)) result (stmt_read names.now levels (λ rest. stmts_read names.now levels rest) (t.Word w.If ∷ tokens.now)) }
{
    let (condition, rest) = test_alone(alloc, names, levels, tokens)?;
    let (then, rest) = block(alloc, names, levels, rest)?;
    let chosen = Chosen { condition, then };
    else_after(alloc, names, levels, chosen, rest)
}

/// An `if` up to its `else`.
#[derive(Drop)]
struct Chosen {
    condition: Test,
    then: Block,
}

/// The `else` of an `if` and its block.
#[cycle(stmts)]
#[tactic(auto, unfolding(crate::specs::BlockReading::else_read))]
fn else_after<'a>(
    alloc: Global,
    names: &Names,
    levels: u32,
    chosen: Chosen,
    tokens: &'a [Token],
) -> Result<(Stmt, &'a [Token]), Unread>
    ensures { Gives (λ p. (p.0, p.1.now)) result (else_read names.now levels (λ rest. stmts_read names.now levels rest) chosen.condition chosen.then tokens.now) }
{
    match tokens.split_first() {
        Some((Token::Word(Word::Else), rest)) => {
            let (otherwise, rest) = block(alloc, names, levels, rest)?;
            let Chosen { condition, then } = chosen;
            Ok((Stmt::if_then(condition, then, otherwise), rest))
        }
        _ => Err(Unread::NotGrammar),
    }
}

/// An `assert` behind its word.
#[tactic(auto, unfolding(crate::specs::BlockReading::stmt_read))]
fn asserted<'a>(
    alloc: Global,
    names: &Names,
    levels: u32,
    tokens: &'a [Token],
) -> Result<(Stmt, &'a [Token]), Unread>
    ensures { Gives (λ p. (p.0, p.1.now)) result (stmt_read names.now levels (λ rest. stmts_read names.now levels rest) (t.Word w.Assert ∷ tokens.now)) }
{
    let (condition, rest) = test_alone(alloc, names, levels, tokens)?;
    assertion(condition, rest)
}

/// The `assert` of a test, at its semicolon.
fn assertion(condition: Test, tokens: &[Token]) -> Result<(Stmt, &[Token]), Unread>
    ensures { Gives (λ p. (p.0, p.1.now)) result (ended assert_that condition tokens.now) }
{
    match tokens.split_first() {
        Some((Token::Sign(Sign::Semicolon), rest)) => Ok((Stmt::assert_that(condition), rest)),
        _ => Err(Unread::NotGrammar),
    }
}

/// A `while` behind its word.
#[cycle(stmts)]
#[tactic(auto, unfolding(crate::specs::BlockReading::stmt_read))]
fn repeated<'a>(
    alloc: Global,
    names: &Names,
    levels: u32,
    tokens: &'a [Token],
) -> Result<(Stmt, &'a [Token]), Unread>
    ensures { Gives (λ p. (p.0, p.1.now)) result (stmt_read names.now levels (λ rest. stmts_read names.now levels rest) (t.Word w.While ∷ tokens.now)) }
{
    let (condition, rest) = test_alone(alloc, names, levels, tokens)?;
    let (body, rest) = block(alloc, names, levels, rest)?;
    Ok((Stmt::while_do(condition, body), rest))
}

/// A `for` behind its word.
#[cycle(stmts)]
#[tactic(auto, unfolding(crate::specs::BlockParts::for_read))]
fn counted<'a>(
    alloc: Global,
    names: &Names,
    levels: u32,
    tokens: &'a [Token],
) -> Result<(Stmt, &'a [Token]), Unread>
    ensures { Gives (λ p. (p.0, p.1.now)) result (for_read names.now levels (λ rest. stmts_read names.now levels rest) tokens.now) }
{
    let Some((name, rest)) = name_equals(tokens) else {
        return Err(Unread::NotGrammar);
    };
    let (bounds, rest) = low_to_high(alloc, names, levels, rest)?;
    let (body, rest) = block(alloc, names, levels, rest)?;
    let made = count(alloc, names, name, bounds, body)?;
    Ok((made, rest))
}

/// The value that a counter starts with and the bound that it stays below.
#[derive(Drop)]
pub struct Bounds {
    pub low: Expr,
    pub high: Expr,
}

/// The statement of a `for`.
fn count(
    alloc: Global,
    names: &Names,
    name: &[u8],
    bounds: Bounds,
    body: Block,
) -> Result<Stmt, NoMemory>
    ensures { IfOk result (λ s. s ≡ for_to (name_value names.now name.now) bounds.low bounds.high body) }
{
    let name = names.name(alloc, name)?;
    let Bounds { low, high } = bounds;
    Ok(Stmt::for_to(name, low, high, body))
}

/// The two values of a `for`, with `to` between them.
#[tactic(auto, unfolding(crate::specs::BlockParts::bounds_read))]
fn low_to_high<'a>(
    alloc: Global,
    names: &Names,
    levels: u32,
    tokens: &'a [Token],
) -> Result<(Bounds, &'a [Token]), Unread>
    ensures { Gives (λ p. (p.0, p.1.now)) result (bounds_read names.now levels tokens.now) }
{
    let (low, rest) = expr_alone(alloc, names, levels, tokens)?;
    match rest.split_first() {
        Some((Token::Word(Word::To), rest)) => {
            let (high, rest) = expr_alone(alloc, names, levels, rest)?;
            Ok((Bounds { low, high }, rest))
        }
        _ => Err(Unread::NotGrammar),
    }
}

/// A name and the `=` behind it, and the tokens that are left.
fn name_equals(tokens: &[Token]) -> Option<(&[u8], &[Token])>
    ensures { MatchOption result (name_equals tokens.now ≡ None) (λ p. name_equals tokens.now ≡ Some (p.0.now, p.1.now)) }
{
    match tokens.split_first() {
        Some((Token::Name(name), rest)) => match rest.split_first() {
            Some((Token::Sign(Sign::Equals), rest)) => Some((name.as_slice(), rest)),
            _ => None,
        },
        _ => None,
    }
}

/// A `let` behind its word.
#[cycle(stmts)]
#[tactic(auto, unfolding(crate::specs::BlockParts::let_read))]
fn bound<'a>(
    alloc: Global,
    names: &Names,
    levels: u32,
    tokens: &'a [Token],
) -> Result<(Stmt, &'a [Token]), Unread>
    ensures { Gives (λ p. (p.0, p.1.now)) result (let_read names.now levels (λ rest. stmts_read names.now levels rest) tokens.now) }
{
    let Some((name, rest)) = name_equals(tokens) else {
        return Err(Unread::NotGrammar);
    };
    let (value, rest) = expr_alone(alloc, names, levels, rest)?;
    let (body, rest) = block(alloc, names, levels, rest)?;
    let made = bind(alloc, names, name, value, body)?;
    Ok((made, rest))
}

/// The statement of a `let`.
fn bind(
    alloc: Global,
    names: &Names,
    name: &[u8],
    value: Expr,
    body: Block,
) -> Result<Stmt, NoMemory>
    ensures { IfOk result (λ s. s ≡ let_in (name_value names.now name.now) value body) }
{
    let name = names.name(alloc, name)?;
    Ok(Stmt::let_in(name, value, body))
}

/// A statement behind the name that it begins with: a parameter alone, or a written place.
#[tactic(auto, unfolding(crate::specs::BlockReading::stmt_read, crate::specs::BlockReading::written_indices))]
fn named<'a>(
    alloc: Global,
    names: &Names,
    levels: u32,
    name: &[u8],
    tokens: &'a [Token],
) -> Result<(Stmt, &'a [Token]), Unread>
    ensures { Gives (λ p. (p.0, p.1.now)) result (stmt_read names.now levels (λ rest. stmts_read names.now levels rest) (t.Name name.now ∷ tokens.now)) }
{
    if let Some(rest) = behind_sign(Sign::Semicolon, tokens) {
        return Ok((names.stmt(name), rest));
    }
    let (indices, _left, rest) = brackets(alloc, names, levels, Operators::Apart, 0, tokens)?;
    assigned(alloc, names, levels, name, indices, rest)
}

/// What follows the indices of a written place.
#[tactic(auto, unfolding(crate::specs::BlockReading::assigned_read))]
fn assigned<'a>(
    alloc: Global,
    names: &Names,
    levels: u32,
    name: &[u8],
    indices: Items<Expr>,
    tokens: &'a [Token],
) -> Result<(Stmt, &'a [Token]), Unread>
    ensures { Gives (λ p. (p.0, p.1.now)) result (assigned_read names.now levels (λ rest. stmts_read names.now levels rest) name.now indices tokens.now) }
{
    match tokens.split_first() {
        Some((Token::Sign(Sign::Assign), rest)) => {
            let (value, rest) = expr_alone(alloc, names, levels, rest)?;
            written(alloc, names, name, indices, value, rest)
        }
        _ => Err(Unread::NotGrammar),
    }
}

/// The statement that writes a value, at its semicolon.
fn written<'a>(
    alloc: Global,
    names: &Names,
    name: &[u8],
    indices: Items<Expr>,
    value: Expr,
    tokens: &'a [Token],
) -> Result<(Stmt, &'a [Token]), Unread>
    ensures { Gives (λ p. (p.0, p.1.now)) result (ended (put (name_value names.now name.now) (exprs_of indices)) value tokens.now) }
{
    match tokens.split_first() {
        Some((Token::Sign(Sign::Semicolon), rest)) => {
            let name = names.name(alloc, name)?;
            Ok((Stmt::put(name, indices, value), rest))
        }
        _ => Err(Unread::NotGrammar),
    }
}

/// An expression that is part of no other.
#[tactic(auto, unfolding(crate::specs::BlockReading::expr_alone))]
fn expr_alone<'a>(
    alloc: Global,
    names: &Names,
    levels: u32,
    tokens: &'a [Token],
) -> Result<(Expr, &'a [Token]), Unread>
    ensures { Gives (λ p. (p.0, p.1.now)) result (expr_alone names.now levels tokens.now) }
{
    let (found, _left, rest) = expr(alloc, names, levels, MOST_OPERATORS, tokens)?;
    Ok((found, rest))
}

/// A test that is part of no other.
#[tactic(auto, unfolding(crate::specs::BlockReading::test_alone))]
fn test_alone<'a>(
    alloc: Global,
    names: &Names,
    levels: u32,
    tokens: &'a [Token],
) -> Result<(Test, &'a [Token]), Unread>
    ensures { Gives (λ p. (p.0, p.1.now)) result (test_alone names.now levels tokens.now) }
{
    let (found, _left, rest) = test(alloc, names, levels, MOST_OPERATORS, tokens)?;
    Ok((found, rest))
}
