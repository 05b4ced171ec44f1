//! The reader of reasons and rows, from the front of tokens. `specs/StepReading.antt` says what is read.

ghost use Rattle.std.specs.Prelude.{◌≡◌};
ghost use Rattle.refutations.specs.declared.refutation.By.TheVariants as by;
ghost use Rattle.refutations.specs.declared.refutation.SumRow.TheVariants as row;
ghost use Rattle.term_text.specs.TermReading.{then_read, store_read, value_read};
ghost use Rattle.term_text.specs.Unread.{Gives};
ghost use Rattle.refutation_text.specs.NumberText.{many_read, counted_read, index_read, int_read};
ghost use Rattle.refutation_text.specs.LiteralReading.{one_read, two_read};
ghost use Rattle.refutation_text.specs.StepReading.{indices_read, row_behind, row_read, law_read, reason_behind, reason_read};

use crate::head::{ReasonHead, RowHead};
use crate::literal_reading::{read_literals, value};
use crate::number::{read_count, read_index, read_indices, read_int};
use crate::word::{reason_head, row_head};
use refutations::{By, SumRow};
use sqlite_items::Items;
use std::alloc::Global;
use term_text::Unread;
use word_text::Token;

// Two constants.
fn constants(tokens: &[Token]) -> Result<(SumRow, &[Token]), Unread>
    ensures { Gives (λ p. (p.0, p.1.now)) result (two_read int_read int_read row.Num tokens.now) }
{
    let (a, rest) = read_int(tokens)?;
    let (b, rest) = read_int(rest)?;
    Ok((SumRow::Num(a, b), rest))
}

// The row behind its word.
#[tactic(auto, unfolding(crate::specs::StepReading::row_behind))]
fn row_of<'a>(
    alloc: Global,
    head: RowHead,
    tokens: &'a [Token],
) -> Result<(SumRow, &'a [Token]), Unread>
    ensures { Gives (λ p. (p.0, p.1.now)) result (row_behind (value_read 4100) head tokens.now) }
{
    match head {
        RowHead::Of => {
            let (k, rest) = read_index(tokens)?;
            Ok((SumRow::Of(k), rest))
        }
        RowHead::Back => {
            let (k, rest) = read_index(tokens)?;
            Ok((SumRow::Back(k), rest))
        }
        RowHead::Num => constants(tokens),
        RowHead::Off => {
            let (v, rest) = value(alloc, tokens)?;
            Ok((SumRow::Off(v), rest))
        }
        RowHead::OffBack => {
            let (v, rest) = value(alloc, tokens)?;
            Ok((SumRow::OffBack(v), rest))
        }
    }
}

fn read_row<'a>(alloc: Global, tokens: &'a [Token]) -> Result<(SumRow, &'a [Token]), Unread>
    ensures { Gives (λ p. (p.0, p.1.now)) result (row_read (value_read 4100) tokens.now) }
{
    let (head, rest) = row_head(tokens)?;
    row_of(alloc, head, rest)
}

// So many rows.
fn rows<'a>(
    alloc: Global,
    n: u128,
    tokens: &'a [Token],
) -> Result<(Items<SumRow>, &'a [Token]), Unread>
    ensures { Gives (λ p. (p.0, p.1.now)) result (many_read (row_read (value_read 4100)) n tokens.now) }
{
    let mut found = Items::new(alloc);
    let mut rest = tokens;
    for _turn in 0..n {
        let (item, after) = read_row(alloc, rest)?;
        found.push(item)?;
        rest = after;
    }
    Ok((found, rest))
}

// A sum of rows.
fn sum<'a>(alloc: Global, tokens: &'a [Token]) -> Result<(By, &'a [Token]), Unread>
    ensures { Gives (λ p. (p.0, p.1.now)) result (one_read (counted_read (row_read (value_read 4100))) by.Sum tokens.now) }
{
    let (n, rest) = read_count(tokens)?;
    let (all, rest) = rows(alloc, n, rest)?;
    Ok((By::Sum(all), rest))
}

// A literal of a clause of the law, behind its number.
fn literal_of_law<'a>(
    alloc: Global,
    k: u32,
    tokens: &'a [Token],
) -> Result<(By, &'a [Token]), Unread>
    ensures { Gives (λ p. (p.0, p.1.now)) result (law_read (store_read 4100) (value_read 4100) k tokens.now) }
{
    let (clause, rest) = read_literals(alloc, tokens)?;
    let (p, rest) = read_index(rest)?;
    let (from, rest) = read_indices(alloc, rest)?;
    Ok((By::Law(k, clause, p, from), rest))
}

fn law<'a>(alloc: Global, tokens: &'a [Token]) -> Result<(By, &'a [Token]), Unread>
    ensures { Gives (λ p. (p.0, p.1.now)) result (then_read (index_read tokens.now) (law_read (store_read 4100) (value_read 4100))) }
{
    let (k, rest) = read_index(tokens)?;
    literal_of_law(alloc, k, rest)
}

// What a known conjunct gives.
fn known<'a>(alloc: Global, tokens: &'a [Token]) -> Result<(By, &'a [Token]), Unread>
    ensures { Gives (λ p. (p.0, p.1.now)) result (two_read index_read indices_read by.Known tokens.now) }
{
    let (k, rest) = read_index(tokens)?;
    let (from, rest) = read_indices(alloc, rest)?;
    Ok((By::Known(k, from), rest))
}

fn alike<'a>(alloc: Global, tokens: &'a [Token]) -> Result<(By, &'a [Token]), Unread>
    ensures { Gives (λ p. (p.0, p.1.now)) result (one_read indices_read by.Alike tokens.now) }
{
    let (from, rest) = read_indices(alloc, tokens)?;
    Ok((By::Alike(from), rest))
}

fn carry<'a>(alloc: Global, tokens: &'a [Token]) -> Result<(By, &'a [Token]), Unread>
    ensures { Gives (λ p. (p.0, p.1.now)) result (two_read index_read indices_read by.Carry tokens.now) }
{
    let (k, rest) = read_index(tokens)?;
    let (from, rest) = read_indices(alloc, rest)?;
    Ok((By::Carry(k, from), rest))
}

fn flip(tokens: &[Token]) -> Result<(By, &[Token]), Unread>
    ensures { Gives (λ p. (p.0, p.1.now)) result (one_read index_read by.Flip tokens.now) }
{
    let (k, rest) = read_index(tokens)?;
    Ok((By::Flip(k), rest))
}

fn chain(tokens: &[Token]) -> Result<(By, &[Token]), Unread>
    ensures { Gives (λ p. (p.0, p.1.now)) result (two_read index_read index_read by.Chain tokens.now) }
{
    let (j, rest) = read_index(tokens)?;
    let (k, rest) = read_index(rest)?;
    Ok((By::Chain(j, k), rest))
}

fn meet(tokens: &[Token]) -> Result<(By, &[Token]), Unread>
    ensures { Gives (λ p. (p.0, p.1.now)) result (two_read index_read index_read by.Meet tokens.now) }
{
    let (j, rest) = read_index(tokens)?;
    let (k, rest) = read_index(rest)?;
    Ok((By::Meet(j, k), rest))
}

// The reason behind its word.
#[tactic(auto, unfolding(crate::specs::StepReading::reason_behind))]
fn reason_of<'a>(
    alloc: Global,
    head: ReasonHead,
    tokens: &'a [Token],
) -> Result<(By, &'a [Token]), Unread>
    ensures { Gives (λ p. (p.0, p.1.now)) result (reason_behind (store_read 4100) (value_read 4100) head tokens.now) }
{
    match head {
        ReasonHead::Given => Ok((By::Given, tokens)),
        ReasonHead::Known => known(alloc, tokens),
        ReasonHead::Refl => Ok((By::Refl, tokens)),
        ReasonHead::Flip => flip(tokens),
        ReasonHead::Chain => chain(tokens),
        ReasonHead::Alike => alike(alloc, tokens),
        ReasonHead::Carry => carry(alloc, tokens),
        ReasonHead::Law => law(alloc, tokens),
        ReasonHead::Meet => meet(tokens),
        ReasonHead::Sum => sum(alloc, tokens),
    }
}

/// The reason in front of the tokens, and the tokens behind it.
pub(crate) fn read_reason<'a>(
    alloc: Global,
    tokens: &'a [Token],
) -> Result<(By, &'a [Token]), Unread>
    ensures { Gives (λ p. (p.0, p.1.now)) result (reason_read (store_read 4100) (value_read 4100) tokens.now) }
{
    let (head, rest) = reason_head(tokens)?;
    reason_of(alloc, head, rest)
}
