//! The reader of steps, parts and refutations, from the front of tokens. `specs/StepReading.antt` says what is read. Parts are
//! read one by one until no refutation is wanted, so nothing recurses by nesting.

ghost use Rattle.std.specs.Prelude.{◌≡◌, ◌+◌, ◌<◌, ◌^◌, length};
ghost use Rattle.refutations.specs.Refutation.{parts};
ghost use Rattle.refutations.specs.declared.refutation.Part.TheVariants as part;
ghost use Rattle.term_text.specs.TermReading.{store_read, value_read};
ghost use Rattle.term_text.specs.Unread.{Gives};
ghost use Rattle.refutation_text.specs.declared.head.PartHead.TheVariants as begin;
ghost use Rattle.refutation_text.specs.NumberText.{many_read};
ghost use Rattle.refutation_text.specs.StepReading as spec;
ghost use Rattle.refutation_text.specs.StepReading.{reasoned, part_behind, part_read, parts_read, wanted_behind};
ghost use Rattle.refutation_text.specs.StepReading.{written_step_read, written_refutation_read};

use crate::head::PartHead;
use crate::literal_reading::read_literal;
use crate::number::read_count;
use crate::reason_reading::read_reason;
use crate::word::{part_head, read_end, step_head};
use refutations::{Part, Refutation, Step};
use sqlite_items::Items;
use std::alloc::Global;
use term_text::Unread;
use word_text::Token;

// A literal and its reason, and the end of the line.
fn reasoned<'a>(alloc: Global, tokens: &'a [Token]) -> Result<(Step, &'a [Token]), Unread>
    ensures { Gives (λ p. (p.0, p.1.now)) result (reasoned (store_read 4100) (value_read 4100) tokens.now) }
{
    let (gives, rest) = read_literal(alloc, tokens)?;
    let (by, rest) = read_reason(alloc, rest)?;
    let rest = read_end(rest)?;
    Ok((Step { gives, by }, rest))
}

/// The step in front of the tokens, and the tokens behind its line.
pub fn read_step<'a>(alloc: Global, tokens: &'a [Token]) -> Result<(Step, &'a [Token]), Unread>
    ensures { Gives (λ p. (p.0, p.1.now)) result (written_step_read tokens.now) }
{
    let rest = step_head(tokens)?;
    reasoned(alloc, rest)
}

// So many steps.
fn steps<'a>(
    alloc: Global,
    n: u128,
    tokens: &'a [Token],
) -> Result<(Items<Step>, &'a [Token]), Unread>
    ensures { Gives (λ p. (p.0, p.1.now)) result (many_read written_step_read n tokens.now) }
{
    let mut found = Items::new(alloc);
    let mut rest = tokens;
    for _turn in 0..n {
        let (item, after) = read_step(alloc, rest)?;
        found.push(item)?;
        rest = after;
    }
    Ok((found, rest))
}

// A leaf, behind its word.
#[tactic(auto, unfolding(crate::specs::StepReading::part_behind))]
fn leaf<'a>(alloc: Global, tokens: &'a [Token]) -> Result<(Part, &'a [Token]), Unread>
    ensures { Gives (λ p. (p.0, p.1.now)) result (part_behind (store_read 4100) (value_read 4100) begin.Leaf tokens.now) }
{
    let (n, rest) = read_count(tokens)?;
    let rest = read_end(rest)?;
    let (all, rest) = steps(alloc, n, rest)?;
    Ok((Part::Leaf(all), rest))
}

// A split, behind its word.
#[tactic(auto, unfolding(crate::specs::StepReading::part_behind))]
fn split<'a>(alloc: Global, tokens: &'a [Token]) -> Result<(Part, &'a [Token]), Unread>
    ensures { Gives (λ p. (p.0, p.1.now)) result (part_behind (store_read 4100) (value_read 4100) begin.Split tokens.now) }
{
    let (literal, rest) = read_literal(alloc, tokens)?;
    let rest = read_end(rest)?;
    Ok((Part::Split(literal), rest))
}

// The part behind its word.
fn part_of<'a>(
    alloc: Global,
    head: PartHead,
    tokens: &'a [Token],
) -> Result<(Part, &'a [Token]), Unread>
    ensures { Gives (λ p. (p.0, p.1.now)) result (part_behind (store_read 4100) (value_read 4100) head tokens.now) }
{
    match head {
        PartHead::Split => split(alloc, tokens),
        PartHead::Leaf => leaf(alloc, tokens),
    }
}

fn read_part<'a>(alloc: Global, tokens: &'a [Token]) -> Result<(Part, &'a [Token]), Unread>
    ensures { Gives (λ p. (p.0, p.1.now)) result (part_read (store_read 4100) (value_read 4100) tokens.now) }
{
    let (head, rest) = part_head(tokens)?;
    part_of(alloc, head, rest)
}

// How many refutations are still to come behind this part.
fn wanted_behind(n: usize, part: &Part) -> usize
    requires { n + 1 < 2 ^ 64 }
    ensures { result ≡ spec.wanted_behind n part.now }
{
    match part {
        Part::Split(_) => n + 1,
        Part::Leaf(_) => n.saturating_sub(1),
    }
}

// The parts of one refutation.
fn read_parts<'a>(alloc: Global, tokens: &'a [Token]) -> Result<(Items<Part>, &'a [Token]), Unread>
    ensures { Gives (λ p. (p.0, p.1.now)) result (parts_read (store_read 4100) (value_read 4100) (length tokens.now) 1 tokens.now) }
{
    let mut found = Items::new(alloc);
    let mut rest = tokens;
    let mut wanted = 1;
    for _turn in 0..tokens.len() {
        if wanted == 0 {
            return Ok((found, rest));
        }
        let (part, after) = read_part(alloc, rest)?;
        wanted = wanted_behind(wanted, &part);
        found.push(part)?;
        rest = after;
    }
    if wanted == 0 {
        Ok((found, rest))
    } else {
        Err(Unread::NotGrammar)
    }
}

/// The refutation in front of the tokens, and the tokens behind its lines.
pub fn read_refutation<'a>(
    alloc: Global,
    tokens: &'a [Token],
) -> Result<(Refutation, &'a [Token]), Unread>
    ensures { Gives (λ p. (p.0, p.1.now)) result (written_refutation_read tokens.now) }
{
    let (all, rest) = read_parts(alloc, tokens)?;
    match Refutation::of_parts(alloc, all)? {
        Some(r) => Ok((r, rest)),
        None => Err(Unread::NotGrammar),
    }
}
