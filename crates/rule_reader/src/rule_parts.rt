//! The parts of a rule behind its declarations, from the front of tokens: side conditions, method
//! and cuts, and then the two sides. `specs/RuleReading.antt` says what is read.

ghost use Rattle.std.specs.Prelude.{◌≡◌};
ghost use Rattle.program_reader.specs.Unread.{Gives};
ghost use Rattle.rule_reader.specs.RuleReading.{head_read, left_read, right_read, sides_read, written, parts_read};

use crate::conditions::conditions;
use crate::cut_lines::{CutLine, cuts, method};
use pec_text::{Token, Word};
use program_reader::{MOST_LEVELS, Names, Unread, block};
use sqlite_items::Items;
use std::alloc::Global;
use toy_imp::{Block, Condition, Method, Param, Rule};

/// What stands between the declarations and the sides of a rule.
#[derive(Drop)]
pub struct Head {
    pub conditions: Items<Condition>,
    pub method: Method,
    pub line: CutLine,
}

/// The two sides of a rule.
#[derive(Drop)]
pub struct Sides {
    pub left: Block,
    pub right: Block,
}

/// A rule as it is written.
#[derive(Drop)]
pub struct WrittenRule {
    pub rule: Rule,
    /// Whether a number in its cuts is 2^32 or more.
    pub is_beyond: bool,
}

/// What stands behind the declarations: the head and the sides.
#[tactic(auto, unfolding(crate::specs::RuleReading::parts_read))]
pub fn parts<'a>(
    alloc: Global,
    names: &Names,
    tokens: &'a [Token],
) -> Result<((Head, Sides), &'a [Token]), Unread>
    ensures { Gives (λ p. (p.0, p.1.now)) result (parts_read names.now tokens.now) }
{
    let (head, rest) = read_head(alloc, names, tokens)?;
    let (sides, rest) = read_sides(alloc, names, rest)?;
    Ok(((head, sides), rest))
}

/// Side conditions, method and cuts.
#[tactic(auto, unfolding(crate::specs::RuleReading::head_read))]
fn read_head<'a>(
    alloc: Global,
    names: &Names,
    tokens: &'a [Token],
) -> Result<(Head, &'a [Token]), Unread>
    ensures { Gives (λ p. (p.0, p.1.now)) result (head_read names.now tokens.now) }
{
    let (conditions, rest) = conditions(alloc, names, tokens)?;
    let (method, rest) = method(rest)?;
    let (line, rest) = cuts(alloc, rest)?;
    let head = Head {
        conditions,
        method,
        line,
    };
    Ok((head, rest))
}

/// The two sides.
#[tactic(auto, unfolding(crate::specs::RuleReading::sides_read))]
fn read_sides<'a>(
    alloc: Global,
    names: &Names,
    tokens: &'a [Token],
) -> Result<(Sides, &'a [Token]), Unread>
    ensures { Gives (λ p. (p.0, p.1.now)) result (sides_read names.now tokens.now) }
{
    let (left, rest) = left(alloc, names, tokens)?;
    let (right, rest) = right(alloc, names, rest)?;
    Ok((Sides { left, right }, rest))
}

/// The left side.
#[tactic(auto, unfolding(crate::specs::RuleReading::left_read))]
fn left<'a>(
    alloc: Global,
    names: &Names,
    tokens: &'a [Token],
) -> Result<(Block, &'a [Token]), Unread>
    ensures { Gives (λ p. (p.0, p.1.now)) result (left_read names.now tokens.now) }
{
    match tokens.split_first() {
        Some((Token::Word(Word::Left), rest)) => block(alloc, names, MOST_LEVELS, rest),
        _ => Err(Unread::NotGrammar),
    }
}

/// The right side.
#[tactic(auto, unfolding(crate::specs::RuleReading::right_read))]
fn right<'a>(
    alloc: Global,
    names: &Names,
    tokens: &'a [Token],
) -> Result<(Block, &'a [Token]), Unread>
    ensures { Gives (λ p. (p.0, p.1.now)) result (right_read names.now tokens.now) }
{
    match tokens.split_first() {
        Some((Token::Word(Word::Right), rest)) => block(alloc, names, MOST_LEVELS, rest),
        _ => Err(Unread::NotGrammar),
    }
}

/// The rule of these parts.
pub fn written(title: Items<u8>, params: Items<Param>, parts: (Head, Sides)) -> WrittenRule
    ensures { result ≡ written title params parts }
{
    let (head, sides) = parts;
    let Head {
        conditions,
        method,
        line,
    } = head;
    let Sides { left, right } = sides;
    let CutLine { cuts, is_beyond } = line;
    let rule = Rule {
        title,
        params,
        conditions,
        method,
        cuts,
        left,
        right,
    };
    WrittenRule { rule, is_beyond }
}
