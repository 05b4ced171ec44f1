//! The reader of conjuncts and entries, from the front of tokens. `specs/CertificateReading.antt` says what is read.

ghost use Rattle.std.specs.Prelude.{◌≡◌};
ghost use Rattle.term_text.specs.TermReading.{store_read, value_read};
ghost use Rattle.term_text.specs.Unread.{Gives};
ghost use Rattle.refutation_text.specs.NumberText.{many_read};
ghost use Rattle.cert_format.specs.CertificateReading as spec;
ghost use Rattle.cert_format.specs.CertificateReading.{given_read, conjunct_read, entry_read, lines_read};

use crate::head::{conj_head, entry_head, false_head, then_head};
use refutation_text::{read_count, read_end, read_index, read_literal, read_literals};
use rule_terms::{Conjunct, Literal};
use spot_obligations::Entry;
use sqlite_items::Items;
use std::alloc::Global;
use term_text::Unread;
use word_text::Token;

// What a conjunct gives: a literal, or nothing.
fn read_gives<'a>(
    alloc: Global,
    tokens: &'a [Token],
) -> Result<(Option<Literal>, &'a [Token]), Unread>
    ensures { Gives (λ p. (p.0, p.1.now)) result (spec.gives_read (store_read 4100) (value_read 4100) tokens.now) }
{
    match false_head(tokens) {
        Some(rest) => Ok((None, rest)),
        None => {
            let (x, rest) = read_literal(alloc, tokens)?;
            Ok((Some(x), rest))
        }
    }
}

// What a conjunct gives, and the end of its line.
fn read_given<'a>(
    alloc: Global,
    when: Items<Literal>,
    tokens: &'a [Token],
) -> Result<(Conjunct, &'a [Token]), Unread>
    ensures { Gives (λ p. (p.0, p.1.now)) result (given_read (store_read 4100) (value_read 4100) when tokens.now) }
{
    let rest = then_head(tokens)?;
    let (gives, rest) = read_gives(alloc, rest)?;
    let rest = read_end(rest)?;
    Ok((Conjunct { when, gives }, rest))
}

fn read_conjunct<'a>(alloc: Global, tokens: &'a [Token]) -> Result<(Conjunct, &'a [Token]), Unread>
    ensures { Gives (λ p. (p.0, p.1.now)) result (conjunct_read (store_read 4100) (value_read 4100) tokens.now) }
{
    let rest = conj_head(tokens)?;
    let (when, rest) = read_literals(alloc, rest)?;
    read_given(alloc, when, rest)
}

// So many conjuncts.
fn conjuncts<'a>(
    alloc: Global,
    n: u128,
    tokens: &'a [Token],
) -> Result<(Items<Conjunct>, &'a [Token]), Unread>
    ensures { Gives (λ p. (p.0, p.1.now)) result (many_read (conjunct_read (store_read 4100) (value_read 4100)) n tokens.now) }
{
    let mut found = Items::new(alloc);
    let mut rest = tokens;
    for _turn in 0..n {
        let (item, after) = read_conjunct(alloc, rest)?;
        found.push(item)?;
        rest = after;
    }
    Ok((found, rest))
}

// How many conjuncts there are, and they.
fn read_conjuncts<'a>(
    alloc: Global,
    tokens: &'a [Token],
) -> Result<(Items<Conjunct>, &'a [Token]), Unread>
    ensures { Gives (λ p. (p.0, p.1.now)) result (lines_read (conjunct_read (store_read 4100) (value_read 4100)) tokens.now) }
{
    let (n, rest) = read_count(tokens)?;
    let rest = read_end(rest)?;
    conjuncts(alloc, n, rest)
}

fn read_entry<'a>(alloc: Global, tokens: &'a [Token]) -> Result<(Entry, &'a [Token]), Unread>
    ensures { Gives (λ p. (p.0, p.1.now)) result (entry_read (store_read 4100) (value_read 4100) tokens.now) }
{
    let rest = entry_head(tokens)?;
    let (left, rest) = read_index(rest)?;
    let (right, rest) = read_index(rest)?;
    let (conjuncts, rest) = read_conjuncts(alloc, rest)?;
    Ok((
        Entry {
            left,
            right,
            conjuncts,
        },
        rest,
    ))
}

// So many entries.
fn entries<'a>(
    alloc: Global,
    n: u128,
    tokens: &'a [Token],
) -> Result<(Items<Entry>, &'a [Token]), Unread>
    ensures { Gives (λ p. (p.0, p.1.now)) result (many_read (entry_read (store_read 4100) (value_read 4100)) n tokens.now) }
{
    let mut found = Items::new(alloc);
    let mut rest = tokens;
    for _turn in 0..n {
        let (item, after) = read_entry(alloc, rest)?;
        found.push(item)?;
        rest = after;
    }
    Ok((found, rest))
}

// How many entries there are, and they.
pub(crate) fn read_entries<'a>(
    alloc: Global,
    tokens: &'a [Token],
) -> Result<(Items<Entry>, &'a [Token]), Unread>
    ensures { Gives (λ p. (p.0, p.1.now)) result (lines_read (entry_read (store_read 4100) (value_read 4100)) tokens.now) }
{
    let (n, rest) = read_count(tokens)?;
    let rest = read_end(rest)?;
    entries(alloc, n, rest)
}
