//! The reader of proofs and certificates, from the front of tokens. `specs/CertificateReading.antt` says what is read.

ghost use Rattle.std.specs.Prelude.{◌≡◌};
ghost use Rattle.term_text.specs.TermReading.{store_read, value_read};
ghost use Rattle.term_text.specs.Unread.{Gives};
ghost use Rattle.refutation_text.specs.NumberText.{many_read};
ghost use Rattle.cert_format.specs.CertificateReading as spec;
ghost use Rattle.cert_format.specs.CertificateReading.{shown_read, proved_read, proofs_read, certificate_read, lines_read};

use crate::entry_reading::read_entries;
use crate::head::{entries_head, first_head, proof_head, proofs_head};
use cert_checker::{Certificate, Proved};
use refutation_text::{read_count, read_end, read_index, read_refutation};
use spot_obligations::{Entry, Spot};
use sqlite_items::Items;
use std::alloc::Global;
use term_text::Unread;
use word_text::{Key, Token};

// The number of a conjunct, or `-` where a spot has none.
fn read_conjunct_number(tokens: &[Token]) -> Result<(Option<u32>, &[Token]), Unread>
    ensures { Gives (λ p. (p.0, p.1.now)) result (spec.conjunct_number_read tokens.now) }
{
    match tokens.split_first() {
        Some((Token::Key(Key::Minus), rest)) => Ok((None, rest)),
        _ => {
            let (c, rest) = read_index(tokens)?;
            Ok((Some(c), rest))
        }
    }
}

fn read_spot(tokens: &[Token]) -> Result<(Spot, &[Token]), Unread>
    ensures { Gives (λ p. (p.0, p.1.now)) result (spec.spot_read tokens.now) }
{
    let (entry, rest) = read_index(tokens)?;
    let (left, rest) = read_index(rest)?;
    let (right, rest) = read_index(rest)?;
    let (conjunct, rest) = read_conjunct_number(rest)?;
    Ok((
        Spot {
            entry,
            left,
            right,
            conjunct,
        },
        rest,
    ))
}

// How many conjuncts are used, the end of the line, and the refutation.
fn read_shown<'a>(
    alloc: Global,
    spot: Spot,
    tokens: &'a [Token],
) -> Result<(Proved, &'a [Token]), Unread>
    ensures { Gives (λ p. (p.0, p.1.now)) result (shown_read (store_read 4100) (value_read 4100) spot tokens.now) }
{
    let (used, rest) = read_index(tokens)?;
    let rest = read_end(rest)?;
    let (proof, rest) = read_refutation(alloc, rest)?;
    Ok((Proved { spot, used, proof }, rest))
}

fn read_proved<'a>(alloc: Global, tokens: &'a [Token]) -> Result<(Proved, &'a [Token]), Unread>
    ensures { Gives (λ p. (p.0, p.1.now)) result (proved_read (store_read 4100) (value_read 4100) tokens.now) }
{
    let rest = proof_head(tokens)?;
    let (spot, rest) = read_spot(rest)?;
    read_shown(alloc, spot, rest)
}

// So many proofs.
fn proofs<'a>(
    alloc: Global,
    n: u128,
    tokens: &'a [Token],
) -> Result<(Items<Proved>, &'a [Token]), Unread>
    ensures { Gives (λ p. (p.0, p.1.now)) result (many_read (proved_read (store_read 4100) (value_read 4100)) n tokens.now) }
{
    let mut found = Items::new(alloc);
    let mut rest = tokens;
    for _turn in 0..n {
        let (item, after) = read_proved(alloc, rest)?;
        found.push(item)?;
        rest = after;
    }
    Ok((found, rest))
}

// How many proofs there are, and they.
fn read_proofs<'a>(
    alloc: Global,
    tokens: &'a [Token],
) -> Result<(Items<Proved>, &'a [Token]), Unread>
    ensures { Gives (λ p. (p.0, p.1.now)) result (lines_read (proved_read (store_read 4100) (value_read 4100)) tokens.now) }
{
    let (n, rest) = read_count(tokens)?;
    let rest = read_end(rest)?;
    proofs(alloc, n, rest)
}

// The proofs behind the entries.
fn with_proofs<'a>(
    alloc: Global,
    entries: Items<Entry>,
    tokens: &'a [Token],
) -> Result<(Certificate, &'a [Token]), Unread>
    ensures { Gives (λ p. (p.0, p.1.now)) result (proofs_read (store_read 4100) (value_read 4100) entries tokens.now) }
{
    let rest = proofs_head(tokens)?;
    let (proofs, rest) = read_proofs(alloc, rest)?;
    Ok((Certificate { entries, proofs }, rest))
}

// The certificate behind the first line.
fn behind_first<'a>(
    alloc: Global,
    tokens: &'a [Token],
) -> Result<(Certificate, &'a [Token]), Unread>
    ensures { Gives (λ p. (p.0, p.1.now)) result (certificate_read (store_read 4100) (value_read 4100) tokens.now) }
{
    let rest = entries_head(tokens)?;
    let (entries, rest) = read_entries(alloc, rest)?;
    with_proofs(alloc, entries, rest)
}

/// The certificate in front of the tokens, with its first line.
pub(crate) fn read_first<'a>(
    alloc: Global,
    tokens: &'a [Token],
) -> Result<(Certificate, &'a [Token]), Unread>
    ensures { Gives (λ p. (p.0, p.1.now)) result (spec.first_read tokens.now) }
{
    let rest = first_head(tokens)?;
    behind_first(alloc, rest)
}
