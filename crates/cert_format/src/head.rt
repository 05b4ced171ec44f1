//! Single words in front of tokens that begin a line of a certificate.
//! `specs/CertificateReading.antt` says which words these are.

ghost use Rattle.std.specs.Prelude.{◌≡◌};
ghost use Rattle.std.specs.Option.{option_map};
ghost use Rattle.cert_format.specs.CertificateReading as spec;
ghost use Rattle.refutation_text.specs.NumberText.{after, end_read};
ghost use Rattle.term_text.specs.Unread.{Gives};

use refutation_text::{read_count, read_end};
use term_text::Unread;
use word_text::{Key, Token};

fn format_head(tokens: &[Token]) -> Result<&[Token], Unread>
    ensures { Gives (λ p. p.now) result (spec.format_head tokens.now) }
{
    match tokens.split_first() {
        Some((Token::Key(Key::Format), rest)) => Ok(rest),
        _ => Err(Unread::NotGrammar),
    }
}

fn simulate_head(tokens: &[Token]) -> Result<&[Token], Unread>
    ensures { Gives (λ p. p.now) result (spec.simulate_head tokens.now) }
{
    match tokens.split_first() {
        Some((Token::Key(Key::Simulate), rest)) => Ok(rest),
        _ => Err(Unread::NotGrammar),
    }
}

// The tokens behind the number 1.
fn one_head(n: u128, rest: &[Token]) -> Result<&[Token], Unread>
    ensures { Gives (λ p. p.now) result (spec.is_one (n, rest.now)) }
{
    if n == 1 {
        Ok(rest)
    } else {
        Err(Unread::NotGrammar)
    }
}

// The tokens behind the method and the end of its line.
fn method_head(tokens: &[Token]) -> Result<&[Token], Unread>
    ensures { Gives (λ p. p.now) result (after (spec.simulate_head tokens.now) end_read) }
{
    let rest = simulate_head(tokens)?;
    read_end(rest)
}

// The tokens behind the first line.
pub(crate) fn first_head(tokens: &[Token]) -> Result<&[Token], Unread>
    ensures { Gives (λ p. p.now) result (spec.first_head tokens.now) }
{
    let rest = format_head(tokens)?;
    let (n, rest) = read_count(rest)?;
    let rest = one_head(n, rest)?;
    method_head(rest)
}

pub(crate) fn entries_head(tokens: &[Token]) -> Result<&[Token], Unread>
    ensures { Gives (λ p. p.now) result (spec.entries_head tokens.now) }
{
    match tokens.split_first() {
        Some((Token::Key(Key::Entries), rest)) => Ok(rest),
        _ => Err(Unread::NotGrammar),
    }
}

pub(crate) fn entry_head(tokens: &[Token]) -> Result<&[Token], Unread>
    ensures { Gives (λ p. p.now) result (spec.entry_head tokens.now) }
{
    match tokens.split_first() {
        Some((Token::Key(Key::Entry), rest)) => Ok(rest),
        _ => Err(Unread::NotGrammar),
    }
}

pub(crate) fn conj_head(tokens: &[Token]) -> Result<&[Token], Unread>
    ensures { Gives (λ p. p.now) result (spec.conj_head tokens.now) }
{
    match tokens.split_first() {
        Some((Token::Key(Key::Conj), rest)) => Ok(rest),
        _ => Err(Unread::NotGrammar),
    }
}

pub(crate) fn then_head(tokens: &[Token]) -> Result<&[Token], Unread>
    ensures { Gives (λ p. p.now) result (spec.then_head tokens.now) }
{
    match tokens.split_first() {
        Some((Token::Key(Key::Then), rest)) => Ok(rest),
        _ => Err(Unread::NotGrammar),
    }
}

pub(crate) fn proofs_head(tokens: &[Token]) -> Result<&[Token], Unread>
    ensures { Gives (λ p. p.now) result (spec.proofs_head tokens.now) }
{
    match tokens.split_first() {
        Some((Token::Key(Key::Proofs), rest)) => Ok(rest),
        _ => Err(Unread::NotGrammar),
    }
}

pub(crate) fn proof_head(tokens: &[Token]) -> Result<&[Token], Unread>
    ensures { Gives (λ p. p.now) result (spec.proof_head tokens.now) }
{
    match tokens.split_first() {
        Some((Token::Key(Key::Proof), rest)) => Ok(rest),
        _ => Err(Unread::NotGrammar),
    }
}

// The tokens behind the word `false`, where it stands in front.
pub(crate) fn false_head(tokens: &[Token]) -> Option<&[Token]>
    ensures { option_map (λ p. p.now) result ≡ spec.false_head tokens.now }
{
    match tokens.split_first() {
        Some((Token::Key(Key::False), rest)) => Some(rest),
        _ => None,
    }
}
