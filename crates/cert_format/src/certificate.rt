//! The body of a `cert` section as a certificate, and back. What was read is put into words again and compared, so nothing but
//! the words of a certificate is read. `specs/SectionText.antt` says which certificate a body spells.

ghost use Rattle.std.specs.Prelude.{◌≡◌, ◌↔◌, ◌++◌, [], IsTrue, IfOk, OnOk};
ghost use Rattle.cert_format.specs.CertificateText.{first_format};
ghost use Rattle.cert_format.specs.SectionText.{CertificateAnswer, TokensAnswer, certificate_body};

use crate::certificate_reading::read_first;
use crate::certificate_writing::put_words;
use cert_checker::Certificate;
use sqlite_items::Items;
use std::alloc::Global;
use term_text::Unread;
use toy_imp::NoMemory;
use word_text::{Key, Token, put_text, tokens};

fn same_key(a: Key, b: Key) -> bool
    ensures { IsTrue result ↔ (a ≡ b) }
{
    a == b
}

fn same_token(a: Token, b: Token) -> bool
    ensures { IsTrue result ↔ (a ≡ b) }
{
    match (a, b) {
        (Token::Key(j), Token::Key(k)) => same_key(j, k),
        (Token::Number(s, m), Token::Number(t, n)) => s == t && m == n,
        (Token::Par(j), Token::Par(k)) => j == k,
        (Token::End, Token::End) => true,
        _ => false,
    }
}

#[tactic(auto, using(crate::proofs::Comparing::same_heads, crate::proofs::Comparing::other_heads))]
fn are_same(mut a: &[Token], mut b: &[Token]) -> bool
    ensures { IsTrue result ↔ (a.entry.now ≡ b.entry.now) }
{
    while let ([x, more @ ..], [y, rest @ ..]) = (a, b) {
        if !same_token(*x, *y) {
            return false;
        }
        a = more;
        b = rest;
    }
    a.is_empty() && b.is_empty()
}

fn is_nothing(rest: &[Token]) -> bool
    ensures { IsTrue result ↔ (rest.now ≡ []) }
{
    rest.is_empty()
}

// Whether these tokens are the words of the certificate.
fn are_words_of(alloc: Global, c: &Certificate, tokens: &[Token]) -> Result<bool, NoMemory>
    ensures { IfOk result (λ yes. IsTrue yes ↔ (tokens.now ≡ first_format c.now)) }
{
    let mut again = Items::new(alloc);
    put_words(c, &mut again)?;
    Ok(are_same(tokens, again.as_slice()))
}

// The certificate that these tokens are the words of.
#[tactic(auto, using(crate::proofs::Answering::read_words, crate::proofs::Answering::other_rest, crate::proofs::Answering::other_words))]
fn certificate_of(alloc: Global, tokens: &[Token]) -> Result<Certificate, Unread>
    ensures { TokensAnswer tokens.now result }
{
    let (c, rest) = read_first(alloc, tokens)?;
    if !is_nothing(rest) {
        return Err(Unread::NotGrammar);
    }
    if are_words_of(alloc, &c, tokens)? {
        Ok(c)
    } else {
        Err(Unread::NotGrammar)
    }
}

/// The certificate that the body of a section spells, with its first line. It is not in the grammar exactly where the body
/// spells none; it takes time linear in the body.
pub fn read_certificate(alloc: Global, body: &[u8]) -> Result<Certificate, Unread>
    ensures { CertificateAnswer body.now result }
{
    match tokens(alloc, body) {
        Ok(Some(all)) => certificate_of(alloc, all.as_slice()),
        Ok(None) => Err(Unread::NotGrammar),
        Err(_) => Err(Unread::NoMemory),
    }
}

/// Puts the canonical body of a certificate's section behind the text.
pub fn put_certificate(alloc: Global, c: &Certificate, out: &mut Vec<u8>) -> Result<(), NoMemory>
    ensures { OnOk result (out.new.items ≡ out.old.items ++ certificate_body c.now) }
{
    let mut all = Items::new(alloc);
    put_words(c, &mut all)?;
    match put_text(all.as_slice(), out) {
        Ok(()) => Ok(()),
        Err(_) => Err(NoMemory),
    }
}
