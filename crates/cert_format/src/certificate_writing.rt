//! The words of certificates, put behind other tokens. `specs/CertificateText.antt` says which they are.

ghost use Rattle.std.specs.Prelude.{◌≡◌, ◌++◌, ◌∷◌, [], OnOk};
ghost use Rattle.std.specs.List.{flat_map};
ghost use Rattle.word_text.specs.declared.token.Key.TheVariants as key;
ghost use Rattle.word_text.specs.declared.token.Token.TheVariants as token;
ghost use Rattle.term_text.specs.TermText.{store_words, value_words};
ghost use Rattle.refutation_text.specs.NumberText.{count_word};
ghost use Rattle.cert_format.specs.CertificateText as spec;
ghost use Rattle.cert_format.specs.CertificateText.{gives_words, conjunct_words, entry_words, proved_words, lines_words, first_format};

use cert_checker::{Certificate, Proved};
use refutation_text::{put_count, put_index, put_literal, put_literals, put_refutation};
use rule_terms::{Conjunct, Literal};
use spot_obligations::Entry;
use sqlite_items::Items;
use toy_imp::NoMemory;
use word_text::{Key, Token};

fn put_gives(gives: &Option<Literal>, out: &mut Items<Token>) -> Result<(), NoMemory>
    ensures { OnOk result (out.new ≡ out.old ++ gives_words store_words value_words gives.now) }
{
    match gives {
        Some(x) => put_literal(x, out),
        None => Ok(out.push(Token::Key(Key::False))?),
    }
}

fn put_conjunct(c: &Conjunct, out: &mut Items<Token>) -> Result<(), NoMemory>
    ensures { OnOk result (out.new ≡ out.old ++ conjunct_words store_words value_words c.now) }
{
    out.push(Token::Key(Key::Conj))?;
    put_literals(c.when.as_slice(), out)?;
    out.push(Token::Key(Key::Then))?;
    put_gives(&c.gives, out)?;
    Ok(out.push(Token::End)?)
}

// Puts the lines of conjuncts one after another.
fn put_conjuncts(items: &[Conjunct], out: &mut Items<Token>) -> Result<(), NoMemory>
    ensures { OnOk result (out.new ≡ out.old ++ flat_map (conjunct_words store_words value_words) items.now) }
{
    for item in items {
        put_conjunct(item, out)?;
    }
    Ok(())
}

// Puts how many lines come, and the end of the line.
fn put_lines(n: usize, out: &mut Items<Token>) -> Result<(), NoMemory>
    ensures { OnOk result (out.new ≡ out.old ++ count_word n ∷ token.End ∷ []) }
{
    put_count(n, out)?;
    Ok(out.push(Token::End)?)
}

fn put_entry(e: &Entry, out: &mut Items<Token>) -> Result<(), NoMemory>
    ensures { OnOk result (out.new ≡ out.old ++ entry_words store_words value_words e.now) }
{
    out.push(Token::Key(Key::Entry))?;
    put_index(e.left, out)?;
    put_index(e.right, out)?;
    put_lines(e.conjuncts.len(), out)?;
    put_conjuncts(e.conjuncts.as_slice(), out)
}

// Puts the lines of entries one after another.
fn put_entries(items: &[Entry], out: &mut Items<Token>) -> Result<(), NoMemory>
    ensures { OnOk result (out.new ≡ out.old ++ flat_map (entry_words store_words value_words) items.now) }
{
    for item in items {
        put_entry(item, out)?;
    }
    Ok(())
}

// The number of a conjunct, or `-`.
fn conjunct_number(conjunct: Option<u32>) -> Token
    ensures { result ≡ spec.conjunct_number conjunct }
{
    match conjunct {
        Some(c) => Token::Number(false, u128::from(c)),
        None => Token::Key(Key::Minus),
    }
}

fn put_proved(p: &Proved, out: &mut Items<Token>) -> Result<(), NoMemory>
    ensures { OnOk result (out.new ≡ out.old ++ proved_words store_words value_words p.now) }
{
    out.push(Token::Key(Key::Proof))?;
    put_index(p.spot.entry, out)?;
    put_index(p.spot.left, out)?;
    put_index(p.spot.right, out)?;
    out.push(conjunct_number(p.spot.conjunct))?;
    put_index(p.used, out)?;
    out.push(Token::End)?;
    put_refutation(&p.proof, out)
}

// Puts the lines of proofs one after another.
fn put_proofs(items: &[Proved], out: &mut Items<Token>) -> Result<(), NoMemory>
    ensures { OnOk result (out.new ≡ out.old ++ flat_map (proved_words store_words value_words) items.now) }
{
    for item in items {
        put_proved(item, out)?;
    }
    Ok(())
}

// Puts the first line.
fn put_first(out: &mut Items<Token>) -> Result<(), NoMemory>
    ensures { OnOk result (out.new ≡ out.old ++ token.Key key.Format ∷ count_word 1 ∷ token.Key key.Simulate ∷ token.End ∷ []) }
{
    out.push(Token::Key(Key::Format))?;
    put_count(1, out)?;
    out.push(Token::Key(Key::Simulate))?;
    Ok(out.push(Token::End)?)
}

/// Puts the words of a certificate behind the others, with its first line.
pub(crate) fn put_words(c: &Certificate, out: &mut Items<Token>) -> Result<(), NoMemory>
    ensures { OnOk result (out.new ≡ out.old ++ first_format c.now) }
{
    put_first(out)?;
    out.push(Token::Key(Key::Entries))?;
    put_lines(c.entries.len(), out)?;
    put_entries(c.entries.as_slice(), out)?;
    out.push(Token::Key(Key::Proofs))?;
    put_lines(c.proofs.len(), out)?;
    put_proofs(c.proofs.as_slice(), out)
}
