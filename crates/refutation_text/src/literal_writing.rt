//! The words of literals, put behind other tokens. `specs/LiteralText.antt` says which they are.

ghost use Rattle.std.specs.Prelude.{◌≡◌, ◌++◌, ◌∷◌, [], OnOk};
ghost use Rattle.std.specs.List.{flat_map};
ghost use Rattle.term_text.specs.TermText.{store_words, value_words};
ghost use Rattle.term_text.specs.TermText as term;
ghost use Rattle.refutation_text.specs.NumberText.{counted_words};
ghost use Rattle.refutation_text.specs.LiteralText.{sign_word, atom_words, literal_words};

use crate::number::put_count;
use rule_terms::{Atom, Literal};
use sqlite_items::Items;
use term_text::{put_store, put_value};
use toy_imp::NoMemory;
use word_text::{Key, Token};

// The word of a constant of 128 bits.
fn wide_word(z: i128) -> Token
    ensures { result ≡ term.number_word z }
{
    Token::Number(z < 0, z.unsigned_abs())
}

// The word of a constant of 64 bits.
pub(crate) fn int_word(z: i64) -> Token
    ensures { result ≡ term.number_word z }
{
    Token::Number(z < 0, u128::from(z.unsigned_abs()))
}

fn sign_word(sign: bool) -> Token
    ensures { result ≡ sign_word sign }
{
    if sign {
        Token::Key(Key::Plus)
    } else {
        Token::Key(Key::Minus)
    }
}

fn put_atom(atom: &Atom, out: &mut Items<Token>) -> Result<(), NoMemory>
    ensures { OnOk result (out.new ≡ out.old ++ atom_words store_words value_words atom.now) }
{
    match atom {
        Atom::SameName(x, y) => {
            out.push(Token::Key(Key::Name))?;
            out.push(Token::Par(*x))?;
            Ok(out.push(Token::Par(*y))?)
        }
        Atom::SameStore(a, b) => {
            out.push(Token::Key(Key::Store))?;
            put_store(a, out)?;
            put_store(b, out)
        }
        Atom::SameValue(a, b) => {
            out.push(Token::Key(Key::Value))?;
            put_value(a, out)?;
            put_value(b, out)
        }
        Atom::AtMost(a, b, c) => {
            out.push(Token::Key(Key::Most))?;
            put_value(a, out)?;
            put_value(b, out)?;
            Ok(out.push(wide_word(*c))?)
        }
        Atom::Ends(s) => {
            out.push(Token::Key(Key::Ends))?;
            put_store(s, out)
        }
        Atom::Holds(k, s) => {
            out.push(Token::Key(Key::Holds))?;
            out.push(Token::Par(*k))?;
            put_store(s, out)
        }
    }
}

/// Puts the words of a literal behind the others.
pub fn put_literal(x: &Literal, out: &mut Items<Token>) -> Result<(), NoMemory>
    ensures { OnOk result (out.new ≡ out.old ++ literal_words store_words value_words x.now) }
{
    out.push(sign_word(x.sign))?;
    put_atom(&x.atom, out)
}

// Puts the words of literals one after another.
fn put_each(items: &[Literal], out: &mut Items<Token>) -> Result<(), NoMemory>
    ensures { OnOk result (out.new ≡ out.old ++ flat_map (literal_words store_words value_words) items.now) }
{
    for x in items {
        put_literal(x, out)?;
    }
    Ok(())
}

/// Puts how many literals there are, and their words.
pub fn put_literals(items: &[Literal], out: &mut Items<Token>) -> Result<(), NoMemory>
    ensures { OnOk result (out.new ≡ out.old ++ counted_words (literal_words store_words value_words) items.now) }
{
    put_count(items.len(), out)?;
    put_each(items, out)
}
