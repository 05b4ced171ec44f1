//! Words as tokens: which token a word spells, and the bytes of a token. `specs/Words.antt` says how tokens are spelled.

ghost use Rattle.std.specs.Prelude.{◌≡◌, ◌≢◌, ◌↔◌, ◌∷◌, ◌++◌, ◌<◌, ◌^◌, ℕ, false, map, decimal, IsTrue, OnOk, IfSome, IfNone};
ghost use Rattle.word_text.specs.Words.{key_word, spelling, is_token, placed};
ghost use Rattle.word_text.specs.WordLookup as spec;
ghost use Rattle.word_text.specs.WordLookup.{Reads, is_par, is_negative, is_plain, is_number};

use crate::token::{Key, Token};
use itoa::Buffer;
use pec_text::NoMemory;
use std::str;

const KEYS: [(&[u8], Key); 45] = [
    (b"+", Key::Plus),
    (b"-", Key::Minus),
    (b"L", Key::L),
    (b"R", Key::R),
    (b"put", Key::Put),
    (b"run", Key::Run),
    (b"num", Key::Num),
    (b"get", Key::Get),
    (b"ev", Key::Ev),
    (b"add", Key::Add),
    (b"sub", Key::Sub),
    (b"mul", Key::Mul),
    (b"name", Key::Name),
    (b"store", Key::Store),
    (b"value", Key::Value),
    (b"most", Key::Most),
    (b"ends", Key::Ends),
    (b"holds", Key::Holds),
    (b"conj", Key::Conj),
    (b"then", Key::Then),
    (b"false", Key::False),
    (b"format", Key::Format),
    (b"simulate", Key::Simulate),
    (b"terms", Key::Terms),
    (b"entries", Key::Entries),
    (b"entry", Key::Entry),
    (b"proofs", Key::Proofs),
    (b"proof", Key::Proof),
    (b"split", Key::Split),
    (b"leaf", Key::Leaf),
    (b"step", Key::Step),
    (b"given", Key::Given),
    (b"known", Key::Known),
    (b"refl", Key::Refl),
    (b"flip", Key::Flip),
    (b"chain", Key::Chain),
    (b"alike", Key::Alike),
    (b"carry", Key::Carry),
    (b"law", Key::Law),
    (b"meet", Key::Meet),
    (b"sum", Key::Sum),
    (b"of", Key::Of),
    (b"back", Key::Back),
    (b"off", Key::Off),
    (b"offback", Key::OffBack),
];

// What the table has for a word.
fn lookup(mut table: &[(&[u8], Key)], word: &[u8]) -> Option<Key>
    ensures { result ≡ spec.lookup (map (λ entry. (entry.0.now, entry.1)) table.entry.now) word.now }
{
    while let [entry, rest @ ..] = table {
        if entry.0 == word {
            return Some(entry.1);
        }
        table = rest;
    }
    None
}

// The word of the grammar that has these bytes.
#[tactic(auto, unfolding(crate::specs::WordLookup::key_of))]
fn key_of(word: &[u8]) -> Option<Key>
    ensures { result ≡ spec.key_of word.now }
{
    lookup(&KEYS, word)
}

// Whether these are the digits of the number.
fn is_decimal(n: u128, digits: &[u8]) -> bool
    ensures { IsTrue result ↔ (digits.now ≡ decimal n) }
{
    let mut buffer = Buffer::new();
    buffer.format(n).as_bytes() == digits
}

// The number that these are the digits of.
fn number_of(digits: &[u8]) -> Option<u128>
    ensures found { IfSome result (λ n. digits.now ≡ decimal n) }
    ensures none { IfNone result ((n : ℕ) → n < 2 ^ 128 → digits.now ≢ decimal n) }
{
    let Ok(text) = str::from_utf8(digits) else {
        return None;
    };
    let Ok(n) = u128::from_str_radix(text, 10) else {
        return None;
    };
    if is_decimal(n, digits) { Some(n) } else { None }
}

// The parameter of the number that these are the digits of.
fn par_of(digits: &[u8]) -> Option<Token>
    ensures { Reads is_par (35 ∷ digits.now) result }
{
    let n = number_of(digits)?;
    match u32::try_from(n) {
        Ok(k) => Some(Token::Par(k)),
        Err(_) => None,
    }
}

// The number below zero of the magnitude that these are the digits of.
fn negative_of(digits: &[u8]) -> Option<Token>
    ensures { Reads is_negative (45 ∷ digits.now) result }
{
    let n = number_of(digits)?;
    if n == 0 {
        return None;
    }
    Some(Token::Number(true, n))
}

// The number from zero on that these are the digits of.
fn plain_of(digits: &[u8]) -> Option<Token>
    ensures { Reads is_plain digits.now result }
{
    let n = number_of(digits)?;
    Some(Token::Number(false, n))
}

// The number or parameter that a word spells.
fn number_token(word: &[u8]) -> Option<Token>
    ensures { Reads is_number word.now result }
{
    match word.split_first() {
        Some((b'#', digits)) => par_of(digits),
        Some((b'-', digits)) => negative_of(digits),
        Some(_) => plain_of(word),
        None => None,
    }
}

/// The token that a word spells; `None` where it spells none.
pub fn token_of(word: &[u8]) -> Option<Token>
    ensures { Reads is_token word.now result }
{
    match key_of(word) {
        Some(key) => Some(Token::Key(key)),
        None => number_token(word),
    }
}

// The bytes of a word of the grammar.
fn key_word(key: Key) -> &'static [u8]
    ensures { result.now ≡ key_word key }
{
    match key {
        Key::Plus => b"+",
        Key::Minus => b"-",
        Key::L => b"L",
        Key::R => b"R",
        Key::Put => b"put",
        Key::Run => b"run",
        Key::Num => b"num",
        Key::Get => b"get",
        Key::Ev => b"ev",
        Key::Add => b"add",
        Key::Sub => b"sub",
        Key::Mul => b"mul",
        Key::Name => b"name",
        Key::Store => b"store",
        Key::Value => b"value",
        Key::Most => b"most",
        Key::Ends => b"ends",
        Key::Holds => b"holds",
        Key::Conj => b"conj",
        Key::Then => b"then",
        Key::False => b"false",
        Key::Format => b"format",
        Key::Simulate => b"simulate",
        Key::Terms => b"terms",
        Key::Entries => b"entries",
        Key::Entry => b"entry",
        Key::Proofs => b"proofs",
        Key::Proof => b"proof",
        Key::Split => b"split",
        Key::Leaf => b"leaf",
        Key::Step => b"step",
        Key::Given => b"given",
        Key::Known => b"known",
        Key::Refl => b"refl",
        Key::Flip => b"flip",
        Key::Chain => b"chain",
        Key::Alike => b"alike",
        Key::Carry => b"carry",
        Key::Law => b"law",
        Key::Meet => b"meet",
        Key::Sum => b"sum",
        Key::Of => b"of",
        Key::Back => b"back",
        Key::Off => b"off",
        Key::OffBack => b"offback",
    }
}

fn put(bytes: &[u8], out: &mut Vec<u8>) -> Result<(), NoMemory>
    ensures { OnOk result (out.new.items ≡ out.old.items ++ bytes.now) }
{
    out.extend_from_slice(bytes)?;
    Ok(())
}

// Puts a number behind the text.
fn put_number(n: u128, out: &mut Vec<u8>) -> Result<(), NoMemory>
    ensures { OnOk result (out.new.items ≡ out.old.items ++ decimal n) }
{
    let mut buffer = Buffer::new();
    put(buffer.format(n).as_bytes(), out)
}

// Puts a word behind the text.
fn put_word(word: Token, out: &mut Vec<u8>) -> Result<(), NoMemory>
    ensures { OnOk result (out.new.items ≡ out.old.items ++ placed false (spelling word)) }
{
    match word {
        Token::Key(key) => put(key_word(key), out),
        Token::Number(false, n) => put_number(n, out),
        Token::Number(true, n) => {
            put(b"-", out)?;
            put_number(n, out)
        }
        Token::Par(k) => {
            put(b"#", out)?;
            put_number(u128::from(k), out)
        }
        Token::End => put(b"\n", out),
    }
}

/// Puts a word, or the end of a line, behind the text: a space in front of the word where one of its line stands before it.
pub fn put_token(before: bool, word: Token, out: &mut Vec<u8>) -> Result<(), NoMemory>
    ensures { OnOk result (out.new.items ≡ out.old.items ++ placed before (spelling word)) }
{
    if before && word != Token::End {
        put(b" ", out)?;
    }
    put_word(word, out)
}
