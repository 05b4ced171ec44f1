//! Cuts a text into its tokens, the longest one at each place.
//! What bytes spell is said in specs/Spelling.antt, and how the front of a text is read in specs/Scanning.antt.

ghost use Rattle.std.specs.Prelude.{◌≡◌, ◌≢◌, ◌<◌, ◌≤◌, true, List, map, length, slice_index, IfOk, Err};
ghost use Rattle.std.specs.Char.{is_ascii_digit};
ghost use Rattle.std.specs.List.{list_all, prefix_len};
ghost use Rattle.std.specs.Str.Parse.{digits_value};
ghost use Rattle.pec_text.specs.declared.token.Token.{Token};
ghost use Rattle.pec_text.specs.Scanning as spec;
ghost use Rattle.pec_text.specs.Scanning.{Gives};
ghost use Rattle.pec_text.specs.Byte.{is_id_byte};
ghost use Rattle.pec_text.specs.Spelling.{is_gap_byte, numeral_of, Spells, OneReading, TakesLongest};

use crate::byte::is_id_byte;
use crate::token::{Numeral, Sign, Token, Word};
use sqlite_items::Items;
use std::alloc::{AllocError, AllocFailed, Global};

/// Why a text has no list of tokens.
#[derive(Clone, Copy, Debug, PartialEq, Eq)]
pub enum LexRefusal {
    /// The bytes spell no list of tokens.
    NotTokens,
    NoMemory,
}

impl From<AllocError> for LexRefusal {
    ghost use Rattle.pec_text.specs.declared.lexer.LexRefusal.TheVariants.{NoMemory};

    ghost from_gives = { λ _ e. e ≡ NoMemory };

    fn from(_: AllocError) -> LexRefusal {
        LexRefusal::NoMemory
    }
}

impl<T: Drop> From<AllocFailed<T>> for LexRefusal {
    ghost use Rattle.pec_text.specs.declared.lexer.LexRefusal.TheVariants.{NoMemory};

    ghost from_gives = { λ _ e. e ≡ NoMemory };

    fn from(_: AllocFailed<T>) -> LexRefusal {
        LexRefusal::NoMemory
    }
}

const WORDS: [(&[u8], Word); 22] = [
    (b"skip", Word::Skip),
    (b"assert", Word::Assert),
    (b"if", Word::If),
    (b"else", Word::Else),
    (b"while", Word::While),
    (b"for", Word::For),
    (b"to", Word::To),
    (b"let", Word::Let),
    (b"not", Word::Not),
    (b"and", Word::And),
    (b"or", Word::Or),
    (b"end", Word::End),
    (b"left", Word::Left),
    (b"right", Word::Right),
    (b"given", Word::Given),
    (b"method", Word::Method),
    (b"cuts", Word::Cuts),
    (b"none", Word::None),
    (b"name", Word::Name),
    (b"expr", Word::Expr),
    (b"test", Word::Test),
    (b"stmt", Word::Stmt),
];

const SIGNS: [(&[u8], Sign); 16] = [
    (b"{", Sign::OpenBrace),
    (b"}", Sign::CloseBrace),
    (b"(", Sign::OpenParen),
    (b")", Sign::CloseParen),
    (b"[", Sign::OpenBracket),
    (b"]", Sign::CloseBracket),
    (b";", Sign::Semicolon),
    (b",", Sign::Comma),
    (b":=", Sign::Assign),
    (b"=", Sign::Equals),
    (b"+", Sign::Plus),
    (b"-", Sign::Minus),
    (b"*", Sign::Star),
    (b"<", Sign::Less),
    (b"<=", Sign::LessEq),
    (b"==", Sign::DoubleEquals),
];

/// The tokens of a text, in order. Takes time and memory linear in the text, whatever its bytes.
pub fn tokens(alloc: Global, bytes: &[u8]) -> Result<Items<Token>, LexRefusal>
    // The bytes spell these tokens, and no others.
    ensures ok { IfOk result (λ found. Spells bytes.now found) }
    ensures only { IfOk result (λ found. (others : List Token) → Spells bytes.now others → others ≡ found) }
    // Refused is what spells no list of tokens.
    ensures refused { result ≡ Err LexRefusal.NotTokens → (found : List Token) → ¬ (Spells bytes.now found) }
{
    let mut found = Vec::new(alloc);
    let mut rest = after_gap(bytes);
    while !rest.is_empty() {
        let (token, more) = first_token(alloc, rest)?;
        found.push(token)?;
        rest = after_gap(more);
    }
    Ok(Items::from_vec(found))
}

/// One text spells at most one list of tokens.
pub fn one_reading()
    ensures { OneReading }
{}

/// The longest token is taken at each place.
pub fn takes_longest()
    ensures { TakesLongest }
{}

#[tactic(auto, unfolding(crate::specs::Scanning::after_gap))]
fn after_gap(text: &[u8]) -> &[u8]
    ensures value { result.now ≡ spec.after_gap text.now }
    ensures shorter { length result.now ≤ length text.now }
{
    text.split_at(gap_len(text)).1
}

fn gap_len(text: &[u8]) -> usize
    ensures value { result ≡ prefix_len is_gap_byte text.now }
    ensures within { result ≤ length text.now }
{
    text.iter().take_while(|b| is_gap_byte(**b)).count()
}

fn is_gap_byte(byte: u8) -> bool
    ensures { result ≡ is_gap_byte byte }
{
    byte == b' ' || byte == b'\t' || byte == b'\n'
}

/// The token at the front of a text, which no gap begins, and the rest.
#[tactic(auto, unfolding(crate::specs::Scanning::first_token))]
fn first_token(alloc: Global, text: &[u8]) -> Result<(Token, &[u8]), LexRefusal>
    ensures { Gives (λ read. (read.0, read.1.now)) result (spec.first_token text.now) }
{
    let first = byte_at(text, 0);
    if first.is_ascii_alphabetic() {
        name_at(alloc, text)
    } else if first.is_ascii_digit() {
        number_at(text)
    } else {
        sign_at(text)
    }
}

/// The byte at `index`, or 0 behind the end.
fn byte_at(text: &[u8], index: usize) -> u8
    ensures { result ≡ slice_index text.now index }
{
    if index < text.len() { text[index] } else { 0 }
}

#[tactic(auto, unfolding(crate::specs::Scanning::name_at))]
fn name_at(alloc: Global, text: &[u8]) -> Result<(Token, &[u8]), LexRefusal>
    ensures { Gives (λ read. (read.0, read.1.now)) result (spec.name_at text.now) }
{
    let (lexeme, rest) = text.split_at(name_len(text));
    let token = name_token(alloc, lexeme)?;
    Ok((token, rest))
}

fn name_len(text: &[u8]) -> usize
    ensures value { result ≡ prefix_len is_id_byte text.now }
    ensures within { result ≤ length text.now }
{
    text.iter().take_while(|b| is_id_byte(**b)).count()
}

#[tactic(auto, unfolding(crate::specs::Scanning::name_token))]
fn name_token(alloc: Global, run: &[u8]) -> Result<Token, LexRefusal>
    ensures { Gives (λ token. token) result (spec.name_token run.now) }
{
    if let Some(reserved) = reserved_of(run) {
        return Ok(Token::Word(reserved));
    }
    if run.len() > 32 {
        return Err(LexRefusal::NotTokens);
    }
    Ok(Token::Name(Items::from_slice(alloc, run)?))
}

#[tactic(auto, unfolding(crate::specs::Scanning::reserved_of))]
fn reserved_of(lexeme: &[u8]) -> Option<Word>
    ensures { result ≡ spec.reserved_of lexeme.now }
{
    lookup(&WORDS, lexeme)
}

/// What the table has for a lexeme.
fn lookup<T: Copy>(mut table: &[(&[u8], T)], lexeme: &[u8]) -> Option<T>
    ensures { result ≡ spec.lookup (map (λ entry. (entry.0.now, entry.1)) table.entry.now) lexeme.now }
{
    while let [entry, rest @ ..] = table {
        if entry.0 == lexeme {
            return Some(entry.1);
        }
        table = rest;
    }
    None
}

#[tactic(auto, unfolding(crate::specs::Scanning::number_at))]
fn number_at(text: &[u8]) -> Result<(Token, &[u8]), LexRefusal>
    ensures { Gives (λ read. (read.0, read.1.now)) result (spec.number_at text.now) }
{
    let (digits, rest) = text.split_at(digits_len(text));
    let token = number_token(digits)?;
    Ok((token, rest))
}

fn digits_len(text: &[u8]) -> usize
    ensures value { result ≡ prefix_len is_ascii_digit text.now }
    ensures within { result ≤ length text.now }
{
    text.iter().take_while(|b| b.is_ascii_digit()).count()
}

#[tactic(auto, unfolding(crate::specs::Scanning::number_token))]
fn number_token(digits: &[u8]) -> Result<Token, LexRefusal>
    requires { list_all is_ascii_digit digits.now ≡ true }
    ensures { Gives (λ token. token) result (spec.number_token digits.now) }
{
    if digits.len() > 1 && digits[0] == b'0' {
        return Err(LexRefusal::NotTokens);
    }
    Ok(Token::Number(numeral_of(digits)))
}

/// The value of digits where it is below 2^63. One that does not fit stands still at the greatest u64.
fn numeral_of(digits: &[u8]) -> Numeral
    requires { list_all is_ascii_digit digits.now ≡ true }
    ensures { result ≡ numeral_of (digits_value 10 digits.now) }
{
    let mut value: u64 = 0;
    for digit in digits {
        value = value
            .saturating_mul(10)
            .saturating_add(u64::from(*digit - b'0'));
    }
    if value < 1 << 63 {
        Numeral::Value(value)
    } else {
        Numeral::Wide
    }
}

#[tactic(auto, unfolding(crate::specs::Scanning::sign_at))]
fn sign_at(text: &[u8]) -> Result<(Token, &[u8]), LexRefusal>
    ensures { Gives (λ read. (read.0, read.1.now)) result (spec.sign_at text.now) }
{
    let (lexeme, rest) = text.split_at(sign_len(text));
    let token = sign_token(lexeme)?;
    Ok((token, rest))
}

#[tactic(auto, unfolding(crate::specs::Scanning::sign_len))]
fn sign_len(text: &[u8]) -> usize
    ensures value { result ≡ spec.sign_len text.now }
    ensures within { result ≤ length text.now }
{
    match text {
        [first, second, ..] if is_before_equals(*first) && *second == b'=' => 2,
        [_, ..] => 1,
        [] => 0,
    }
}

fn is_before_equals(byte: u8) -> bool
    ensures { result ≡ spec.is_before_equals byte }
{
    byte == b':' || byte == b'<' || byte == b'='
}

#[tactic(auto, unfolding(crate::specs::Scanning::sign_token))]
fn sign_token(lexeme: &[u8]) -> Result<Token, LexRefusal>
    ensures { Gives (λ token. token) result (spec.sign_token lexeme.now) }
{
    match sign_of(lexeme) {
        Some(sign) => Ok(Token::Sign(sign)),
        None => Err(LexRefusal::NotTokens),
    }
}

#[tactic(auto, unfolding(crate::specs::Scanning::sign_of))]
fn sign_of(lexeme: &[u8]) -> Option<Sign>
    ensures { result ≡ spec.sign_of lexeme.now }
{
    lookup(&SIGNS, lexeme)
}
