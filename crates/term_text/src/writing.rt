//! The words of terms, put behind other tokens. `specs/TermText.antt` says which they are.

ghost use Rattle.std.specs.Prelude.{◌≡◌, ◌++◌, ◌∷◌, false, OnOk};
ghost use Rattle.rule_terms.specs.TermView.{terms_of};
ghost use Rattle.word_text.specs.declared.token.Token.TheVariants as token;
ghost use Rattle.term_text.specs.TermText.{number_word, term_count, place_words, store_words, value_words, terms_words};

use rule_terms::{Place, StoreNode, StoreTerm, ValueNode, ValueTerm};
use sqlite_items::Items;
use toy_imp::NoMemory;
use word_text::{Key, Token};

// The word of a constant.
fn number_word(z: i64) -> Token
    ensures { result ≡ number_word z }
{
    Token::Number(z < 0, u128::from(z.unsigned_abs()))
}

/// Puts the words of a store term behind the others.
#[cycle(writing)]
pub fn put_store(s: &StoreTerm, out: &mut Items<Token>) -> Result<(), NoMemory>
    ensures { OnOk result (out.new ≡ out.old ++ store_words s.now) }
{
    match &s.node {
        StoreNode::L => Ok(out.push(Token::Key(Key::L))?),
        StoreNode::R => Ok(out.push(Token::Key(Key::R))?),
        StoreNode::Put(inner, p, v) => {
            out.push(Token::Key(Key::Put))?;
            put_store(inner.get(), out)?;
            put_place(p, out)?;
            put_value(v.get(), out)
        }
        StoreNode::Run(k, inner) => {
            out.push(Token::Key(Key::Run))?;
            out.push(Token::Par(*k))?;
            put_store(inner.get(), out)
        }
    }
}

/// Puts the words of a value term behind the others.
#[cycle(writing)]
pub fn put_value(v: &ValueTerm, out: &mut Items<Token>) -> Result<(), NoMemory>
    ensures { OnOk result (out.new ≡ out.old ++ value_words v.now) }
{
    match &v.node {
        ValueNode::Num(z) => {
            out.push(Token::Key(Key::Num))?;
            Ok(out.push(number_word(*z))?)
        }
        ValueNode::Get(p, s) => {
            out.push(Token::Key(Key::Get))?;
            put_place(p, out)?;
            put_store(s.get(), out)
        }
        ValueNode::Ev(k, s) => {
            out.push(Token::Key(Key::Ev))?;
            out.push(Token::Par(*k))?;
            put_store(s.get(), out)
        }
        ValueNode::Add(a, b) => put_pair(Key::Add, a.get(), b.get(), out),
        ValueNode::Sub(a, b) => put_pair(Key::Sub, a.get(), b.get(), out),
        ValueNode::Mul(a, b) => put_pair(Key::Mul, a.get(), b.get(), out),
    }
}

// Puts a word, and the words of two value terms.
#[cycle(writing)]
fn put_pair(word: Key, a: &ValueTerm, b: &ValueTerm, out: &mut Items<Token>) -> Result<(), NoMemory>
    ensures { OnOk result (out.new ≡ out.old ++ token.Key word ∷ (value_words a.now ++ value_words b.now)) }
{
    out.push(Token::Key(word))?;
    put_value(a, out)?;
    put_value(b, out)
}

// How many indices a place has, as a word.
#[tactic(auto, using(crate::proofs::WordTurns::count_terms))]
fn count_word(items: &[ValueTerm]) -> Token
    ensures { result ≡ token.Number false (term_count (terms_of items.now)) }
{
    Token::Number(false, items.len() as u128)
}

// Puts the words of a place: its name, how many indices it has, and they.
#[cycle(writing)]
fn put_place(p: &Place, out: &mut Items<Token>) -> Result<(), NoMemory>
    ensures { OnOk result (out.new ≡ out.old ++ place_words p.now) }
{
    out.push(Token::Par(p.name))?;
    out.push(count_word(p.indices.as_slice()))?;
    put_values(p.indices.as_slice(), out)?;
    Ok(())
}

// Puts the words of value terms one after another.
#[cycle(writing)]
#[tactic(auto, using(crate::proofs::WordTurns::words_take, rule_terms::specs::TermFalls::value_item))]
fn put_values(items: &[ValueTerm], out: &mut Items<Token>) -> Result<(), NoMemory>
    ensures { OnOk result (out.new ≡ out.old ++ terms_words (terms_of items.now)) }
{
    for v in items {
        put_value(v, out)?;
    }
    Ok(())
}
