//! The words of steps and refutations, put behind other tokens. `specs/StepText.antt` says which they are.

ghost use Rattle.std.specs.Prelude.{◌≡◌, ◌++◌, ◌∷◌, [], OnOk};
ghost use Rattle.std.specs.List.{flat_map};
ghost use Rattle.word_text.specs.declared.token.Key.TheVariants as key;
ghost use Rattle.word_text.specs.declared.token.Token.TheVariants as token;
ghost use Rattle.term_text.specs.TermText.{store_words, value_words};
ghost use Rattle.refutation_text.specs.NumberText.{count_word, counted_words, index_words};
ghost use Rattle.refutation_text.specs.StepText.{row_words, reason_words, part_words, written_step, written_refutation};

use crate::literal_writing::{int_word, put_literal, put_literals};
use crate::number::{put_count, put_index, put_indices};
use refutations::{By, Part, Refutation, Step, SumRow};
use sqlite_items::Items;
use term_text::put_value;
use toy_imp::NoMemory;
use word_text::{Key, Token};

// Puts a word and a number.
fn put_one(word: Key, k: u32, out: &mut Items<Token>) -> Result<(), NoMemory>
    ensures { OnOk result (out.new ≡ out.old ++ token.Key word ∷ count_word k ∷ []) }
{
    out.push(Token::Key(word))?;
    put_index(k, out)
}

// Puts a word and two numbers.
fn put_two(word: Key, j: u32, k: u32, out: &mut Items<Token>) -> Result<(), NoMemory>
    ensures { OnOk result (out.new ≡ out.old ++ token.Key word ∷ count_word j ∷ count_word k ∷ []) }
{
    put_one(word, j, out)?;
    put_index(k, out)
}

// Puts a word, a number, and how many numbers there are and they.
fn put_cited(word: Key, k: u32, from: &[u32], out: &mut Items<Token>) -> Result<(), NoMemory>
    ensures { OnOk result (out.new ≡ out.old ++ token.Key word ∷ count_word k ∷ counted_words index_words from.now) }
{
    put_one(word, k, out)?;
    put_indices(from, out)
}

fn put_row(row: &SumRow, out: &mut Items<Token>) -> Result<(), NoMemory>
    ensures { OnOk result (out.new ≡ out.old ++ row_words value_words row.now) }
{
    match row {
        SumRow::Of(k) => put_one(Key::Of, *k, out),
        SumRow::Back(k) => put_one(Key::Back, *k, out),
        SumRow::Num(a, b) => {
            out.push(Token::Key(Key::Num))?;
            out.push(int_word(*a))?;
            Ok(out.push(int_word(*b))?)
        }
        SumRow::Off(v) => {
            out.push(Token::Key(Key::Off))?;
            put_value(v, out)
        }
        SumRow::OffBack(v) => {
            out.push(Token::Key(Key::OffBack))?;
            put_value(v, out)
        }
    }
}

// Puts the words of rows one after another.
fn put_rows(items: &[SumRow], out: &mut Items<Token>) -> Result<(), NoMemory>
    ensures { OnOk result (out.new ≡ out.old ++ flat_map (row_words value_words) items.now) }
{
    for row in items {
        put_row(row, out)?;
    }
    Ok(())
}

fn put_reason(by: &By, out: &mut Items<Token>) -> Result<(), NoMemory>
    ensures { OnOk result (out.new ≡ out.old ++ reason_words store_words value_words by.now) }
{
    match by {
        By::Given => Ok(out.push(Token::Key(Key::Given))?),
        By::Known(k, from) => put_cited(Key::Known, *k, from.as_slice(), out),
        By::Refl => Ok(out.push(Token::Key(Key::Refl))?),
        By::Flip(k) => put_one(Key::Flip, *k, out),
        By::Chain(j, k) => put_two(Key::Chain, *j, *k, out),
        By::Alike(from) => {
            out.push(Token::Key(Key::Alike))?;
            put_indices(from.as_slice(), out)
        }
        By::Carry(k, from) => put_cited(Key::Carry, *k, from.as_slice(), out),
        By::Law(k, clause, p, from) => {
            put_one(Key::Law, *k, out)?;
            put_literals(clause.as_slice(), out)?;
            put_index(*p, out)?;
            put_indices(from.as_slice(), out)
        }
        By::Meet(j, k) => put_two(Key::Meet, *j, *k, out),
        By::Sum(rows) => {
            out.push(Token::Key(Key::Sum))?;
            put_count(rows.len(), out)?;
            put_rows(rows.as_slice(), out)
        }
    }
}

/// Puts the line of a step behind the others.
pub fn put_step(s: &Step, out: &mut Items<Token>) -> Result<(), NoMemory>
    ensures { OnOk result (out.new ≡ out.old ++ written_step s.now) }
{
    out.push(Token::Key(Key::Step))?;
    put_literal(&s.gives, out)?;
    put_reason(&s.by, out)?;
    Ok(out.push(Token::End)?)
}

// Puts the lines of steps one after another.
fn put_steps(items: &[Step], out: &mut Items<Token>) -> Result<(), NoMemory>
    ensures { OnOk result (out.new ≡ out.old ++ flat_map written_step items.now) }
{
    for s in items {
        put_step(s, out)?;
    }
    Ok(())
}

fn put_part(part: &Part, out: &mut Items<Token>) -> Result<(), NoMemory>
    ensures { OnOk result (out.new ≡ out.old ++ part_words store_words value_words part.now) }
{
    match part {
        Part::Split(x) => {
            out.push(Token::Key(Key::Split))?;
            put_literal(x, out)?;
            Ok(out.push(Token::End)?)
        }
        Part::Leaf(steps) => {
            out.push(Token::Key(Key::Leaf))?;
            put_count(steps.len(), out)?;
            out.push(Token::End)?;
            put_steps(steps.as_slice(), out)
        }
    }
}

/// Puts the lines of a refutation behind the others, in time linear in its size.
pub fn put_refutation(r: &Refutation, out: &mut Items<Token>) -> Result<(), NoMemory>
    ensures { OnOk result (out.new ≡ out.old ++ written_refutation r.now) }
{
    put_parts(r.parts(), out)
}

// Puts the lines of parts one after another.
fn put_parts(items: &[Part], out: &mut Items<Token>) -> Result<(), NoMemory>
    ensures { OnOk result (out.new ≡ out.old ++ flat_map (part_words store_words value_words) items.now) }
{
    for part in items {
        put_part(part, out)?;
    }
    Ok(())
}
