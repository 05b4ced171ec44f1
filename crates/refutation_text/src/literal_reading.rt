//! The reader of literals, from the front of tokens. `specs/LiteralReading.antt` says what is read.

ghost use Rattle.std.specs.Prelude.{◌≡◌};
ghost use Rattle.rule_terms.specs.declared.obligation.Atom.TheVariants as atom;
ghost use Rattle.term_text.specs.TermReading.{store_read, value_read};
ghost use Rattle.term_text.specs.Unread.{Gives};
ghost use Rattle.refutation_text.specs.NumberText.{many_read, counted_read, par_read, wide_read};
ghost use Rattle.refutation_text.specs.declared.head.AtomHead.TheVariants as head;
ghost use Rattle.refutation_text.specs.LiteralReading.{one_read, two_read, atom_behind, atom_read, written_literal};

use crate::head::AtomHead;
use crate::number::{read_count, read_wide};
use crate::word::{atom_head, read_par, read_sign};
use rule_terms::{Atom, Literal, StoreTerm, ValueTerm};
use sqlite_items::Items;
use std::alloc::Global;
use term_text::{DEEPEST, Unread, read_store, read_value};
use word_text::Token;

// A store term of at most the greatest depth.
pub(crate) fn store<'a>(
    alloc: Global,
    tokens: &'a [Token],
) -> Result<(StoreTerm, &'a [Token]), Unread>
    ensures { Gives (λ p. (p.0, p.1.now)) result (store_read 4100 tokens.now) }
{
    read_store(alloc, DEEPEST, tokens)
}

// A value term of at most the greatest depth.
pub(crate) fn value<'a>(
    alloc: Global,
    tokens: &'a [Token],
) -> Result<(ValueTerm, &'a [Token]), Unread>
    ensures { Gives (λ p. (p.0, p.1.now)) result (value_read 4100 tokens.now) }
{
    read_value(alloc, DEEPEST, tokens)
}

// Two names.
fn names(tokens: &[Token]) -> Result<(Atom, &[Token]), Unread>
    ensures { Gives (λ p. (p.0, p.1.now)) result (two_read par_read par_read atom.SameName tokens.now) }
{
    let (x, rest) = read_par(tokens)?;
    let (y, rest) = read_par(rest)?;
    Ok((Atom::SameName(x, y), rest))
}

// Two stores.
fn stores<'a>(alloc: Global, tokens: &'a [Token]) -> Result<(Atom, &'a [Token]), Unread>
    ensures { Gives (λ p. (p.0, p.1.now)) result (two_read (store_read 4100) (store_read 4100) atom.SameStore tokens.now) }
{
    let (a, rest) = store(alloc, tokens)?;
    let (b, rest) = store(alloc, rest)?;
    Ok((Atom::SameStore(a, b), rest))
}

// Two values.
fn values<'a>(alloc: Global, tokens: &'a [Token]) -> Result<(Atom, &'a [Token]), Unread>
    ensures { Gives (λ p. (p.0, p.1.now)) result (two_read (value_read 4100) (value_read 4100) atom.SameValue tokens.now) }
{
    let (a, rest) = value(alloc, tokens)?;
    let (b, rest) = value(alloc, rest)?;
    Ok((Atom::SameValue(a, b), rest))
}

// A bound of one value by another, behind its word.
#[tactic(auto, unfolding(crate::specs::LiteralReading::atom_behind))]
fn bound<'a>(alloc: Global, tokens: &'a [Token]) -> Result<(Atom, &'a [Token]), Unread>
    ensures { Gives (λ p. (p.0, p.1.now)) result (atom_behind (store_read 4100) (value_read 4100) head.Most tokens.now) }
{
    let (a, rest) = value(alloc, tokens)?;
    let (b, rest) = value(alloc, rest)?;
    let (c, rest) = read_wide(rest)?;
    Ok((Atom::AtMost(a, b, c), rest))
}

// A store that ends.
fn ends<'a>(alloc: Global, tokens: &'a [Token]) -> Result<(Atom, &'a [Token]), Unread>
    ensures { Gives (λ p. (p.0, p.1.now)) result (one_read (store_read 4100) atom.Ends tokens.now) }
{
    let (s, rest) = store(alloc, tokens)?;
    Ok((Atom::Ends(s), rest))
}

// A test that holds in a store.
fn holds<'a>(alloc: Global, tokens: &'a [Token]) -> Result<(Atom, &'a [Token]), Unread>
    ensures { Gives (λ p. (p.0, p.1.now)) result (two_read par_read (store_read 4100) atom.Holds tokens.now) }
{
    let (k, rest) = read_par(tokens)?;
    let (s, rest) = store(alloc, rest)?;
    Ok((Atom::Holds(k, s), rest))
}

// The atom behind its word.
#[tactic(auto, unfolding(crate::specs::LiteralReading::atom_behind))]
fn atom_of<'a>(
    alloc: Global,
    head: AtomHead,
    tokens: &'a [Token],
) -> Result<(Atom, &'a [Token]), Unread>
    ensures { Gives (λ p. (p.0, p.1.now)) result (atom_behind (store_read 4100) (value_read 4100) head tokens.now) }
{
    match head {
        AtomHead::Name => names(tokens),
        AtomHead::Store => stores(alloc, tokens),
        AtomHead::Value => values(alloc, tokens),
        AtomHead::Most => bound(alloc, tokens),
        AtomHead::Ends => ends(alloc, tokens),
        AtomHead::Holds => holds(alloc, tokens),
    }
}

fn read_atom<'a>(alloc: Global, tokens: &'a [Token]) -> Result<(Atom, &'a [Token]), Unread>
    ensures { Gives (λ p. (p.0, p.1.now)) result (atom_read (store_read 4100) (value_read 4100) tokens.now) }
{
    let (head, rest) = atom_head(tokens)?;
    atom_of(alloc, head, rest)
}

/// The literal in front of the tokens, and the tokens behind it.
pub fn read_literal<'a>(
    alloc: Global,
    tokens: &'a [Token],
) -> Result<(Literal, &'a [Token]), Unread>
    ensures { Gives (λ p. (p.0, p.1.now)) result (written_literal tokens.now) }
{
    let (sign, rest) = read_sign(tokens)?;
    let (atom, rest) = read_atom(alloc, rest)?;
    Ok((Literal { sign, atom }, rest))
}

// So many literals.
fn literals<'a>(
    alloc: Global,
    n: u128,
    tokens: &'a [Token],
) -> Result<(Items<Literal>, &'a [Token]), Unread>
    ensures { Gives (λ p. (p.0, p.1.now)) result (many_read written_literal n tokens.now) }
{
    let mut found = Items::new(alloc);
    let mut rest = tokens;
    for _turn in 0..n {
        let (item, after) = read_literal(alloc, rest)?;
        found.push(item)?;
        rest = after;
    }
    Ok((found, rest))
}

/// How many literals there are, and they.
pub fn read_literals<'a>(
    alloc: Global,
    tokens: &'a [Token],
) -> Result<(Items<Literal>, &'a [Token]), Unread>
    ensures { Gives (λ p. (p.0, p.1.now)) result (counted_read written_literal tokens.now) }
{
    let (n, rest) = read_count(tokens)?;
    literals(alloc, n, rest)
}
