//! The reader of declarations, from the front of tokens: the parameters of a rule, numbered from 0
//! in order of declaration. `specs/DeclarationReading.antt` says what is read.

ghost use Rattle.std.specs.Prelude.{◌≡◌, None, Some, IfOk, MatchOption, map};
ghost use Rattle.toy_imp.specs.RuleGrammar.{declared_by};
ghost use Rattle.program_reader.specs.Unread.{Gives};
ghost use Rattle.rule_reader.specs.DeclarationReading.{kind_read, names_read, declared_read, param_of, params_read};
ghost use Rattle.rule_reader.specs.Front.{valued, with_found};

use crate::front::name;
use pec_text::{Sign, Token, Word};
use program_reader::Unread;
use sqlite_items::Items;
use std::alloc::{AllocError, Global};
use toy_imp::{Kind, Param};

/// The parameters of all declarations in front, and the tokens behind them.
#[tactic(auto, unfolding(crate::specs::DeclarationReading::params_read))]
pub fn params<'a>(alloc: Global, tokens: &'a [Token]) -> Result<(Items<Param>, &'a [Token]), Unread>
    ensures { Gives (λ p. (p.0, p.1.now)) result (params_read tokens.now) }
{
    let mut found = Items::new(alloc);
    let mut rest = tokens;
    for _turn in 0..tokens.len() {
        let Some((kind, after)) = kind_in_front(rest) else {
            return Ok((found, rest));
        };
        let (more, after) = declared(alloc, kind, found, after)?;
        found = more;
        rest = after;
    }
    Ok((found, rest))
}

/// The kind whose word is in front, and the tokens behind it.
fn kind_in_front(tokens: &[Token]) -> Option<(Kind, &[Token])>
    ensures { MatchOption result (kind_read tokens.now ≡ None) (λ p. kind_read tokens.now ≡ Some (p.0, p.1.now)) }
{
    match tokens.split_first() {
        Some((Token::Word(Word::Name), rest)) => Some((Kind::Name, rest)),
        Some((Token::Word(Word::Expr), rest)) => Some((Kind::Expr, rest)),
        Some((Token::Word(Word::Test), rest)) => Some((Kind::Test, rest)),
        Some((Token::Word(Word::Stmt), rest)) => Some((Kind::Stmt, rest)),
        _ => None,
    }
}

/// The parameters that were found, and behind them those of the names in front, of which there must
/// be one.
fn declared<'a>(
    alloc: Global,
    kind: Kind,
    found: Items<Param>,
    tokens: &'a [Token],
) -> Result<(Items<Param>, &'a [Token]), Unread>
    ensures { Gives (λ p. (p.0, p.1.now)) result (with_found found (valued declared_by (declared_read kind tokens.now))) }
{
    let (first, rest) = name(tokens)?;
    let mut found = found;
    let made = param(alloc, kind, first)?;
    found.push(made)?;
    names(alloc, kind, found, rest)
}

/// The parameters that were found, and behind them those of the names up to the semicolon.
#[tactic(auto, unfolding(crate::specs::DeclarationReading::names_read))]
fn names<'a>(
    alloc: Global,
    kind: Kind,
    found: Items<Param>,
    tokens: &'a [Token],
) -> Result<(Items<Param>, &'a [Token]), Unread>
    ensures { Gives (λ p. (p.0, p.1.now)) result (with_found found (valued (map (param_of kind)) (names_read tokens.now))) }
{
    let mut found = found;
    let mut rest = tokens;
    'names: loop {
        match rest.split_first() {
            Some((Token::Name(name), more)) => {
                let made = param(alloc, kind, name.as_slice())?;
                found.push(made)?;
                rest = more;
            }
            Some((Token::Sign(Sign::Semicolon), more)) => return Ok((found, more)),
            _ => return Err(Unread::NotGrammar),
        }
    }
}

/// The parameter of this kind and name.
fn param(alloc: Global, kind: Kind, name: &[u8]) -> Result<Param, AllocError>
    ensures { IfOk result (λ p. p ≡ param_of kind name.now) }
{
    let name = Items::from_slice(alloc, name)?;
    Ok(Param { kind, name })
}
