//! The front of tokens: names, and the semicolon that ends a line of a rule.
//! `specs/Front.antt` says what is read.

ghost use Rattle.program_reader.specs.Unread.{Gives};
ghost use Rattle.rule_reader.specs.Front.{name_read, two_names_read, semicolon_read};

use pec_text::{Sign, Token};
use program_reader::Unread;

/// The name in front, and the tokens behind it.
pub fn name(tokens: &[Token]) -> Result<(&[u8], &[Token]), Unread>
    ensures { Gives (λ p. (p.0.now, p.1.now)) result (name_read tokens.now) }
{
    match tokens.split_first() {
        Some((Token::Name(name), rest)) => Ok((name.as_slice(), rest)),
        _ => Err(Unread::NotGrammar),
    }
}

/// The two names in front.
pub fn two_names(tokens: &[Token]) -> Result<((&[u8], &[u8]), &[Token]), Unread>
    ensures { Gives (λ p. ((p.0.0.now, p.0.1.now), p.1.now)) result (two_names_read tokens.now) }
{
    let (first, rest) = name(tokens)?;
    let (second, rest) = name(rest)?;
    Ok(((first, second), rest))
}

/// The tokens behind the semicolon in front.
pub fn semicolon(tokens: &[Token]) -> Result<&[Token], Unread>
    ensures { Gives (λ rest. rest.now) result (semicolon_read tokens.now) }
{
    match tokens.split_first() {
        Some((Token::Sign(Sign::Semicolon), rest)) => Ok(rest),
        _ => Err(Unread::NotGrammar),
    }
}
