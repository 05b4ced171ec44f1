//! Single words in front of tokens: the end of a line, a parameter, what a word begins.
//! `specs/NumberText.antt`, `LiteralReading.antt` and `StepReading.antt` say which words these are.

ghost use Rattle.std.specs.Prelude.{◌≡◌};
ghost use Rattle.refutation_text.specs.NumberText as number;
ghost use Rattle.refutation_text.specs.LiteralReading as literal;
ghost use Rattle.refutation_text.specs.StepReading as step;
ghost use Rattle.term_text.specs.Unread.{Gives};

use crate::head::{AtomHead, PartHead, ReasonHead, RowHead};
use term_text::Unread;
use word_text::{Key, Token};

/// The tokens behind the end of a line.
pub fn read_end(tokens: &[Token]) -> Result<&[Token], Unread>
    ensures { Gives (λ p. p.now) result (number.end_read tokens.now) }
{
    match tokens.split_first() {
        Some((Token::End, rest)) => Ok(rest),
        _ => Err(Unread::NotGrammar),
    }
}

// A parameter.
pub(crate) fn read_par(tokens: &[Token]) -> Result<(u32, &[Token]), Unread>
    ensures { Gives (λ p. (p.0, p.1.now)) result (number.par_read tokens.now) }
{
    match tokens.split_first() {
        Some((Token::Par(k), rest)) => Ok((*k, rest)),
        _ => Err(Unread::NotGrammar),
    }
}

// The sign of a literal.
pub(crate) fn read_sign(tokens: &[Token]) -> Result<(bool, &[Token]), Unread>
    ensures { Gives (λ p. (p.0, p.1.now)) result (literal.sign_read tokens.now) }
{
    match tokens.split_first() {
        Some((Token::Key(Key::Plus), rest)) => Ok((true, rest)),
        Some((Token::Key(Key::Minus), rest)) => Ok((false, rest)),
        _ => Err(Unread::NotGrammar),
    }
}

// Which atom begins.
pub(crate) fn atom_head(tokens: &[Token]) -> Result<(AtomHead, &[Token]), Unread>
    ensures { Gives (λ p. (p.0, p.1.now)) result (literal.atom_head tokens.now) }
{
    match tokens.split_first() {
        Some((Token::Key(Key::Name), rest)) => Ok((AtomHead::Name, rest)),
        Some((Token::Key(Key::Store), rest)) => Ok((AtomHead::Store, rest)),
        Some((Token::Key(Key::Value), rest)) => Ok((AtomHead::Value, rest)),
        Some((Token::Key(Key::Most), rest)) => Ok((AtomHead::Most, rest)),
        Some((Token::Key(Key::Ends), rest)) => Ok((AtomHead::Ends, rest)),
        Some((Token::Key(Key::Holds), rest)) => Ok((AtomHead::Holds, rest)),
        _ => Err(Unread::NotGrammar),
    }
}

// Which row begins.
pub(crate) fn row_head(tokens: &[Token]) -> Result<(RowHead, &[Token]), Unread>
    ensures { Gives (λ p. (p.0, p.1.now)) result (step.row_head tokens.now) }
{
    match tokens.split_first() {
        Some((Token::Key(Key::Of), rest)) => Ok((RowHead::Of, rest)),
        Some((Token::Key(Key::Back), rest)) => Ok((RowHead::Back, rest)),
        Some((Token::Key(Key::Num), rest)) => Ok((RowHead::Num, rest)),
        Some((Token::Key(Key::Off), rest)) => Ok((RowHead::Off, rest)),
        Some((Token::Key(Key::OffBack), rest)) => Ok((RowHead::OffBack, rest)),
        _ => Err(Unread::NotGrammar),
    }
}

// Which reason begins.
pub(crate) fn reason_head(tokens: &[Token]) -> Result<(ReasonHead, &[Token]), Unread>
    ensures { Gives (λ p. (p.0, p.1.now)) result (step.reason_head tokens.now) }
{
    match tokens.split_first() {
        Some((Token::Key(Key::Given), rest)) => Ok((ReasonHead::Given, rest)),
        Some((Token::Key(Key::Known), rest)) => Ok((ReasonHead::Known, rest)),
        Some((Token::Key(Key::Refl), rest)) => Ok((ReasonHead::Refl, rest)),
        Some((Token::Key(Key::Flip), rest)) => Ok((ReasonHead::Flip, rest)),
        Some((Token::Key(Key::Chain), rest)) => Ok((ReasonHead::Chain, rest)),
        Some((Token::Key(Key::Alike), rest)) => Ok((ReasonHead::Alike, rest)),
        Some((Token::Key(Key::Carry), rest)) => Ok((ReasonHead::Carry, rest)),
        Some((Token::Key(Key::Law), rest)) => Ok((ReasonHead::Law, rest)),
        Some((Token::Key(Key::Meet), rest)) => Ok((ReasonHead::Meet, rest)),
        Some((Token::Key(Key::Sum), rest)) => Ok((ReasonHead::Sum, rest)),
        _ => Err(Unread::NotGrammar),
    }
}

// Which part of a refutation begins.
pub(crate) fn part_head(tokens: &[Token]) -> Result<(PartHead, &[Token]), Unread>
    ensures { Gives (λ p. (p.0, p.1.now)) result (step.part_head tokens.now) }
{
    match tokens.split_first() {
        Some((Token::Key(Key::Split), rest)) => Ok((PartHead::Split, rest)),
        Some((Token::Key(Key::Leaf), rest)) => Ok((PartHead::Leaf, rest)),
        _ => Err(Unread::NotGrammar),
    }
}

// The tokens behind the word that begins a step.
pub(crate) fn step_head(tokens: &[Token]) -> Result<&[Token], Unread>
    ensures { Gives (λ p. p.now) result (step.step_head tokens.now) }
{
    match tokens.split_first() {
        Some((Token::Key(Key::Step), rest)) => Ok(rest),
        _ => Err(Unread::NotGrammar),
    }
}
