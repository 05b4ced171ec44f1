//! The front of tokens: what stands behind a sign or a reserved word that is expected there.

ghost use Rattle.std.specs.Prelude.{◌≡◌, ◌∷◌, List, MatchOption};
ghost use Rattle.pec_text.specs.declared.token.Token.{Token};
ghost use Rattle.pec_text.specs.declared.token.Token.TheVariants as t;

use pec_text::{Sign, Token, Word};

/// The tokens behind this sign, where it stands in front.
pub fn behind_sign(sign: Sign, tokens: &[Token]) -> Option<&[Token]>
    ensures { MatchOption result ((rest : List Token) → ¬ (tokens.now ≡ t.Sign sign ∷ rest)) (λ rest. tokens.now ≡ t.Sign sign ∷ rest.now) }
{
    match tokens.split_first() {
        Some((Token::Sign(first), rest)) if *first == sign => Some(rest),
        _ => None,
    }
}

/// The tokens behind this reserved word, where it stands in front.
pub fn behind_word(word: Word, tokens: &[Token]) -> Option<&[Token]>
    ensures { MatchOption result ((rest : List Token) → ¬ (tokens.now ≡ t.Word word ∷ rest)) (λ rest. tokens.now ≡ t.Word word ∷ rest.now) }
{
    match tokens.split_first() {
        Some((Token::Word(first), rest)) if *first == word => Some(rest),
        _ => None,
    }
}
