//! Texts as tokens, and tokens as texts. `specs/Words.antt` says which tokens a text has, and what canonical text is.

ghost use Rattle.std.specs.Prelude.{◌≡◌, ◌++◌, IfOk, OnOk};
ghost use Rattle.word_text.specs.Words.{AreTokens, is_end, text_of};
ghost use Rattle.word_text.specs.Lines.{LineRead};

use crate::token::Token;
use crate::word::{put_token, token_of};
use pec_text::{NoMemory, first_kept, first_word};
use sqlite_items::Items;
use std::alloc::Global;

fn is_end(token: Token) -> bool
    ensures { result ≡ is_end token }
{
    match token {
        Token::End => true,
        _ => false,
    }
}

// Puts the tokens of a line behind the others, and the end of the line; stops at a word that is none.
fn put_line(line: &[u8], found: &mut Items<Token>) -> Result<bool, NoMemory>
    ensures { IfOk result (LineRead line.now found.old found.new) }
{
    let mut rest = line;
    while let Some((word, more)) = first_word(rest) {
        let Some(token) = token_of(word) else {
            return Ok(false);
        };
        found.push(token)?;
        rest = more;
    }
    found.push(Token::End)?;
    Ok(true)
}

/// The tokens of a text, whose lines end with a line feed or with the text; blank lines and comments are left out. `None`
/// where some word is no token.
pub fn tokens(alloc: Global, text: &[u8]) -> Result<Option<Items<Token>>, NoMemory>
    ensures { IfOk result (AreTokens text.now) }
{
    let mut found = Items::new(alloc);
    let mut rest = text;
    while let Some((line, more)) = first_kept(rest) {
        if !put_line(line, &mut found)? {
            return Ok(None);
        }
        rest = more;
    }
    Ok(Some(found))
}

/// Puts the text of these tokens behind the others: one space between the words of a line, a line feed behind each line.
#[tactic(auto, unfolding(crate::specs::Words::text_behind))]
pub fn put_text(mut tokens: &[Token], out: &mut Vec<u8>) -> Result<(), NoMemory>
    ensures { OnOk result (out.new.items ≡ out.old.items ++ text_of tokens.entry.now) }
{
    let mut before = false;
    while let [token, rest @ ..] = tokens {
        put_token(before, *token, out)?;
        before = !is_end(*token);
        tokens = rest;
    }
    Ok(())
}
