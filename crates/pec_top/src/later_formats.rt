//! Whether a certificate is of a format that is not built yet, by its first line. `specs/LaterFormats.antt` says which these are.

ghost use Rattle.std.specs.Prelude.{◌≡◌, bytes_eq};
ghost use Rattle.pec_text.specs.Line.{words};
ghost use Rattle.pec_top.specs.LaterFormats.{is_later, is_later_format, is_later_method};

use pec_text::{first_kept, first_word};

/// Whether the first line that counts is `format 2 simulate` or `format 1 permute`.
pub fn is_later_format(body: &[u8]) -> bool
    ensures { result ≡ is_later_format body.now }
{
    match first_kept(body) {
        Some((line, _)) => is_later(line),
        None => false,
    }
}

// Whether a line has these words.
fn is_later(line: &[u8]) -> bool
    ensures { result ≡ is_later (words line.now) }
{
    let Some((first, rest)) = first_word(line) else {
        return false;
    };
    let Some((second, rest)) = first_word(rest) else {
        return false;
    };
    let Some((third, rest)) = first_word(rest) else {
        return false;
    };
    first_word(rest).is_none() && is_word(first, b"format") && is_later_method(second, third)
}

// Whether these are the number and the method of a later format.
fn is_later_method(number: &[u8], method: &[u8]) -> bool
    ensures { result ≡ is_later_method number.now method.now }
{
    (is_word(number, b"2") && is_word(method, b"simulate"))
        || (is_word(number, b"1") && is_word(method, b"permute"))
}

fn is_word(word: &[u8], wanted: &[u8]) -> bool
    ensures { result ≡ bytes_eq word.now wanted.now }
{
    word == wanted
}
