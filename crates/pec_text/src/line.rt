//! The lines of a text and the words of a line, one at a time from the front. Nothing here takes memory.
//! Lines, those that count, and words are those of `specs/Line.antt`.
ghost use Rattle.std.specs.Prelude.{◌≡◌, ◌≢◌, ℕ, ◌<◌, List, [], ◌∷◌, length, IfSome, IfNone};
ghost use Rattle.pec_text.specs.Line.{lines, is_kept, kept_lines, words};

use crate::byte::is_blank;

/// The first line, without its line feed, and the bytes after it.
fn first_line(bytes: &[u8]) -> (&[u8], &[u8])
    requires { 0 < length bytes.now }
    ensures line { lines bytes.now ≡ result.0.now ∷ lines result.1.now }
    ensures shorter { length result.1.now < length bytes.now }
{
    match bytes.iter().position(|b| *b == b'\n') {
        Some(end) => (&bytes[..end], &bytes[end + 1..]),
        None => (bytes, &bytes[bytes.len()..]),
    }
}

/// Whether a line is neither blank nor a comment.
fn is_kept(line: &[u8]) -> bool
    ensures { result ≡ is_kept line.now }
{
    match line.iter().find(|b| !is_blank(**b)) {
        Some(first) => *first != b'#',
        None => false,
    }
}

/// The first kept line, without its line feed, and the bytes after it.
pub fn first_kept(bytes: &[u8]) -> Option<(&[u8], &[u8])>
    ensures found { IfSome result (λ p. kept_lines bytes.now ≡ p.0.now ∷ kept_lines p.1.now) }
    ensures shorter { IfSome result (λ p. length p.1.now < length bytes.now) }
    ensures none { IfNone result (kept_lines bytes.now ≡ []) }
{
    let mut rest = bytes;
    while !rest.is_empty() {
        let (line, after) = first_line(rest);
        if is_kept(line) {
            return Some((line, after));
        }
        rest = after;
    }
    None
}

/// The first word of a line, and the bytes after it.
pub fn first_word(line: &[u8]) -> Option<(&[u8], &[u8])>
    ensures found { IfSome result (λ p. words line.now ≡ p.0.now ∷ words p.1.now) }
    ensures shorter { IfSome result (λ p. length p.1.now < length line.now) }
    ensures none { IfNone result (words line.now ≡ []) }
{
    let start = line.iter().position(|b| !is_blank(*b))?;
    let line = &line[start..];
    let end = line.iter().position(|b| is_blank(*b)).unwrap_or(line.len());
    Some(line.split_at(end))
}

/// The word of a line that has one word; `None` for another line.
pub fn only_word(line: &[u8]) -> Option<&[u8]>
    ensures found { IfSome result (λ word. words line.now ≡ word.now ∷ []) }
    ensures none { IfNone result ((word : List ℕ) → words line.now ≢ word ∷ []) }
{
    let (word, rest) = first_word(line)?;
    match first_word(rest) {
        Some(_) => None,
        None => Some(word),
    }
}
