//! IDs, the form of titles and names: a letter and then letters, digits and `_`, at most 32 bytes.
//! `is_id` answers the test of that name in `specs/Id.antt`.
ghost use Rattle.std.specs.Prelude.{◌≡◌};
ghost use Rattle.pec_text.specs.Id.{is_id};

use crate::byte::is_id_byte;

/// The greatest number of bytes of an ID.
pub const LONGEST_ID: usize = 32;

/// Whether a word is an ID. Reserved words of the grammar are IDs too. Takes no memory.
pub fn is_id(word: &[u8]) -> bool
    ensures { result ≡ is_id word.now }
{
    match word.split_first() {
        Some((first, more)) => {
            first.is_ascii_alphabetic()
                && more.iter().all(|b| is_id_byte(*b))
                && word.len() <= LONGEST_ID
        }
        None => false,
    }
}
