//! Classes of bytes that lines and words are cut by.
//! Each answers the test of its name in `specs/Byte.antt`.
ghost use Rattle.std.specs.Prelude.{◌≡◌};
ghost use Rattle.pec_text.specs.Byte.{is_blank, is_id_byte};

/// Whether a byte is a space or a tab, which part words.
pub fn is_blank(b: u8) -> bool
    ensures { result ≡ is_blank b }
{
    b == b' ' || b == b'\t'
}

/// Whether a byte may stand in an ID after its first: a letter, a digit or `_`.
pub fn is_id_byte(b: u8) -> bool
    ensures { result ≡ is_id_byte b }
{
    b.is_ascii_alphanumeric() || b == b'_'
}
