//! The public calls of word_text, each once, where memory suffices.

use pec_text::NoMemory;
use std::alloc::Global;
use std::test::Fail;
use word_text::laws::{one_reading, text_reads_back};
use word_text::{Token, put_text, token_of, tokens};

// The canonical text of the words of a text; none where some word is no token.
fn printed(alloc: Global, text: &[u8]) -> Result<Option<Vec<u8>>, NoMemory> {
    let Some(found) = tokens(alloc, text)? else {
        return Ok(None);
    };
    let mut out = Vec::new(alloc);
    put_text(found.as_slice(), &mut out)?;
    Ok(Some(out))
}

fn prints_as(alloc: Global, text: &[u8], canonical: &[u8]) -> Option<bool> {
    let out = printed(alloc, text).ok()??;
    Some(out.as_slice() == canonical)
}

#[test]
fn words_are_read_and_printed(rt: HostRuntime) -> Result<(), Fail> {
    let spaced = b"  split +\tstore L R\n# x\n\nleaf 2\nconj #0 -7".as_slice();
    let canonical = b"split + store L R\nleaf 2\nconj #0 -7\n".as_slice();
    assert_eq!(rt; prints_as(rt.alloc(), spaced, canonical), Some(true));
    assert_eq!(rt; prints_as(rt.alloc(), b"num 007", b""), None);
    assert_eq!(rt; prints_as(rt.alloc(), b"num -0", b""), None);
    assert_eq!(rt; prints_as(rt.alloc(), b"leave 2", b""), None);
    assert!(rt; matches!(token_of(b"#12"), Some(Token::Par(12))));
    text_reads_back();
    one_reading();
    Ok(())
}
