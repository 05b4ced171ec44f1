//! Terms that are read from a line of words and printed as it.

use sqlite_items::Items;
use std::alloc::Global;
use std::test::Fail;
use term_text::laws::term_reads_back;
use term_text::{DEEPEST, put_store, put_value, read_store, read_value};
use word_text::{Token, put_text, tokens};

// Whether the text of these tokens, and the end of the line behind them, is this one.
fn is_text(alloc: Global, mut words: Items<Token>, text: &[u8]) -> Option<bool> {
    words.push(Token::End).ok()?;
    let mut out = Vec::new(alloc);
    put_text(words.as_slice(), &mut out).ok()?;
    Some(out.as_slice() == text)
}

// Whether the line is a store term, which is printed as it.
fn store_again(alloc: Global, text: &[u8]) -> Option<bool> {
    let found = tokens(alloc, text).ok()??;
    let (s, _rest) = read_store(alloc, DEEPEST, found.as_slice()).ok()?;
    let mut words = Items::new(alloc);
    put_store(&s, &mut words).ok()?;
    is_text(alloc, words, text)
}

// Whether the line is a value term, which is printed as it.
fn value_again(alloc: Global, text: &[u8]) -> Option<bool> {
    let found = tokens(alloc, text).ok()??;
    let (v, _rest) = read_value(alloc, DEEPEST, found.as_slice()).ok()?;
    let mut words = Items::new(alloc);
    put_value(&v, &mut words).ok()?;
    is_text(alloc, words, text)
}

// Whether a line of so many runs, one in another, and the left store is a store term.
fn is_read(alloc: Global, runs: u32) -> Option<bool> {
    let mut text = Vec::new(alloc);
    for _ in 0..runs {
        text.extend_from_slice(b"run #0 ").ok()?;
    }
    text.extend_from_slice(b"L\n").ok()?;
    let found = tokens(alloc, text.as_slice()).ok()??;
    Some(read_store(alloc, DEEPEST, found.as_slice()).is_ok())
}

#[test]
fn terms_are_read_and_printed(rt: HostRuntime) -> Result<(), Fail> {
    let store = b"put run #2 L #0 2 num 3 ev #1 R sub num -2 get #0 0 R\n".as_slice();
    assert_eq!(rt; store_again(rt.alloc(), store), Some(true));
    let value = b"add mul num 0 num 9223372036854775807 num -9223372036854775808\n".as_slice();
    assert_eq!(rt; value_again(rt.alloc(), value), Some(true));
    assert_eq!(rt; value_again(rt.alloc(), b"num 9223372036854775808\n"), None);
    assert_eq!(rt; value_again(rt.alloc(), b"get #0 5 num 1 L\n"), None);
    term_reads_back();
    Ok(())
}

#[test]
fn terms_nest_4100_deep(rt: HostRuntime) -> Result<(), Fail> {
    assert_eq!(rt; is_read(rt.alloc(), 4099), Some(true));
    assert_eq!(rt; is_read(rt.alloc(), 4100), Some(false));
    Ok(())
}
