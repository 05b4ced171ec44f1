//! The public calls of pec_text, each once, where memory suffices.

use pec_text::{
    LONGEST_ID, LexRefusal, Numeral, SectionKind, Sign, TextRefusal, Token, Word,
    every_text_has_one_list, is_id, one_reading, sections, takes_longest, tokens,
};
use std::test::Fail;

#[test]
fn a_text_is_cut_into_sections(rt: HostRuntime) -> Result<(), Fail> {
    let text = sections(
        rt.alloc(),
        b"rule a\nskip;\nend\n# \xff\nchain b\nx\nend\nx",
    )?;
    assert_eq!(rt; text.whole.len(), 2);
    assert_eq!(rt; text.rest, Some(TextRefusal::Stray(3)));
    let wanted: [(SectionKind, &[u8], &[u8]); 2] = [
        (SectionKind::Rule, b"a", b"skip;\n"),
        (SectionKind::Chain, b"b", b"x\n"),
    ];
    for (section, (kind, title, body)) in text.whole.as_slice().iter().zip(wanted) {
        assert_eq!(rt; section.kind, kind);
        assert_eq!(rt; section.title.as_slice(), title);
        assert_eq!(rt; section.body.as_slice(), body);
    }
    every_text_has_one_list();
    let longest = [b'a'; LONGEST_ID];
    assert!(rt; is_id(&longest));
    Ok(())
}

#[test]
fn a_text_is_cut_into_tokens(rt: HostRuntime) -> Result<(), Fail> {
    match tokens(rt.alloc(), b"assert x<=1;") {
        Ok(found) => assert!(rt;
            matches!(
                found.as_slice(),
                [
                    Token::Word(Word::Assert),
                    Token::Name(_),
                    Token::Sign(Sign::LessEq),
                    Token::Number(Numeral::Value(1)),
                    Token::Sign(Sign::Semicolon),
                ]
            )
        ),
        Err(refusal) => assert!(rt; false, "{refusal:?}"),
    }
    match tokens(rt.alloc(), b"assert x > 1;") {
        Ok(found) => assert!(rt; false, "{found:?}"),
        Err(refusal) => assert_eq!(rt; refusal, LexRefusal::NotTokens),
    }
    one_reading();
    takes_longest();
    Ok(())
}
