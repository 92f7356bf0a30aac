//! The words of a text with comments, tabs and carriage returns.

use crate::{Kind, TextEnd, Token, Words};
use mc_model::Memory;
use std::process::Abort;

const LENIENT: &[u8] = b"circuit 1\r\n# note\n\tin  a\nj a -1\nout a\nend";

fn expect_word(rt: &impl Abort, words: &mut Words<'_>, bytes: &[u8], line: u32, column: u32) {
    match words.next() {
        Token::Word(word) => {
            assert!(rt; word.bytes == bytes);
            assert_eq!(rt; (word.line, word.column), (line, column));
        }
        _ => panic!(rt; "no word at {line}:{column}"),
    }
}

fn expect_end(rt: &impl Abort, words: &mut Words<'_>, place: (u32, u32)) {
    match words.next() {
        Token::End { line, column } => assert_eq!(rt; (line, column), place),
        _ => panic!(rt; "more tokens"),
    }
}

#[test]
fn lenient_words(rt: HostRuntime) {
    let mut words = Words::new(LENIENT);
    expect_end(&rt, &mut words, (6, 4));
    assert!(rt; words.next_line());
    expect_word(&rt, &mut words, b"circuit", 1, 1);
    expect_word(&rt, &mut words, b"1", 1, 9);
    expect_end(&rt, &mut words, (1, 10));
    assert!(rt; words.next_line());
    expect_word(&rt, &mut words, b"in", 3, 2);
    expect_word(&rt, &mut words, b"a", 3, 6);
    assert!(rt; words.next_line());
    expect_word(&rt, &mut words, b"j", 4, 1);
    expect_word(&rt, &mut words, b"a", 4, 3);
    expect_word(&rt, &mut words, b"-1", 4, 5);
    expect_end(&rt, &mut words, (4, 7));
    expect_end(&rt, &mut words, (4, 7));
    assert!(rt; words.next_line());
    assert!(rt; words.next_line());
    expect_word(&rt, &mut words, b"end", 6, 1);
    assert!(rt; !words.next_line());
    expect_end(&rt, &mut words, (6, 4));
    assert_eq!(rt; words.end_place(), (6, 4));
}

#[test]
fn byte_not_allowed(rt: HostRuntime) {
    let mut words = Words::new(b"a\x00b");
    assert!(rt; words.next_line());
    expect_word(&rt, &mut words, b"a", 1, 1);
    match words.next() {
        Token::Bad { line, column } => assert_eq!(rt; (line, column), (1, 2)),
        _ => panic!(rt; "a byte that is taken"),
    }
    expect_word(&rt, &mut words, b"b", 1, 3);
}

#[test]
fn kinds_and_ends(rt: HostRuntime) -> Result<(), std::test::Fail> {
    assert_eq!(rt; Kind::read(b"nocausal"), Some(Kind::NoCausal));
    assert_eq!(rt; Kind::read(b"circuits"), None);
    assert!(rt; Kind::Gates.word() == b"gates".as_slice());
    let end = TextEnd::from(Memory);
    let refused = TextEnd::Refused {
        code: 7,
        line: 4,
        column: 2,
    };
    assert_eq!(rt;
        format!(in rt.alloc(); "{end}, {refused}")?.as_str(),
        "no memory, refused 7 at 4:2"
    );
    Ok(())
}
