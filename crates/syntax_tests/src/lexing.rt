use pddl_lex::{LexError, Token, TokenKind, brackets, tokens};
use std::alloc::Global;
use std::test::Fail;
use up_text::Place;

fn at(line: u32, column: u32) -> Place {
    Place { line, column }
}

// The two parts of a number.
fn parts(token: &Token) -> Option<(i64, i64)> {
    match &token.kind {
        TokenKind::Number(number) => Some((number.numerator(), number.denominator())),
        _ => None,
    }
}

// The last number of a text.
fn last_number(alloc: Global, text: &[u8]) -> Option<(i64, i64)> {
    match tokens(alloc, text) {
        Ok(tokens) => match tokens.as_slice() {
            [.., last] => parts(last),
            [] => None,
        },
        Err(_) => None,
    }
}

fn is_word(token: &Token, want: &[u8], place: Place) -> bool {
    match &token.kind {
        TokenKind::Word(word) => word.as_slice() == want && token.place == place,
        _ => false,
    }
}

fn is_last_word(alloc: Global, text: &[u8], want: &[u8], place: Place) -> bool {
    match tokens(alloc, text) {
        Ok(tokens) => match tokens.as_slice() {
            [.., last] => is_word(last, want, place),
            [] => false,
        },
        Err(_) => false,
    }
}

#[test]
fn numbers(rt: HostRuntime) {
    let alloc = rt.alloc();
    for (text, numerator, denominator) in [
        ("123456789012345678", 123456789012345678, 1),
        ("1.123456789", 1123456789, 1000000000),
        ("-123456789.123456789", -123456789123456789, 1000000000),
        ("-3", -3, 1),
        ("- 3", 3, 1),
        ("0.50", 1, 2),
        ("x -0.0", 0, 1),
        ("; 1\n007", 7, 1),
    ] {
        let number = last_number(alloc, text.as_bytes());
        assert_eq!(rt; number, Some((numerator, denominator)), "{text}");
    }
}

#[test]
fn words(rt: HostRuntime) {
    let alloc = rt.alloc();
    for (text, want, place) in [
        (b"-x".as_slice(), "x", at(1, 2)),
        (b"a\r\nB", "b", at(2, 1)),
        (b"; (\xff\r 1x\n\tOn-Top_1 ", "on-top_1", at(2, 2)),
        (b"<=a", "a", at(1, 3)),
    ] {
        assert!(rt; is_last_word(alloc, text, want.as_bytes(), place), "{want}");
    }
}

#[test]
fn refusals(rt: HostRuntime) {
    let alloc = rt.alloc();
    let number = LexError::BadNumber { place: at(1, 1) };
    for (text, want) in [
        (b"1234567890123456789".as_slice(), number),
        (b"1.1234567890", number),
        (b"-1234567890.123456789", number),
        (b"3-", number),
        (b"3.", number),
        (b"3.x", number),
        (b"3_ \xff", number),
        (b"a \xff", LexError::BadByte { place: at(1, 3) }),
        (b"(a\r\n)\t?1", LexError::BadByte { place: at(2, 3) }),
        (b"a)\xff", LexError::Unopened { place: at(1, 2) }),
        (b"(a\n (b (c)", LexError::Unclosed { place: at(2, 2) }),
    ] {
        assert_eq!(rt; brackets(alloc, text).err(), Some(want));
    }
}

#[test]
fn depths(rt: HostRuntime) -> Result<(), Fail> {
    let alloc = rt.alloc();
    for (count, want) in [
        (200, LexError::Unclosed { place: at(1, 200) }),
        (201, LexError::TooDeep { place: at(1, 201) }),
    ] {
        let text = vec![in alloc; b'('; count]?;
        assert_eq!(rt; brackets(alloc, &text).err(), Some(want));
    }
    Ok(())
}
