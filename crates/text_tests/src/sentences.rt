//! The tokens of a text.
use sentence_text::{Token, tokens};
use std::process::Abort;

/// The tokens, with their first bytes and the bytes behind them.
const TOKENS: [(&str, u32, u32); 8] = [
    ("hiv", 1, 4),
    ("(", 4, 5),
    ("ann", 5, 8),
    (")", 8, 9),
    ("<->", 10, 13),
    ("p_1", 14, 17),
    ("(", 17, 18),
    (")", 18, 19),
];

fn check_token(rt: &impl Abort, found: Option<Token<'_>>, expected: &(&str, u32, u32)) {
    let Some(token) = found else {
        panic!(rt; "no token")
    };
    assert_eq!(rt;
        (token.text, token.start, token.end),
        *expected,
        "at {}",
        expected.1
    );
}

#[test]
fn tokens_are_slices_up_to_a_bad_byte(rt: HostRuntime) {
    let mut tokens = tokens(" hiv(ann)\t<-> p_1() ! =");
    for expected in &TOKENS {
        assert_eq!(rt; tokens.place(), expected.1, "before {}", expected.0);
        check_token(&rt, tokens.next(), expected);
    }
    assert!(rt; tokens.next().is_none());
    assert_eq!(rt; tokens.place(), 20, "the byte that begins no token");
}
