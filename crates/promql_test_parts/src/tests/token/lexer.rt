//! Texts with their tokens and lexical faults, from docs/reference/tokens.md.

use crate::tests::{holds, is_so, prints};
use promql_token::ids::*;
use promql_token::scan::Lexer;
use promql_token::{LexError, LexFault, LexFaultKind, Lexeme, lexer};
use std::alloc::{AllocError, Global};
use std::process::Abort;

// A text and its tokens, T_EOF left out.
const TEXTS: [(&str, &[(TokenId, usize, usize)]); 24] = [
    ("", &[]),
    ("\r\n", &[]),
    ("# only a note", &[]),
    (
        "fill (1)",
        &[
            (T_FILL, 0, 4),
            (T_LEFT_PAREN, 5, 1),
            (T_NUMBER, 6, 1),
            (T_RIGHT_PAREN, 7, 1),
        ],
    ),
    ("fill 1", &[(T_IDENTIFIER, 0, 4), (T_NUMBER, 5, 1)]),
    (
        "{or or}",
        &[
            (T_LEFT_BRACE, 0, 1),
            (T_LOR, 1, 2),
            (T_IDENTIFIER, 4, 2),
            (T_RIGHT_BRACE, 6, 1),
        ],
    ),
    (
        "{OR\tor,orx or }",
        &[
            (T_LEFT_BRACE, 0, 1),
            (T_IDENTIFIER, 1, 2),
            (T_IDENTIFIER, 4, 2),
            (T_COMMA, 6, 1),
            (T_IDENTIFIER, 7, 3),
            (T_LOR, 11, 2),
            (T_RIGHT_BRACE, 14, 1),
        ],
    ),
    ("5m30s", &[(T_DURATION, 0, 5)]),
    ("1y2w3d4h5m6s7ms", &[(T_DURATION, 0, 15)]),
    ("1e", &[(T_NUMBER, 0, 2)]),
    (
        ".5 1. 0x 0X1F.8 1.5e-3 007",
        &[
            (T_NUMBER, 0, 2),
            (T_NUMBER, 3, 2),
            (T_NUMBER, 6, 2),
            (T_NUMBER, 9, 6),
            (T_NUMBER, 16, 6),
            (T_NUMBER, 23, 3),
        ],
    ),
    (
        "0x1e+5",
        &[(T_NUMBER, 0, 4), (T_ADD, 4, 1), (T_NUMBER, 5, 1)],
    ),
    ("Inf NaN", &[(T_NUMBER, 0, 3), (T_NUMBER, 4, 3)]),
    ("`\\q`", &[(T_STRING, 0, 4)]),
    ("'\\'' \"'\"", &[(T_STRING, 0, 4), (T_STRING, 5, 3)]),
    ("a # b\nc", &[(T_IDENTIFIER, 0, 1), (T_IDENTIFIER, 6, 1)]),
    ("a # b\rc", &[(T_IDENTIFIER, 0, 1), (T_IDENTIFIER, 6, 1)]),
    (
        "a:b :c sum _x step",
        &[
            (T_METRIC_IDENTIFIER, 0, 3),
            (T_METRIC_IDENTIFIER, 4, 2),
            (T_SUM, 7, 3),
            (T_IDENTIFIER, 11, 2),
            (T_IDENTIFIER, 14, 4),
        ],
    ),
    (
        "foo[ :5m]",
        &[
            (T_IDENTIFIER, 0, 3),
            (T_LEFT_BRACKET, 3, 1),
            (T_COLON, 5, 1),
            (T_DURATION, 6, 2),
            (T_RIGHT_BRACKET, 8, 1),
        ],
    ),
    (
        "[5m:1m][5:]",
        &[
            (T_LEFT_BRACKET, 0, 1),
            (T_DURATION, 1, 2),
            (T_COLON, 3, 1),
            (T_DURATION, 4, 2),
            (T_RIGHT_BRACKET, 6, 1),
            (T_LEFT_BRACKET, 7, 1),
            (T_NUMBER, 8, 1),
            (T_COLON, 9, 1),
            (T_RIGHT_BRACKET, 10, 1),
        ],
    ),
    (
        "@,*/%+-^()",
        &[
            (T_AT, 0, 1),
            (T_COMMA, 1, 1),
            (T_MUL, 2, 1),
            (T_DIV, 3, 1),
            (T_MOD, 4, 1),
            (T_ADD, 5, 1),
            (T_SUB, 6, 1),
            (T_POW, 7, 1),
            (T_LEFT_PAREN, 8, 1),
            (T_RIGHT_PAREN, 9, 1),
        ],
    ),
    (
        "= == != < <= > >=",
        &[
            (T_EQL, 0, 1),
            (T_EQLC, 2, 2),
            (T_NEQ, 5, 2),
            (T_LSS, 8, 1),
            (T_LTE, 10, 2),
            (T_GTR, 13, 1),
            (T_GTE, 15, 2),
        ],
    ),
    (
        "{a=b!=c=~d!~e,#\n}",
        &[
            (T_LEFT_BRACE, 0, 1),
            (T_IDENTIFIER, 1, 1),
            (T_EQL, 2, 1),
            (T_IDENTIFIER, 3, 1),
            (T_NEQ, 4, 2),
            (T_IDENTIFIER, 6, 1),
            (T_EQL_REGEX, 7, 2),
            (T_IDENTIFIER, 9, 1),
            (T_NEQ_REGEX, 10, 2),
            (T_IDENTIFIER, 12, 1),
            (T_COMMA, 13, 1),
            (T_RIGHT_BRACE, 16, 1),
        ],
    ),
    (
        "\"\\a\\b\\f\\n\\r\\t\\v\\\\\\0\\7\\x\\u\\U\"",
        &[(T_STRING, 0, 28)],
    ),
];

// A text, its fault and the message of the fault.
const FAULTS: [(&str, LexFaultKind, usize, Option<char>, &str); 30] = [
    (
        "(a",
        LexFaultKind::UnclosedParen,
        2,
        None,
        "unclosed left parenthesis",
    ),
    (
        "a =~ b",
        LexFaultKind::AfterEqual,
        3,
        None,
        "unexpected character after '=': '~'",
    ),
    (
        "a !é",
        LexFaultKind::AfterBang,
        3,
        Some('é'),
        "unexpected character after '!': 'é'",
    ),
    (
        "a !",
        LexFaultKind::BangAtEnd,
        3,
        None,
        "'!' can not be at the end",
    ),
    (
        "{!",
        LexFaultKind::BangAtEnd,
        2,
        None,
        "'!' can not be at the end",
    ),
    (
        "a .b",
        LexFaultKind::AfterDot,
        3,
        Some('b'),
        "unexpected character after '.': 'b'",
    ),
    (
        "a .",
        LexFaultKind::DotAtEnd,
        2,
        None,
        "unexpected character: '.'",
    ),
    (
        "())",
        LexFaultKind::RightParen,
        2,
        None,
        "unexpected right parenthesis ')'",
    ),
    (
        "a}",
        LexFaultKind::RightBrace,
        1,
        None,
        "unexpected right brace '}'",
    ),
    (
        "a]",
        LexFaultKind::RightBracket,
        1,
        None,
        "unexpected right bracket ']'",
    ),
    (
        "a{b=\"é\"} ~",
        LexFaultKind::Character,
        10,
        Some('~'),
        "unexpected character: '~'",
    ),
    (
        "1x2",
        LexFaultKind::Numeral,
        0,
        None,
        "bad number or duration syntax",
    ),
    (
        "a + 5m6",
        LexFaultKind::Numeral,
        4,
        None,
        "bad number or duration syntax",
    ),
    (
        "1mss",
        LexFaultKind::Numeral,
        0,
        None,
        "bad number or duration syntax",
    ),
    (
        "1.2.3",
        LexFaultKind::Numeral,
        0,
        None,
        "bad number or duration syntax",
    ),
    (
        "5m3y",
        LexFaultKind::Numeral,
        0,
        None,
        "bad number or duration syntax",
    ),
    (
        "\"\\q\"",
        LexFaultKind::Escape,
        2,
        Some('q'),
        "unknown escape sequence 'q'",
    ),
    (
        "\"\\é\"",
        LexFaultKind::Escape,
        2,
        Some('é'),
        "unknown escape sequence 'é'",
    ),
    (
        "'\\\"'",
        LexFaultKind::Escape,
        2,
        Some('\"'),
        "unknown escape sequence '\"'",
    ),
    (
        "\"a\\",
        LexFaultKind::EscapeAtEnd,
        3,
        None,
        "escape sequence not terminated",
    ),
    (
        "a 'b",
        LexFaultKind::OpenString,
        2,
        Some('\''),
        "unterminated quoted string '",
    ),
    (
        "{a!b",
        LexFaultKind::AfterBangInBraces,
        3,
        Some('b'),
        "unexpected character after '!' inside braces: 'b'",
    ),
    (
        "{{",
        LexFaultKind::BraceInBraces,
        1,
        None,
        "unexpected left brace '{' inside braces",
    ),
    (
        "{a:",
        LexFaultKind::InBraces,
        2,
        Some(':'),
        "unexpected character inside braces: ':'",
    ),
    (
        "a b {",
        LexFaultKind::EndInBraces,
        5,
        None,
        "unexpected end of input inside braces",
    ),
    (
        "a[5m:1m:",
        LexFaultKind::SecondColon,
        7,
        None,
        "unexpected second colon(:) in brackets",
    ),
    (
        "foo[:5m]",
        LexFaultKind::FirstColon,
        4,
        None,
        "expect duration before first colon(:) in brackets",
    ),
    (
        "a[[",
        LexFaultKind::BracketInBrackets,
        2,
        None,
        "unexpected left brace '[' inside brackets",
    ),
    (
        "a[ #",
        LexFaultKind::InBrackets,
        3,
        Some('#'),
        "unexpected character inside brackets: '#'",
    ),
    (
        "a[5m",
        LexFaultKind::EndInBrackets,
        4,
        None,
        "unexpected end of input inside brackets",
    ),
];

fn last_item(text: &str) -> Option<Result<Lexeme, LexFault>> {
    let mut last = None;
    for item in Lexer::new(text) {
        last = Some(item);
    }
    last
}

#[test]
fn a_lexer_ends_with_its_fault(rt: HostRuntime) {
    let mut lexer = Lexer::new("a ~ b");
    holds(&rt, matches!(lexer.next(), Some(Ok(_))), "a");
    holds(&rt, matches!(lexer.next(), Some(Err(_))), "~");
    holds(&rt, lexer.next().is_none(), "after the fault");
    holds(&rt, lexer.next().is_none(), "again");
}

fn has_tokens(alloc: Global, text: &str, wanted: &[(TokenId, usize, usize)]) -> bool {
    let Ok(found) = lexer(alloc, text) else {
        return false;
    };
    let end = Lexeme {
        id: T_EOF,
        start: text.len(),
        len: 0,
    };
    last_item(text) == Some(Ok(end))
        && found.last() == Some(&end)
        && found.len().checked_sub(1) == Some(wanted.len())
        && found
            .iter()
            .zip(wanted)
            .all(|(x, w)| x.id == w.0 && x.start == w.1 && x.len == w.2)
}

#[test]
fn texts_have_their_tokens(rt: HostRuntime) {
    for (text, wanted) in &TEXTS {
        holds(&rt, has_tokens(rt.alloc(), text, wanted), text);
    }
}

/// Whether a text of so many words has so many tokens.
fn has_words(alloc: Global, words: usize) -> Result<bool, AllocError> {
    let text = "ab ".repeat(alloc, words)?;
    match lexer(alloc, text.as_str()) {
        Ok(found) => Ok(found.len().checked_sub(1) == Some(words)),
        Err(_) => Ok(false),
    }
}

#[test]
fn texts_of_all_sizes_have_their_tokens(rt: HostRuntime) {
    for words in &[0, 1, 2, 17, 101, 300, 1_001, 4_097, 65_537] {
        is_so(&rt, has_words(rt.alloc(), *words), "words");
    }
}

// Texts without a fault, to come before one that has one.
const BEFORE: [&str; 3] = ["", "'é' ", "`😀`\n"];

/// The fault of a text that has one.
fn fault(alloc: Global, text: &str) -> Option<LexFault> {
    match lexer(alloc, text) {
        Err(LexError::Fault(fault)) => Some(fault),
        _ => None,
    }
}

/// Whether the two texts together have this fault.
fn has_fault(alloc: Global, before: &str, text: &str, want: LexFault) -> Result<bool, AllocError> {
    let text = format!(in alloc; "{before}{text}")?;
    Ok(fault(alloc, text.as_str()) == Some(want))
}

/// The text has this fault, also after others, and the fault has this message.
fn check_fault(rt: &impl Abort, alloc: Global, text: &str, fault: LexFault, message: &str) {
    prints(rt, fault.to_string(alloc), message);
    for before in &BEFORE {
        let at = fault.at.wrapping_add(before.len());
        let want = LexFault { at, ..fault };
        is_so(rt, has_fault(alloc, before, text, want), text);
    }
}

#[test]
fn faults_have_their_places_and_messages(rt: HostRuntime) {
    for (text, kind, at, ch, message) in &FAULTS {
        let (kind, at, ch) = (*kind, *at, *ch);
        let fault = LexFault { kind, at, ch };
        check_fault(&rt, rt.alloc(), text, fault, message);
    }
}

#[test]
fn lexemes_compare(rt: HostRuntime) {
    let lexeme = Lexeme {
        id: T_STRING,
        start: 1,
        len: 2,
    };
    holds(&rt, lexeme == Lexeme { ..lexeme }, "a copy");
    let others = [
        Lexeme {
            id: T_NUMBER,
            ..lexeme
        },
        Lexeme { start: 2, ..lexeme },
        Lexeme { len: 1, ..lexeme },
    ];
    for other in &others {
        holds(&rt, lexeme != *other, "another");
    }
}

#[test]
fn faults_compare(rt: HostRuntime) {
    let fault = LexFault {
        kind: LexFaultKind::Character,
        at: 3,
        ch: Some('~'),
    };
    holds(&rt, fault == LexFault { ..fault }, "a copy");
    let others = [
        LexFault {
            kind: LexFaultKind::InBraces,
            ..fault
        },
        LexFault { at: 4, ..fault },
        LexFault {
            ch: Some('é'),
            ..fault
        },
        LexFault { ch: None, ..fault },
    ];
    for other in &others {
        holds(&rt, fault != *other, "another");
    }
    holds(
        &rt,
        LexError::Fault(fault) == LexError::Fault(fault),
        "a fault",
    );
    holds(&rt, LexError::Fault(fault) != LexError::Memory, "memory");
}

#[test]
fn errors_of_the_lexer_print(rt: HostRuntime) {
    let fault = LexFault {
        kind: LexFaultKind::Character,
        at: 3,
        ch: Some('~'),
    };
    prints(&rt, LexError::Memory.to_string(rt.alloc()), "out of memory");
    prints(
        &rt,
        LexError::Fault(fault).to_string(rt.alloc()),
        "unexpected character: '~'",
    );
}
