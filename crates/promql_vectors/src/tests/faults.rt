//! Errors of texts that are rejected, with their kinds and places. docs/reference/grammar.md and
//! docs/reference/tokens.md have the rules.

use super::{check_value, error_of, holds, is_so, prints, repeated};
use promql_parser::parser::lex::{LexError, LexFault, LexFaultKind};
use promql_parser::parser::{CheckFault, NodeFault, ParseError, lexer};
use promql_text::{DurationFault, NumberFault};
use std::alloc::{AllocError, Global};
use std::process::Abort;

const SYNTAX: &str = "invalid promql query";

const EMPTY: &str = "no expression found in input";

/// Lexical faults with their kind and their place, in bytes.
const PLACES: [(&str, LexFaultKind, usize); 5] = [
    ("(1", LexFaultKind::UnclosedParen, 2),
    ("1a", LexFaultKind::Numeral, 0),
    ("foo[:5m]", LexFaultKind::FirstColon, 4),
    ("a )", LexFaultKind::RightParen, 2),
    ("a b {", LexFaultKind::EndInBraces, 5),
];

/// The text has a lexical fault of this kind at this place.
fn has_fault(rt: &impl Abort, alloc: Global, text: &str, kind: LexFaultKind, at: usize) {
    match error_of(alloc, text) {
        Some(ParseError::Lex(fault)) => {
            holds(rt, fault.kind == kind && fault.at == at, "a fault");
            check_value(rt, lexer(alloc, text), Err(LexError::Fault(fault)), &at);
        }
        _ => holds(rt, false, "no lexical fault"),
    }
}

/// The text was made, and has a lexical fault of this kind at this place.
fn has_long_fault(
    rt: &impl Abort,
    alloc: Global,
    made: Result<String, AllocError>,
    kind: LexFaultKind,
    at: usize,
) {
    match made {
        Ok(text) => has_fault(rt, alloc, text.as_str(), kind, at),
        Err(_) => holds(rt, false, "no text"),
    }
}

#[test]
fn lexical_faults_have_places(rt: HostRuntime) {
    let alloc = rt.alloc();
    for (text, kind, at) in &PLACES {
        has_fault(&rt, alloc, text, *kind, *at);
    }
    let unclosed = repeated(alloc, "", "(", 100_000, "");
    has_long_fault(&rt, alloc, unclosed, LexFaultKind::UnclosedParen, 100_000);
    let bracketed = repeated(alloc, "1", "+1", 599, "]");
    has_long_fault(&rt, alloc, bracketed, LexFaultKind::RightBracket, 1_199);
}

/// Texts that are rejected whether or not there is memory.
const FIRST_TOKENS: [&str; 5] = ["* 1", ") 1 + (", "bool", "on (a) b", ", a"];

#[test]
fn the_first_token_decides_without_memory(rt: HostRuntime) {
    for text in FIRST_TOKENS {
        let found = error_of(rt.alloc(), text);
        assert!(rt; found != Some(ParseError::Memory), "{text}");
    }
    has_error(&rt, rt.alloc(), "* 1", ParseError::Syntax);
}

/// The text is rejected with this error.
fn has_error(rt: &impl Abort, alloc: Global, text: &str, want: ParseError) {
    check_value(rt, error_of(alloc, text), Some(want), &text);
}

#[test]
fn faults_of_tokens_have_kinds(rt: HostRuntime) {
    let alloc = rt.alloc();
    for (text, fault) in [
        ("1e309", NumberFault::OutOfRange),
        (
            "999999999999999999999999999999999999999",
            NumberFault::TooManyDigits,
        ),
        ("0e1", NumberFault::NotANumber),
    ] {
        has_error(&rt, alloc, text, ParseError::Number(fault));
    }
    for text in ["0s", "foo[0.0000000001]"] {
        let fault = ParseError::Duration(DurationFault::NotPositive);
        has_error(&rt, alloc, text, fault);
    }
}

#[test]
fn rejections_have_kinds(rt: HostRuntime) {
    let alloc = rt.alloc();
    for (text, want) in [
        ("", ParseError::Empty),
        ("\r\n\r", ParseError::Empty),
        ("a b", ParseError::Syntax),
        ("\"a\nb\"", ParseError::Quoted),
        ("a + bool b", ParseError::Check(CheckFault::BoolModifier)),
        (
            "foo smoothed",
            ParseError::Check(CheckFault::Node(NodeFault::ModeBase)),
        ),
    ] {
        has_error(&rt, alloc, text, want);
    }
    is_so(&rt, names_pattern(alloc), "a pattern");
    is_so(&rt, names_function(alloc), "a function");
}

/// Whether the error of a pattern has the pattern.
fn names_pattern(alloc: Global) -> Result<bool, AllocError> {
    let want = ParseError::Pattern(String::from_str(alloc, "(")?);
    Ok(error_of(alloc, "{a=~\"(\"}") == Some(want))
}

/// Whether the error of a call of no function has its name.
fn names_function(alloc: Global) -> Result<bool, AllocError> {
    let want = ParseError::UnknownFunction(String::from_str(alloc, "nosuch")?);
    Ok(error_of(alloc, "nosuch()") == Some(want))
}

const FAULT: LexFault = LexFault {
    kind: LexFaultKind::Character,
    at: 3,
    ch: Some('~'),
};

/// Errors that differ, with their messages.
const ERRORS: [(ParseError, &str); 8] = [
    (ParseError::Memory, "out of memory"),
    (ParseError::Lex(FAULT), "unexpected character: '~'"),
    (
        ParseError::Lex(LexFault {
            kind: LexFaultKind::Character,
            at: 4,
            ch: Some('~'),
        }),
        "unexpected character: '~'",
    ),
    (ParseError::Empty, EMPTY),
    (ParseError::Syntax, SYNTAX),
    (ParseError::TooDeep, "expression nested too deeply"),
    (ParseError::Number(NumberFault::NotANumber), "not a number"),
    (
        ParseError::Number(NumberFault::TooManyDigits),
        "more than 38 significant digits",
    ),
];

/// The error of this number is equal to itself alone.
fn check_error(rt: &impl Abort, number: usize, error: &ParseError) {
    for (other_number, (other, _)) in ERRORS.iter().enumerate() {
        let is_same = number == other_number;
        assert_eq!(rt; *error == *other, is_same, "{number} and {other_number}");
        assert_eq!(rt; *error != *other, !is_same, "{number} and {other_number}");
    }
}

#[test]
fn errors_differ(rt: HostRuntime) {
    for (number, (error, _)) in ERRORS.iter().enumerate() {
        check_error(&rt, number, error);
    }
}

#[test]
fn errors_have_messages(rt: HostRuntime) {
    for (error, message) in &ERRORS {
        prints(&rt, error.to_string(rt.alloc()), message);
    }
}
