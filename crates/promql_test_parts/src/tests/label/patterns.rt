//! Patterns that `regex` reads, what they match, and those that it rejects.

use crate::tests::{Failed, answers, holds, is_so, prints};
use promql_label::{MatchOp, Matcher, Pattern, PatternFault};
use std::alloc::{AllocError, Global};
use std::test::Fail;

/// Patterns, and what is built of each.
const BUILT: [(&str, &str); 15] = [
    ("", "^(?:)$"),
    ("abc.*", "^(?:abc.*)$"),
    ("a|b", "^(?:a|b)$"),
    ("[a-z]+", "^(?:[a-z]+)$"),
    ("(?i)x", "^(?:(?i)x)$"),
    (r"x\d{b}", r"^(?:x\d\{b})$"),
    (r"\x{4a}", r"^(?:\x{4a})$"),
    (r"\p{Greek}{2,3}", r"^(?:\p{Greek}{2,3})$"),
    ("é", "^(?:é)$"),
    ("[{]", "^(?:[{])$"),
    (r"\b{start}x", r"^(?:\b{start}x)$"),
    (r"\w{2}{", r"^(?:\w{2}\{)$"),
    ("a{ 3 }", "^(?:a{ 3 })$"),
    ("a{ 99999999 }", r"^(?:a\{ 99999999 })$"),
    (r"(?x)a{9 9 9 9 9 9 9 9}", r"^(?:(?x)a\{9 9 9 9 9 9 9 9})$"),
];

/// Texts that are no patterns. The last is rejected for the size of what it would compile to.
const REJECTED: [&str; 7] = ["a)|(?:b", r"b\", "(", "[", "*", r"\", r"\w{1000}"];

fn is_rejected(found: &Result<Pattern, PatternFault>, value: &str) -> bool {
    match found {
        Err(PatternFault::Refused(text)) => text.as_str() == value,
        _ => false,
    }
}

fn is_built_as(found: &Result<Pattern, PatternFault>, want: &str) -> bool {
    match found {
        Ok(pattern) => pattern.as_str() == want,
        Err(_) => false,
    }
}

#[test]
fn patterns_are_anchored(rt: HostRuntime) {
    for (value, want) in &BUILT {
        let found = Pattern::read(rt.alloc(), value);
        holds(&rt, is_built_as(&found, want), value);
    }
}

#[test]
fn other_texts_are_rejected(rt: HostRuntime) {
    for value in &REJECTED {
        let found = Pattern::read(rt.alloc(), value);
        holds(&rt, is_rejected(&found, value), value);
    }
    let found = Pattern::of_text(rt.alloc(), "(");
    holds(&rt, is_rejected(&found, "("), "(");
}

/// Ends of long patterns, and what is built of them.
const LONG_ENDS: [(&str, &str); 4] = [
    ("|y", "|y"),
    ("[{]", "[{]"),
    (r"\b{start}y", r"\b{start}y"),
    (r"\d{b}", r"\d\{b}"),
];

const LENGTHS: [usize; 6] = [35, 41, 95, 101, 257, 990];

/// Whether the pattern of so many letters before this end is built with that end.
fn is_long_built(alloc: Global, length: usize, end: &str, want: &str) -> Result<bool, Failed> {
    let letters = "x".repeat(alloc, length)?;
    let value = format!(in alloc; "{letters}{end}")?;
    let built = format!(in alloc; "^(?:{letters}{want})$")?;
    Ok(is_built_as(&Pattern::read(alloc, &value), &built))
}

/// Ends of long patterns, ends of texts, and whether the one matches the other.
const LONG_MATCHES: [(&str, &str, bool); 5] = [
    ("[{]", "{", true),
    ("[{]", "x", false),
    (r"\d{b}", "1{b}", true),
    (r"\d{b}", "1bb", false),
    ("{y}|z", "{y}", true),
];

/// Whether the pattern of so many letters before this end matches as many letters before that end.
fn is_long_found(alloc: Global, length: usize, end: &str, tail: &str) -> Result<bool, Failed> {
    let letters = "x".repeat(alloc, length)?;
    let value = format!(in alloc; "{letters}{end}")?;
    let text = format!(in alloc; "{letters}{tail}")?;
    is_found(alloc, &value, &text)
}

/// Whether so many letters before a parenthesis that nothing closes are rejected.
fn is_long_rejected(alloc: Global, length: usize) -> Result<bool, Failed> {
    let letters = "x".repeat(alloc, length)?;
    let value = format!(in alloc; "{letters}(")?;
    Ok(
        is_rejected(&Pattern::read(alloc, &value), &value)
            && is_rejected(&Pattern::of_text(alloc, &value), &value),
    )
}

#[test]
fn long_patterns_are_like_short_ones(rt: HostRuntime) {
    let alloc = rt.alloc();
    for length in &LENGTHS {
        for (end, want) in &LONG_ENDS {
            is_so(&rt, is_long_built(alloc, *length, end, want), end);
        }
        for (end, tail, want) in &LONG_MATCHES {
            answers(&rt, is_long_found(alloc, *length, end, tail), *want, tail);
        }
        is_so(&rt, is_long_rejected(alloc, *length), "(");
    }
}

// In the three reads below bin/test_memory makes each allocation fail in turn.

fn is_out_of_memory(found: &Result<Pattern, PatternFault>) -> bool {
    match found {
        Err(PatternFault::Memory) => true,
        _ => false,
    }
}

#[test]
fn a_plain_pattern_or_out_of_memory(rt: HostRuntime) {
    let found = Pattern::read(rt.alloc(), "[{]");
    holds(
        &rt,
        is_built_as(&found, "^(?:[{])$") || is_out_of_memory(&found),
        "[{]",
    );
}

#[test]
fn an_escaped_pattern_or_out_of_memory(rt: HostRuntime) {
    let found = Pattern::read(rt.alloc(), r"x\d{b}");
    let is_built = is_built_as(&found, r"^(?:x\d\{b})$");
    holds(&rt, is_built || is_out_of_memory(&found), r"x\d{b}");
}

#[test]
fn a_rejected_pattern_or_out_of_memory(rt: HostRuntime) {
    let found = Pattern::read(rt.alloc(), "a)|(?:b");
    holds(
        &rt,
        is_rejected(&found, "a)|(?:b") || is_out_of_memory(&found),
        "a)|(?:b",
    );
}

// A pattern, a text, and whether it matches.
const MATCHED: [(&str, &str, bool); 15] = [
    ("abc.*", "abc123", true),
    ("abc.*", "xabc123", false),
    ("", "", true),
    ("", "a", false),
    ("a|bc", "bc", true),
    ("a|bc", "abc", false),
    ("[^0-9]{2}", "ab", true),
    ("[^0-9]{2}", "a1", false),
    ("(?i)get", "GET", true),
    (r"\p{Greek}+", "αβγ", true),
    (".", "é", true),
    ("é", "e", false),
    ("x{y}", "x{y}", true),
    ("a{ 3 }", "aaa", true),
    ("a{ 99999999 }", "a{ 99999999 }", true),
];

/// The matcher of a pattern.
fn matcher(alloc: Global, value: &str) -> Result<Matcher, Failed> {
    let op = MatchOp::Re(Pattern::read(alloc, value)?);
    Ok(Matcher::new(alloc, op, "a", value)?)
}

/// Whether the pattern of this value matches the text.
fn is_found(alloc: Global, value: &str, text: &str) -> Result<bool, Failed> {
    Ok(matcher(alloc, value)?.is_match(alloc, text)?)
}

/// Patterns that measure nearly as much as a small one may, and take the most to compile: a piece so many times, the middle, and another
/// piece as often; then a text that it matches, a piece so many times.
const DENSE: [(&str, usize, &str, &str, &str, usize); 11] = [
    (r"\w", 666, "", "", "é", 666),
    (r"\pL", 639, "", "", "é", 639),
    (r"\PL", 639, "", "", "1", 639),
    ("(?i)k", 3194, "", "", "K", 3194),
    ("[^a]", 3998, "", "", "é", 3998),
    (r"\w{456}", 1, "", "", "a", 456),
    (r"\W", 666, "", "", "-", 666),
    (r"[^\d]", 592, "", "", "é", 592),
    (r"\w{0,431}", 1, "", "", "é", 431),
    (r"(\w{20}){18}", 1, "", "", "a", 360),
    ("(", 200, "a", ")", "a", 1),
];

/// Whether a prepared pattern matches the text, and does not match a line feed.
fn is_compiled(alloc: Global, value: &str, text: &str) -> Result<bool, Failed> {
    let mut matcher = matcher(alloc, value)?;
    matcher.prepare(alloc)?;
    Ok(matcher.is_match(alloc, text)? && !matcher.is_match(alloc, "\n")?)
}

#[test]
fn dense_small_patterns_compile(rt: HostRuntime) -> Result<(), Fail> {
    for (open, count, middle, close, piece, times) in &DENSE {
        let alloc = rt.alloc();
        let open = open.repeat(alloc, *count)?;
        let close = close.repeat(alloc, *count)?;
        let value = format!(in alloc; "{open}{middle}{close}")?;
        let text = piece.repeat(alloc, *times)?;
        is_so(&rt, is_compiled(alloc, &value, &text), &value);
    }
    Ok(())
}

/// Whether a pattern of this value matches the text once it is prepared, and a copy of it does as well.
fn is_found_prepared(alloc: Global, value: &str, text: &str) -> Result<bool, Failed> {
    let mut prepared = matcher(alloc, value)?;
    prepared.prepare(alloc)?;
    let copy = prepared.try_clone(alloc)?;
    Ok(prepared.is_match(alloc, text)? && copy.is_match(alloc, text)? && prepared == copy)
}

#[test]
fn patterns_match_whole_texts(rt: HostRuntime) {
    let alloc = rt.alloc();
    for (value, text, want) in &MATCHED {
        answers(&rt, is_found(alloc, value, text), *want, text);
        answers(&rt, is_found_prepared(alloc, value, text), *want, text);
    }
}

/// Whether the pattern of a value is that of a text, and its copy is the pattern.
fn is_equal(alloc: Global, value: &str, text: &str) -> Result<bool, PatternFault> {
    let pattern = Pattern::read(alloc, value)?;
    let is_copied = pattern.try_clone(alloc)? == pattern;
    Ok(is_copied && pattern == Pattern::of_text(alloc, text)?)
}

#[test]
fn patterns_are_equal_by_their_texts(rt: HostRuntime) {
    let alloc = rt.alloc();
    answers(&rt, is_equal(alloc, "a", "^(?:a)$"), true, "a");
    answers(&rt, is_equal(alloc, "b", "^(?:a)$"), false, "b");
}

fn rejection(alloc: Global, value: &str) -> Result<PatternFault, AllocError> {
    Ok(PatternFault::Refused(String::from_str(alloc, value)?))
}

/// Whether the rejections of two values are equal.
fn is_rejection(alloc: Global, value: &str, other: &str) -> Result<bool, AllocError> {
    let fault = rejection(alloc, value)?;
    Ok(fault == rejection(alloc, other)? && fault != PatternFault::Memory)
}

fn rejection_text(alloc: Global, value: &str) -> Result<String, AllocError> {
    rejection(alloc, value)?.to_string(alloc)
}

#[test]
fn faults_compare_and_print(rt: HostRuntime) {
    let alloc = rt.alloc();
    answers(&rt, is_rejection(alloc, "(", "("), true, "(");
    answers(&rt, is_rejection(alloc, "(", ")"), false, ")");
    prints(&rt, rejection_text(alloc, "("), "illegal regex for (");
    prints(&rt, PatternFault::Memory.to_string(alloc), "out of memory");
}
