//! Matchers and their operators.

use crate::tests::{Failed, answers, holds, is_so, prints};
use promql_label::{
    ALERT_NAME, BUCKET_LABEL, INSTANCE_NAME, METRIC_NAME, MatchOp, Matcher, MatcherError, Pattern,
};
use promql_token::ids::{T_ADD, T_EQL, T_EQL_REGEX, T_NEQ, T_NEQ_REGEX, TokenId};
use std::alloc::{AllocError, Global};
use std::hash::{DefaultHasher, Hash, Hasher};
use std::process::Abort;
use std::test::Fail;

fn made(alloc: Global, id: TokenId, name: &str, value: &str) -> Result<Matcher, MatcherError> {
    let Ok(name) = String::from_str(alloc, name) else {
        return Err(MatcherError::Memory);
    };
    let Ok(value) = String::from_str(alloc, value) else {
        return Err(MatcherError::Memory);
    };
    Matcher::new_matcher(alloc, id, name, value)
}

fn hash_of<T: Hash>(x: &T) -> u64 {
    let mut state = DefaultHasher::new();
    x.hash(&mut state);
    state.finish()
}

/// An operator, a name and a value, and how their matcher prints, or why there is none.
const PRINTED: [(TokenId, &str, &str, &str); 9] = [
    (T_EQL, "a", "1", "a=\"1\""),
    (T_EQL, "a b", "1", "\"a b\"=\"1\""),
    (T_NEQ, "a", "x\"y", "a!=\"x\\\"y\""),
    (T_NEQ, "", "\n", "\"\"!=\"\\n\""),
    (T_EQL_REGEX, "a:b", ".*", "\"a:b\"=~\".*\""),
    (T_NEQ_REGEX, "_a1", "[0-9]+", "_a1!~\"[0-9]+\""),
    (T_ADD, "a", "", "invalid match op +"),
    (T_EQL_REGEX, "a", "(", "illegal regex for ("),
    (T_NEQ_REGEX, "a", "(", "illegal regex for ("),
];

fn display_text(alloc: Global, id: TokenId, name: &str, value: &str) -> Result<String, AllocError> {
    match made(alloc, id, name, value) {
        Ok(matcher) => matcher.to_string(alloc),
        Err(error) => error.to_string(alloc),
    }
}

#[test]
fn matchers_print(rt: HostRuntime) {
    let alloc = rt.alloc();
    for (id, name, value, want) in &PRINTED {
        prints(&rt, display_text(alloc, *id, name, value), want);
    }
    prints(&rt, MatcherError::Memory.to_string(alloc), "out of memory");
    let error = made(alloc, T_ADD, "", "").err();
    holds(&rt, error == Some(MatcherError::InvalidOp(24)), "+");
}

/// An operator and a value, what is so many times in a text, and whether the matcher matches it.
const MATCHED: [(TokenId, &str, &str, usize, bool); 15] = [
    (T_EQL, "abc", "abc", 1, true),
    (T_EQL, "abc", "abcd", 1, false),
    (T_EQL, "", "", 1, true),
    (T_NEQ, "abc", "abc", 1, false),
    (T_NEQ, "abc", "ab", 1, true),
    (T_EQL_REGEX, "abc.*", "abc123", 1, true),
    (T_EQL_REGEX, "abc.*", "xabc123", 1, false),
    (T_NEQ_REGEX, "abc.*", "abc123", 1, false),
    (T_NEQ_REGEX, "abc.*", "xabc123", 1, true),
    (T_EQL, "ab", "ab", 10_000, false),
    (T_NEQ, "ab", "ab", 10_000, true),
    (T_EQL_REGEX, "[ab]*", "ab", 10_000, true),
    (T_EQL_REGEX, "(ab)*a", "ab", 10_000, false),
    (T_NEQ_REGEX, "é*", "é", 10_000, false),
    (T_NEQ_REGEX, "a*", "é", 10_000, true),
];

/// Whether the matcher, or a copy of it, matches the text.
fn is_match(
    alloc: Global,
    (id, value): (TokenId, &str),
    text: &str,
    by_copy: bool,
) -> Result<bool, Failed> {
    let mut matcher = made(alloc, id, "a", value)?;
    if by_copy {
        matcher = matcher.try_clone(alloc)?;
    }
    Ok(matcher.is_match(alloc, text)?)
}

/// Whether the matcher and a copy of it both have this answer.
fn check_match(rt: &impl Abort, alloc: Global, of: (TokenId, &str), text: &str, want: bool) {
    answers(rt, is_match(alloc, of, text, false), want, text);
    answers(rt, is_match(alloc, of, text, true), want, text);
}

#[test]
fn matchers_and_their_copies_match(rt: HostRuntime) -> Result<(), Fail> {
    let alloc = rt.alloc();
    for (id, value, piece, times, want) in &MATCHED {
        let text = piece.repeat(alloc, *times)?;
        check_match(&rt, alloc, (*id, value), text.as_str(), *want);
    }
    Ok(())
}

/// Whether a matcher by a text as it is matches the path.
fn is_path(alloc: Global, path: &str) -> Result<bool, Failed> {
    let op = MatchOp::Re(Pattern::of_text(alloc, "api/v1/.*")?);
    Ok(Matcher::new(alloc, op, "path", "api/v1/.*")?.is_match(alloc, path)?)
}

#[test]
fn a_text_is_a_pattern_as_it_is(rt: HostRuntime) {
    answers(&rt, is_path(rt.alloc(), "api/v1/query"), true, "v1");
    answers(&rt, is_path(rt.alloc(), "api/v2"), false, "v2");
}

/// The matcher of a metric's name, as it prints.
fn name_text(alloc: Global, name: &str) -> Result<String, AllocError> {
    let name = String::from_str(alloc, name)?;
    Matcher::new_metric_name_matcher(alloc, name)?.to_string(alloc)
}

#[test]
fn metric_names(rt: HostRuntime) {
    prints(&rt, name_text(rt.alloc(), "up"), "__name__=\"up\"");
}

/// The operators of matchers, with their texts.
const OPERATORS: [(TokenId, &str); 4] = [
    (T_EQL, "="),
    (T_NEQ, "!="),
    (T_EQL_REGEX, "=~"),
    (T_NEQ_REGEX, "!~"),
];

/// Whether a matcher made twice is equal and hashed alike, its operator prints this, and a copy of the operator is the operator.
fn is_operator(alloc: Global, id: TokenId, text: &str) -> Result<bool, Failed> {
    let matcher = made(alloc, id, "a", "b.*")?;
    let again = made(alloc, id, "a", "b.*")?;
    let is_alike = matcher == again && hash_of(&matcher) == hash_of(&again);
    let is_printed = matcher.op.to_string(alloc)?.as_str() == text;
    Ok(is_alike && is_printed && matcher.op.try_clone(alloc)? == matcher.op)
}

#[test]
fn operators_print_and_are_equal(rt: HostRuntime) {
    for (id, text) in &OPERATORS {
        is_so(&rt, is_operator(rt.alloc(), *id, text), text);
    }
}

/// The operator of a matcher of `a` and `b.*`, and the parts of one that differs.
const DIFFERENT: [(TokenId, TokenId, &str, &str); 4] = [
    (T_EQL, T_EQL, "b", "b.*"),
    (T_EQL_REGEX, T_EQL_REGEX, "a", "b"),
    (T_EQL_REGEX, T_EQL, "a", "b.*"),
    (T_EQL_REGEX, T_NEQ_REGEX, "a", "b.*"),
];

fn differs(alloc: Global, id: TokenId, other: (TokenId, &str, &str)) -> Result<bool, MatcherError> {
    let matcher = made(alloc, id, "a", "b.*")?;
    Ok(matcher != made(alloc, other.0, other.1, other.2)?)
}

#[test]
fn matchers_differ_by_each_part(rt: HostRuntime) {
    for (id, other, name, value) in &DIFFERENT {
        let found = differs(rt.alloc(), *id, (*other, name, value));
        is_so(&rt, found, value);
    }
}

fn rejection(alloc: Global, value: &str) -> Result<MatcherError, AllocError> {
    Ok(MatcherError::Pattern(String::from_str(alloc, value)?))
}

/// Whether the rejections of these two values are equal.
fn is_rejection(alloc: Global, value: &str, other: &str) -> Result<bool, AllocError> {
    let error = rejection(alloc, value)?;
    Ok(error == rejection(alloc, other)? && error != MatcherError::Memory)
}

#[test]
fn errors_compare(rt: HostRuntime) {
    let plus = MatcherError::InvalidOp(1);
    holds(&rt, plus != MatcherError::InvalidOp(2), "1 and 2");
    holds(&rt, plus != MatcherError::Memory, "1");
    answers(&rt, is_rejection(rt.alloc(), "(", "("), true, "(");
    answers(&rt, is_rejection(rt.alloc(), "(", ")"), false, ")");
}

#[test]
fn names_with_a_meaning(rt: HostRuntime) {
    holds(&rt, METRIC_NAME == "__name__", METRIC_NAME);
    holds(&rt, ALERT_NAME == "alertname", ALERT_NAME);
    holds(&rt, BUCKET_LABEL == "le", BUCKET_LABEL);
    holds(&rt, INSTANCE_NAME == "instance", INSTANCE_NAME);
}
