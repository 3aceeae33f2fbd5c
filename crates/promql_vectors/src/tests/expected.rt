//! What was expected in place of a token that does not fit: docs/reference/grammar.md, "What is expected".

use super::{holds, is_so};
use promql_parser::parser::token::{
    T_DURATION, T_IDENTIFIER, T_METRIC_IDENTIFIER, T_NUMBER, T_STRING, TokenId, token_display,
    token_kind,
};
use promql_parser::parser::{ExpectedTokens, ParseError, diagnose, expected_tokens, parse};
use std::alloc::{AllocError, Global};
use std::process::Abort;

/// A query a line, with its message. `NAME` is what may follow a name, `NODE` what may follow another operand, `RIGHT` what may
/// begin a right side.
const MESSAGES: &str = r#"foo{a=b} => identifier "b", expected string
foo{a b} => identifier "b", expected "=", "=~", "!=" or "!~"
foo{,} => ",", expected label name, "}" or string
foo{=~"x"} => "=~", expected label name, "}" or string
foo{a="b" c="d"} => identifier "c", expected ",", "}" or "or"
foo{"a" "b"} => string "b", expected "=", ",", "}", "=~", "or", "!=" or "!~"
foo{a=="b"} => "=", expected string; a matcher has one "="
foo{a="b" AND c="d"} => identifier "AND", expected ",", "}" or "or"; matchers are joined by ","
foo{a="b" or c="d" or} => identifier "or", expected ",", "}" or "or"; matchers are joined by ","
foo bar => identifier "bar", expected NAME or end of query; an operator is missing before it
foo 5 => number "5", expected NAME or end of query; an operator is missing before it
foo 'x' => string 'x', expected NAME or end of query; an operator is missing before it
foo 5m => duration "5m", expected NAME or end of query; a range is in brackets, as in foo[5m]
a:b 1 => number "1", expected "{", NODE or end of query; an operator is missing before it
foo[5m] bar => identifier "bar", expected NODE or end of query; an operator is missing before it
foo{} sum => aggregation "sum", expected NODE or end of query; an operator is missing before it
(1) (2) => "(", expected NODE or end of query; an operator is missing before it
rate(foo[5m]) by (job) => "by", expected NODE or end of query
foo, => ",", expected NAME or end of query
(1 2) => number "2", expected "[", ")", operator, "@", "offset", "smoothed" or "anchored"; an operator is missing before it
f(1 2) => number "2", expected ",", "[", ")", operator, "@", "offset", "smoothed" or "anchored"; an operator is missing before it
f(,) => ",", expected expression or ")"
f(1,) => ")", expected expression
- => end of query, expected expression
1 + => end of query, expected RIGHT
foo + * bar => "*", expected RIGHT
a == bool => end of query, expected expression, "ignoring", "on", "fill", "fill_left" or "fill_right"
a + on b => identifier "b", expected "("
a + on(5) b => number "5", expected label name, ")" or string
a + fill(b) c => identifier "b", expected number, "+" or "-"
a + fill_left(1) fill_left(1) b => "fill_left", expected expression or "fill_right"
sum by job (foo) => identifier "job", expected "("
sum by (job 1) (foo) => number "1", expected "," or ")"
sum by ('a' 'b') (foo) => string 'b', expected "," or ")"
{a=~'(', b!~`[`} c => identifier "c", expected NODE or end of query; an operator is missing before it
by (job) sum(foo) => "(", expected "{", NODE or end of query; a grouping follows its aggregation, as in sum by (job) (foo)
sum foo => identifier "foo", expected "{", "[", "(", operator, "@", "by", "offset", "smoothed", "anchored", "without" or end of query; an aggregation has its arguments in parentheses
sum(foo) by job => identifier "job", expected "("
sum(foo) by (job) by (a) => "by", expected NODE or end of query
foo offset b => identifier "b", expected duration, number, "+" or "-"
foo offset -b => identifier "b", expected duration or number
foo @ b => identifier "b", expected number, "+", "-", "start" or "end"
foo @ -b => identifier "b", expected number
foo @ start => end of query, expected "("
foo @ end(5) => number "5", expected ")"
rate(foo) => another error"#;

/// What the words in capitals of a message stand for.
const WORDS: [(&str, &str); 3] = [
    (
        "NAME",
        "\"{\", \"[\", \"(\", operator, \"@\", \"offset\", \"smoothed\", \"anchored\"",
    ),
    (
        "NODE",
        "\"[\", operator, \"@\", \"offset\", \"smoothed\", \"anchored\"",
    ),
    (
        "RIGHT",
        "expression, \"bool\", \"ignoring\", \"on\", \"fill\", \"fill_left\" or \"fill_right\"",
    ),
];

#[test]
fn syntax_errors_say_what_was_expected(rt: HostRuntime) {
    for row in MESSAGES.split('\n') {
        let (query, want) = row.split_once(" => ").unwrap_or((row, ""));
        is_so(&rt, is_message(rt.alloc(), query, want), row);
    }
}

/// Whether the query has this message.
fn is_message(alloc: Global, query: &str, want: &str) -> Result<bool, AllocError> {
    let found = message(alloc, query)?;
    Ok(found == in_full(alloc, want)?)
}

/// The message of a query without its first word.
fn message(alloc: Global, query: &str) -> Result<String, AllocError> {
    let unexpected = match diagnose(alloc, query) {
        Ok(_) => None,
        Err(diagnosis) => diagnosis.unexpected(alloc, query)?,
    };
    match unexpected {
        Some(unexpected) => unexpected
            .to_string(alloc)?
            .replace(alloc, "unexpected ", ""),
        None => String::from_str(alloc, "another error"),
    }
}

/// A message with what its words in capitals stand for.
fn in_full(alloc: Global, message: &str) -> Result<String, AllocError> {
    let mut text = String::from_str(alloc, message)?;
    for (word, meaning) in WORDS {
        text = text.replace(alloc, word, meaning)?;
    }
    Ok(text)
}

/// The beginnings of queries, in each place of the grammar. The first is empty.
const FRONTS: &str = "
-
1 +
1 == bool
foo
a:b
foo[5m]
foo[
foo[5m
foo[5m:
foo{
foo{a
foo{a=
foo{a='b'
foo{a='b',
foo{'a'
sum
sum by
sum by (
sum by (a
sum by (a) (b
sum(a)
(
(1
f(
f(1
foo offset
foo offset -
foo @
foo @ start
a + on(b)
a + on(b) group_left
a + fill(";

/// With one of these each beginning and one more token are a query, or with parentheses behind it.
const ENDS: [&str; 17] = [
    "", "1", "b", ")", "(1)", "(b) (c)", "(b) c", "(1) c", "()", ") b", ") (b)", "1) b", "}",
    "'b'}", "='b'}", "5m]", "]",
];

#[test]
fn each_expected_token_goes_on(rt: HostRuntime) {
    for front in FRONTS.split('\n') {
        match expected_tokens(rt.alloc(), front, front.len()) {
            Ok(expected) => check_front(&rt, rt.alloc(), front, &expected),
            Err(_) => holds(&rt, false, front),
        }
    }
}

/// The beginning may end where it is said, and goes on with each kind that is expected after it.
fn check_front(rt: &impl Abort, alloc: Global, front: &str, expected: &ExpectedTokens) {
    holds(rt, expected.ends == is_query(alloc, front), front);
    for id in 0..86 {
        if expected.kinds.contains(&token_kind(id)) {
            is_so(rt, goes_on(alloc, front, id), front);
        }
    }
}

/// Whether the beginning and this token are one of a query.
fn goes_on(alloc: Global, front: &str, id: TokenId) -> Result<bool, AllocError> {
    let text = format!(in alloc; "{front} {} ", sample(id))?;
    can_end(alloc, text.as_str())
}

/// A text of a token.
fn sample(id: TokenId) -> &'static str {
    match id {
        T_NUMBER => "1",
        T_DURATION => "5m",
        T_STRING => "'s'",
        T_IDENTIFIER => "x",
        T_METRIC_IDENTIFIER => "x:y",
        id => token_display(id),
    }
}

/// Whether one of the ends makes a query of a text.
fn can_end(alloc: Global, text: &str) -> Result<bool, AllocError> {
    for end in ENDS {
        let whole = format!(in alloc; "{text}{end}")?;
        if can_close(alloc, whole)? {
            return Ok(true);
        }
    }
    Ok(false)
}

/// Whether a text is a query with two parentheses behind it, with one or with none.
fn can_close(alloc: Global, text: String) -> Result<bool, AllocError> {
    let mut closed = text;
    for _ in 0..3 {
        if is_query(alloc, closed.as_str()) {
            return Ok(true);
        }
        closed.push(')')?;
    }
    Ok(false)
}

/// Whether the tokens of a text are an expression, also one that builds nothing.
fn is_query(alloc: Global, text: &str) -> bool {
    !matches!(
        parse(alloc, text),
        Err(ParseError::Lex(_) | ParseError::Empty | ParseError::Syntax)
    )
}
