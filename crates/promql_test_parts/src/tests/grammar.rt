//! Kinds of tokens.

use crate::tests::holds;
use promql_grammar::{TokenKind, token_kind};
use promql_token::TokenType;
use promql_token::ids::*;

// Kinds with their ids, from docs/reference/grammar.md.
const TOKEN_KINDS: [(TokenId, TokenKind); 32] = [
    (T_NUMBER, TokenKind::Number),
    (T_DURATION, TokenKind::Duration),
    (T_STRING, TokenKind::String),
    (T_IDENTIFIER, TokenKind::Identifier),
    (T_METRIC_IDENTIFIER, TokenKind::MetricIdentifier),
    (T_BY, TokenKind::By),
    (T_WITHOUT, TokenKind::Without),
    (T_ON, TokenKind::On),
    (T_IGNORING, TokenKind::Ignoring),
    (T_GROUP_LEFT, TokenKind::GroupLeft),
    (T_GROUP_RIGHT, TokenKind::GroupRight),
    (T_BOOL, TokenKind::Bool),
    (T_OFFSET, TokenKind::Offset),
    (T_START, TokenKind::Start),
    (T_END, TokenKind::End),
    (T_SMOOTHED, TokenKind::Smoothed),
    (T_ANCHORED, TokenKind::Anchored),
    (T_FILL, TokenKind::Fill),
    (T_FILL_LEFT, TokenKind::FillLeft),
    (T_FILL_RIGHT, TokenKind::FillRight),
    (T_LEFT_PAREN, TokenKind::LeftParen),
    (T_RIGHT_PAREN, TokenKind::RightParen),
    (T_LEFT_BRACE, TokenKind::LeftBrace),
    (T_RIGHT_BRACE, TokenKind::RightBrace),
    (T_LEFT_BRACKET, TokenKind::LeftBracket),
    (T_RIGHT_BRACKET, TokenKind::RightBracket),
    (T_COMMA, TokenKind::Comma),
    (T_COLON, TokenKind::Colon),
    (T_EQL, TokenKind::Equal),
    (T_EQL_REGEX, TokenKind::EqualRegex),
    (T_NEQ_REGEX, TokenKind::NotEqualRegex),
    (T_AT, TokenKind::At),
];

// The kind of an id by the table and the classes of ids.
fn wanted(id: TokenId) -> TokenKind {
    for (row, kind) in &TOKEN_KINDS {
        if *row == id {
            return *kind;
        }
    }
    let token = TokenType::new(id);
    if token.is_aggregator() {
        TokenKind::Aggregator(id)
    } else if token.is_operator() {
        TokenKind::Operator(id)
    } else {
        TokenKind::Other
    }
}

// `==` tells kinds apart: the law `equal_token_kinds`.
#[test]
fn kinds_of_tokens(rt: HostRuntime) {
    for id in 0..100u16 {
        holds(&rt, token_kind(id) == wanted(id), token_display(id));
    }
}

// Kinds that may be names of metrics.
const NAMES: [TokenId; 10] = [
    T_IDENTIFIER,
    T_METRIC_IDENTIFIER,
    T_SUM,
    T_LAND,
    T_LOR,
    T_ATAN2,
    T_BY,
    T_OFFSET,
    T_START,
    T_ANCHORED,
];

// Kinds that may not.
const NO_NAMES: [TokenId; 10] = [
    T_NUMBER,
    T_STRING,
    T_ADD,
    T_AT,
    T_BOOL,
    T_ON,
    T_GROUP_LEFT,
    T_FILL,
    T_LEFT_PAREN,
    T_EOF,
];

#[test]
fn names(rt: HostRuntime) {
    for id in &NAMES {
        holds(&rt, token_kind(*id).may_be_name(), token_display(*id));
    }
    for id in &NO_NAMES {
        holds(&rt, !token_kind(*id).may_be_name(), token_display(*id));
    }
}

// Kinds that may be labels.
const LABELS: [TokenId; 13] = [
    T_STRING,
    T_IDENTIFIER,
    T_SUM,
    T_LAND,
    T_BY,
    T_OFFSET,
    T_START,
    T_SMOOTHED,
    T_BOOL,
    T_ON,
    T_IGNORING,
    T_GROUP_LEFT,
    T_GROUP_RIGHT,
];

// Kinds that may not.
const NO_LABELS: [TokenId; 10] = [
    T_METRIC_IDENTIFIER,
    T_NUMBER,
    T_DURATION,
    T_ADD,
    T_AT,
    T_FILL,
    T_FILL_LEFT,
    T_FILL_RIGHT,
    T_LEFT_PAREN,
    T_EOF,
];

#[test]
fn labels(rt: HostRuntime) {
    for id in &LABELS {
        holds(&rt, token_kind(*id).may_be_label(), token_display(*id));
    }
    for id in &NO_LABELS {
        holds(&rt, !token_kind(*id).may_be_label(), token_display(*id));
    }
}
