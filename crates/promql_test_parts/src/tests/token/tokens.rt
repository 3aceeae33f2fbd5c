//! Tokens and their types, and which texts are labels.

use crate::tests::{holds, is_so};
use promql_token::ids::*;
use promql_token::{Token, TokenType, is_label};
use std::alloc::{AllocError, Global};

fn token(alloc: Global, id: TokenId, text: &str) -> Result<Token, AllocError> {
    Ok(Token::new(id, String::from_str(alloc, text)?))
}

// What a token of the string `'é'` differs from.
const OTHERS: [(TokenId, &str); 2] = [(T_STRING, "'e'"), (T_NUMBER, "'é'")];

/// Whether the token of this id and text is another one.
fn differs(alloc: Global, id: TokenId, text: &str) -> Result<bool, AllocError> {
    let one = token(alloc, T_STRING, "'é'")?;
    Ok(one != token(alloc, id, text)?)
}

#[test]
fn tokens_compare(rt: HostRuntime) {
    for (id, text) in &OTHERS {
        is_so(&rt, differs(rt.alloc(), *id, text), text);
    }
}

// Texts of tokens, and how many times each.
const COPIED: [(&str, usize); 5] = [("", 1), ("a", 1), ("'é'", 1), ("a", 1_001), ("é", 65_537)];

/// Whether a copy of the token of this text is the same.
fn is_copied(alloc: Global, text: &str, times: usize) -> Result<bool, AllocError> {
    let one = Token::new(T_STRING, text.repeat(alloc, times)?);
    Ok(one.try_clone(alloc)? == one && one.id() == T_STRING)
}

#[test]
fn tokens_have_copies(rt: HostRuntime) {
    for (text, times) in &COPIED {
        is_so(&rt, is_copied(rt.alloc(), text, *times), text);
    }
}

#[test]
fn token_types_have_classes(rt: HostRuntime) {
    let topk = TokenType::new(T_TOPK);
    holds(
        &rt,
        topk.is_aggregator() && topk.is_aggregator_with_param(),
        "topk",
    );
    holds(&rt, !topk.is_operator() && topk.id() == T_TOPK, "topk");
    let atan2 = TokenType::new(T_ATAN2);
    holds(
        &rt,
        atan2.is_operator() && !atan2.is_set_operator(),
        "atan2",
    );
    holds(&rt, TokenType::new(T_LUNLESS).is_set_operator(), "unless");
    holds(&rt, TokenType::new(T_GTE).is_comparison_operator(), ">=");
    holds(
        &rt,
        TokenType::new(T_STRING) != TokenType::new(T_NUMBER),
        "two",
    );
}

// A text, and whether it is a label.
const LABELS: [(&str, bool); 6] = [
    ("", false),
    ("_", true),
    ("a1_B", true),
    ("1a", false),
    ("a:b", false),
    ("é", false),
];

#[test]
fn labels_are_letters_and_digits(rt: HostRuntime) {
    for (text, wanted) in &LABELS {
        holds(&rt, is_label(text) == *wanted, text);
    }
}
