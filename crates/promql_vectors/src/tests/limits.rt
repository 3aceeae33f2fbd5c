//! Texts of many tokens.

use super::{Failed, is_so, read};
use promql_parser::parser::lexer;
use std::alloc::{AllocError, Global};

/// A pair of parentheses round a text twice, with a minus between, so many times over: the height grows by two.
fn balanced(alloc: Global, levels: usize) -> Result<String, AllocError> {
    let mut text = String::from_str(alloc, "metric")?;
    for _ in 0..levels {
        text = format!(in alloc; "({text}) - ({text})")?;
    }
    Ok(text)
}

/// Whether the text has more than so many tokens.
fn has_tokens(alloc: Global, text: &str, least: usize) -> bool {
    match lexer(alloc, text) {
        Ok(lexemes) => least < lexemes.len(),
        Err(_) => false,
    }
}

/// Whether a text of so many levels has more than so many tokens, and is printed as it is.
fn is_printed(alloc: Global, levels: usize, least: usize) -> Result<bool, Failed> {
    let text = balanced(alloc, levels)?;
    let is_long = has_tokens(alloc, text.as_str(), least);
    let expr = read(alloc, text.as_str())?;
    Ok(is_long && expr.to_string(alloc)? == text)
}

#[test]
fn texts_of_many_tokens(rt: HostRuntime) {
    is_so(&rt, is_printed(rt.alloc(), 11, 10_000), "11 levels");
    is_so(&rt, is_printed(rt.alloc(), 15, 100_000), "15 levels");
}
