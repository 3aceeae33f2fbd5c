//! Escaped texts, and quoted texts that are read.

use crate::tests::{holds, is_so, prints};
use promql_text::{QuoteError, escape_string, unquote_string};
use std::alloc::{AllocError, Global};

/// Texts with their escapes.
const ESCAPED: [(&str, &str); 5] = [
    ("", ""),
    ("\\", "\\\\"),
    ("a\"b", "a\\\"b"),
    ("\n\r\t", "\\n\\r\\t"),
    ("\0\u{7f}é€'`", "\0\u{7f}é€'`"),
];

#[test]
fn texts_are_escaped(rt: HostRuntime) {
    for (text, want) in &ESCAPED {
        prints(&rt, escape_string(rt.alloc(), text), want);
    }
}

/// Quoted texts, and what they are for.
const UNQUOTED: [(&str, &str); 9] = [
    (r#""""#, ""),
    (r#""\x41\u20AC\101""#, "A€A"),
    (r#""\xff""#, "ÿ"),
    (r#""\377""#, "ÿ"),
    (r#""\U0001F600""#, "😀"),
    (
        r#""\a\b\f\n\r\t\v\\\"'""#,
        "\u{7}\u{8}\u{c}\n\r\t\u{b}\\\"'",
    ),
    (r#"'it\'s "é"'"#, "it's \"é\""),
    (r#"`a\n"'é`"#, r#"a\n"'é"#),
    ("`a\nb`", "a\nb"),
];

/// Whether the quoted text is for the other.
fn is_unquoted(alloc: Global, text: &str, want: &str) -> bool {
    match unquote_string(alloc, text) {
        Ok(found) => found.as_str() == want,
        Err(_) => false,
    }
}

#[test]
fn quoted_texts_are_read(rt: HostRuntime) {
    for (text, want) in &UNQUOTED {
        holds(&rt, is_unquoted(rt.alloc(), text, want), text);
    }
}

/// Whether a text of so many escapes and letters is read between quotes.
fn is_long_unquoted(alloc: Global, pairs: usize) -> Result<bool, AllocError> {
    let quoted = format!(in alloc; "\"{}\"", r"\na".repeat(alloc, pairs)?)?;
    let want = "\na".repeat(alloc, pairs)?;
    Ok(is_unquoted(alloc, quoted.as_str(), want.as_str()))
}

#[test]
fn long_texts_are_read(rt: HostRuntime) {
    for pairs in &[100, 5_000, 35_000] {
        is_so(&rt, is_long_unquoted(rt.alloc(), *pairs), "pairs");
    }
}

/// Texts that are not quoted, or have an escape of nothing.
const REJECTED: [&str; 17] = [
    "",
    "\"",
    "a",
    "'a\"",
    r#""a"b""#,
    r#""\400""#,
    r#""\18""#,
    r#""\é""#,
    r#""\ud800""#,
    r#""\U00110000""#,
    r#""\UFFFFFFFF""#,
    r#""\x4""#,
    r#""\q""#,
    r#""\'""#,
    r#""\""#,
    "\"a\nb\"",
    "`a`b`",
];

#[test]
fn other_texts_are_rejected(rt: HostRuntime) {
    for text in &REJECTED {
        let error = unquote_string(rt.alloc(), text).err();
        holds(&rt, error == Some(QuoteError::InvalidSyntax), text);
    }
}

#[test]
fn errors_have_messages(rt: HostRuntime) {
    let alloc = rt.alloc();
    prints(&rt, QuoteError::Memory.to_string(alloc), "out of memory");
    let syntax = QuoteError::InvalidSyntax.to_string(alloc);
    prints(&rt, syntax, "invalid syntax");
}
