//! Quoted texts: joined, and byte by byte.

use crate::tests::{is_so, prints};
use promql_text::{Quoted, QuotedBytes, write_joined};
use std::alloc::{AllocError, Global};
use std::fmt;

// Quoted texts with a bar between each two.
#[derive(Clone, Copy)]
struct Barred<'a>(&'a [Quoted<'a>]);

impl fmt::Display for Barred<'_> {
    ghost use Rattle.std.specs.Prelude.{Some, codes, map};
    ghost use Rattle.promql_text.specs.Quoting.{quoted_text};
    ghost use Rattle.promql_text.specs.Texts.{joined_text};

    ghost output = { λ texts. Some (joined_text (codes " | ")
        (map (λ t. quoted_text t.0.now) texts.0.now)) };

    fn fmt<W: fmt::Write>(&self, f: &mut fmt::Formatter<W>) -> fmt::Result {
        write_joined(self.0, " | ", f)
    }
}

const TEXTS: [(&[Quoted<'static>], &str); 3] = [
    (&[], ""),
    (&[Quoted("a")], r#""a""#),
    (
        &[Quoted("é\n"), Quoted(""), Quoted("\\\"\r\t'")],
        r#""é\n" | "" | "\\\"\r\t'""#,
    ),
];

#[test]
fn quoted_texts_are_joined(rt: HostRuntime) {
    for (texts, want) in &TEXTS {
        prints(&rt, Barred(texts).to_string(rt.alloc()), want);
    }
}

/// Texts, and what they are quoted.
const BYTES: [(&str, &str); 3] = [
    ("", r#""""#),
    ("\\\"\n\r\t", r#""\\\"\n\r\t""#),
    ("aé\n", r#""aé\n""#),
];

/// Whether the bytes of the quoted text are those of the other.
fn has_bytes(alloc: Global, text: &str, want: &str) -> Result<bool, AllocError> {
    let bytes: Vec<u8> = QuotedBytes::new(text).collect(alloc)?;
    Ok(bytes.as_slice() == want.as_bytes())
}

#[test]
fn bytes_of_quoted_texts(rt: HostRuntime) {
    for (text, want) in &BYTES {
        is_so(&rt, has_bytes(rt.alloc(), text, want), text);
    }
}
