//! What is written of a query that is formatted: docs/reference/programs.md, "One query, formatted".

ghost use Rattle.std.specs.Prelude.{◌≡◌, Err, IfErr, IfOk, Ok, string_bytes};
ghost use Rattle.promql_programs.specs.Layouts.{IsFormatAnswer, begins_with_feed, with_feeds};

use crate::format_settings::FormatSettings;
use promql_query::formatted_query::formatted_query;
use promql_query::query_error::QueryError;
use std::alloc::{AllocError, Global};

/// What is written of a query: its layout and a line feed, or nothing where it is only compared.
pub(crate) fn query_layout(
    alloc: Global,
    settings: &FormatSettings,
    query: &str,
) -> Result<String, QueryError>
    ensures ok { IfOk result (λ s. IsFormatAnswer settings.now query.now (Ok (string_bytes s))) }
    ensures err { IfErr result (λ e. IsFormatAnswer settings.now query.now (Err e)) }
{
    let mut layout = formatted_query(alloc, &settings.limits, &settings.options, query)?;
    if !settings.is_check {
        layout.push_str("\n")?;
        return Ok(layout);
    }
    let written = with_feeds(alloc, query)?;
    let is_bare = written == with_feeds(alloc, layout.as_str())?;
    layout.push_str("\n")?;
    if is_bare || written == with_feeds(alloc, layout.as_str())? {
        Ok(String::new(alloc))
    } else {
        Err(QueryError::NotItsLayout)
    }
}

/// The bytes of a text, with a line feed for each line end as Windows has them.
fn with_feeds(alloc: Global, text: &str) -> Result<Vec<u8>, AllocError>
    ensures { IfOk result (λ bytes. bytes.items ≡ with_feeds text.now) }
{
    let mut bytes = Vec::new(alloc);
    let mut rest = text.as_bytes();
    while let [b, after @ ..] = rest {
        if !(*b == b'\r' && begins_with_feed(after)) {
            bytes.push(*b)?;
        }
        rest = after;
    }
    Ok(bytes)
}

/// Whether the first byte is a line feed.
fn begins_with_feed(bytes: &[u8]) -> bool
    ensures { result ≡ begins_with_feed bytes.now }
{
    match bytes {
        [first, ..] => *first == b'\n',
        [] => false,
    }
}
