//! What a call returns, and what it writes into its caller's buffer.

ghost use Rattle.std.specs.Prelude.{◌≡◌, None, Some, Ok, Err, if◌then◌else◌, nat_le, option_map, string_bytes};
ghost use Rattle.promql_grammar.specs.Results.{on_result};
ghost use Rattle.promql_c.specs.CallResults.{IsStored, Shows, placed_result};
ghost use Rattle.promql_query.specs.QueryErrors.{query_error_number, rejected_in};

use promql_query::matcher_reason::error_message;
use promql_query::query_error::QueryError;
use promql_query::rejection::Rejection;
use std::alloc::Global;

/// What a call returns beside the bytes that it writes (docs/guide/bindings.md, "Results").
#[repr(C)]
#[derive(Clone, Copy)]
pub struct CallResult {
    /// 0, or why the buffer does not have what was asked for (docs/guide/bindings.md, "Statuses").
    pub status: u32,
    /// The bytes of the text, or of the error's message. Where the buffer has fewer, it is left as it was.
    pub length: usize,
    /// Where the part of the query begins that a rejection is about, in bytes; 0 where the query is not rejected.
    pub start: usize,
    /// Where that part ends; it is empty at the end of the query.
    pub end: usize,
    /// The line of `start`, from 1; 0 where the query is not rejected.
    pub line: usize,
    /// The column of `start` in characters, from 1; 0 where the query is not rejected.
    pub column: usize,
}

/// Writes the text at the start of the buffer if it fits; else the buffer is left as it was.
fn store(text: &str, buffer: &mut [u8])
    ensures { IsStored text.now buffer.old buffer.new }
{
    let bytes = text.as_bytes();
    if bytes.len() <= buffer.len() {
        buffer[..bytes.len()].copy_from_slice(bytes);
    }
}

/// The status of a text of this length for a buffer of this size.
fn status_of(length: usize, size: usize) -> u32
    ensures { result ≡ (if nat_le length size then 0 else 8) }
{
    if length <= size { 0 } else { 8 }
}

/// A result without a place.
fn plain(status: u32, length: usize) -> CallResult
    ensures { result ≡ placed_result status length None }
{
    CallResult {
        status,
        length,
        start: 0,
        end: 0,
        line: 0,
        column: 0,
    }
}

/// The result of a query that is rejected, whose message has this length.
fn placed(status: u32, length: usize, rejection: &Rejection) -> CallResult
    ensures { result ≡ placed_result status length (Some rejection.now) }
{
    let Rejection { span, location, .. } = rejection;
    CallResult {
        status,
        length,
        start: span.start,
        end: span.end,
        line: location.line,
        column: location.column,
    }
}

/// The result of an error whose message has this length.
fn result_of(error: &QueryError, length: usize) -> CallResult
    ensures { result ≡ placed_result (query_error_number error.now) length (option_map (λ r. r.rejection) (rejected_in error.now)) }
{
    let status = u32::from(error.number());
    match error.rejected_query() {
        Some(query) => placed(status, length, &query.rejection),
        None => plain(status, length),
    }
}

/// Writes a text if it fits.
pub(crate) fn show_text(text: &str, buffer: &mut [u8]) -> CallResult
    ensures { Shows (Ok text.now) result buffer.old buffer.new }
{
    let status = status_of(text.len(), buffer.len());
    store(text, buffer);
    plain(status, text.len())
}

/// Writes the message of an error if it fits, where this matcher was to be enforced. A message for which an allocation failed is empty.
fn show_error(
    alloc: Global,
    error: &QueryError,
    matcher: Option<&str>,
    buffer: &mut [u8],
) -> CallResult
    ensures { Shows (Err error.now) result buffer.old buffer.new }
{
    let message = error_message(alloc, error, matcher).unwrap_or(String::new(alloc));
    store(message.as_str(), buffer);
    result_of(error, message.len())
}

/// Writes what was made of a query, the text or the message of the error, if it fits.
pub(crate) fn show(alloc: Global, made: Result<String, QueryError>, buffer: &mut [u8]) -> CallResult
    ensures { Shows (on_result (λ s. string_bytes s) made) result buffer.old buffer.new }
{
    show_enforced(alloc, made, None, buffer)
}

/// The same, where this matcher was to be enforced.
pub(crate) fn show_enforced(
    alloc: Global,
    made: Result<String, QueryError>,
    matcher: Option<&str>,
    buffer: &mut [u8],
) -> CallResult
    ensures { Shows (on_result (λ s. string_bytes s) made) result buffer.old buffer.new }
{
    match made {
        Ok(text) => show_text(text.as_str(), buffer),
        Err(error) => show_error(alloc, &error, matcher, buffer),
    }
}
