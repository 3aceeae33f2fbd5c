//! Why a text is no matcher, for people: docs/reference/programs.md, "One query, enforced".

use crate::query_error::QueryError;
use promql_rewrite::MatcherError;
use promql_span::diagnosis::{Diagnosis, diagnose};
use promql_span::unexpected::unexpected_at;
use promql_span::{Location, PlacedTokens, Span, end_of_text, snippet, visible};
use promql_syntax::parser::ParseError;
use promql_token::TokenId;
use promql_token::ids::{T_COMMA, T_LOR, T_RIGHT_BRACE};
use std::alloc::{AllocError, Global};

/// What is wrong with a text that is no matcher: a message on one line, and its part of the text.
struct Fault {
    message: String,
    span: Span,
}

/// Why a text is no matcher: a message, and the text with a mark. Both show escapes in place of hidden characters. Nothing of the text is
/// copied but for its line.
///
/// # Errors
///
/// `AllocError` where an allocation failed.
pub fn matcher_report(alloc: Global, matcher: &str) -> Result<String, AllocError> {
    let Fault { message, span } = fault_of(alloc, matcher)?;
    let mut report = String::from_str(alloc, "not a matcher: ")?;
    report.push_str(visible(alloc, message.as_str())?.as_str())?;
    report.push_str("\n")?;
    report.push_str(snippet(alloc, matcher, span)?.as_str())?;
    report.push_str("\n")?;
    Ok(report)
}

/// What is said of an error, where this matcher was to be enforced. Where it is no matcher, that is what is wrong with it, after the line and
/// the column in its text.
///
/// # Errors
///
/// `AllocError` where an allocation failed.
pub fn error_message(
    alloc: Global,
    error: &QueryError,
    matcher: Option<&str>,
) -> Result<String, AllocError> {
    match (error, matcher) {
        (QueryError::Matcher(MatcherError::NotAMatcher), Some(text)) => {
            matcher_message(alloc, text)
        }
        _ => error.to_string(alloc),
    }
}

fn matcher_message(alloc: Global, matcher: &str) -> Result<String, AllocError> {
    let Fault { message, span } = fault_of(alloc, matcher)?;
    let place = Location::line_column(matcher, span.start).to_string(alloc)?;
    let mut reason = String::from_str(alloc, "not a matcher: ")?;
    reason.push_str(place.as_str())?;
    reason.push_str(": ")?;
    reason.push_str(message.as_str())?;
    Ok(reason)
}

/// What is wrong with a text that is no matcher.
fn fault_of(alloc: Global, matcher: &str) -> Result<Fault, AllocError> {
    if matcher.trim().is_empty() {
        let message = String::from_str(alloc, "it is empty")?;
        let span = end_of_text(matcher);
        return Ok(Fault { message, span });
    }
    let opened = joined(alloc, "{", matcher)?;
    if let Some(span) = first_token(opened.as_str(), &[T_RIGHT_BRACE]) {
        let message = String::from_str(alloc, "unexpected \"}\", a matcher has no braces")?;
        let span = within(matcher, span);
        return Ok(Fault { message, span });
    }
    let closed = joined(alloc, opened.as_str(), "\n}")?;
    read_fault(alloc, matcher, opened.as_str(), closed.as_str())
}

/// What is wrong with the text, where it has no brace that closes: it was `opened` by a brace, and `closed`.
fn read_fault(
    alloc: Global,
    matcher: &str,
    opened: &str,
    closed: &str,
) -> Result<Fault, AllocError> {
    match diagnose(alloc, closed) {
        Ok(expr) => {
            promql_ast::drop_expr(expr);
            let message = String::from_str(alloc, "it is not one matcher")?;
            let span = match first_token(opened, &[T_COMMA, T_LOR]) {
                Some(span) => within(matcher, span),
                None => end_of_text(matcher),
            };
            Ok(Fault { message, span })
        }
        Err(
            Diagnosis {
                error,
                span: Some(span),
            },
        ) if span.start <= matcher.len() => {
            let message = message_of(alloc, closed, &error, span)?;
            let span = within(matcher, span);
            Ok(Fault { message, span })
        }
        Err(_) => {
            let message = end_message(alloc, opened)?;
            let span = end_of_text(matcher);
            Ok(Fault { message, span })
        }
    }
}

/// Where the first token of one of these kinds is.
fn first_token(text: &str, ids: &[TokenId]) -> Option<Span> {
    for token in PlacedTokens::new(text) {
        if ids.contains(&token.id) {
            return Some(Span {
                start: token.start,
                end: token.start.saturating_add(token.len),
            });
        }
    }
    None
}

/// A text after another one.
fn joined(alloc: Global, first: &str, second: &str) -> Result<String, AllocError> {
    let mut text = String::from_str(alloc, first)?;
    text.push_str(second)?;
    Ok(text)
}

/// A part of a text after a brace, as a part of the text.
fn within(matcher: &str, span: Span) -> Span {
    Span {
        start: span.start.saturating_sub(1),
        end: span.end.saturating_sub(1).min(matcher.len()),
    }
}

/// What is said of an error at this part of a text.
fn message_of(
    alloc: Global,
    text: &str,
    error: &ParseError,
    span: Span,
) -> Result<String, AllocError> {
    match error {
        ParseError::Syntax => unexpected_at(alloc, text, span.start)?.to_string(alloc),
        _ => error.to_string(alloc),
    }
}

/// What is said of a text that ends too early.
fn end_message(alloc: Global, text: &str) -> Result<String, AllocError> {
    let message = unexpected_at(alloc, text, text.len())?.to_string(alloc)?;
    match message.as_str().strip_prefix("unexpected end of query") {
        Some(rest) => joined(alloc, "unexpected end", rest),
        None => Ok(message),
    }
}
