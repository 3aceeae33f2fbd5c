//! Parts of a text by its tokens. They are looked for by a `Lexer`, without an allocation.

ghost use Rattle.std.specs.Prelude.{◌≡◌, ◌+◌, ◌<◌, ◌≤◌, ◌^◌, filter, length, slice_get, IfSome, List, None, Some};
ghost use Rattle.promql_token.specs.declared.lexeme.Lexeme as code;
ghost use Rattle.promql_span.specs.CharSpans.{IsCharAt};
ghost use Rattle.promql_span.specs.PlacedTokens.{end_of, first_span, last_tokens, placed_tokens, span_of};
ghost use Rattle.promql_span.specs.SpanSteps.{begins_in, cover, first_from, in_range, through};
ghost use Rattle.promql_span.specs.TokenSpans.{IsAtTokens, span_over, tokens_by};

use crate::argument::argument_part;
use crate::placed::PlacedTokens;
use crate::span::Span;
use promql_syntax::grammar::place::TokenRange;
use promql_token::Lexeme;

/// The end of a text: an empty span.
pub fn end_of_text(text: &str) -> Span
    ensures { result ≡ end_of text.now }
{
    Span {
        start: text.len(),
        end: text.len(),
    }
}

/// The character that has the byte at `at`, or the end of the text where it has no such byte.
pub fn char_span(text: &str, at: usize) -> Span
    ensures char { at < length text.now → IsCharAt text.now at result }
    ensures end { length text.now ≤ at → result ≡ end_of text.now }
{
    if at >= text.len() {
        return end_of_text(text);
    }
    Span {
        start: text.floor_char_boundary(at),
        end: text.ceil_char_boundary(at + 1),
    }
}

/// The first of the last `left` tokens, or the end of the text where none is left.
pub fn token_left(text: &str, left: usize) -> Span
    ensures is { result ≡ first_span text.now (last_tokens left (placed_tokens text.now)) }
    ensures at { 0 < left → 0 < length (placed_tokens text.now) → IsAtTokens text.now result }
{
    let before = PlacedTokens::new(text).count().saturating_sub(left);
    match PlacedTokens::new(text).nth(before) {
        Some(token) => span_of(token),
        None => end_of_text(text),
    }
}

/// The tokens that begin in this part of the text, or the first after it, or the last token where
/// none is after it, or the end of the text where it has no token.
pub fn span_between(text: &str, part: Span) -> Span
    ensures is { result ≡ span_over text.now (tokens_by part (placed_tokens text.now)) }
    ensures at { 0 < length (placed_tokens text.now) → IsAtTokens text.now result }
{
    match span_inside(text, part) {
        Some(span) => span,
        None => token_from(text, part.start),
    }
}

/// From the first to the last of the tokens with these indexes; `None` where the text has none of them.
pub fn span_of_tokens(text: &str, range: TokenRange) -> Option<Span>
    ensures { result ≡ cover None (in_range range 0 (placed_tokens text.now)) }
{
    let mut found = None;
    let mut index: usize = 0;
    for token in PlacedTokens::new(text) {
        if range.start <= index && index < range.end {
            found = Some(through(found, span_of(token)));
        }
        index = index.saturating_add(1);
    }
    found
}

/// The argument with this index, from 0, of the call or the aggregation whose tokens begin in this
/// part of the text. Where it has no such argument, it is what `span_between` gives for the part.
pub fn argument_span(text: &str, part: Span, index: usize) -> Span
    ensures at { 0 < length (placed_tokens text.now) → IsAtTokens text.now result }
{
    span_between(text, argument_part(text, part, index))
}

/// The part that a token takes.
pub fn span_of(token: Lexeme) -> Span
    requires { token.start + token.len < 2 ^ 64 }
    ensures { result ≡ span_of token }
{
    Span {
        start: token.start,
        end: token.start + token.len,
    }
}

/// The part that the next token of a text takes, or the end of the text where none comes.
pub fn next_span(text: &str, next: Option<Lexeme>) -> Span
    requires { IfSome next (λ x. x.start + x.len < 2 ^ 64) }
    ensures { (left : List code.Lexeme) → next ≡ slice_get left 0 → result ≡ first_span text.now left }
{
    match next {
        Some(token) => span_of(token),
        None => end_of_text(text),
    }
}

/// Whether a token begins in this part.
pub fn is_inside(part: Span, token: Lexeme) -> bool
    ensures { result ≡ begins_in part token }
{
    part.start <= token.start && token.start < part.end
}

/// A span that goes on through a later one, or the later one alone.
pub fn through(found: Option<Span>, later: Span) -> Span
    ensures { result ≡ through found later }
{
    match found {
        Some(span) => Span {
            start: span.start,
            end: later.end,
        },
        None => later,
    }
}

/// From the first to the last of the tokens that begin in this part of the text.
fn span_inside(text: &str, part: Span) -> Option<Span>
    ensures { result ≡ cover None (filter (begins_in part) (placed_tokens text.now)) }
{
    let mut found = None;
    for token in PlacedTokens::new(text) {
        if is_inside(part, token) {
            found = Some(through(found, span_of(token)));
        }
    }
    found
}

/// The first token that begins at `at` or after it, or the last token, or the end of the text.
fn token_from(text: &str, at: usize) -> Span
    ensures { result ≡ first_from at (end_of text.now) (placed_tokens text.now) }
{
    let mut last = end_of_text(text);
    for token in PlacedTokens::new(text) {
        last = span_of(token);
        if at <= token.start {
            return last;
        }
    }
    last
}
