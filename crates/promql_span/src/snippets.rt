//! Lines of a text with a mark below them: docs/reference/grammar.md, "Places of errors".

ghost use Rattle.std.specs.Prelude.{◌≡◌, ◌==◌, ◌≤◌, ◌++◌, ◌∷◌, ◌-◌, IfOk, OnOk, chars, drop, encode_utf8_all, length, map, replicate, string_bytes, take, IsCharBoundary};
ghost use Rattle.std.specs.List.{after_last, before_first};
ghost use Rattle.promql_text.specs.Texts.{code};
ghost use Rattle.promql_span.specs.Locations.{characters_before, is_line_feed};
ghost use Rattle.promql_span.specs.Snippets.{blank, snippet_of, snippet_text};

use crate::span::Span;
use crate::visibility::visible;
use std::alloc::{AllocError, Global};

/// How many characters of a line are shown.
const WIDTH: usize = 100;
/// How many of them are before the mark, where both sides of it have more.
const MARGIN: usize = 50;

/// The line of a text with the start of a span, made visible, and below it `^` at the start and
/// `~` at what is left of the span in that line. It has a line feed between them, and none at the
/// end.
pub fn snippet(alloc: Global, text: &str, span: Span) -> Result<String, AllocError>
    ensures { IfOk result (λ shown. string_bytes shown
        ≡ encode_utf8_all (snippet_text (chars text.now) span)) }
{
    let front = text_before(text, span.start);
    let rest = &text[front.len()..];
    let marked = char_count(text_before(text, span.end)).saturating_sub(char_count(front));
    show(
        alloc,
        after_line_feed(front),
        up_to(up_to(rest, '\n'), '\r'),
        marked,
    )
}

/// The characters that end at or before the byte at `offset`.
pub fn text_before(text: &str, offset: usize) -> &str
    ensures value { chars result.now ≡ characters_before (chars text.now) offset }
    ensures front { result.now ≡ take (length result.now) text.now }
    ensures short { length result.now ≤ length text.now }
    ensures boundary { IsCharBoundary text.now (length result.now) }
{
    &text[..text.floor_char_boundary(offset)]
}

/// What comes after the last line feed, or all where there is none.
fn after_line_feed(text: &str) -> &str
    ensures { chars result.now ≡ after_last is_line_feed (chars text.now) }
{
    match text.rfind('\n') {
        Some(at) => &text[at + 1..],
        None => text,
    }
}

/// What comes before the first of this character, or all where there is none.
fn up_to(text: &str, stop: char) -> &str
    ensures { chars result.now ≡ before_first (λ c. c == stop) (chars text.now) }
{
    match text.find(stop) {
        Some(at) => &text[..at],
        None => text,
    }
}

fn char_count(text: &str) -> usize
    ensures { result ≡ length (chars text.now) }
{
    text.chars().count()
}

/// The part of a line that is shown, and the mark below it.
fn show(alloc: Global, left: &str, right: &str, marked: usize) -> Result<String, AllocError>
    ensures { IfOk result (λ shown. string_bytes shown
        ≡ encode_utf8_all (snippet_of (chars left.now) (chars right.now) marked)) }
{
    let count = char_count(left);
    let width = count.saturating_add(char_count(right));
    let skipped = count
        .saturating_sub(MARGIN)
        .min(width.saturating_sub(WIDTH));
    let (_, before) = left.split_at(byte_of_char(left, skipped));
    let room = WIDTH.saturating_sub(char_count(before));
    let (after, _) = right.split_at(byte_of_char(right, room));
    let (inside, beyond) = after.split_at(byte_of_char(after, marked));
    let before = visible(alloc, before)?;
    let inside = visible(alloc, inside)?;
    let beyond = visible(alloc, beyond)?;
    let mut shown = String::new(alloc);
    shown.push_str(before.as_str())?;
    shown.push_str(inside.as_str())?;
    shown.push_str(beyond.as_str())?;
    shown.push('\n')?;
    push_blank(&mut shown, before.as_str())?;
    push_mark(&mut shown, char_count(inside.as_str()))?;
    Ok(shown)
}

/// The byte at which the character with this index begins, or the length of the text.
fn byte_of_char(text: &str, index: usize) -> usize
    ensures place { IsCharBoundary text.now result }
    ensures front { chars (take result text.now) ≡ take index (chars text.now) }
    ensures back { chars (drop result text.now) ≡ drop index (chars text.now) }
{
    let mut at: usize = 0;
    let mut left = index;
    for c in text.chars() {
        if left == 0 {
            return at;
        }
        left -= 1;
        at += c.len_utf8();
    }
    at
}

/// Appends what is below the characters before a mark.
fn push_blank(out: &mut String, before: &str) -> Result<(), AllocError>
    ensures { OnOk result (string_bytes out.new
        ≡ string_bytes out.old ++ map blank (chars before.now)) }
{
    for c in before.chars() {
        out.push(blank(c))?;
    }
    Ok(())
}

/// What is below a character that is before a mark: a tab stays a tab.
fn blank(c: char) -> char
    ensures { result ≡ blank c }
{
    if c == '\t' { '\t' } else { ' ' }
}

/// Appends a mark of this many characters, or of one.
fn push_mark(out: &mut String, marked: usize) -> Result<(), AllocError>
    ensures { OnOk result (string_bytes out.new
        ≡ string_bytes out.old ++ code "^" ∷ replicate (marked - 1) (code "~")) }
{
    out.push('^')?;
    for _at in 0..marked.saturating_sub(1) {
        out.push('~')?;
    }
    Ok(())
}
