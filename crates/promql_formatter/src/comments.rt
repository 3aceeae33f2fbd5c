//! The comments of a text: docs/reference/formatting.md, "Comments".

ghost use Rattle.std.specs.Prelude.{◌≡◌, ◌+◌, ◌-◌, ◌++◌, ◌∷◌, IfOk, drop, is_ok, map, take};
ghost use Rattle.std.specs.List.{concat, slice_split};
ghost use Rattle.promql_token.specs.Lexing.{items};
ghost use Rattle.promql_token.specs.Vocabulary.{is_line_end};
ghost use Rattle.promql_text.specs.Texts.{Text};
ghost use Rattle.promql_formatter.specs.CommentScans.{scan};
ghost use Rattle.promql_formatter.specs.Comments.{comment_lines, line_comment};

use promql_token::scan::Lexer;
use std::alloc::{AllocError, Global};

/// Whether a comment ends before the byte.
pub(crate) fn is_line_end(byte: u8) -> bool
    ensures { result ≡ is_line_end byte }
{
    byte == b'\n' || byte == b'\r'
}

/// The bytes between two places; none where there are no such.
pub(crate) fn between(bytes: &[u8], start: usize, end: usize) -> &[u8]
    ensures { result.now ≡ take (end - start) (drop start bytes.now) }
{
    let start = start.min(bytes.len());
    let (_, rest) = bytes.split_at(start);
    let len = end.saturating_sub(start).min(rest.len());
    let (part, _) = rest.split_at(len);
    part
}

/// Appends a byte if it is of a comment, and says whether the next one is inside a comment.
fn push_byte(out: &mut Vec<u8>, inside: bool, byte: u8) -> Result<bool, AllocError>
    ensures { IfOk result (λ next. (rest : Text)
        → out.new.items ++ scan next rest ≡ out.old.items ++ scan inside (byte ∷ rest)) }
{
    if inside {
        if is_line_end(byte) {
            out.push(b'\n')?;
            return Ok(false);
        }
        out.push(byte)?;
        return Ok(true);
    }
    if byte == b'#' {
        out.push(byte)?;
        return Ok(true);
    }
    Ok(false)
}

/// Appends the comments that are between two tokens.
fn push_comments(out: &mut Vec<u8>, gap: &[u8]) -> Result<(), AllocError>
    ensures { IfOk result (λ _. out.new.items
        ≡ out.old.items ++ concat (map line_comment (slice_split is_line_end gap.now))) }
{
    let mut inside = false;
    for byte in gap {
        inside = push_byte(out, inside, *byte)?;
    }
    if inside {
        out.push(b'\n')?;
    }
    Ok(())
}

/// The comments of a text in order, each as a line.
pub fn comment_lines(alloc: Global, text: &str) -> Result<Vec<u8>, AllocError>
    ensures { IfOk result (λ found. found.items ≡ comment_lines text.now) }
{
    let bytes = text.as_bytes();
    let mut found = Vec::new(alloc);
    let mut at: usize = 0;
    for token in Lexer::new(text) {
        let Ok(token) = token else {
            break;
        };
        push_comments(&mut found, between(bytes, at, token.start))?;
        at = token.start.saturating_add(token.len);
    }
    push_comments(&mut found, between(bytes, at, bytes.len()))?;
    Ok(found)
}
