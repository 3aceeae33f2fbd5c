//! Lines and columns of a text: docs/reference/texts.md, "Lines and columns".

ghost use Rattle.std.specs.Prelude.{◌≡◌};
ghost use Rattle.std.specs.Str.{chars};
ghost use Rattle.promql_span.specs.Locations as spec;

use crate::snippets::text_before;
use promql_text::write_plain;
use std::fmt;

/// A place of a text, by its line and its column. It prints as `3:14`.
#[derive(Clone, Copy, Debug, PartialEq, Eq)]
pub struct Location {
    /// The line, from 1.
    pub line: usize,
    /// The column in characters, from 1.
    pub column: usize,
}

impl Location {
    /// The line and the column of the byte at `offset`.
    ///
    /// A byte inside a character has the place of that character, and one past the end has the
    /// place of the end.
    pub fn line_column(text: &str, offset: usize) -> Location
        ensures { result ≡ spec.location_of text.now offset }
    {
        let mut location = Location { line: 1, column: 1 };
        for c in text_before(text, offset).chars() {
            if c == '\n' {
                location.line += 1;
                location.column = 1;
            } else {
                location.column += 1;
            }
        }
        location
    }

    /// The column of the byte at `offset` in units of UTF-16, from 1, as editors count.
    pub fn column_utf16(text: &str, offset: usize) -> usize
        ensures { result ≡ spec.column_utf16_of (chars text.now) offset }
    {
        let mut column = 1;
        for c in text_before(text, offset).chars() {
            if c == '\n' {
                column = 1;
            } else {
                column += c.len_utf16();
            }
        }
        column
    }
}

impl fmt::Display for Location {
    ghost use Rattle.std.specs.Prelude.{Some};

    ghost output = { λ place. Some (spec.location_text place) };

    ghost styled_output = { λ place _. Some (spec.location_text place) };

    fn fmt<W: fmt::Write>(&self, f: &mut fmt::Formatter<W>) -> fmt::Result {
        let line = self.line;
        let column = self.column;
        write_plain(format_args!("{line}:{column}"), f)
    }
}
