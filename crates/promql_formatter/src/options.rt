//! How a query is laid out: docs/reference/formatting.md, "Options".

ghost use Rattle.std.specs.Prelude.{IfErr, OnOk};
ghost use Rattle.promql_formatter.specs.Options.{AreWithin, IsTooWide};

use promql_span::limits::MAX_OUTPUT;
use thiserror::Error;

/// The most characters of a line, if nothing else is asked for.
pub const DEFAULT_WIDTH: usize = 100;

/// The spaces of an indentation, if nothing else is asked for.
pub const DEFAULT_INDENT_WIDTH: usize = 2;

/// The greatest width that may be asked for.
pub const MAX_WIDTH: usize = 65_535;

/// The widest indentation that may be asked for.
pub const MAX_INDENT_WIDTH: usize = 16;

/// How a query is laid out (docs/reference/formatting.md, "Options").
#[derive(Clone, Copy, Debug, PartialEq, Eq)]
pub struct FormatOptions {
    /// The most characters of a line, its indentation counted. A line is longer only where it cannot be broken.
    pub width: usize,
    /// The spaces of an indentation.
    pub indent_width: usize,
    /// Whether numbers, durations, strings, keywords, clauses and the order of matchers stay as they are written.
    pub keep_spelling: bool,
    /// Whether the matchers of a selector are in byte order, unless the spelling is kept.
    pub sort_matchers: bool,
    /// The most bytes of the layout.
    pub max_output: usize,
}

/// An option asks for more than it may.
#[derive(Clone, Copy, Debug, PartialEq, Eq, Error)]
pub enum WideOption {
    /// The lines are too wide.
    #[error("width is too large: {width}, at most {most}")]
    Lines {
        /// The width that was asked for.
        width: usize,
        /// The most that may be: `MAX_WIDTH`.
        most: usize,
    },
    /// The indentations are too wide.
    #[error("indentation is too large: {indent_width}, at most {most}")]
    Indentations {
        /// The indentation that was asked for.
        indent_width: usize,
        /// The most that may be: `MAX_INDENT_WIDTH`.
        most: usize,
    },
}

impl FormatOptions {
    /// Lines of 100 characters, indentations of two spaces, one spelling for all, matchers as written, and at most 4 MiB.
    pub fn new() -> FormatOptions {
        FormatOptions {
            width: DEFAULT_WIDTH,
            indent_width: DEFAULT_INDENT_WIDTH,
            keep_spelling: false,
            sort_matchers: false,
            max_output: MAX_OUTPUT,
        }
    }

    /// Checks that no line and no indentation is wider than it may be.
    ///
    /// # Errors
    ///
    /// `Lines` where the width is above `MAX_WIDTH`, then `Indentations` where the indentation is above `MAX_INDENT_WIDTH`.
    pub fn check(&self) -> Result<(), WideOption>
        ensures within { OnOk result (AreWithin self.now) }
        ensures fault { IfErr result (IsTooWide self.now) }
    {
        if self.width > MAX_WIDTH {
            return Err(WideOption::Lines {
                width: self.width,
                most: MAX_WIDTH,
            });
        }
        if self.indent_width > MAX_INDENT_WIDTH {
            return Err(WideOption::Indentations {
                indent_width: self.indent_width,
                most: MAX_INDENT_WIDTH,
            });
        }
        Ok(())
    }
}
