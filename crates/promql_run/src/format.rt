//! How an expression is printed: docs/reference/programs.md, "Modes".

ghost use Rattle.std.specs.Prelude.{◌≡◌};
ghost use Rattle.promql_run.specs.Running.{format_named};

/// Where an expression is laid out, and how wide.
#[derive(Clone, Copy, PartialEq, Eq, Debug)]
pub struct Layout {
    /// Indentations of two spaces before its first line.
    pub level: u16,
    /// The most bytes that a line has, its indentation not counted.
    pub width: usize,
}

/// How an expression is printed.
#[derive(Clone, Copy, PartialEq, Eq, Debug)]
pub enum Format {
    /// Laid out over several lines.
    Pretty(Layout),
    /// On one line.
    Line,
    /// As its JSON form, without a space.
    Json,
}

/// The layout of the mode `pretty`: from the first column, in lines of at most 100 bytes.
pub const PRETTY_LAYOUT: Layout = Layout {
    level: 0,
    width: 100,
};

impl Format {
    /// The format of the mode of this name; `None` for any other word.
    pub fn from_name(name: &str) -> Option<Format>
        ensures { result ≡ format_named name.now }
    {
        match name {
            "pretty" => Some(Format::Pretty(PRETTY_LAYOUT)),
            "line" => Some(Format::Line),
            "json" => Some(Format::Json),
            _ => None,
        }
    }
}
