//! The colours of messages, for people at a terminal: docs/reference/programs.md, "Colours".

ghost use Rattle.std.specs.Prelude.{◌≡◌, ◌++◌, false, OnOk, string_bytes};
ghost use Rattle.promql_run.specs.Colors.{marked, painted};

use std::alloc::AllocError;

/// What makes a terminal write in bold.
pub const BOLD: &str = "\x1b[1m";

/// What makes it write in magenta.
pub const MAGENTA: &str = "\x1b[35m";

/// What makes it write in green and bold.
pub const GREEN: &str = "\x1b[1;32m";

/// What ends a colour.
pub const PLAIN: &str = "\x1b[0m";

/// Appends a part of a message, in a color where colors are wanted.
pub fn push_painted(
    out: &mut String,
    colors: bool,
    color: &str,
    part: &str,
) -> Result<(), AllocError>
    ensures { OnOk result (string_bytes out.new ≡ string_bytes out.old ++ painted colors color.now part.now) }
{
    if !colors {
        return out.push_str(part);
    }
    out.push_str(color)?;
    out.push_str(part)?;
    out.push_str(PLAIN)
}

/// Appends a text, where colors are wanted with its mark in a color: the last `^` and what comes after it.
pub fn push_marked(
    out: &mut String,
    colors: bool,
    color: &str,
    text: &str,
) -> Result<(), AllocError>
    ensures painted { OnOk result (string_bytes out.new ≡ string_bytes out.old ++ marked colors color.now text.now) }
    ensures plain { OnOk result (colors ≡ false → string_bytes out.new ≡ string_bytes out.old ++ text.now) }
{
    match text.rfind('^') {
        Some(at) => {
            let (line, mark) = text.split_at(at);
            out.push_str(line)?;
            push_painted(out, colors, color, mark)
        }
        None => out.push_str(text),
    }
}
