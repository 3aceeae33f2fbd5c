//! In which modes a call prints: docs/guide/bindings.md, "Calls".

ghost use Rattle.std.specs.Prelude.{◌≡◌};
ghost use Rattle.promql_c.specs.Formats.{format_numbered, mode_numbered};

use promql_query::mode::Mode;
use promql_run::format::{Format, Layout};

/// The greatest level of a layout.
const MAX_LEVEL: u32 = 512;

/// The format of a mode's number; `None` where there is none. Only a layout has a level and a width.
pub(crate) fn format_of(mode: u32, level: u32, width: usize) -> Option<Format>
    ensures { result ≡ format_numbered mode level width }
{
    match mode {
        0 => Some(Format::Line),
        1 => {
            if level > MAX_LEVEL {
                return None;
            }
            let level = level as u16;
            Some(Format::Pretty(Layout { level, width }))
        }
        2 => Some(Format::Json),
        _ => None,
    }
}

/// The mode of this number; `None` where there is none.
pub(crate) fn mode_of(mode: u32, level: u32, width: usize) -> Option<Mode>
    ensures { result ≡ mode_numbered mode level width }
{
    if mode == 3 {
        return Some(Mode::Placed);
    }
    match format_of(mode, level, width) {
        Some(format) => Some(Mode::Plain(format)),
        None => None,
    }
}
