//! Values that print the same under all options of a placeholder (docs/reference/texts.md, "Options").

ghost use Rattle.std.specs.Prelude.{◌≡◌};
ghost use Rattle.std.specs.Fmt.{DisplaysStyledOnOk, HasWrittenStyled, IsFlush};

use std::fmt;
use std::fmt::Display;

/// A formatter as a writer. Its options say nothing about what is written into it.
struct Plain<'a, W> {
    f: &'a mut fmt::Formatter<W>,
}

impl<W: fmt::Write> fmt::Write for Plain<'_, W> {
    ghost write_str_gives = { λ s bs t. (t.f.ghost_name ≡ s.f.ghost_name)
        × (IsFlush s.f.now → HasWrittenStyled W.write_str_gives s.f.now bs t.f.now) };

    fn write_str(&mut self, s: &str) -> fmt::Result {
        self.f.write_str(s)
    }
}

/// Writes the value as `{}` does, whatever options the formatter has.
pub fn write_plain<D: Display + Drop, W: fmt::Write>(
    value: D,
    f: &mut fmt::Formatter<W>,
) -> fmt::Result
    ensures { DisplaysStyledOnOk W.write_str_gives f.old result (D.output value) f.new }
{
    let mut plain = fmt::Formatter::new(Plain { f });
    let result = plain.write(value);
    let Plain { f } = plain.into_inner();
    // No effect at run time. The proof reads what `f` holds from this use.
    let _ = &*f;
    result
}
