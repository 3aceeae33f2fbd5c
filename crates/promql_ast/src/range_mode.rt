//! Range modes: docs/reference/tree.md, "Range modes".

ghost use Rattle.std.specs.Prelude.{◌≡◌};
ghost use Rattle.std.specs.Fmt.{WritesStyledOnOk};
ghost use Rattle.promql_ast.specs.Same.{mode_eq};
ghost use Rattle.promql_ast.specs.node.Matrix.{mode_text};
ghost use Rattle.promql_text.specs.PrintedLen.{printed_len};

use std::fmt;

/// How samples are taken at the ends of a matrix selector's range.
#[derive(Clone, Copy, Debug, PartialEq, Eq, Hash)]
pub enum RangeMode {
    /// As they are.
    Plain,
    /// `smoothed`.
    Smoothed,
    /// `anchored`.
    Anchored,
}

impl Default for RangeMode {
    ghost use Rattle.std.specs.Prelude.{◌≡◌};
    ghost use Rattle.promql_ast.specs.declared.range_mode.RangeMode.TheVariants.{Plain};

    ghost is_default = { λ mode. mode ≡ Plain };

    fn default() -> RangeMode {
        RangeMode::Plain
    }
}

/// Writes the mode's word with a space before it; nothing for `Plain`.
pub(crate) fn write_mode<W: fmt::Write>(mode: RangeMode, f: &mut fmt::Formatter<W>) -> fmt::Result
    ensures { WritesStyledOnOk W.write_str_gives f.old result (mode_text mode) f.new }
{
    match mode {
        RangeMode::Plain => Ok(()),
        RangeMode::Smoothed => f.write_str(" smoothed"),
        RangeMode::Anchored => f.write_str(" anchored"),
    }
}

pub(crate) fn is_same_mode(a: RangeMode, b: RangeMode) -> bool
    ensures { result ≡ mode_eq a b }
{
    a == b
}

/// The bytes of the mode's word with a space before it.
pub(crate) fn mode_len(mode: RangeMode) -> usize
    ensures { result ≡ printed_len (mode_text mode) }
{
    match mode {
        RangeMode::Plain => 0,
        RangeMode::Smoothed => 9,
        RangeMode::Anchored => 9,
    }
}
