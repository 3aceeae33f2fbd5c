//! Lists that print with a separator between each two items (docs/reference/texts.md, "Lists"). Nothing is
//! allocated.
//!
//! A printer calls `write_joined` where the items print as they are to, and cites its clause with
//! the text of an item: `c.write_joined.ensures.styled text_of (λ item options. refl)`. Else it calls
//! `write_joined_by` with a function or a closure whose clause says what it writes of an item, and
//! cites that clause: `c.write_joined_by.ensures.styled text_of (λ _ _ _ _ writes. writes)`.
//! `writes_at_plain` of `proofs/AllOptions` takes what holds under all options to a formatter without any.
//!
//! A recursive printer writes the loop itself, since a call through a type parameter has no proof
//! in a cycle of calls:
//!
//! ```text
//! for (i, item) in items.iter().enumerate() {
//!     write_separator(", ", i, f)?;
//!     item.fmt(f)?;
//! }
//! ```
//!
//! The loop's invariant says that `join_by text separator (take i items)` has been written. The
//! lemmas of `proofs/Joins` carry it: `join_next` for one more item, `join_end` and `join_end_of`
//! at the end.

ghost use Rattle.std.specs.Prelude.{◌≡◌, ◌==◌, if◌then◌else◌, [], Some, map};
ghost use Rattle.std.specs.Fmt.{DisplaysOnOk, DisplaysStyledOnOk, WritesOnOk, WritesStyledOnOk, formatter_spec};
ghost use Rattle.promql_text.specs.Texts.{Text, joined_text};

use std::fmt;
use std::fmt::Display;

/// Writes what comes before the item at the index `at`: the separator, or nothing before the first
/// item.
pub fn write_separator<W: fmt::Write>(
    separator: &str,
    at: usize,
    f: &mut fmt::Formatter<W>,
) -> fmt::Result
    ensures { WritesStyledOnOk W.write_str_gives f.old result
        (if at == 0 then [] else separator.now) f.new }
{
    if at == 0 {
        Ok(())
    } else {
        f.write_str(separator)
    }
}

/// Writes the items in order, as they print, with the separator between each two.
pub fn write_joined<T: Display, W: fmt::Write>(
    items: &[T],
    separator: &str,
    f: &mut fmt::Formatter<W>,
) -> fmt::Result
    ensures writes { (text : T → Text) → ((item : T) → T.output item ≡ Some (text item))
        → WritesOnOk W.write_str_gives f.old result
        (joined_text separator.now (map text items.now)) f.new }
    ensures styled { (text : T → Text)
        → ((item : T) (options : _) → T.styled_output item options ≡ Some (text item))
        → WritesStyledOnOk W.write_str_gives f.old result
        (joined_text separator.now (map text items.now)) f.new }
{
    let write = |item: &T, f: &mut fmt::Formatter<W>| -> fmt::Result
        ensures writes { DisplaysOnOk W.write_str_gives f.old result (T.output item.now) f.new }
        ensures styled { DisplaysStyledOnOk W.write_str_gives f.old result
            (T.styled_output item.now (formatter_spec f.old)) f.new }
    { item.fmt(f) };
    write_joined_by(items, separator, f, write)
}

/// Writes the items in order, each as `write` does, with the separator between each two.
pub fn write_joined_by<T, W: fmt::Write, F: Fn(&T, &mut fmt::Formatter<W>) -> fmt::Result>(
    items: &[T],
    separator: &str,
    f: &mut fmt::Formatter<W>,
    write: F,
) -> fmt::Result
    requires { F.IsAlwaysCallable write }
    ensures writes { (text : T → Text)
        → ((item : _) (old : _) (r : _) (new : _) → F.post write item old r new
        → WritesOnOk W.write_str_gives old.now r (text item.now) new.now)
        → WritesOnOk W.write_str_gives f.old result
        (joined_text separator.now (map text items.now)) f.new }
    ensures styled { (text : T → Text)
        → ((item : _) (old : _) (r : _) (new : _) → F.post write item old r new
        → WritesStyledOnOk W.write_str_gives old.now r (text item.now) new.now)
        → WritesStyledOnOk W.write_str_gives f.old result
        (joined_text separator.now (map text items.now)) f.new }
{
    for (i, item) in items.iter().enumerate() {
        write_separator(separator, i, f)?;
        write(item, f)?;
    }
    Ok(())
}
