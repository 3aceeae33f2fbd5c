//! How many bytes a value displays, up to the greatest `usize`.

ghost use Rattle.std.specs.Prelude.{◌≡◌, ◌+◌, length, IfSome, IfOk, IsTrue};
ghost use Rattle.promql_ast.specs.Lines.{is_longer};
ghost use Rattle.promql_text.specs.PrintedLen.{cap_usize, printed_len};

use std::fmt;
use std::fmt::{Display, Write};

/// Counts the bytes that it is given, up to the greatest `usize`.
#[derive(Drop)]
struct Count {
    bytes: usize,
}

impl fmt::Write for Count {
    ghost write_str_gives = { λ s bs t. t.bytes ≡ cap_usize (s.bytes + length bs) };

    fn write_str(&mut self, s: &str) -> fmt::Result {
        self.bytes = self.bytes.saturating_add(s.len());
        Ok(())
    }
}

/// The bytes of what the value displays.
fn displayed_len<T: Display>(value: &T) -> Result<usize, fmt::Error>
    ensures { IfSome (T.output value.now) (λ t. IfOk result (λ n. n ≡ printed_len t)) }
{
    let mut count = Count { bytes: 0 };
    count.write(value)?;
    Ok(count.bytes)
}

/// Whether the value displays more bytes than `max`.
pub fn is_too_long<T: Display>(value: &T, max: usize) -> bool
    ensures { IfSome (T.output value.now) (λ t. IsTrue result → IsTrue (is_longer max t)) }
{
    match displayed_len(value) {
        Ok(len) => max < len,
        Err(_) => false,
    }
}
