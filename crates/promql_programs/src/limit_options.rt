//! The options that change the limits of queries: docs/reference/programs.md, "Limits of a query".

ghost use Rattle.std.specs.Prelude.{◌≡◌, map, string_bytes};
ghost use Rattle.promql_programs.specs.LimitOptions as spec;

use promql_span::limits::{Limits, MAX_LEN, MAX_OUTPUT, MAX_PATTERN_SIZE};
use promql_span::{Printed, Target};

/// The limits where no option changes them.
pub fn default_limits() -> Limits
    ensures { result ≡ spec.default_limits }
{
    Limits {
        max_len: MAX_LEN,
        max_pattern_size: MAX_PATTERN_SIZE,
        max_output: MAX_OUTPUT,
        target: Target::Prometheus3,
        printed: Printed::Tree,
    }
}

/// These limits as options change them, `--max-len N`, `--max-patterns N`, `--max-output N` and `--target NAME`, the last of one name;
/// `None` where the words are no such options.
pub fn limits_with(limits: Limits, words: &[String]) -> Option<Limits>
    ensures { result ≡ spec.limits_with limits (map string_bytes words.now) }
{
    let mut changed = limits;
    let mut rest = words;
    while let [name, value, after @ ..] = rest {
        changed = with_option(changed, name.as_str(), value.as_str())?;
        rest = after;
    }
    if rest.is_empty() { Some(changed) } else { None }
}

/// The limits as one option changes them; `None` where there is no option of this name, or none with this value.
fn with_option(limits: Limits, name: &str, value: &str) -> Option<Limits>
    ensures { result ≡ spec.with_option limits name.now value.now }
{
    if name == "--target" {
        let target = Target::from_name(value)?;
        Some(Limits { target, ..limits })
    } else {
        with_number(limits, name, number_in(value)?)
    }
}

/// The limits as one option with a number changes them; `None` where there is no option of this name.
fn with_number(limits: Limits, name: &str, number: usize) -> Option<Limits>
    ensures { result ≡ spec.with_number limits name.now number }
{
    match name {
        "--max-len" => Some(Limits {
            max_len: number,
            ..limits
        }),
        "--max-patterns" => Some(Limits {
            max_pattern_size: number,
            ..limits
        }),
        "--max-output" => Some(Limits {
            max_output: number,
            ..limits
        }),
        _ => None,
    }
}

/// The number that a word is.
pub(crate) fn number_in(word: &str) -> Option<usize>
    ensures { result ≡ spec.number_in word.now }
{
    word.parse::<usize>().ok()
}
