//! The text of a duration: docs/reference/texts.md, "The text of a duration".

ghost use Rattle.std.specs.Prelude.{◌≡◌, ◌/◌, ◌%◌, ◌<◌, ◌^◌, IfOk, Some};
ghost use Rattle.std.specs.Duration.{as_nanos};
ghost use Rattle.std.specs.String.{string_bytes};
ghost use Rattle.promql_text.specs.Durations.{nanos_of};
ghost use Rattle.promql_text.specs.DurationReaders.{short_units};
ghost use Rattle.promql_text.specs.DurationText as spec;

use crate::duration::Unit;
use crate::without_options::write_plain;
use std::alloc::{AllocError, Global};
use std::fmt;
use std::time::Duration;

/// A count of a unit, which prints nothing where it is zero.
#[derive(Clone, Copy)]
struct Count {
    count: u128,
    unit: Unit,
}

impl fmt::Display for Count {
    ghost output = { λ c. Some (spec.count_text c.count c.unit) };

    fn fmt<W: fmt::Write>(&self, f: &mut fmt::Formatter<W>) -> fmt::Result {
        let count = self.count;
        let word = self.unit.word();
        if count == 0 {
            Ok(())
        } else {
            write!(f, "{count}{word}")
        }
    }
}

/// Nanoseconds after a point, below a second, without zeros at the end.
#[derive(Clone, Copy)]
struct Fraction {
    nanos: u32,
    ghost in_range: { nanos < 10 ^ 9 },
}

impl fmt::Display for Fraction {
    ghost output = { λ r. Some (spec.fraction_text 9 r.nanos) };

    fn fmt<W: fmt::Write>(&self, f: &mut fmt::Formatter<W>) -> fmt::Result {
        let mut rest = self.nanos;
        for place in 0..9u32 {
            if rest == 0 {
                return Ok(());
            }
            let unit = 10u32.pow(8 - place);
            let digit = rest / unit;
            write!(f, "{digit}")?;
            rest %= unit;
        }
        Ok(())
    }
}

/// Nanoseconds in days, hours, minutes, seconds and milliseconds.
#[derive(Clone, Copy)]
struct Counts(u128);

impl fmt::Display for Counts {
    ghost output = { λ n. Some (spec.counts_text short_units n.0) };

    fn fmt<W: fmt::Write>(&self, f: &mut fmt::Formatter<W>) -> fmt::Result {
        let (days, rest) = divide_by_unit(self.0, Unit::Day);
        let (hours, rest) = divide_by_unit(rest, Unit::Hour);
        let (minutes, rest) = divide_by_unit(rest, Unit::Minute);
        let (seconds, rest) = divide_by_unit(rest, Unit::Second);
        let (millis, _) = divide_by_unit(rest, Unit::Milli);
        write!(f, "{days}{hours}{minutes}{seconds}{millis}")
    }
}

/// How many whole units there are, and the rest.
fn divide_by_unit(nanos: u128, unit: Unit) -> (Count, u128)
    ensures count { result.0 ≡ record { count = nanos / nanos_of unit; unit = unit } }
    ensures rest { result.1 ≡ nanos % nanos_of unit }
{
    let size = u128::from(unit.nanos());
    let count = nanos / size;
    (Count { count, unit }, nanos % size)
}

/// Whole milliseconds, in nanoseconds.
#[derive(Clone, Copy)]
struct Whole(u128);

impl fmt::Display for Whole {
    ghost output = { λ n. Some (spec.whole_text n.0) };

    fn fmt<W: fmt::Write>(&self, f: &mut fmt::Formatter<W>) -> fmt::Result {
        let (years, past_years) = divide_by_unit(self.0, Unit::Year);
        let (weeks, past_weeks) = divide_by_unit(self.0, Unit::Week);
        if past_years == 0 {
            write!(f, "{years}")
        } else if past_weeks == 0 {
            write!(f, "{weeks}")
        } else {
            let counts = Counts(self.0);
            write!(f, "{counts}")
        }
    }
}

/// A duration that prints as its text, which `parse_duration` reads back where it is above zero.
#[derive(Clone, Copy)]
pub struct DurationText<'a>(pub &'a Duration);

impl fmt::Display for DurationText<'_> {
    ghost output = { λ d. Some (spec.duration_text (as_nanos d.0.now)) };

    ghost styled_output = { λ d _. Some (spec.duration_text (as_nanos d.0.now)) };

    #[tactic(auto, unfolding(crate::specs::DurationText::duration_text))]
    fn fmt<W: fmt::Write>(&self, f: &mut fmt::Formatter<W>) -> fmt::Result {
        let nanos = self.0.as_nanos();
        if nanos == 0 {
            f.write_str("0s")
        } else if nanos % 1_000_000 == 0 {
            write_plain(Whole(nanos), f)
        } else {
            let seconds = self.0.as_secs();
            let fraction = Fraction {
                nanos: self.0.subsec_nanos(),
            };
            write_plain(format_args!("{seconds}.{fraction}"), f)
        }
    }
}

/// The text of a duration.
pub fn display_duration(alloc: Global, duration: &Duration) -> Result<String, AllocError>
    ensures { IfOk result (λ t. string_bytes t ≡ spec.duration_text (as_nanos duration.now)) }
{
    DurationText(duration).to_string(alloc)
}
