//! Durations and their texts.

pub use promql_text::{
    DurationFault, DurationText, day_duration, display_duration, hour_duration, milli_duration,
    minute_duration, parse_duration, second_duration, week_duration, year_duration,
};
