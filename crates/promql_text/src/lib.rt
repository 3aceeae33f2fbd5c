//! Texts of a query: quoted strings, numbers and durations. The rules are in docs/reference/texts.md.
//!
//! ```text
//! let number = parse_str_radix("1.50")?; // exactly 1.5, and no floating-point value
//! let text = number.to_string(alloc)?; // 1.5
//! let timeout = parse_duration("1h30m")?; // 5400 seconds
//! let text = display_duration(alloc, &timeout)?; // 1h30m
//! let name = unquote_string(alloc, "'a\\tb'")?; // a, a tab, b
//! let quoted = Quoted(name.as_str()).to_string(alloc)?; // "a\tb"
//! ```
#![tactic(auto)]

mod decimal;
mod decimal_form;
mod display;
pub mod duration;
pub mod duration_text;
pub mod joined;
pub mod laws;
mod millis;
mod number;
mod number_text;
mod packed_u128;
pub mod printed_len;
pub mod quote;
pub mod quoted;
mod seconds;
mod significand;
pub mod without_options;

pub use decimal::Decimal;
pub use duration::{
    DurationFault, day_duration, hour_duration, milli_duration, minute_duration, parse_duration,
    second_duration, week_duration, year_duration,
};
pub use duration_text::{DurationText, display_duration};
pub use joined::{write_joined, write_joined_by, write_separator};
pub use number::{Number, NumberFault};
pub use number_text::parse_str_radix;
pub use printed_len::{
    duration_printed_len, number_printed_len, quoted_printed_len, separator_printed_len,
};
pub use quote::{QuoteError, escape_string, unquote_string};
pub use quoted::{Quoted, QuotedBytes};
pub use without_options::write_plain;
