//! Numbers and their texts.

pub use promql_text::{Decimal, Number, NumberFault, parse_str_radix};
