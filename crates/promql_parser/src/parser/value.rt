//! The types of values.

pub use promql_kind::{Value, ValueType};
