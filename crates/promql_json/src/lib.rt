//! The JSON form of a tree as a text: docs/reference/json.md. `promql_walk` makes a value of it, and
//! `promql_from_json` a tree of its form.
#![tactic(auto)]

pub use error::JsonError;
pub use nodes::json_text;
pub use values::{is_without, offset_millis, type_name};

mod check;
pub mod error;
pub mod laws;
mod nodes;
mod parts;
pub mod values;
mod writer;
