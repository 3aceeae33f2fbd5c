//! The tree of a JSON form: docs/reference/json.md, "From JSON to a tree". `promql_json` has the text of a form.
#![tactic(auto)]

pub use from_error::{Expected, FromJsonError, Misfit};
pub use measure::form_measure;
pub use read_nodes::{from_json, from_json_text};

mod fields;
pub mod from_error;
pub mod laws;
mod measure;
mod read_labels;
mod read_modifiers;
mod read_nodes;
mod read_selectors;
mod read_values;
