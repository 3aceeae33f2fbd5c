//! The form in JSON of a tree and its parts: docs/reference/json.md.

pub use promql_walk::{
    JsonError, ToJson, json_text, labels_json, match_op_json, matcher_json, matchers_json,
    token_type_json,
};
