//! Why a tree has no JSON form: docs/reference/json.md, "What has no form".

pub use promql_json::JsonError;
