//! Walks over a query's tree, and its form in JSON.
//! The rules are in docs/reference/walks.md and docs/reference/json.md.
#![tactic(auto)]

pub use json_nodes::members_without_nodes;
pub use json_parts::{labels_json, match_op_json, matcher_json, matchers_json, token_type_json};
pub use promql_json::{JsonError, json_text};
pub use to_json::ToJson;
pub use visitor::{ExprVisitor, walk_expr};
pub use visitor_mut::{ExprVisitorMut, walk_expr_mut};

pub mod json_error;
mod json_nodes;
mod json_parts;
pub mod laws;
mod to_json;
pub mod visitor;
pub mod visitor_mut;
