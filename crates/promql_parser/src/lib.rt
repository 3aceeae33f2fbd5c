//! Reads PromQL into a tree, and prints the tree again. docs/reference/grammar.md has the rules.
//!
//! ```
//! let expr = promql_parser::parser::parse(rt.alloc(), "1-(foo-2)")?;
//! assert_eq!(rt; format!(in rt.alloc(); "{expr}")?.as_str(), "1 - (foo - 2)");
//! ```
#![tactic(auto)]

pub mod json;
pub mod label;
pub mod parser;
pub mod util;

pub use promql_syntax::laws;
