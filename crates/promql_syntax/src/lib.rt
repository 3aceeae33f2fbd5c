//! Reads PromQL into a tree (docs/reference/grammar.md). `promql_parser` passes its names on.
#![tactic(auto)]

pub mod grammar;
pub mod laws;
pub mod parser;
