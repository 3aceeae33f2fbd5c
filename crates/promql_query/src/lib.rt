//! What is done with a query that is given as its text: why and where it is rejected, its line, the line with a matcher in its selectors
//! or with another name, its layout, its forms and its times; and the same for many queries in one run. docs/reference/programs.md has the
//! rules.
#![tactic(auto)]

pub mod answer_text;
pub mod batch;
pub mod enforced_line;
pub mod findings;
pub mod finite_json;
pub mod formatted_query;
pub mod labels_fault;
mod limit_checks;
pub mod line;
mod line_within;
pub mod matcher_reason;
pub mod mode;
pub mod output;
pub mod placed_text;
pub mod query_error;
pub mod query_tree;
mod quoted_query;
pub mod read_form;
pub mod rejected_query;
pub mod rejection;
pub mod renamed_line;
pub mod request;
pub mod request_fault;
mod request_id;
mod request_times;
pub mod selector_places;
pub mod settings;
mod times_text;
pub mod tree_text;
pub mod windows_text;
