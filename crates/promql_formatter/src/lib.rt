//! A formatter for people: a query over several lines, with its comments. docs/reference/formatting.md has the rules.
//!
//! ```text
//! let options = FormatOptions::new();
//! let text = format_query(alloc, "sum(rate(foo[5m])) by(job) # per job", &options)?;
//! // sum by (job) (rate(foo[5m])) # per job
//! ```
#![tactic(auto)]

mod chains;
mod comments;
mod fits;
pub mod format;
pub mod format_error;
mod items;
mod layout;
pub mod options;
mod piece;
mod reading;
mod reorder;
mod spelling;
mod structure;
mod writer;

pub use format::{format_query, format_tree};
pub use format_error::FormatError;
pub use options::FormatOptions;
