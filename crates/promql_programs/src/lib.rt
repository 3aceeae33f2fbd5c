//! What the program `promql` does with its arguments, its input and its outputs: docs/reference/programs.md has the rules.
#![tactic(auto)]

pub mod batch_job;
pub mod check;
pub mod check_settings;
pub mod enforce_task;
pub mod format_settings;
pub mod format_task;
pub mod job;
pub mod limit_options;
pub mod misuse;
pub mod print_task;
pub mod program;
mod query_layout;
pub mod reports;
pub mod source;
pub mod task;
pub mod usage;
pub mod words;
