//! Labels and label matchers: lists of labels, patterns, matchers and their or-groups. The rules
//! are in docs/reference/matchers.md.
//!
//! ```text
//! let job = Matcher::new(alloc, MatchOp::Equal, "job", "api")?;
//! let env = MatchOp::Re(Pattern::read(alloc, "prod|staging")?);
//! let env = Matcher::new(alloc, env, "env", "prod|staging")?;
//! let is_prod = env.is_match(alloc, "prod")?; // true
//! let both = Matchers::one(alloc, job)?.append(env)?;
//! let text = both.to_string(alloc)?; // env=~"prod|staging",job="api"
//! ```
#![tactic(auto)]

pub use labels::{Label, Labels};
pub use matcher::{MatchOp, Matcher, MatcherError};
pub use matchers::Matchers;
pub use measure::pattern_measure;
pub use pattern::{Pattern, PatternFault};
pub use repeats::escape_repeats;

mod common_labels;
mod empty_text;
pub mod labels;
pub mod laws;
pub mod matcher;
pub mod matchers;
mod measure;
pub mod pattern;
mod plain;
mod printed_len;
pub mod repeats;
mod sorted;

/// The label that holds a metric's name.
pub const METRIC_NAME: &str = "__name__";
/// The label that holds an alert's name.
pub const ALERT_NAME: &str = "alertname";
/// The label that holds the upper bound of a histogram's bucket.
pub const BUCKET_LABEL: &str = "le";
/// The label that holds the instance that was scraped.
pub const INSTANCE_NAME: &str = "instance";
