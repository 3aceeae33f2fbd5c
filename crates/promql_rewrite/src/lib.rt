//! Queries that tools change and still can trust: a matcher in every selector, other names, texts that mean the tree they
//! were printed of, and what a query names. The rules are in docs/guide/rewriting.md.
//!
//! ```text
//! let tenant = Matcher::new(alloc, MatchOp::Equal, "namespace", "team-a")?;
//! let query = enforce_query(alloc, "sum(rate(http_requests_total[5m]))", &tenant)?;
//! // sum(rate(http_requests_total{namespace="team-a"}[5m]))
//! ```
#![tactic(auto)]

pub use collecting::{Collected, CollectedSelector, collect};
pub use enforcing::{EnforceError, enforce, enforce_query};
pub use enforcing_within::{EnforceWithinError, Enforced, enforce_text_within};
pub use faithful::{NotFaithful, check_meaning, faithful_line, faithful_pretty};
pub use mapping::{SelectorKind, SelectorMapper, map_selectors};
pub use matcher_text::{EnforceTextError, MatcherError, enforce_text, read_matcher};
pub use parenthesizing::parenthesized;
pub use printable::{NotPrintable, is_printable, why_not_printable};
pub use renaming::{RenameLabelError, RenameMetricError, rename_label, rename_metric};

mod bare_info;
mod changing;
mod clashing;
pub mod collecting;
mod enforced_len;
pub mod enforcing;
pub mod enforcing_within;
pub mod faithful;
pub mod laws;
pub mod mapping;
pub mod matcher_text;
pub mod parenthesizing;
mod patterns;
pub mod printable;
mod reasons;
pub mod renaming;
mod some_node;
