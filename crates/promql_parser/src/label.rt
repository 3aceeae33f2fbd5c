//! Labels and label matchers.

pub use promql_label::{
    ALERT_NAME, BUCKET_LABEL, INSTANCE_NAME, Label, Labels, METRIC_NAME, MatchOp, Matcher,
    MatcherError, Matchers, Pattern, PatternFault, escape_repeats,
};
