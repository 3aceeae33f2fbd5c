//! The times of a query, and windows of samples: docs/reference/when.md, "Times" and "Windows".

/// The times at which a query is evaluated, and how far an engine looks back. All are in milliseconds, since the epoch where they are
/// moments.
#[derive(Clone, Copy, Debug, PartialEq, Eq)]
pub struct Times {
    /// The first time: that of `@ start()`.
    pub start: i64,
    /// The time after which there is none: that of `@ end()`. An instant query has one time, which is `start` and `end`.
    pub end: i64,
    /// From one time to the next. 0 counts as 1, so that each millisecond is a time.
    pub step: u64,
    /// How far back from a time an instant selector takes a sample: 300,000 in Prometheus, unless an option says otherwise.
    pub lookback: u64,
    /// The step of a subquery without one: the evaluation interval of Prometheus, 60,000 unless it is set otherwise.
    pub default_step: u64,
    /// Whether a sample at the very beginning of a window is left out, as in Prometheus 3. In Prometheus 2 it is read.
    pub is_left_open: bool,
}

/// The samples from one millisecond up to another, both included.
#[derive(Clone, Copy, Debug, PartialEq, Eq)]
pub struct Window {
    /// The first millisecond.
    pub first: i64,
    /// The last millisecond.
    pub last: i64,
}
