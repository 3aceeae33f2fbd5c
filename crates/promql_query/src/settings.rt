//! What holds for all lines of a batch.

use promql_run::format::Format;
use promql_span::limits::Limits;

/// What holds for all lines of a batch.
#[derive(Clone, Copy, PartialEq, Eq, Debug)]
pub struct Settings {
    /// How a query is printed whose line does not say it.
    pub format: Format,
    /// What each query has to be within.
    pub limits: Limits,
}
