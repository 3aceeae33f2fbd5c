//! In which modes a query is printed, and what else is told of it: docs/reference/programs.md, "Requests".

use promql_run::format::Format;
use promql_when::Times;

/// How a query is printed.
#[derive(Clone, Copy, PartialEq, Eq, Debug)]
pub enum Mode {
    /// In a format.
    Plain(Format),
    /// As its JSON form with the places of nodes and matchers.
    Placed,
}

/// What is asked about a query.
#[derive(Clone, Copy, PartialEq, Eq, Debug)]
pub enum Wanted {
    /// Its text in a mode.
    Print(Mode),
    /// When it reads, at these times.
    Times(Times),
}
