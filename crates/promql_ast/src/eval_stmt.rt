//! A query and the times at which it is evaluated: docs/reference/tree.md, "Statements".

ghost use Rattle.std.specs.Prelude.{◌≡◌, Some, IfOk};
ghost use Rattle.std.specs.Duration.{as_nanos};
ghost use Rattle.promql_ast.specs.Statement.{statement_text};
ghost use Rattle.promql_ast.specs.View.{tree_of};

use crate::at_modifier::Seconds;
use crate::expr::Expr;
use promql_text::{DurationText, write_plain};
use std::alloc::{AllocError, Global};
use std::fmt;
use std::fmt::Display;
use std::time::Duration;

/// A query and the times at which it is evaluated.
#[derive(Debug, Drop)]
pub struct EvalStmt {
    /// The query.
    pub expr: Expr,
    /// The first time, in milliseconds since the epoch; below zero before it.
    pub start: i64,
    /// The last time, in milliseconds since the epoch.
    pub end: i64,
    /// The time from one evaluation to the next.
    pub interval: Duration,
    /// How far back from its time an evaluation looks for samples.
    pub lookback_delta: Duration,
}

impl EvalStmt {
    /// A copy of the statement.
    ///
    /// # Errors
    ///
    /// `AllocError` where an allocation failed.
    pub fn try_clone(&self, alloc: Global) -> Result<EvalStmt, AllocError>
        ensures expr { IfOk result (λ s. tree_of s.expr ≡ tree_of self.now.expr) }
        ensures start { IfOk result (λ s. s.start ≡ self.now.start) }
        ensures end { IfOk result (λ s. s.end ≡ self.now.end) }
        ensures interval { IfOk result (λ s. s.interval ≡ self.now.interval) }
        ensures lookback { IfOk result (λ s. s.lookback_delta ≡ self.now.lookback_delta) }
    {
        Ok(EvalStmt {
            expr: self.expr.try_clone(alloc)?,
            start: self.start,
            end: self.end,
            interval: self.interval,
            lookback_delta: self.lookback_delta,
        })
    }
}

impl fmt::Display for EvalStmt {
    ghost output = { λ s. Some (statement_text (tree_of s.expr) s.start s.end
        (as_nanos s.interval) (as_nanos s.lookback_delta)) };

    ghost styled_output = { λ s _. Some (statement_text (tree_of s.expr) s.start s.end
        (as_nanos s.interval) (as_nanos s.lookback_delta)) };

    fn fmt<W: fmt::Write>(&self, f: &mut fmt::Formatter<W>) -> fmt::Result {
        let expr = &self.expr;
        let start = Seconds(self.start);
        let end = Seconds(self.end);
        let interval = DurationText(&self.interval);
        let lookback = DurationText(&self.lookback_delta);
        write_plain(
            format_args!("[{expr}] @ [{start}, {end}, {interval}, {lookback}]"),
            f,
        )
    }
}
