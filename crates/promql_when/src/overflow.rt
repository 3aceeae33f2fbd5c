//! Why a query has no windows: docs/reference/when.md, "Windows".

use promql_ast::{Call, MatrixSelector, SubqueryExpr, VectorSelector};
use std::alloc::{AllocError, AllocFailed};
use std::fmt;
use thiserror::Error;

/// A node that has a window.
#[derive(Clone, Copy, Debug, Drop)]
pub enum TimedNode<'a> {
    /// A selector without a range.
    Vector(&'a VectorSelector),
    /// A selector with a range.
    Matrix(&'a MatrixSelector),
    /// A subquery.
    Subquery(&'a SubqueryExpr),
    /// A call of `info` without a second argument, which reads `target_info`.
    Info(&'a Call),
}

impl fmt::Display for TimedNode<'_> {
    fn fmt<W: fmt::Write>(&self, f: &mut fmt::Formatter<W>) -> fmt::Result {
        match self {
            TimedNode::Vector(node) => node.fmt(f),
            TimedNode::Matrix(node) => node.fmt(f),
            TimedNode::Subquery(node) => node.fmt(f),
            TimedNode::Info(node) => node.fmt(f),
        }
    }
}

/// Why a query has no windows.
#[derive(Debug, Drop, Error)]
pub enum WindowsError<'a> {
    /// The first node, in the order of a walk, whose window 64 bits do not hold: that of a selector, or that in which the times of a
    /// subquery lie.
    #[error("a time of `{0}` is below -2^63 or above 2^63 - 1 milliseconds")]
    TimeOverflow(TimedNode<'a>),
    /// An allocation failed.
    #[error("out of memory")]
    Memory,
}

impl From<AllocError> for WindowsError<'_> {
    ghost use Rattle.std.specs.Prelude.{◌≡◌};
    ghost use Rattle.promql_when.specs.declared.overflow.WindowsError.TheVariants.{Memory};

    ghost from_gives = { λ _ e. e ≡ Memory };

    fn from(_e: AllocError) -> Self {
        WindowsError::Memory
    }
}

impl<T: Drop> From<AllocFailed<T>> for WindowsError<'_> {
    ghost use Rattle.std.specs.Prelude.{◌≡◌};
    ghost use Rattle.promql_when.specs.declared.overflow.WindowsError.TheVariants.{Memory};

    ghost from_gives = { λ _ e. e ≡ Memory };

    fn from(_e: AllocFailed<T>) -> Self {
        WindowsError::Memory
    }
}
